// Reads the files that a bind needs, one after the other.
ghost use Rattle.std.specs.Prelude.{◌≡◌, map, sum_by, IfOk, IfErr, OnOk};
ghost use Rattle.sector_disk.specs.Disk.{AreCallsExactly};
ghost use Rattle.scope.specs.LoadOrder.{available, load_order, missing};
ghost use Rattle.requests.specs.Binding.{object_of, objects, preload_numbers};
ghost use Rattle.states.specs.State.{State};
ghost use Rattle.store.specs.Opened.{IsAt};
ghost use Rattle.registry.specs.Binding.{data_sectors};
ghost use Rattle.registry.specs.Untested.{ReadsLibraries};
ghost use Rattle.store.specs.IsRead.{IsRead};
ghost use Rattle.registry.specs.inside.Reading.{IsReadRefusal};

use crate::source::{Files, Source};
use crate::walk::Walk;
use hash_check::Admitted;
use sector_disk::Disk;
use std::alloc::Global;
use store::{Store, StoreRefusal};

/// Reads the installed files that a program needs, in load order: first the preloads, and then,
/// level by level, the files that the program and the preloads need. Reads each of these files
/// once, and no other file. Admits each file before it reads the next one.
pub(crate) fn read_needed<D: Disk>(
    alloc: Global,
    store: &mut Store<D>,
    program: &Admitted<'_>,
) -> Result<Walk, StoreRefusal>
    ensures read { IsRead D.facts store.old store.new }

    // The program and the files that were read form the load order, and the walk has the first
    // needed name that no file has.
    ensures ok { (s : State) → IsAt D.facts store.old s → IfOk result (λ walk.
        load_order program.now (objects s) (preload_numbers s)
        ≡ available program.now (map object_of walk.files.items)) }
    ensures missing { (s : State) → IsAt D.facts store.old s → IfOk result (λ walk.
        missing program.now (objects s) (preload_numbers s) ≡ walk.needs.missing) }

    // If the walk ends, each file that was read is a library. S5 means that a file isn't a library.
    ensures libraries { (s : State) → IsAt D.facts store.old s
        → OnOk result (ReadsLibraries s program.now) }
    ensures damaged { (s : State) → IsAt D.facts store.old s
        → IfErr result (λ e. e ≡ StoreRefusal.Damaged → ReadsLibraries s program.now → ⊥) }
    ensures refusals { IfErr result (IsReadRefusal D.facts store.old store.new) }
    ensures all_calls { IfOk result (λ walk. AreCallsExactly
        (sum_by (λ file. data_sectors file.bytes) walk.files.items)
        (D.facts store.old.disk) (D.facts store.new.disk)) }
{
    // No two files have the same name.
    store.entries_are_sound();
    let source = Source::Current;
    let mut walk = Walk::start(alloc, &Files { store, source }, program)?;
    while walk.has_next() {
        walk.step(alloc, store, source)?;
    }
    Ok(walk)
}
