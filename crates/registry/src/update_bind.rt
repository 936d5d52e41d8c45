// Binds a program with the draft of an update.
ghost use Rattle.std.specs.Prelude.{◌≡◌, ◌<◌, IfErr, IfOk, OnOk, length, map, slice_index_or};
ghost use Rattle.scope.specs.LoadOrder.{available, load_order, missing};
ghost use Rattle.states.specs.State.{State};
ghost use Rattle.store.specs.Draft.{IsDraftedAt};
ghost use Rattle.store.specs.Stands.{no_library};
ghost use Rattle.requests.specs.Binding.{object_of, objects, preload_numbers};
ghost use Rattle.requests.specs.Library.{IsLibrary};
ghost use Rattle.registry.specs.Binding.{bind_sectors, data_sectors};
ghost use Rattle.registry.specs.Untested.{ReadsLibraries};
ghost use Rattle.registry.specs.inside.Drafting.{IsDraftReadRefusal, ReadsBeside};
ghost use Rattle.sector_disk.specs.Disk.{AreCallsAtMost, AreCallsExactly};

use crate::bind::refusal_of_read;
use crate::bound::bind_found;
use crate::library_file::LibraryFile;
use crate::update::Update;
use crate::walk::Walk;
use hash_check::Admitted;
use image::{Image, admit_program};
use requests::{Refusal, Reply};
use sector_disk::Disk;
use std::alloc::Global;
use store::StoreRefusal;

/// Reads each sector of the file at `position` of a draft once, and tests that the file is a
/// library with its entry's name.
fn read_drafted<D: Disk>(
    alloc: Global,
    draft: &mut store::Update<D>,
    position: usize,
) -> Result<LibraryFile, StoreRefusal>
    requires { position < length draft.old.entries }
    ensures read { ReadsBeside D.facts draft.old draft.new }
    ensures ok { (s d : State) → IsDraftedAt D.facts draft.old s d → IfOk result (λ file.
        file ≡ slice_index_or d.libraries position no_library) }
    ensures library { IfOk result IsLibrary }
    ensures damaged { (s d : State) → IsDraftedAt D.facts draft.old s d
        → IfErr result (λ e. e ≡ StoreRefusal.Damaged
        → IsLibrary (slice_index_or d.libraries position no_library) → ⊥) }
    ensures refusals { IfErr result (IsDraftReadRefusal D.facts draft.old draft.new) }
    ensures calls { (s d : State) → IsDraftedAt D.facts draft.old s d → AreCallsAtMost
        (data_sectors (slice_index_or d.libraries position no_library).bytes)
        (D.facts draft.old.store.disk) (D.facts draft.new.store.disk) }
    ensures all_calls { IfOk result (λ file. AreCallsExactly (data_sectors file.bytes)
        (D.facts draft.old.store.disk) (D.facts draft.new.store.disk)) }
{
    // This call states for the proof that the entry has the length of the file.
    draft.length(position);
    let bytes = draft.read_blob(alloc, position)?;
    LibraryFile::new(alloc, draft.name(position), bytes)
}

/// Reads the files of a draft that a program needs, in load order. Reads each of these files once,
/// and no other file.
fn read_needed_of<D: Disk>(
    alloc: Global,
    draft: &mut store::Update<D>,
    program: &Admitted<'_>,
) -> Result<Walk, StoreRefusal>
    ensures read { ReadsBeside D.facts draft.old draft.new }
    ensures ok { (s d : State) → IsDraftedAt D.facts draft.old s d → IfOk result (λ walk.
        load_order program.now (objects d) (preload_numbers d)
        ≡ available program.now (map object_of walk.files.items)) }
    ensures missing { (s d : State) → IsDraftedAt D.facts draft.old s d → IfOk result (λ walk.
        missing program.now (objects d) (preload_numbers d) ≡ walk.needs.missing) }
    ensures libraries { (s d : State) → IsDraftedAt D.facts draft.old s d
        → OnOk result (ReadsLibraries d program.now) }
    ensures damaged { (s d : State) → IsDraftedAt D.facts draft.old s d → IfErr result (λ e.
        e ≡ StoreRefusal.Damaged → ReadsLibraries d program.now → ⊥) }
    ensures refusals { IfErr result (IsDraftReadRefusal D.facts draft.old draft.new) }
    ensures calls { (s d : State) → IsDraftedAt D.facts draft.old s d → AreCallsAtMost
        (bind_sectors d program.now)
        (D.facts draft.old.store.disk) (D.facts draft.new.store.disk) }
    ensures all_calls { (s d : State) → IsDraftedAt D.facts draft.old s d → OnOk result
        (AreCallsExactly (bind_sectors d program.now)
        (D.facts draft.old.store.disk) (D.facts draft.new.store.disk)) }
{
    // No two files have the same name.
    draft.entries_are_sound();
    let mut walk = Walk::start(alloc, draft, program)?;
    while walk.has_next() {
        let file = read_drafted(alloc, draft, walk.next_position())?;
        walk.take(alloc, draft, file)?;
    }
    Ok(walk)
}

impl<D: Disk> Update<D> {
    ghost use Rattle.std.specs.Prelude.{◌≡◌, ◌≢◌, ◌<◌, Err, None, IsTrue, IfErr, OnOk};
    ghost use Rattle.image.specs.Refusal.{program_refusal};
    ghost use Rattle.states.specs.State.{State};
    ghost use Rattle.store.specs.Draft.{IsDraftedAt};
    ghost use Rattle.requests.specs.Request.{bind};
    ghost use Rattle.registry.specs.Answered.{IsBindAnswer, IsBindRefusal};
    ghost use Rattle.registry.specs.Binding.{bound_answer};
    ghost use Rattle.registry.specs.Drafting.{AppliesDraft, DraftStep, IsBoundBeside};
    ghost use Rattle.registry.specs.Drafting.{draft_phase};
    ghost use Rattle.registry.specs.inside.Drafting.{ReadsBeside};

    /// Returns the image of an admitted program at `base`, or a refusal. The tests of the program
    /// without its libraries must have accepted it. If a read is refused, returns S1 (Device), S5
    /// (Damaged) or S11 (OutOfMemory), and reads no further file. Otherwise a refusal is B3
    /// (Missing), B4 (NoRoom), B5 (Undefined) or, if memory is refused, S11.
    fn bind_admitted(&mut self, program: &Admitted<'_>, base: u64) -> Result<Image, Refusal>
        requires { program_refusal program.now base ≡ None }
        ensures step { (s d : State) → IsDraftedAt D.facts self.old s d
            → DraftStep (draft_phase D.facts self.old d) (bind program.now base)
            (bound_answer result) (draft_phase D.facts self.new d) }
        ensures read { ReadsBeside D.facts self.old self.new }
        ensures refusals { IfErr result IsBindRefusal }
        ensures reopen { result ≡ Err Refusal.Reopen → IsTrue self.old.store.failed }
        ensures device { result ≡ Err Refusal.Device
            → (D.facts self.old.store.disk).failures < (D.facts self.new.store.disk).failures }
        ensures calls { (s d : State) → IsDraftedAt D.facts self.old s d → AreCallsAtMost
            (bind_sectors d program.now)
            (D.facts self.old.store.disk) (D.facts self.new.store.disk) }
        ensures all_calls { (s d : State) → IsDraftedAt D.facts self.old s d → OnOk result
            (AreCallsExactly (bind_sectors d program.now)
            (D.facts self.old.store.disk) (D.facts self.new.store.disk)) }
    {
        let walk = match read_needed_of(self.alloc, &mut self.draft, program) {
            Ok(walk) => walk,
            Err(refusal) => return Err(refusal_of_read(refusal)),
        };
        let image = bind_found(self.alloc, program, base, walk)?;
        Ok(image)
    }

    /// Returns the image of the program `file` at `base`, or the first refusal. Tests the program
    /// without its libraries before any call of the disk.
    fn image(&mut self, file: &[u8], base: u64) -> Result<Image, Refusal>
        ensures step { (s d : State) → IsDraftedAt D.facts self.old s d
            → DraftStep (draft_phase D.facts self.old d) (bind file.now base)
            (bound_answer result) (draft_phase D.facts self.new d) }
        ensures read { ReadsBeside D.facts self.old self.new }
        ensures failed { IsTrue self.old.store.failed → (result ≡ Err Refusal.Reopen)
            × (self.new ≡ self.old) }
        ensures refusals { IfErr result IsBindRefusal }
        ensures reopen { result ≡ Err Refusal.Reopen → IsTrue self.old.store.failed }
        ensures device { result ≡ Err Refusal.Device
            → (D.facts self.old.store.disk).failures < (D.facts self.new.store.disk).failures }
        ensures alone { program_refusal file.now base ≢ None → self.new ≡ self.old }
        ensures calls { (s d : State) → IsDraftedAt D.facts self.old s d → AreCallsAtMost
            (bind_sectors d file.now)
            (D.facts self.old.store.disk) (D.facts self.new.store.disk) }
        ensures all_calls { (s d : State) → IsDraftedAt D.facts self.old s d → OnOk result
            (AreCallsExactly (bind_sectors d file.now)
            (D.facts self.old.store.disk) (D.facts self.new.store.disk)) }
    {
        if self.draft.has_failed() {
            return Err(Refusal::Reopen);
        }
        let program = admit_program(self.alloc, file, base)?;
        self.bind_admitted(&program, base)
    }

    /// Returns the reply to `Bind`. A bind would return the same reply if the draft were committed
    /// now.
    pub(crate) fn bind(&mut self, program: &[u8], base: u64) -> Reply
        ensures applied { (s d : State) → IsDraftedAt D.facts self.old s d
            → AppliesDraft D.facts self.old self.new s d (bind program.now base) result }

        // The bind makes at most as many calls as a bind over the draft's state needs, and writes
        // nothing.
        ensures bound { (s d : State) → IsDraftedAt D.facts self.old s d
            → IsBoundBeside D.facts self.old self.new d (bind program.now base) result }

        // This clause holds on any disk, honest or not.
        ensures read { ReadsBeside D.facts self.old self.new }
        ensures alone { program_refusal program.now base ≢ None → self.new ≡ self.old }
        ensures failed { IsTrue self.old.store.failed
            → (result ≡ Reply.Refused Refusal.Reopen) × (self.new ≡ self.old) }
        ensures answers { IsBindAnswer result }
        ensures reopen { result ≡ Reply.Refused Refusal.Reopen → IsTrue self.old.store.failed }
        ensures device { result ≡ Reply.Refused Refusal.Device
            → (D.facts self.old.store.disk).failures < (D.facts self.new.store.disk).failures }
    {
        match self.image(program, base) {
            Ok(image) => Reply::Bound(image),
            Err(refusal) => Reply::Refused(refusal),
        }
    }
}
