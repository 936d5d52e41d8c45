// Finds the libraries of a program.
ghost use Rattle.std.specs.Prelude.{◌≡◌, is_some, map, IfOk};
ghost use Rattle.requests.specs.Binding.{object_of};

use crate::bind::refusal_of_read;
use crate::bound::libraries_of;
use crate::library_file::LibraryFile;
use crate::needed::read_needed;
use crate::needs::Needs;
use crate::registry::Registry;
use crate::walk::Walk;
use hash_check::Admitted;
use requests::Refusal;
use scope::{Library, NeededName};
use sector_disk::Disk;
use std::alloc::{AllocError, Global};
use std::marker::Model;

/// The installed libraries that a program needs, in load order. In contracts, the value is the list
/// of these libraries, and the first needed name that isn't installed, if there is one.
#[derive(Drop)]
pub struct FoundLibraries {
    files: Vec<LibraryFile>,
    missing: Option<NeededName>,
}

impl Model for FoundLibraries {
    ghost use Rattle.registry.specs.Found.{Found};

    ghost Value = { Found };

    ghost view = { λ f. record { libraries = f.files.items; missing = f.missing } };
}

impl FoundLibraries {
    /// Makes the result of a finished walk.
    fn of(walk: Walk) -> FoundLibraries
        ensures { result ≡ record { libraries = walk.files.items; missing = walk.needs.missing } }
    {
        let Walk { needs, files } = walk;
        let Needs { places: _, missing } = needs;
        FoundLibraries { files, missing }
    }

    /// Returns the libraries. For each library, takes as much time as `Object::of_accepted`.
    pub fn libraries(&self, alloc: Global) -> Result<Vec<Library<'_>>, AllocError>
        ensures { IfOk result (λ libraries.
            libraries.items ≡ map object_of self.now.libraries) }
    {
        libraries_of(alloc, &self.files)
    }

    /// Returns whether a needed name isn't installed.
    pub fn lacks_some(&self) -> bool
        ensures { result ≡ is_some self.now.missing }
    {
        self.missing.is_some()
    }
}

impl<D: Disk> Registry<D> {
    ghost use Rattle.std.specs.Prelude.{◌≡◌, OnOk, IfOk, IfErr};
    ghost use Rattle.states.specs.State.{State};
    ghost use Rattle.store.specs.IsRead.{IsRead};
    ghost use Rattle.store.specs.Opened.{IsAt};
    ghost use Rattle.registry.specs.Binding.{bind_sectors};
    ghost use Rattle.registry.specs.Found.{IsFindRefusal, IsFoundFor, found_sectors};
    ghost use Rattle.sector_disk.specs.Disk.{AreCallsExactly};
    ghost use Rattle.registry.specs.Untested.{ReadsLibraries};

    /// Finds the libraries of an admitted program. Reads the files of the program's load order in
    /// the same way as `bind`. If a name is missing, continues with the other names. Refuses with
    /// S1 (Device), S2 (Reopen), S5 (Damaged) or S11 (OutOfMemory).
    pub fn find_libraries(&mut self, program: &Admitted<'_>) -> Result<FoundLibraries, Refusal>
        ensures read { IsRead D.facts self.old self.new }
        ensures ok { (s : State) → IsAt D.facts self.old s
            → IfOk result (IsFoundFor s program.now) }
        ensures damaged { (s : State) → IsAt D.facts self.old s → IfErr result (λ e.
            e ≡ Refusal.Damaged → ReadsLibraries s program.now → ⊥) }

        // The search makes exactly the calls of the disk that a bind makes.
        ensures all_calls { (s : State) → IsAt D.facts self.old s → OnOk result
            (AreCallsExactly (bind_sectors s program.now)
            (D.facts self.old.disk) (D.facts self.new.disk)) }

        // On any disk, each found library was read once, and no other library was read.
        ensures refusals { IfErr result (IsFindRefusal D.facts self.old self.new) }
        ensures calls { IfOk result (λ found. AreCallsExactly (found_sectors found)
            (D.facts self.old.disk) (D.facts self.new.disk)) }
    {
        let walk = match read_needed(self.alloc, &mut self.store, program) {
            Ok(walk) => walk,
            Err(refusal) => return Err(refusal_of_read(refusal)),
        };
        Ok(FoundLibraries::of(walk))
    }
}
