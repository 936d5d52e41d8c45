// Collects the needs of the objects of a walk.
ghost use Rattle.std.specs.Prelude.{◌≡◌, ◌≤◌, ◌+◌, ◌∷◌, [], List, map, take};
ghost use Rattle.std.specs.Prelude.{length, Some, OnOk, OnErr};
ghost use Rattle.std.specs.Option.{option_or};
ghost use Rattle.elf_dynamic.specs.Strings.{needed};
ghost use Rattle.store.specs.Stands.{HaveOwnNames};
ghost use Rattle.store.specs.declared.placed_entry.PlacedEntry.{PlacedEntry};
ghost use Rattle.store.specs.NameOrder.{entry_names};
ghost use Rattle.registry.specs.inside.Walked.{Grows, more_needs};

use crate::source::{Named, place_of};
use elf_dynamic::Object;
use scope::{NeededName, Places};
use std::alloc::{AllocError, Global};

/// The needs that a walk has found: the needed files, and the first needed name that no file has.
#[derive(Drop)]
pub(crate) struct Needs {
    /// The queue of places: the program is at place 0, and each file at
    /// the place after its position.
    pub(crate) places: Places,
    /// The first needed name that no file has.
    pub(crate) missing: Option<NeededName>,
}

/// Stores a missing name and the name of the object that needs it, unless a missing name is stored
/// already.
fn note(
    alloc: Global,
    missing: &mut Option<NeededName>,
    needer: &[u8],
    name: &[u8],
) -> Result<(), AllocError>
    ensures ok { OnOk result (missing.new
        ≡ option_or missing.old (Some (record { needer = needer.now; name = name.now }))) }
    ensures same { OnErr result (missing.new ≡ missing.old) }
{
    if missing.is_none() {
        *missing = Some(NeededName::copy_of(alloc, needer, name)?);
    }
    Ok(())
}

impl Needs {
    /// Adds the place of the file with the name `name`. If no file has the name, stores it as
    /// missing.
    fn add_named<N: Named>(
        &mut self,
        alloc: Global,
        files: &N,
        needer: &[u8],
        name: &[u8],
    ) -> Result<(), AllocError>
        requires { self.old.places.limit ≡ N.offered files.now + 1 }
        ensures ok { (entries : List PlacedEntry) → N.has files.now entries
            → HaveOwnNames entries → OnOk result (self.new
            ≡ more_needs (entry_names entries) self.old needer.now (name.now ∷ [])) }
        ensures grows { Grows self.old self.new }
        ensures same { OnErr result (self.new ≡ self.old) }
    {
        match place_of(files, name) {
            Some(place) => self.places.add(place),
            None => note(alloc, &mut self.missing, needer, name),
        }
    }

    /// Adds the places of the files that an object needs, and stores the first name that no file
    /// has. Stops as soon as memory is refused.
    fn add_each<N: Named>(
        &mut self,
        alloc: Global,
        files: &N,
        needer: &[u8],
        object: &Object<'_>,
    ) -> Result<(), AllocError>
        requires { self.old.places.limit ≡ N.offered files.now + 1 }
        ensures ok { (entries : List PlacedEntry) → N.has files.now entries
            → HaveOwnNames entries → OnOk result (self.new
            ≡ more_needs (entry_names entries) self.old needer.now (needed object.now)) }
        ensures grows { Grows self.old self.new }
    {
        for name in object.needed_names() {
            self.add_named(alloc, files, needer, name)?;
        }
        Ok(())
    }

    /// Does the same as `add_each`, but changes nothing if memory is refused. Makes one pass over
    /// the object's dynamic section, and searches once for each needed name.
    pub(crate) fn add_needed<N: Named>(
        &mut self,
        alloc: Global,
        files: &N,
        needer: &[u8],
        object: &Object<'_>,
    ) -> Result<(), AllocError>
        requires { self.old.places.limit ≡ N.offered files.now + 1 }
        ensures ok { (entries : List PlacedEntry) → N.has files.now entries
            → HaveOwnNames entries → OnOk result (self.new
            ≡ more_needs (entry_names entries) self.old needer.now (needed object.now)) }
        ensures grows { Grows self.old self.new }
        ensures same { OnErr result (self.new ≡ self.old) }
    {
        let count = self.places.count();
        let known = self.missing.is_some();
        let added = self.add_each(alloc, files, needer, object);
        if added.is_err() {
            self.places.shorten(count);
            if !known {
                self.missing = None;
            }
        }
        added
    }
}
