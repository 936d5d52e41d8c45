use crate::found_state::FoundState;
use sector_disk::Disk;
use std::alloc::Global;
use std::marker::Model;

/// A store that was found on a disk of version 1. It can be read, and `commit` can turn it into a
/// store of version 2. Other changes are impossible.
pub struct OldStore<D: Disk> {
    pub(crate) disk: D,
    pub(crate) found: FoundState,
    pub(crate) alloc: Global,
}

impl<D: Disk> Model for OldStore<D> {
    ghost use Rattle.store.specs.Opened.{Opened};
    ghost use Rattle.store.specs.inside.FoundState.{IsFound};
    ghost use Rattle.roots.specs.Root.{version_of};
    ghost use Rattle.roots.specs.declared.version.Version.TheVariants.{One};
    ghost use Rattle.std.specs.Prelude.{◌≡◌, [], false};

    ghost Value = { Opened D };

    ghost view = { λ store. record {
      disk = store.disk;
      root = store.found.root;
      entries = store.found.entries.items;
      held = [];
      failed = false;
    } };

    ghost invariant = { λ store. IsFound store.found.root store.found.entries.items
        store.found.sectors.items store.found.index store.found.layout
        × ((D.facts store.disk).sectors ≡ store.found.root.sectors)
        × (version_of store.found.root ≡ One) };
}

impl<D: Disk> OldStore<D> {
    ghost use Rattle.std.specs.Prelude.{◌≡◌};

    /// Returns the disk.
    pub fn into_disk(self) -> D
        ensures { result ≡ self.disk }
    {
        let OldStore {
            disk,
            found: _,
            alloc: _,
        } = self;
        disk
    }
}
