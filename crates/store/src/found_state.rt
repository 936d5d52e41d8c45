// The contents of a disk, in the form in which a store keeps them in memory.
ghost use Rattle.std.specs.Prelude.{◌≡◌, ◌⊎◌, [], IfOk, IfErr, length, false};
ghost use Rattle.roots.specs.Root.{RootHasSpelling, version_of};
ghost use Rattle.roots.specs.declared.version.Version.TheVariants.{Two};
ghost use Rattle.store.specs.Stands.{HasRoom, HaveOwnNames, UsesApart, entry_sectors};
ghost use Rattle.store.specs.inside.FoundState.{IsFound};
ghost use Rattle.store.specs.inside.Kept.{HaveSpellings};

use crate::catalogues::Singles;
use crate::holds::Holds;
use crate::kept::Kept;
use crate::name_index::NameIndex;
use crate::placed_entry::PlacedEntry;
use crate::refusal::StoreRefusal;
use crate::store::Store;
use crate::used::claim_used;
use extents::Layout;
use roots::Root;
use sector_disk::Disk;
use std::alloc::{AllocError, Global};

/// The contents of a disk, in the form in which a store keeps them in memory.
#[derive(Drop)]
pub(crate) struct FoundState {
    pub root: Root,
    pub entries: Vec<PlacedEntry>,
    pub sectors: Vec<u32>,
    pub singles: Singles,
    pub index: NameIndex,
    pub layout: Layout,
}

/// Returns the sectors of `entries`, in the order of the entries.
fn sectors_of_entries(alloc: Global, entries: &[PlacedEntry]) -> Result<Vec<u32>, AllocError>
    ensures { IfOk result (λ sectors. sectors.items ≡ entry_sectors entries.now) }
{
    entries.iter().map(|placed| placed.at).collect(alloc)
}

impl FoundState {
    /// Returns the contents of a disk with the root `root` and the entries `entries`. Refuses with
    /// Damaged if two entries have the same name, if a sector is used twice or can't be used, or if
    /// too few sectors are unused.
    pub(crate) fn over(
        alloc: Global,
        root: Root,
        entries: Vec<PlacedEntry>,
    ) -> Result<FoundState, StoreRefusal>
        requires root { RootHasSpelling root }
        requires entries { HaveSpellings entries.items }
        requires counted { length entries.items ≡ root.library_count }
        ensures kept { IfOk result (λ found. IsFound found.root found.entries.items
            found.sectors.items found.index found.layout) }
        ensures same { IfOk result (λ found. (found.root ≡ root)
            × (found.entries.items ≡ entries.items)) }
        ensures refused { IfErr result (λ e. (e ≡ StoreRefusal.OutOfMemory)
            ⊎ ((e ≡ StoreRefusal.Damaged) × (HaveOwnNames entries.items
            → UsesApart root.sectors root entries.items
            → HasRoom root.sectors root.list entries.items → ⊥))) }
    {
        let Some(index) = NameIndex::over(alloc, &entries)? else {
            return Err(StoreRefusal::Damaged);
        };
        let layout = claim_used(alloc, &root, &entries)?;
        let sectors = sectors_of_entries(alloc, &entries)?;
        let singles = Singles::new(alloc)?;
        Ok(FoundState {
            root,
            entries,
            sectors,
            singles,
            index,
            layout,
        })
    }

    /// Makes a store of version 2 from these contents, which were found on the disk `disk`.
    pub(crate) fn into_store<D: Disk>(self, alloc: Global, disk: D) -> Store<D>
        requires version { version_of self.root ≡ Two }
        requires found { IsFound self.root self.entries.items self.sectors.items
            self.index self.layout }
        requires sectors { (D.facts disk).sectors ≡ self.root.sectors }
        ensures disk { result.disk ≡ disk }
        ensures root { result.root ≡ self.root }
        ensures entries { result.entries ≡ self.entries.items }
        ensures unheld { result.held ≡ [] }
        ensures usable { result.failed ≡ false }
    {
        let FoundState {
            root,
            entries,
            sectors,
            singles,
            index,
            layout,
        } = self;
        let kept = Kept {
            root,
            entries,
            sectors,
            singles,
            index,
            held: Holds::new(alloc),
            layout,
            failed: false,
        };
        Store { disk, kept }
    }
}
