// The numbers of a disk and of the state that it holds.
use crate::contents::Contents;
use roots::Version;
use sector_disk::Disk;
use store::UnusedSpace;

/// Facts about a disk and the state that it holds: its version, sizes and counts.
#[derive(Clone, Copy, PartialEq, Eq)]
pub struct Info {
    /// The version of the disk.
    pub version: Version,
    /// The number of sectors of the disk.
    pub sectors: u32,
    /// The number of changes since the disk was formatted.
    pub generation: u64,
    /// The number of installed libraries, at most `MOST_LIBRARIES`.
    pub libraries: usize,
    /// The number of preloads, at most `MOST_PRELOADS`.
    pub preloads: usize,
    /// The unused space of the disk, and the size of the largest file that can still be installed.
    pub unused: UnusedSpace,
}

impl<D: Disk> Contents<D> {
    ghost use Rattle.std.specs.Prelude.{◌≡◌, ◌≤◌, ◌⊎◌, ◌↔◌, ℕ, List, None, length};
    ghost use Rattle.extents.specs.Layout.{unused_count};
    ghost use Rattle.extents.specs.Runs.{unused_runs};
    ghost use Rattle.roots.specs.declared.version.Version.TheVariants.{Two};
    ghost use Rattle.states.specs.State.{State};
    ghost use Rattle.store.specs.Names.{IsFileSize};
    ghost use Rattle.store.specs.Opened.{IsAt};
    ghost use Rattle.store.specs.Holds.{layout_in_use};
    ghost use Rattle.store.specs.Step.{longest_unused, refusal_of_new};
    ghost use Rattle.contents.specs.Info.{IsInfo};

    /// Returns the numbers of the disk. Makes one pass over the unused runs, allocates nothing, and
    /// makes no call of the disk.
    pub fn info(&self) -> Info
        ensures state { (s : State) → IsAt D.facts self.now s
            → IsInfo (D.facts self.now.disk).sectors s result }
        ensures unused { result.unused.sectors ≡ unused_count (layout_in_use self.now) }
        ensures runs { result.unused.runs ≡ length (unused_runs (layout_in_use self.now)) }

        // An install of a file with a new name is refused with S7, S8, S9 or S10 if and only if the
        // file has more than `largest` bytes. If `largest` isn't 0, it is a length that a file may
        // have.
        ensures largest { (s : State) → IsAt D.facts self.now s
            → (file : List ℕ) → IsFileSize (length file)
            → (length file ≤ result.unused.largest)
            ↔ (refusal_of_new (D.facts self.now.disk).sectors (longest_unused self.now) s file
            ≡ None) }
        ensures form { (result.unused.largest ≡ 0) ⊎ IsFileSize result.unused.largest }
    {
        Info {
            version: Version::Two,
            sectors: self.store.sectors(),
            generation: self.store.generation(),
            libraries: self.store.count(),
            preloads: self.store.preloads().len(),
            unused: self.store.unused_space(),
        }
    }
}
