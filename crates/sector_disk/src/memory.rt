// A disk in memory. It stores every write until it is stopped.
ghost use Rattle.std.specs.Prelude.{◌≡◌, ◌<◌, ◌≤◌, ◌^◌, ℕ};
ghost use Rattle.std.specs.Prelude.{length, All, drop, slice_index_or, IfOk, replicate};
ghost use Rattle.sector_disk.specs.Disk.{IsWhole};
ghost use Rattle.sector_disk.specs.Written.{contents, written_to};

use crate::choices::{mix, uncount};
use crate::disk::{Disk, DiskFault, SECTOR_BYTES};
use crate::moment::Moment;
use crate::past::Past;
use crate::written::Written;
use std::alloc::{AllocError, Global};

/// An honest disk in memory, which can be stopped at any moment. It stores every write until it is
/// stopped, so its memory grows with each write. A read, a write and `choices` take constant time.
/// The time of a sync is linear in the writes that it syncs.
pub struct Memory {
    start: Vec<[u8; SECTOR_BYTES]>,
    writes: Vec<Written>,
    synced: usize,
    // The contents of `start` after `writes`. With them, a read takes constant time.
    latest: Vec<[u8; SECTOR_BYTES]>,
    // For each sector, the number of its writes since the last sync.
    unsynced: Vec<usize>,
    past: Past<Moment>,
    ghost few: { length start.items < 2 ^ 32 },
    ghost written_in_range: { All (λ write. write.at < length start.items) writes.items },
    ghost synced_writes: { synced ≤ length writes.items },
    ghost is_latest: { latest.items ≡ contents start.items writes.items },
    ghost one_count_each: { length unsynced.items ≡ length start.items },
    ghost counted: { (k : ℕ) → k < length start.items
        → slice_index_or unsynced.items k 0 ≡ length (written_to k (drop synced writes.items)) },
    ghost whole_start: { All IsWhole start.items },
    ghost whole_writes: { All (λ write. IsWhole write.content) writes.items },
    ghost no_later: { All (λ moment. moment.writes ≤ length writes.items) past.items },
}

impl Memory {
    ghost use Rattle.std.specs.Prelude.{◌↔◌, Contains, false};
    ghost use Rattle.sector_disk.specs.Disk.{Sector, sector, sector_bytes, MayLeave};
    ghost use Rattle.sector_disk.specs.Disk.{StartsWith, IsCopy, IsStopped};
    ghost use Rattle.sector_disk.specs.Memory.{memory_facts, memory_choices};
    ghost use Rattle.sector_disk.specs.Memory.{KeepsChoices, HasOneChoice, IsPicked};

    /// Makes a disk of `sectors` sectors of zeros, all of them synced.
    pub fn new(alloc: Global, sectors: u32) -> Result<Memory, AllocError>
        ensures ok { IfOk result (λ disk.
            StartsWith (memory_facts disk) (replicate sectors (replicate sector_bytes 0))) }
        ensures choices { IfOk result HasOneChoice }
    {
        Ok(Memory {
            start: filled(alloc, sectors, [0; SECTOR_BYTES])?,
            writes: Vec::new(alloc),
            synced: 0,
            latest: filled(alloc, sectors, [0; SECTOR_BYTES])?,
            unsynced: filled(alloc, sectors, 0)?,
            past: Past::new(),
        })
    }

    /// Makes a second disk with the same contents, choices and past. The time is linear in the
    /// sectors and in all writes to this disk.
    pub fn copy(&self) -> Result<Memory, AllocError>
        ensures ok { IfOk result (λ disk. IsCopy (memory_facts self.now) (memory_facts disk)) }
        ensures choices { IfOk result (KeepsChoices self.now) }
    {
        let alloc = *self.writes.allocator();
        Ok(Memory {
            start: Vec::from_slice(alloc, &self.start)?,
            writes: Vec::from_slice(alloc, &self.writes)?,
            synced: self.synced,
            latest: Vec::from_slice(alloc, &self.latest)?,
            unsynced: Vec::from_slice(alloc, &self.unsynced)?,
            past: self.past.copy(),
        })
    }

    /// Returns the number of choices that a stop has for sector `at`: its synced content, and each
    /// content that was written to it since.
    pub fn choices(&self, at: u32) -> usize
        requires { at < (memory_facts self.now).sectors }
        ensures count { result ≡ length (memory_choices self.now at) }

        // The choices are the contents that a stop now may leave.
        ensures left { (c : Sector)
            → MayLeave (memory_facts self.now) at c ↔ Contains (memory_choices self.now at) c }
    {
        self.unsynced[at as usize] + 1
    }

    /// Returns the disk after a stop. Each sector `at` that has `n` choices holds choice `pick(at,
    /// n) % n`. Choice 0 is the synced content, and choice k is the k-th content that was written
    /// since. The time is linear in the sectors and in all writes to this disk.
    pub fn stop<F: Fn(u32, usize) -> usize>(self, pick: F) -> Memory
        requires { (at : ℕ) → at < (memory_facts self).sectors
            → F.pre pick at (length (memory_choices self at)) }
        ensures picked { (at : ℕ) → at < (memory_facts self).sectors
            → IsPicked (F.post pick at (length (memory_choices self at)))
            (memory_choices self at) (sector (memory_facts result).now at) }
        ensures stopped { IsStopped (memory_facts self) (memory_facts result) }
        ensures choices { HasOneChoice result }
    {
        let Memory {
            mut start,
            mut writes,
            synced,
            mut latest,
            mut unsynced,
            past: _,
        } = self;
        mix(&mut start, &mut unsynced, &writes, synced, pick);
        latest.copy_from_slice(&start);
        writes.clear();
        Memory {
            start,
            writes,
            synced: 0,
            latest,
            unsynced,
            past: Past::new(),
        }
    }

    // Returns the present moment, at the end of a successful call.
    fn moment(&self) -> Moment
        ensures { result ≡ record {
          writes = length self.now.writes.items;
          synced = self.now.synced;
          failed = false;
        } }
    {
        Moment {
            writes: self.writes.len(),
            synced: self.synced,
            failed: false,
        }
    }
}

// This drop is written by hand so that it is proved only once. A derived drop would be proved again
// on each way out of every function that has a disk.
impl Drop for Memory {
    fn drop(self) {
        let Memory {
            start: _start,
            writes: _writes,
            synced: _,
            latest: _latest,
            unsynced: _unsynced,
            past: _past,
        } = self;
    }
}

impl Disk for Memory {
    ghost use Rattle.std.specs.Prelude.{IsTrue, IsOk, OnOk, OnErr};
    ghost use Rattle.sector_disk.specs.Disk.{IsCall, IsRead, IsWrite, IsSync, IsUnchanged};
    ghost use Rattle.sector_disk.specs.Memory.{memory_facts, KeepsChoices};
    ghost use Rattle.sector_disk.specs.Memory.{AddsChoice, HasOneChoice};
    ghost use Rattle.sector_disk.specs.inside.MemoryLaws.{memory_holds, memory_whole};

    ghost facts = { memory_facts };

    ghost holds_now = { λ disk honest. memory_holds disk };

    ghost whole_sectors = { λ disk honest. memory_whole disk };

    fn sectors(&self) -> u32 {
        self.start.len() as u32
    }

    /// Never fails.
    fn read(&mut self, at: u32, into: &mut [u8; SECTOR_BYTES]) -> Result<(), DiskFault>
        requires { at < (memory_facts self.old).sectors }
        ensures calls { IsCall (memory_facts self.old) (memory_facts self.new) result }
        ensures honest { IsTrue (memory_facts self.old).honest
            → IsRead (memory_facts self.old) (memory_facts self.new) at into.new result }
        ensures ok { IsOk result }
        ensures choices { KeepsChoices self.old self.new }
    {
        let moment = self.moment();
        self.past = self.past.and(&moment);
        *into = self.latest[at as usize];
        Ok(())
    }

    /// Fails if memory is refused, and in this case changes nothing.
    fn write(&mut self, at: u32, from: &[u8; SECTOR_BYTES]) -> Result<(), DiskFault>
        requires { at < (memory_facts self.old).sectors }
        ensures calls { IsCall (memory_facts self.old) (memory_facts self.new) result }
        ensures honest { IsTrue (memory_facts self.old).honest
            → IsWrite (memory_facts self.old) (memory_facts self.new) at from.now result }
        ensures err { OnErr result (IsUnchanged (memory_facts self.old) (memory_facts self.new)) }
        ensures choices_ok { OnOk result (AddsChoice self.old self.new at from.now) }
        ensures choices_err { OnErr result (KeepsChoices self.old self.new) }
    {
        let moment = self.moment();
        match self.writes.push(Written { at, content: *from }) {
            Ok(()) => {
                self.latest[at as usize] = *from;
                self.unsynced[at as usize] += 1;
                self.past = self.past.and(&moment);
                Ok(())
            }
            Err(_) => {
                self.past = self.past.and(&Moment {
                    failed: true,
                    ..moment
                });
                Err(DiskFault::Failed)
            }
        }
    }

    /// Never fails.
    fn sync(&mut self) -> Result<(), DiskFault>
        ensures calls { IsCall (memory_facts self.old) (memory_facts self.new) result }
        ensures honest { IsTrue (memory_facts self.old).honest
            → IsSync (memory_facts self.old) (memory_facts self.new) result }
        ensures ok { IsOk result }
        ensures choices { HasOneChoice self.new }
    {
        let moment = self.moment();
        self.past = self.past.and(&moment);
        uncount(&mut self.unsynced, &self.writes, self.synced);
        self.synced = self.writes.len();
        Ok(())
    }
}

// Makes a vector of `count` copies of `item`.
fn filled<T: Copy>(alloc: Global, count: u32, item: T) -> Result<Vec<T>, AllocError>
    ensures { IfOk result (λ items. items.items ≡ replicate count item) }
{
    let mut items = Vec::new(alloc);
    items.resize(count as usize, item)?;
    Ok(items)
}
