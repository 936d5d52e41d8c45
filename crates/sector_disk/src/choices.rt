// For each sector, a stop picks one content: the synced content, or the content of a write since
// then.
ghost use Rattle.std.specs.Prelude.{◌≡◌, ◌<◌, ◌≤◌, ◌+◌, ◌%◌, ◌^◌, ◌∷◌, ℕ};
ghost use Rattle.std.specs.Prelude.{length, slice_index_or, All, drop};
ghost use Rattle.sector_disk.specs.Disk.{sector};
ghost use Rattle.sector_disk.specs.Written.{written_to, choices};
ghost use Rattle.sector_disk.specs.Memory.{IsPicked};

use crate::disk::SECTOR_BYTES;
use crate::written::{Written, apply};

/// Turns `sectors`, which has the contents before all `writes`, into the mixture that `pick`
/// chooses. Each sector `at` that has `n` choices gets choice `pick(at, n) % n`. Before the call,
/// `counts` has the number of writes to each sector from write number `synced` on; after it, all
/// counts are 0. The time is linear in the sectors and the writes.
pub(crate) fn mix<F: Fn(u32, usize) -> usize>(
    sectors: &mut [[u8; SECTOR_BYTES]],
    counts: &mut [usize],
    writes: &[Written],
    synced: usize,
    pick: F,
)
    requires made { synced ≤ length writes.now }
    requires in_range { All (λ write. write.at < length sectors.old) writes.now }
    requires few_sectors { length sectors.old < 2 ^ 32 }
    requires few_writes { length writes.now + 1 < 2 ^ 64 }
    requires one_count_each { length counts.old ≡ length sectors.old }
    requires counted { (k : ℕ) → k < length sectors.old
        → slice_index_or counts.old k 0 ≡ length (written_to k (drop synced writes.now)) }
    requires callable { (at : ℕ) → at < length sectors.old
        → F.pre pick at (length (choices sectors.old writes.now synced at)) }
    ensures picked { (at : ℕ) → at < length sectors.old
        → IsPicked (F.post pick at (length (choices sectors.old writes.now synced at)))
        (choices sectors.old writes.now synced at) (sector sectors.new at) }
    ensures zero { (k : ℕ) → k < length sectors.old → slice_index_or counts.new k 0 ≡ 0 }
{
    let (kept, loose) = writes.split_at(synced);
    apply(sectors, kept);
    choose(counts, pick);
    set_contents(sectors, counts, loose);
}

/// Replaces the count of writes to each sector `at` by `pick(at, n) % n`, where `n` is the count
/// plus one. The result is 0, or the number of one of these writes, counted from 1.
fn choose<F: Fn(u32, usize) -> usize>(counts: &mut [usize], pick: F)
    requires few { length counts.old < 2 ^ 32 }
    requires fits { (at : ℕ) → at < length counts.old
        → slice_index_or counts.old at 0 + 1 < 2 ^ 64 }
    requires callable { (at : ℕ) → at < length counts.old
        → F.pre pick at (slice_index_or counts.old at 0 + 1) }
    ensures { (at : ℕ) → at < length counts.old
        → (named : ℕ) × F.post pick at (slice_index_or counts.old at 0 + 1) named
        × (slice_index_or counts.new at 0 ≡ named % (slice_index_or counts.old at 0 + 1)) }
{
    for (at, count) in counts.iter_mut().enumerate() {
        let choices = *count + 1;
        *count = pick(at as u32, choices) % choices;
    }
}

/// Sets each sector `at` to the content of its write number `numbers[at]`, counted from 1. If this
/// number is 0, the sector keeps its content. After the call, all numbers are 0.
fn set_contents(sectors: &mut [[u8; SECTOR_BYTES]], numbers: &mut [usize], writes: &[Written])
    requires in_range { All (λ write. write.at < length sectors.old) writes.now }
    requires numbered { length numbers.old ≡ length sectors.old }
    requires made { (k : ℕ) → k < length numbers.old
        → slice_index_or numbers.old k 0 ≤ length (written_to k writes.now) }
    ensures settled { (k : ℕ) → k < length sectors.old
        → sector sectors.new k
        ≡ sector (sector sectors.old k ∷ written_to k writes.now) (slice_index_or numbers.old k 0) }
    ensures zero { (k : ℕ) → k < length numbers.old → slice_index_or numbers.new k 0 ≡ 0 }
{
    for write in writes {
        let at = write.at as usize;
        if numbers[at] == 1 {
            sectors[at] = write.content;
        }
        numbers[at] = numbers[at].saturating_sub(1);
    }
}

/// Subtracts the writes from write number `start` on from the numbers of writes to each sector.
pub(crate) fn uncount(counts: &mut [usize], writes: &[Written], start: usize)
    requires made { start ≤ length writes.now }
    requires in_range { All (λ write. write.at < length counts.old) writes.now }
    requires counted { (k : ℕ) → k < length counts.old
        → slice_index_or counts.old k 0 ≡ length (written_to k (drop start writes.now)) }
    ensures zero { (k : ℕ) → k < length counts.old → slice_index_or counts.new k 0 ≡ 0 }
{
    for write in &writes[start..] {
        counts[write.at as usize] -= 1;
    }
}
