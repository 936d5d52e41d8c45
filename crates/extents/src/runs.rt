ghost use Rattle.std.specs.Prelude.{◌≡◌, ◌+◌, ◌-◌, ◌<◌, ◌≤◌, ◌^◌, ◌∷◌, ◌++◌, min, length};
ghost use Rattle.std.specs.Prelude.{take, drop, slice_index_or, IfOk};
ghost use Rattle.std.specs.Prelude.{List, IfSome, nat_lt, if◌then◌else◌};
ghost use Rattle.std.specs.List.{AllWithin};
ghost use Rattle.extents.specs.Limits.{most_extents, root_sectors};
ghost use Rattle.extents.specs.Longest.{longest_first};
ghost use Rattle.extents.specs.inside.Kept.{IsRising, some_of};

use crate::extent::Extent;
use crate::extents::Extents;
use crate::limits::ROOT_SECTORS;
use crate::run_list::RunList;
use std::alloc::{AllocError, Global};

/// Returns the unused runs of a disk of `sectors` sectors on which no sector is claimed: one run if
/// the disk has a sector after the roots, and otherwise none. Reserves room for the maximum number
/// of runs on the disk.
pub(crate) fn one_run(alloc: Global, sectors: u32) -> Result<RunList, AllocError>
    ensures items { IfOk result (λ runs.
        runs.items ≡ some_of root_sectors (sectors - root_sectors)) }
    ensures room { IfOk result (λ runs.
        sectors ≤ runs.capacity + runs.capacity + 2) }
{
    let most = sectors.saturating_sub(1) / 2;
    let mut runs = RunList::with_capacity(alloc, most as usize)?;
    let count = sectors.saturating_sub(ROOT_SECTORS);
    if count > 0 {
        let all = Extent {
            start: ROOT_SECTORS,
            count,
        };
        runs.insert(0, all);
    }
    Ok(runs)
}

/// Returns the number of runs that end at or before `sector`. Makes a binary search.
pub(crate) fn place_of(runs: &[Extent], sector: u32) -> usize
    requires { IsRising runs.now }
    ensures within { result ≤ length runs.now }
    ensures before { AllWithin (λ run. run.start + run.count ≤ sector) runs.now 0 result }
    ensures behind { AllWithin (λ run. sector < run.start + run.count) runs.now
        result (length runs.now) }
{
    runs.partition_point(|run| run.start as u64 + run.count as u64 <= sector as u64)
}

/// Removes the sectors of `extent` from the run at `place`, which has all of them. The parts of the
/// run before and after the extent stay. If no part is left, removes the run.
pub(crate) fn cut(runs: &mut RunList, place: usize, extent: Extent)
    requires within { place < length runs.old.items }
    requires front { (slice_index_or runs.old.items place extent).start ≤ extent.start }
    requires back { let run = slice_index_or runs.old.items place extent in
        extent.start + extent.count ≤ run.start + run.count }
    requires fits { let run = slice_index_or runs.old.items place extent in
        run.start + run.count < 2 ^ 32 }
    requires room { let run = slice_index_or runs.old.items place extent in
        run.start < extent.start → extent.start + extent.count < run.start + run.count
        → length runs.old.items < runs.old.capacity }
    ensures items { let run = slice_index_or runs.old.items place extent in
        let end = extent.start + extent.count in
        runs.new.items ≡ take place runs.old.items
        ++ (some_of run.start (extent.start - run.start)
        ++ some_of end (run.start + run.count - end))
        ++ drop (place + 1) runs.old.items }
    ensures capacity { runs.new.capacity ≡ runs.old.capacity }
    ensures in_place { runs.new.memory ≡ runs.old.memory }
{
    let mut run = runs.as_slice()[place];
    let end = extent.start + extent.count;
    let front = extent.start - run.start;
    let back = run.start + run.count - end;
    let rest = Extent {
        start: end,
        count: back,
    };
    if front == 0 && back == 0 {
        runs.remove(place);
        return;
    }
    if front == 0 {
        runs.set(place, rest);
        return;
    }
    run.count = front;
    runs.set(place, run);
    if back > 0 {
        runs.insert(place + 1, rest);
    }
}

/// Returns the number of sectors of the run before `place` if that run ends directly before
/// `sector`, and otherwise 0.
pub(crate) fn count_before(runs: &[Extent], place: usize, sector: u32) -> u32
    requires { place ≤ length runs.now }
    ensures none { result ≡ 0 → 0 < place → (d : Extent) →
        let run = slice_index_or runs.now (place - 1) d in
        (run.start + run.count ≡ sector) → run.count ≡ 0 }
    ensures some { 0 < result → (0 < place) × ((d : Extent) →
        let run = slice_index_or runs.now (place - 1) d in
        (run.count ≡ result) × (run.start + run.count ≡ sector)) }
{
    if place == 0 {
        return 0;
    }
    let run = runs[place - 1];
    if run.start as u64 + run.count as u64 == sector as u64 {
        run.count
    } else {
        0
    }
}

/// Returns the number of sectors of the run at `place` if that run begins at `sector`, and
/// otherwise 0.
pub(crate) fn count_after(runs: &[Extent], place: usize, sector: u32) -> u32
    requires { place ≤ length runs.now }
    ensures none { result ≡ 0 → place < length runs.now → (d : Extent) →
        let run = slice_index_or runs.now place d in (run.start ≡ sector) → run.count ≡ 0 }
    ensures some { 0 < result → (place < length runs.now) × ((d : Extent) →
        let run = slice_index_or runs.now place d in
        (run.count ≡ result) × (run.start ≡ sector)) }
{
    if place == runs.len() {
        return 0;
    }
    let run = runs[place];
    if run.start == sector { run.count } else { 0 }
}

/// Inserts `extent` at `place` into the runs, and joins it to adjacent runs. `left` is the length
/// of the run that ends where `extent` begins, and `right` is the length of the run that begins
/// where `extent` ends. Each is 0 if there is no such run.
pub(crate) fn join(runs: &mut RunList, place: usize, extent: Extent, left: u32, right: u32)
    requires before { min left 1 ≤ place }
    requires behind { place + min right 1 ≤ length runs.old.items }
    requires start { left ≤ extent.start }
    requires fits { left + extent.count + right < 2 ^ 32 }
    requires room { left ≡ 0 → right ≡ 0 → length runs.old.items < runs.old.capacity }
    ensures items { runs.new.items ≡ take (place - min left 1) runs.old.items
        ++ record { start = extent.start - left; count = left + extent.count + right }
        ∷ drop (place + min right 1) runs.old.items }
    ensures capacity { runs.new.capacity ≡ runs.old.capacity }
    ensures in_place { runs.new.memory ≡ runs.old.memory }
{
    let run = Extent {
        start: extent.start - left,
        count: left + extent.count + right,
    };
    if left == 0 && right == 0 {
        runs.insert(place, run);
        return;
    }
    if left == 0 {
        runs.set(place, run);
        return;
    }
    runs.set(place - 1, run);
    if right > 0 {
        runs.remove(place);
    }
}

/// Returns the longer of two runs, or the first one if they are equally long.
fn longer(first: Extent, run: Extent) -> Extent
    ensures { result ≡ (if nat_lt first.count run.count then run else first) }
{
    if first.count < run.count { run } else { first }
}

/// Returns the first of the longest runs. Makes one pass over the runs.
pub(crate) fn longest_run(runs: &[Extent]) -> Option<Extent>
    ensures { IfSome result (λ run. (others : List Extent)
        × (longest_first runs.now ≡ run ∷ others)) }
{
    let Some((first, rest)) = runs.split_first() else {
        return None;
    };
    let mut longest = *first;
    for run in rest {
        longest = longer(longest, *run);
    }
    Some(longest)
}

/// Returns the longest runs, the longest first, but at most as many as a file may have extents.
/// Makes one pass over the runs. Compares each run with only a limited number of the longest runs
/// so far.
pub(crate) fn longest_of(runs: &[Extent]) -> Extents
    ensures { result ≡ take most_extents (longest_first runs.now) }
{
    let mut longest = Extents::new();
    for run in runs {
        longest.offer(*run);
    }
    longest
}
