// Numbers names, so that two names have the same number if and only if they are equal. The names
// are tails of strings, and share bytes of these strings.

ghost use Rattle.std.specs.Prelude.{ℕ, ◌≡◌, ◌≢◌, ◌<◌, ◌≤◌, ◌^◌, length, reverse, slice_index, IfOk};
ghost use Rattle.std.specs.Cmp.Lexicographic.{slice_cmp};
ghost use Rattle.std.specs.List.{All};
ghost use Rattle.std.specs.Ordering.{nat_cmp};
ghost use Rattle.hash_check.specs.Numbers.{AreNumbers};
ghost use Rattle.hash_check.specs.inside.Endings.{IsIn, IsEnding, AreEndings, AreSorted, AreHeld};
ghost use Rattle.hash_check.specs.inside.Endings.{AreNone};

use crate::agreement::{common_end, compare_ends};
use crate::name::Name;
use std::alloc::{AllocError, Global};

/// A range of the names in a list: those with the numbers from `first` up to, but not including,
/// `past`. All these names are tails of `string`.
#[derive(Clone, Copy)]
pub(crate) struct Ending<'a> {
    pub(crate) string: &'a [u8],
    pub(crate) first: usize,
    pub(crate) past: usize,
}

/// Sets the marks to 0 for all lengths from `from` up to, but not including, `past`. Ignores
/// lengths that have no mark.
fn unmark(marks: &mut [u32], from: usize, past: usize)
    ensures cleared { (n : ℕ) → from ≤ n → n < past → slice_index marks.new n ≡ 0 }
    ensures low { (n : ℕ) → n < from → slice_index marks.new n ≡ slice_index marks.old n }
    ensures high { (n : ℕ) → past ≤ n → slice_index marks.new n ≡ slice_index marks.old n }
{
    for n in from..past.min(marks.len()) {
        marks[n] = 0;
    }
}

/// Returns the number of a name: `mark`, which is the mark for the name's length, or, if `mark` is
/// 0, the name's own number `own`.
fn picked(own: u32, mark: u32) -> u32
    ensures own { mark ≡ 0 → result ≡ own }
    ensures marked { mark ≢ 0 → result ≡ mark }
{
    if mark == 0 { own } else { mark }
}

/// Stores the number of each name of `ending` in `numbers`, and also in `marks`, at the index that
/// is the name's length.
fn number_ending(names: &[Name<'_>], ending: Ending<'_>, marks: &mut [u32], numbers: &mut [u32])
    requires few { length names.now < 2 ^ 32 }
    requires ending { IsEnding names.now ending }
    requires room { length ending.string.now < length marks.old }
    requires held { AreHeld names.now (reverse ending.string.now) marks.old numbers.old }
    ensures held { AreHeld names.now (reverse ending.entry.string.now) marks.new numbers.new }
    ensures kept { (k : ℕ) → slice_index numbers.old k ≢ 0 → slice_index numbers.new k ≢ 0 }
    ensures told { (k : ℕ) → IsIn k ending.entry → slice_index numbers.new k ≢ 0 }
{
    for number in ending.first..ending.past {
        let length = names[number].bytes().len();
        let told = picked((number + 1) as u32, marks[length]);
        marks[length] = told;
        numbers[number] = told;
    }
}

/// Stores the numbers of all names, ending by ending. A mark for a length is kept if at least this
/// number of last bytes are the same in the strings of this ending and of the next one. So the
/// remaining marks are the numbers of names that are tails of the next string too.
fn number_all(names: &[Name<'_>], endings: &[Ending<'_>], marks: &mut [u32], numbers: &mut [u32])
    requires few { length names.now < 2 ^ 32 }
    requires endings { AreSorted names.now endings.now }
    requires room { All (λ e. length e.string.now < length marks.old) endings.now }
    requires marks { AreNone marks.old }
    requires numbers { AreNone numbers.old }
    requires size { length numbers.old ≡ length names.now }
    ensures { AreNumbers names.now numbers.new }
{
    let mut last: &[u8] = &[];
    let mut past = 1;
    for ending in endings {
        let common = common_end(last, ending.string);
        unmark(marks, common + 1, past);
        number_ending(names, *ending, marks, numbers);
        last = ending.string;
        past = last.len() + 1;
    }
}

/// Returns the number of possible lengths of the endings' names, including 0.
fn count_of_lengths(endings: &[Ending<'_>]) -> usize
    ensures { All (λ e. length e.string.now < result) endings.now }
{
    let mut count = 1;
    for ending in endings {
        count = count.max(ending.string.len() + 1);
    }
    count
}

/// Returns the numbers of `names`, which are tails of the strings of `endings`. The time depends on
/// the strings and on the number of names, but not on the number of bytes that the names share. If
/// n strings share no bytes, each of them is compared about log n times. Allocates 4 bytes for each
/// name of the result. While it runs, allocates 4 more bytes for each byte of the longest string.
/// Returns an error if there are 2^32 names or more.
pub(crate) fn numbers_of_endings(
    alloc: Global,
    names: &[Name<'_>],
    mut endings: Vec<Ending<'_>>,
) -> Result<Vec<u32>, AllocError>
    requires { AreEndings names.now endings.items }
    ensures { IfOk result (λ v. AreNumbers names.now v.items) }
{
    if names.len() >= 1 << 32 {
        return Err(AllocError);
    }
    endings.sort_unstable_by(|a, b| compare_ends(a.string, b.string));
    let mut marks = vec![in alloc; 0; count_of_lengths(&endings)]?;
    let mut numbers = vec![in alloc; 0; names.len()]?;
    number_all(names, &endings, &mut marks, &mut numbers);
    Ok(numbers)
}
