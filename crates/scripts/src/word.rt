// Reads the words of a line of a script.

ghost use Rattle.std.specs.Prelude.{◌≡◌, ◌==◌, ◌≤◌, map, take_while, length, not, IfOk};
ghost use Rattle.std.specs.List.{list_all, slice_split};
ghost use Rattle.std.specs.Option.{option_map};
ghost use Rattle.program_parts.specs.Base.{base_of};
ghost use Rattle.scripts.specs.Words.{is_visible, is_name, named, names_behind};
ghost use Rattle.scripts.specs.Words.{word_in_front};

use program_parts::parse_base;
use std::alloc::{AllocError, Global};
use std::str;

/// Returns whether all bytes are visible, that is, from 0x21 to 0x7e.
fn are_visible(word: &[u8]) -> bool
    ensures { result ≡ list_all is_visible word.now }
{
    word.iter().all(|b| *b >= 0x21 && *b <= 0x7e)
}

/// Returns whether a word is a NAME.
fn is_name(word: &[u8]) -> bool
    ensures { result ≡ is_name word.now }
{
    !word.is_empty() && are_visible(word)
}

/// Returns the word if it is a NAME, otherwise `None`.
pub(crate) fn named(word: &[u8]) -> Option<&[u8]>
    ensures { option_map (λ n. n.now) result ≡ named word.now }
{
    if is_name(word) { Some(word) } else { None }
}

/// Returns whether all words are NAMEs.
fn are_names(words: &[u8]) -> bool
    ensures { result ≡ list_all is_name (slice_split (λ b. b == 32) words.now) }
{
    words.split(|b| *b == b' ').all(|word| is_name(word))
}

/// Returns the parts of `words` between its spaces.
fn words_of(alloc: Global, words: &[u8]) -> Result<Vec<&[u8]>, AllocError>
    ensures { IfOk result (λ v. map (λ w. w.now) v.items ≡ slice_split (λ b. b == 32) words.now) }
{
    words.split(|b| *b == b' ').collect(alloc)
}

/// Returns the NAMEs in `rest`. Each NAME comes after a space. Returns `None` if `rest` has another
/// form.
pub(crate) fn names_behind(alloc: Global, rest: &[u8]) -> Result<Option<Vec<&[u8]>>, AllocError>
    ensures { IfOk result
        (λ names. option_map (λ v. map (λ n. n.now) v.items) names ≡ names_behind rest.now) }
{
    let Some((first, words)) = rest.split_first() else {
        return Ok(Some(Vec::new(alloc)));
    };
    if *first != b' ' || !are_names(words) {
        return Ok(None);
    }
    Ok(Some(words_of(alloc, words)?))
}

/// Returns the number of bytes before the first space, or of all bytes if there is no space.
#[tactic(auto, using(crate::proofs::Fronts::front_short))]
fn front_length(bytes: &[u8]) -> usize
    ensures is { result ≡ length (word_in_front bytes.now) }
    ensures short { result ≤ length bytes.now }
{
    bytes.iter().take_while(|b| **b != b' ').count()
}

/// Returns the bytes before the first space, or all bytes if there is no space.
#[tactic(auto, using(crate::proofs::Fronts::take_front))]
pub(crate) fn word_in_front(bytes: &[u8]) -> &[u8]
    ensures is { result.now ≡ word_in_front bytes.now }
    ensures short { length result.now ≤ length bytes.now }
{
    &bytes[..front_length(bytes)]
}

/// Returns the number that BASE encodes, or `None` if the word isn't a BASE.
pub(crate) fn base_in(word: &[u8]) -> Option<u64>
    ensures { result ≡ base_of word.now }
{
    match str::from_utf8(word) {
        Ok(text) => parse_base(text),
        Err(_) => None,
    }
}
