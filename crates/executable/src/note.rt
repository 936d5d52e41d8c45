// Reads the notes of a program. One of these notes, the calls note, states that the program itself
// calls its libraries' functions.

ghost use Rattle.std.specs.Prelude.{◌≡◌, ◌+◌, ◌≤◌, ◌<◌, ◌/◌, ◌^◌, drop, length, take};
ghost use Rattle.std.specs.Prelude.{MatchOption};
ghost use Rattle.std.specs.Int.{next_multiple_of};
ghost use Rattle.elf_file.specs.Number.{number_at};
ghost use Rattle.executable.specs.Note.{note_size, is_calls_note, has_calls_note, is_of_notes};
ghost use Rattle.executable.specs.Note.{find_notes, notes_by, notes_of, calls_itself};

use crate::initializers::{section_memory, u64_in};
use crate::segments::split;
use crate::static_pie::{PROGRAM_HEADER_SIZE, u32_in};
use image::{Image, ImageObject, Memory, Segment};

/// The `p_type` of a segment of notes.
const PT_NOTE: u32 = 4;
/// The `p_align` of the notes that this module reads. The name and the descriptor of a note are
/// padded to multiples of this number.
const NOTE_ALIGNMENT: u64 = 4;
/// The number of bytes of a note before its name.
const NOTE_HEADER_SIZE: usize = 12;
/// The name of the calls note, which is `rlibreg` and a zero, as a number of eight bytes; and the
/// size of this name in bytes.
const CALLS_NAME: u64 = 0x0067_6572_6269_6c72;

const CALLS_NAME_SIZE: u32 = 8;
/// The type of the calls note, which has no descriptor.
const CALLS_TYPE: u32 = 1;

/// Returns the first `size` bytes of `memory`, or all of its bytes if there are fewer.
fn first_bytes<'a>(memory: &Memory<'a>, size: u64) -> Memory<'a>
    ensures { result ≡ take size memory.now }
{
    let size = size.min(memory.len() as u64) as usize;
    let front = memory.front();
    let kept = front.len().min(size);
    Memory::new(&front[..kept], size as u32)
}

/// Returns the padded size of a note's name or descriptor, whose unpadded size is at offset `at`.
fn padded_size(notes: &Memory<'_>, at: usize) -> usize
    requires { at + 4 ≤ length notes.now }
    ensures value { result ≡ next_multiple_of (number_at 4 notes.now at) NOTE_ALIGNMENT }
    ensures small { result < 2 ^ 33 }
{
    let size = u64::from(u32_in(notes, at));
    size.next_multiple_of(NOTE_ALIGNMENT) as usize
}

/// Returns the notes after the first one, or `None` if the first one isn't complete.
fn behind_note<'a>(notes: &Memory<'a>) -> Option<Memory<'a>>
    ensures { MatchOption result (length notes.now < note_size notes.now)
        (λ rest. (note_size notes.now ≤ length notes.now) × (rest ≡ drop (note_size notes.now) notes.now)) }
{
    if notes.len() < NOTE_HEADER_SIZE {
        return None;
    }
    let size = NOTE_HEADER_SIZE + padded_size(notes, 0) + padded_size(notes, 4);
    if notes.len() < size {
        return None;
    }
    Some(notes.skip(size))
}

/// Returns whether the first note is the calls note.
fn is_calls_note(notes: &Memory<'_>) -> bool
    ensures { result ≡ is_calls_note notes.now }
{
    notes.len() >= NOTE_HEADER_SIZE + CALLS_NAME_SIZE as usize
        && u32_in(notes, 0) == CALLS_NAME_SIZE
        && u32_in(notes, 4) == 0
        && u32_in(notes, 8) == CALLS_TYPE
        && u64_in(notes, NOTE_HEADER_SIZE) == CALLS_NAME
}

/// Returns whether the calls note is one of `notes`. Makes one pass over the notes.
fn has_calls_note(notes: &Memory<'_>) -> bool
    ensures { result ≡ has_calls_note (length notes.now) notes.now }
{
    let mut rest = notes.skip(0);
    for _ in 0..notes.len() {
        if is_calls_note(&rest) {
            return true;
        }
        let Some(next) = behind_note(&rest) else {
            return false;
        };
        rest = next;
    }
    false
}

/// Returns whether program header number `i` describes notes that this module reads: whether it is
/// a PT_NOTE with the alignment 4.
fn is_of_notes(headers: &Memory<'_>, i: usize) -> bool
    requires small { length headers.now < 2 ^ 32 }
    requires within { i < length headers.now / 56 }
    ensures { result ≡ is_of_notes headers.now i }
{
    u32_in(headers, PROGRAM_HEADER_SIZE * i) == PT_NOTE
        && u64_in(headers, PROGRAM_HEADER_SIZE * i + 48) == NOTE_ALIGNMENT
}

/// Returns the number of the first program header, among the first `count`, that describes notes
/// that this module reads. Makes one pass over the headers.
#[tactic(auto, unfolding(crate::specs::Note::find_notes))]
fn find_notes(headers: &Memory<'_>, count: u64) -> Option<usize>
    ensures found { result ≡ find_notes headers.now count }
    ensures fits { length headers.now < 2 ^ 32 }
{
    let whole = headers.len() / PROGRAM_HEADER_SIZE;
    let count = (whole as u64).min(count) as usize;
    (0..count).find(|i| is_of_notes(headers, *i))
}

/// Returns the notes that program header number `i` of an object describes.
fn notes_by<'a>(base: u64, own: &'a [Segment], headers: &Memory<'_>, i: usize) -> Memory<'a>
    requires small { length headers.now < 2 ^ 32 }
    requires within { i < length headers.now / 56 }
    ensures { result ≡ notes_by base own.now headers.now i }
{
    let place = u64_in(headers, PROGRAM_HEADER_SIZE * i + 16);
    let size = u64_in(headers, PROGRAM_HEADER_SIZE * i + 32);
    first_bytes(&section_memory(base, own, Some(place)), size)
}

/// Returns the notes of an object, or no bytes if none of its program headers describes notes that
/// this module reads.
fn notes_of<'a>(object: &ImageObject, own: &'a [Segment]) -> Memory<'a>
    ensures { result ≡ notes_of object.now own.now }
{
    let headers = section_memory(object.base, own, object.addresses.headers);
    match find_notes(&headers, object.addresses.header_count) {
        None => Memory::new(&[], 0),
        Some(i) => notes_by(object.base, own, &headers, i),
    }
}

/// Returns whether the program has the calls note: whether the program itself calls the functions
/// that a loader would call.
pub(crate) fn calls_itself(image: &Image) -> bool
    ensures { result ≡ calls_itself image.now }
{
    match image.objects() {
        [] => false,
        [program, ..] => {
            let (own, _) = split(image.segments(), program.segment_count);
            has_calls_note(&notes_of(program, own))
        }
    }
}
