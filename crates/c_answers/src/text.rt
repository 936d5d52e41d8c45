// The text of a call's answer: the line or the reply that the program `rlibreg` prints.
ghost use Rattle.std.specs.Prelude.{◌≡◌, ◌↔◌, IsTrue};
ghost use Rattle.c_answers.specs.Answers.{HasText, WantsMemory, IsToldAlone, IsTurnedAway};
ghost use Rattle.c_answers.specs.Numbers.{reply_number, file_number_in};
ghost use Rattle.c_answers.specs.Unsaid.{IsUncounted};

use crate::answer::Answer;
use crate::status::{DONE, OUT_OF_MEMORY, file_refusal_number, refusal_status, store_status};
use program_parts::{write_disk_refusal, write_reply};
use requests::{Refusal, Reply};
use std::alloc::Global;
use store::StoreRefusal;

/// The line for refused memory.
const MEMORY_LINE: &[u8] = b"refused S11 OutOfMemory\n";

/// Puts the first bytes of `whole` into the buffer `text`, as many as fit. Returns the length of
/// `whole`.
pub(crate) fn put_text(whole: &[u8], text: &mut [u8]) -> u64
    ensures { HasText whole.now text.new result }
{
    let most = whole.len().min(text.len());
    text[..most].copy_from_slice(&whole[..most]);
    whole.len() as u64
}

/// Reports that memory was refused. Allocates nothing.
pub(crate) fn tell_memory(text: &mut [u8]) -> Answer
    ensures told { WantsMemory text.new result.text result.file_refusal result.status }
    ensures uncounted { IsUncounted result }
{
    Answer {
        text: put_text(MEMORY_LINE, text),
        ..Answer::of(OUT_OF_MEMORY)
    }
}

/// Returns the status of a reply.
fn reply_status(reply: &Reply) -> u32
    ensures { result ≡ reply_number reply.now }
{
    match reply {
        Reply::Refused(refusal) => refusal_status(refusal),
        _ => DONE,
    }
}

/// Returns the number n of the test En that refuses the file, if the reply is a refusal about a
/// refused file, and otherwise 0.
fn reply_file_refusal(reply: &Reply) -> u32
    ensures { result ≡ file_number_in reply.now }
{
    match reply {
        Reply::Refused(refusal) => file_refusal_number(refusal),
        _ => 0,
    }
}

/// Returns whether a reply is S1 (Device): a call of the disk failed.
fn is_failure(reply: &Reply) -> bool
    ensures { IsTrue result ↔ (reply.now ≡ Reply.Refused Refusal.Device) }
{
    matches!(reply, Reply::Refused(Refusal::Device))
}

/// Reports the reply to a command. If memory for the text is refused, or a call of the disk failed,
/// reports that memory was refused: a call of a disk of bytes fails only if memory is refused.
pub(crate) fn tell(alloc: Global, reply: &Reply, text: &mut [u8]) -> Answer
    ensures { IsToldAlone reply.now text.new result result.status }
{
    if is_failure(reply) {
        return tell_memory(text);
    }
    let mut whole = Vec::new(alloc);
    match write_reply(&mut whole, reply) {
        Ok(()) => Answer {
            file_refusal: reply_file_refusal(reply),
            text: put_text(&whole, text),
            ..Answer::of(reply_status(reply))
        },
        Err(_) => tell_memory(text),
    }
}

/// Returns whether a refusal is S1 (Device): a call of the disk failed.
fn is_device(refusal: StoreRefusal) -> bool
    ensures { IsTrue result ↔ (refusal ≡ StoreRefusal.Device) }
{
    matches!(refusal, StoreRefusal::Device)
}

/// Reports why there is no registry on a disk of bytes. If a call of the disk failed, reports that
/// memory was refused.
pub(crate) fn turn_away(alloc: Global, refusal: StoreRefusal, text: &mut [u8]) -> Answer
    ensures { IsTurnedAway refusal text.new result result.status }
{
    if is_device(refusal) {
        return tell_memory(text);
    }
    let mut whole = Vec::new(alloc);
    match write_disk_refusal(&mut whole, refusal) {
        Ok(()) => Answer {
            text: put_text(&whole, text),
            ..Answer::of(store_status(refusal))
        },
        Err(_) => tell_memory(text),
    }
}
