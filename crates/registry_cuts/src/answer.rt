// Writes answers as texts, so that they can be compared.

use anyhow::{Result, bail};
use binders::EventReply;
use requests::{Refusal, Reply};
use std::alloc::Global;
use std::io::Write;

/// The text of the reply to an accepted change.
pub(crate) const DONE: &[u8] = b"done";

/// The texts of two refusals: a call of the disk failed now, or an earlier call failed.
pub(crate) const DEVICE: &[u8] = b"Device";

pub(crate) const REOPEN: &[u8] = b"Reopen";

// Appends to `text` the text of the reply to a command.
fn put_answer(text: &mut Vec<u8>, reply: &Reply) -> Result<()> {
    match reply {
        Reply::Done => text.extend_from_slice(DONE)?,
        Reply::Listing(listing) => write!(text, "{listing:?}")?,
        Reply::Bound(image) => {
            if image.write_text(text).is_err() {
                bail!("no memory for a text");
            }
        }
        Reply::Refused(refusal) => write!(text, "{refusal:?}")?,
    }
    Ok(())
}

/// Returns the text of the reply to a command.
pub(crate) fn answer(alloc: Global, reply: &Reply) -> Result<Vec<u8>> {
    let mut text = Vec::new(alloc);
    put_answer(&mut text, reply)?;
    Ok(text)
}

/// Returns the texts of the replies to commands.
pub(crate) fn answers(alloc: Global, replies: &[Reply]) -> Result<Vec<Vec<u8>>> {
    let mut answers = Vec::new(alloc);
    for reply in replies {
        answers.push(answer(alloc, reply)?)?;
    }
    Ok(answers)
}

/// Returns the answers to the lines of an update, followed by the answer to its commit.
pub(crate) fn with_commit(
    alloc: Global,
    answers: Vec<Vec<u8>>,
    made: std::result::Result<(), Refusal>,
) -> Result<Vec<Vec<u8>>> {
    let mut answers = answers;
    let reply = match made {
        Ok(()) => Reply::Done,
        Err(refusal) => Reply::Refused(refusal),
    };
    answers.push(answer(alloc, &reply)?)?;
    Ok(answers)
}

/// Returns the text of the reply to an event.
pub(crate) fn event_answer(alloc: Global, reply: &EventReply) -> Result<Vec<u8>> {
    let mut text = Vec::new(alloc);
    match reply {
        EventReply::Replied(reply) => put_answer(&mut text, reply)?,
        EventReply::Slot(slot) => write!(text, "slot {slot}")?,
        EventReply::Going => write!(text, "going")?,
    }
    Ok(text)
}

/// Returns the texts of the replies to events.
pub(crate) fn event_answers(alloc: Global, replies: &[EventReply]) -> Result<Vec<Vec<u8>>> {
    let mut answers = Vec::new(alloc);
    for reply in replies {
        answers.push(event_answer(alloc, reply)?)?;
    }
    Ok(answers)
}
