// Puts the list of the libraries and preloads into buffers.
ghost use Rattle.std.specs.Prelude.{◌≡◌};
ghost use Rattle.byte_registry.specs.Bytes.{HoldStore};
ghost use Rattle.requests.specs.declared.reply.Reply.TheVariants as variant;
ghost use Rattle.c_answers.specs.Answers.{IsListAnswered, IsListGiven, IsListTold};
ghost use Rattle.states.specs.State.{State};

use crate::answer::Answer;
use crate::entry::EntryPlace;
use crate::listing::put_listing;
use crate::status::DONE;
use crate::text::{tell, turn_away};
use byte_registry::{ask, generation_of};
use requests::{Command, Listing, Reply};
use std::alloc::Global;

/// Puts `listing`, the listing of `reply`, into the buffers, and reports the reply. If a buffer is
/// too small, returns the sizes that are needed for both buffers.
fn give(
    alloc: Global,
    reply: &Reply,
    listing: &Listing,
    entries: &mut [EntryPlace],
    names: &mut [u8],
    text: &mut [u8],
) -> Answer
    requires { reply.now ≡ variant.Listing listing.now }
    ensures { IsListGiven listing.now entries.new names.new text.new result result.status }
{
    let given = put_listing(listing, entries, names);
    if given.status != DONE {
        return given;
    }
    Answer {
        count: given.count,
        preloads: given.preloads,
        bytes: given.bytes,
        ..tell(alloc, reply, text)
    }
}

/// Puts the listing of the reply into the buffers, and the disk's generation into the answer. If
/// the reply has no listing, reports the reply.
fn tell_list(
    alloc: Global,
    disk: &[u8],
    reply: &Reply,
    entries: &mut [EntryPlace],
    names: &mut [u8],
    text: &mut [u8],
) -> Answer
    ensures { (s : State) → HoldStore disk.now s
        → IsListTold s reply.now entries.new names.new text.new result result.status }
{
    match reply {
        Reply::Listing(listing) => Answer {
            generation: generation_of(disk),
            ..give(alloc, reply, listing, entries, names, text)
        },
        Reply::Done => tell(alloc, reply, text),
        Reply::Bound(_) => tell(alloc, reply, text),
        Reply::Refused(_) => tell(alloc, reply, text),
    }
}

/// Puts the libraries and preloads of the registry on `disk` into the buffers. If this is
/// impossible, reports why.
pub fn list_on(
    alloc: Global,
    disk: &[u8],
    entries: &mut [EntryPlace],
    names: &mut [u8],
    text: &mut [u8],
) -> Answer
    ensures { IsListAnswered disk.now entries.new names.new text.new result result.status }
{
    match ask(alloc, disk, &Command::List) {
        Ok((reply, _)) => tell_list(alloc, disk, &reply, entries, names, text),
        Err((refusal, _)) => turn_away(alloc, refusal, text),
    }
}
