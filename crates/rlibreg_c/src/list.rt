// Lists the libraries and preloads.
ghost use Rattle.std.specs.Prelude.{◌≡◌, ◌≢◌};
ghost use Rattle.c_answers.specs.Answers.{IsListAnswered};
ghost use Rattle.c_answers.specs.Listing.{IsListingOf};

use c_answers::{Answer, EntryPlace, list_on};
use std::alloc::Global;

/// Lists the libraries and the preloads of the registry that the sectors of `disk` hold. Puts the
/// libraries in the order of their installation, and then the preloads in their order, into
/// `entries`, and their names, each followed by a byte 0, into `names`. If one of these two buffers
/// is too small, returns the sizes that are needed for both buffers.
#[unsafe(no_mangle)]
pub extern "C" fn rlibreg_list(
    alloc: Global,
    disk: &[u8],
    entries: &mut [EntryPlace],
    names: &mut [u8],
    text: &mut [u8],
    answer: &mut Answer,
) -> u32
    // The buffers have the listing of the state that the bytes hold.
    ensures listing { result ≡ 0 → IsListingOf disk.now entries.new names.new answer.new }
    ensures answered { IsListAnswered disk.now entries.new names.new text.new answer.new result }
    ensures status { answer.new.status ≡ result }

    // The result is never S1 (Device), because a disk of bytes fails only if memory is refused.
    ensures device { result ≢ 301 }
{
    *answer = list_on(alloc, disk, entries, names, text);
    answer.status
}
