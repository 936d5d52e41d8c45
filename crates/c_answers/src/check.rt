// Tests each library, and reports the findings.
ghost use Rattle.std.specs.Prelude.{◌≡◌, ◌-◌, ◌<◌, ◌≤◌, ◌^◌, ℕ, IfSome, IfNone, length};
ghost use Rattle.std.specs.Prelude.{count_by, min, slice_index_or};
ghost use Rattle.byte_disk.specs.ReadOnlyDisk.{read_only_facts};
ghost use Rattle.states.specs.State.{State};
ghost use Rattle.store.specs.Opened.{IsAt};
ghost use Rattle.store.specs.Stands.{no_library};
ghost use Rattle.contents.specs.Finding.{IsFinding, is_unreadable};
ghost use Rattle.contents.specs.declared.finding.Finding.{Finding};
ghost use Rattle.c_answers.specs.Check.{AreFound, IsCheckAnswered, IsCheckTold};
ghost use Rattle.c_answers.specs.Check.{library_names};

use crate::answer::Answer;
use crate::finding::{FindingPlace, finding_number, place_of};
use crate::put::put;
use crate::status::{DONE, NO_ROOM};
use crate::text::{tell_memory, turn_away};
use byte_disk::ReadOnlyDisk;
use byte_registry::contents_of;
use contents::{Contents, Finding};
use sector_disk::Disk;
use std::alloc::Global;
use store::Store;

/// Returns the number of bytes of the libraries' names, each followed by a byte 0, or 2^64 - 1 if
/// the number is greater.
fn names_bytes<D: Disk>(store: &Store<D>) -> u64
    ensures { (s : State) → IsAt D.facts store.now s
        → result ≡ min (length (library_names s.libraries)) (2 ^ 64 - 1) }
{
    let mut bytes = 0u64;
    for position in 0..store.count() {
        let name = store.name(position).len() as u64;
        bytes = bytes.saturating_add(name.saturating_add(1));
    }
    bytes
}

/// Puts the findings into `findings`, which has room for all of them, and the libraries' names into
/// `names`. Returns the number of bytes of the names, or `None` if a library can't be read or a
/// name has no room.
fn put_findings<D: Disk>(
    store: &Store<D>,
    found: &[Finding],
    findings: &mut [FindingPlace],
    names: &mut [u8],
) -> Option<usize>
    requires all { length found.now ≡ length store.now.entries }
    requires room { length store.now.entries ≤ length findings.old }
    ensures found { (s : State) → IsAt D.facts store.now s
        → ((i : ℕ) → i < length s.libraries → (d : Finding)
        → IsFinding (slice_index_or s.libraries i no_library) (slice_index_or found.now i d))
        → IfSome result (AreFound s.libraries findings.new names.new) }
    ensures unread { (s : State) → IsAt D.facts store.now s
        → length (library_names s.libraries) ≤ length names.old
        → IfNone result (0 < count_by is_unreadable found.now) }
{
    let mut at = 0usize;
    for position in 0..store.count() {
        let name = store.name(position);
        let finding = finding_number(found[position])?;
        findings[position] = place_of(name, finding, at);
        let behind = put(names, at, name)?;
        at = put(names, behind, b"\0")?;
    }
    Some(at)
}

/// Tests each library, and puts the findings into the two buffers. If a buffer is too small, reads
/// no file, and returns the sizes that are needed for both buffers.
fn look(
    alloc: Global,
    contents: &mut Contents<ReadOnlyDisk<'_>>,
    findings: &mut [FindingPlace],
    names: &mut [u8],
    text: &mut [u8],
) -> Answer
    requires { (s : State) × IsAt read_only_facts contents.old s }
    ensures { (s : State) → IsAt read_only_facts contents.old s
        → IsCheckTold s.libraries findings.new names.new text.new result result.status }
{
    let needed = Answer {
        count: contents.store().count() as u64,
        bytes: names_bytes(contents.store()),
        ..Answer::of(NO_ROOM)
    };
    if (findings.len() as u64) < needed.count || (names.len() as u64) < needed.bytes {
        return needed;
    }
    match contents.check(alloc) {
        Ok(found) => match put_findings(contents.store(), &found, findings, names) {
            Some(end) => Answer {
                status: DONE,
                bytes: end as u64,
                ..needed
            },
            None => unreachable!(),
        },
        Err(_) => tell_memory(text),
    }
}

/// Puts the finding for each library of the registry on `disk` into the buffers. If this is
/// impossible, reports why.
pub fn check_on(
    alloc: Global,
    disk: &[u8],
    findings: &mut [FindingPlace],
    names: &mut [u8],
    text: &mut [u8],
) -> Answer
    ensures { IsCheckAnswered disk.now findings.new names.new text.new result result.status }
{
    match contents_of(alloc, disk) {
        Ok(contents) => {
            let mut contents = contents;
            let answer = look(alloc, &mut contents, findings, names, text);
            let _ = contents.into_disk();
            answer
        }
        Err(refusal) => turn_away(alloc, refusal, text),
    }
}
