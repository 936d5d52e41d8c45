// Runs `look` on a disk once for each call of the disk, and lets this call fail.
use crate::stores::byte_strings::{formatted, put};
use crate::stores::sectors::copy;
use crate::stores::seen::{Seen, look};
use sector_disk::{Fuse, Memory};
use std::process::Abort;
use store::StoreRefusal;

// Makes a disk with 65 byte strings, which two catalogues list.
fn sixty_five(rt: &(impl Abort + AllocGlobal)) -> Memory {
    let mut store = formatted(rt, 136);
    for letter in b'0'..b'0' + 65 {
        put(rt, &mut store, letter, &[7; 64]);
    }
    store.into_disk()
}

// Returns the first call of the disk whose failure `look` doesn't report. On this disk, `look`
// makes 70 calls.
fn unanswered(rt: &(impl Abort + AllocGlobal), disk: &Memory) -> Option<u64> {
    for call in 1..71 {
        let fuse: Fuse<Memory> = Fuse::new(copy(rt, disk), call, false, false);
        if look(rt, fuse) != Seen::Refused(StoreRefusal::Device) {
            return Some(call);
        }
    }
    None
}

#[test]
fn each_call_of_a_look_may_fail(rt: HostRuntime) {
    // The 70 calls are a sync, and reads of two roots, two catalogues and 65 entries. No further
    // call is made.
    let disk = sixty_five(&rt);
    let unanswered = unanswered(&rt, &disk);
    let further = look(&rt, Fuse::new(disk, 71, false, false));
    assert!(rt; unanswered.is_none() && further == Seen::Current(65));
}
