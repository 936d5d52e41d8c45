// Tests that the line of each refusal is written with one write.

use crate::streams::Full;
use elf_dynamic::ObjectRefusal;
use hash_check::FileRefusal;
use image::BindRefusal;
use names::Name;
use program_parts::{write_file_refusal, write_refusal};
use std::alloc::{AllocError, Global};
use std::test::Fail;

/// Returns the refusal for a missing library, with copies of the names.
fn missing(alloc: Global, needer: &[u8], name: &[u8]) -> Result<BindRefusal, AllocError> {
    Ok(BindRefusal::Missing {
        needer: Name::copy_of(alloc, needer)?,
        name: Name::copy_of(alloc, name)?,
    })
}

/// Returns the number of calls of a writer that the line of `refusal` takes, and the line's length
/// in bytes.
fn calls_of(refusal: &BindRefusal) -> Option<(u64, usize)> {
    let mut out = Full::with_room(4096);
    match write_refusal(&mut out, refusal) {
        Ok(()) => Some((out.calls, 4096_usize.saturating_sub(out.room))),
        Err(_) => None,
    }
}

/// Refusals that name no object, and the lengths of their lines.
const NAMELESS: [(BindRefusal, usize); 6] = [
    (
        BindRefusal::Program(FileRefusal::Object(ObjectRefusal::TooShort)),
        23,
    ),
    (
        BindRefusal::Program(FileRefusal::Object(ObjectRefusal::RelocationType(u32::MAX))),
        41,
    ),
    (BindRefusal::Program(FileRefusal::DuplicateDefinition), 35),
    (BindRefusal::BadBase, 19),
    (BindRefusal::NoRoom, 18),
    (BindRefusal::OutOfMemory, 24),
];

#[test]
fn a_line_without_names_is_one_write(rt: HostRuntime) {
    for (refusal, length) in &NAMELESS {
        assert!(rt; calls_of(refusal) == Some((1, *length)));
    }
}

#[test]
fn a_line_with_names_is_one_write(rt: HostRuntime) -> Result<(), Fail> {
    let alloc = rt.alloc();
    let name = [b'x'; 240];
    let long = calls_of(&missing(alloc, b"/program", &name)?);
    let zeros = calls_of(&missing(alloc, &[0; 240], b"")?);
    let undefined = calls_of(&BindRefusal::undefined(alloc, &name, &[0xff; 240]));
    // A byte that isn't visible takes four bytes of text.
    let wanted = [Some((1, 269)), Some((1, 983)), Some((1, 1223))];
    assert!(rt; [long, zeros, undefined] == wanted);
    Ok(())
}

#[test]
fn the_refusal_of_a_file_is_one_write(rt: HostRuntime) {
    let refusal = FileRefusal::Object(ObjectRefusal::RelocationType(7));
    let mut out = Full::with_room(40);
    let is_written = write_file_refusal(&mut out, refusal).is_ok();
    assert!(rt; (is_written, out.calls, out.room) == (true, 1, 20));
}
