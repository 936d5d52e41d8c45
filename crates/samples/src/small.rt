// The smallest library, and a program that needs a library.
use crate::bytes::put;
use std::alloc::{AllocError, Global};

/// The size of each file in bytes.
pub const SIZE: usize = 344;

// Offsets in the library's file: of the library's name, of a byte that is loaded and has no other
// use, and of the tag of the first entry of the dynamic section, which is the SONAME.
const NAME: usize = 217;

const VERSION: usize = 220;

const TAG: usize = 224;

// The tag, in `d_tag`, of a needed library.
const NEEDED: u8 = 1;

// A library named `a`, without symbols. All of its bytes are loaded.
const LIBRARY: &[u8; SIZE] =
    b"\x7fELF\x02\x01\x01\0\0\0\0\0\0\0\0\0\x03\0>\0\x01\0\0\0\0\0\0\0\0\0\0\0@\0\0\0\0\0\0\
    \0\0\0\0\0\0\0\0\0\0\0\0\0@\08\0\x02\0\0\0\0\0\0\0\x01\0\0\0\x06\0\0\0\0\0\0\0\0\0\0\
    \0\0\0\0\0\0\0\0\0\0\0\0\0\0\0\0\0X\x01\0\0\0\0\0\0X\x01\0\0\0\0\0\0\0\x10\0\0\0\0\0\
    \0\x02\0\0\0\x06\0\0\0\xe0\0\0\0\0\0\0\0\xe0\0\0\0\0\0\0\0\xe0\0\0\0\0\0\0\0p\0\0\0\0\
    \0\0\0p\0\0\0\0\0\0\0\x08\0\0\0\0\0\0\0\x01\0\0\0\x01\0\0\0\0\0\0\0\0\0\0\0\0\0\0\0\0\
    \0\0\0\0\0\0\0\0\0\0\0\0\0\0\0\0\0\0\0\0a\0\0\0\0\0\0\x0e\0\0\0\0\0\0\0\x01\0\0\0\0\0\
    \0\0\x04\0\0\0\0\0\0\0\xb0\0\0\0\0\0\0\0\x05\0\0\0\0\0\0\0\xd8\0\0\0\0\0\0\0\x06\0\0\
    \0\0\0\0\0\xc0\0\0\0\0\0\0\0\x0a\0\0\0\0\0\0\0\x04\0\0\0\0\0\0\0\x0b\0\0\0\0\0\0\0\x18\
    \0\0\0\0\0\0\0\0\0\0\0\0\0\0\0\0\0\0\0\0\0\0\0\0\0\0\0\0\0\0\0";

/// Returns `LIBRARY` with the name `name` and the version `version`. If the name is 0, the file
/// isn't a library.
pub fn library(name: u8, version: u8) -> [u8; SIZE] {
    let mut file = *LIBRARY;
    file[NAME] = name;
    file[VERSION] = version;
    file
}

/// Returns the file of `library`, with zeros appended up to `size` bytes.
pub fn padded(alloc: Global, name: u8, version: u8, size: usize) -> Result<Vec<u8>, AllocError> {
    let mut file = vec![in alloc; 0; size]?;
    put(&mut file, 0, &library(name, version));
    Ok(file)
}

/// Returns a program that needs the library with this name.
pub fn program(needed: u8) -> [u8; SIZE] {
    let mut file = *LIBRARY;
    file[NAME] = needed;
    file[TAG] = NEEDED;
    file
}
