// Files that need libraries.
use crate::bytes::put;
use std::alloc::{AllocError, Global};

/// The bytes of a file up to its dynamic section. They have the names `a`, `b`, `c`, `d`, `e`, `p`,
/// `f` and `z`, and a symbol `f` that the file exports.
const FRONT: &[u8] =
    b"\x7fELF\x02\x01\x01\0\0\0\0\0\0\0\0\0\x03\0>\0\x01\0\0\0\0\0\0\0\0\0\0\0@\0\0\0\0\0\0\0\
      \0\0\0\0\0\0\0\0\0\0\0\0@\08\0\x02\0\0\0\0\0\0\0\x01\0\0\0\x06\0\0\0\0\0\0\0\0\0\0\0\0\0\
      \0\0\0\0\0\0\0\0\0\0\0\0\0\0\0\0\0\0\0\0\0\0\0\0\0\0\0\0\0\0\0\x10\0\0\0\0\0\0\x02\0\0\0\
      \x06\0\0\0\x10\x01\0\0\0\0\0\0\x10\x01\0\0\0\0\0\0\x10\x01\0\0\0\0\0\0\0\0\0\0\0\0\0\0\0\
      \0\0\0\0\0\0\0\x08\0\0\0\0\0\0\0\x01\0\0\0\x02\0\0\0\x01\0\0\0\0\0\0\0\0\0\0\0\0\0\0\0\0\
      \0\0\0\0\0\0\0\0\0\0\0\0\0\0\0\0\0\0\0\0\0\0\0\x0d\0\0\0\x12\0\x01\0\0\0\0\0\0\0\0\0\x08\
      \0\0\0\0\0\0\0\0a\0b\0c\0d\0e\0p\0f\0z\0\0\0\0\0\0\0\0";

/// The last entries of the dynamic section. They follow the entries that a caller chooses.
const TAIL: &[u8] =
    b"\x04\0\0\0\0\0\0\0\xb0\0\0\0\0\0\0\0\x05\0\0\0\0\0\0\0\xf8\0\0\0\0\0\0\0\x06\0\0\0\0\0\0\
      \0\xc8\0\0\0\0\0\0\0\x0a\0\0\0\0\0\0\0\x11\0\0\0\0\0\0\0\x0b\0\0\0\0\0\0\0\x18\0\0\0\0\0\
      \0\0\0\0\0\0\0\0\0\0\0\0\0\0\0\0\0\0";

/// The names in `FRONT`, in their order.
const LETTERS: &[u8] = b"abcdepfz";

/// Returns an entry of the dynamic section whose value is a name of one letter. With tag 1 it is
/// the name of a needed library, and with tag 14 the library's own name.
pub fn named(tag: u64, letter: u8) -> [u8; 16] {
    let mut place = 1u64;
    for one in LETTERS {
        if *one == letter {
            break;
        }
        place = place.wrapping_add(2);
    }
    let mut entry = [0; 16];
    put(&mut entry, 0, &tag.to_le_bytes());
    put(&mut entry, 8, &place.to_le_bytes());
    entry
}

/// Writes the size of the whole file and the size of its dynamic section into the program headers.
/// Each is both a size in the file and a size in memory.
fn put_sizes(file: &mut [u8]) {
    let whole = file.len() as u64;
    let section = whole.saturating_sub(FRONT.len() as u64);
    put(file, 96, &whole.to_le_bytes());
    put(file, 104, &whole.to_le_bytes());
    put(file, 152, &section.to_le_bytes());
    put(file, 160, &section.to_le_bytes());
}

/// Makes a file that needs the libraries `needs`, whose names have one letter. After the entries of
/// these libraries comes the entry `entry`, which may be empty. If the file is shorter than `size`
/// bytes, zeros are appended up to this size.
pub fn needing_file(
    alloc: Global,
    needs: &[u8],
    entry: &[u8],
    size: usize,
) -> Result<Vec<u8>, AllocError> {
    let mut bytes = Vec::from_slice(alloc, FRONT)?;
    for letter in needs {
        bytes.extend_from_slice(&named(1, *letter))?;
    }
    bytes.extend_from_slice(entry)?;
    bytes.extend_from_slice(TAIL)?;
    put_sizes(&mut bytes);
    bytes.resize(size.max(bytes.len()), 0)?;
    Ok(bytes)
}
