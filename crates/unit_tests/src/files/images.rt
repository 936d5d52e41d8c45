// Tests of images for facts that no clause and no stored case shows: calls that allocate succeed at
// their limits, and a writer's failure is reported. The program `cases` tests lines of text, bases,
// values, refusals and texts.

use image::{Image, bind_alone};
use samples::put;
use std::alloc::{AllocError, Global};
use std::io::Write;
use std::test::Fail;

/// A program of 400 bytes: one segment, and at 0xe0 a relocation that writes base + 0x2000 at
/// 0x188.
const SAMPLE: &str =
    "7f454c4602010100000000000000000003003e00010000000000000000000000400000000000000000000000\
    0000000000000000400038000200000000000000010000000600000000000000000000000000000000000000\
    00000000000000009001000000000000900100000000000000100000000000000200000006000000f8000000\
    00000000f800000000000000f800000000000000900000000000000090000000000000000800000000000000\
    0100000001000000000000000000000000000000000000000000000000000000000000000000000000000000\
    000000008801000000000000080000000000000000200000000000000400000000000000b000000000000000\
    0500000000000000d8000000000000000600000000000000c0000000000000000a0000000000000001000000\
    000000000b0000000000000018000000000000000700000000000000e0000000000000000800000000000000\
    1800000000000000090000000000000018000000000000000000000000000000000000000000000000000000\
    00000000";

/// Offsets of fields in the sample: the offset and the number of its program headers; the sizes of
/// its PT_LOAD in the file and in memory; the address and the size of its relocations.
const HEADERS_AT: usize = 0x20;

const HEADER_COUNT_AT: usize = 0x38;

const FILE_SIZE_AT: usize = 0x60;

const MEMORY_SIZE_AT: usize = 0x68;

const RELOCATIONS_AT: usize = 0x150;

const RELOCATIONS_SIZE_AT: usize = 0x160;

pub(crate) fn sample(alloc: Global) -> Result<Vec<u8>, Fail> {
    Ok(hex::decode(alloc, SAMPLE)?)
}

/// Appends numbers to a file, each as eight bytes in little endian order.
fn put_words(file: &mut Vec<u8>, words: &[u64]) -> Result<(), AllocError> {
    for word in words {
        file.extend_from_slice(&word.to_le_bytes())?;
    }
    Ok(())
}

/// Appends a copy of the file's two program headers to the file.
fn put_headers_again(alloc: Global, file: &mut Vec<u8>) -> Result<(), AllocError> {
    let headers = file.as_slice().get(64..176).unwrap_or(&[]).to_vec(alloc)?;
    file.extend_from_slice(&headers)
}

/// Appends the headers of 60,000 PT_LOADs to a file. Each has the file's first 17 bytes.
fn put_headers(file: &mut Vec<u8>) -> Result<(), AllocError> {
    for i in 0..60_000u64 {
        let address = 0x1000 + 32 * i;
        file.extend_from_slice(&1u32.to_le_bytes())?;
        file.extend_from_slice(&6u32.to_le_bytes())?;
        put_words(file, &[0, address, address, 17, 17, 1])?;
    }
    Ok(())
}

/// Returns the sample with a segment of `size` bytes of memory. The program headers are moved to
/// the file's end. The headers of 60,000 PT_LOADs with the file's first 17 bytes follow.
fn many_segments(alloc: Global, size: u64) -> Result<Vec<u8>, Fail> {
    let mut file = sample(alloc)?;
    put(&mut file, MEMORY_SIZE_AT, &size.to_le_bytes());
    put_headers_again(alloc, &mut file)?;
    put_headers(&mut file)?;
    put(&mut file, HEADERS_AT, &400u64.to_le_bytes());
    put(&mut file, HEADER_COUNT_AT, &60_002u16.to_le_bytes());
    Ok(file)
}

/// Appends the text of the segment at `address`.
fn put_segment(text: &mut Vec<u8>, address: u64) -> Result<(), Fail> {
    writeln!(text, "segment {address:#018x} 17 rw-")?;
    text.extend_from_slice(b"7f454c46020101000000000000000000\n03\n")?;
    Ok(())
}

/// Returns the text of the 60,000 segments, followed by the line `end`.
fn text_of_many(alloc: Global) -> Result<Vec<u8>, Fail> {
    let mut text = Vec::new(alloc);
    for i in 0..60_000u64 {
        put_segment(&mut text, 0x11000 + 32 * i)?;
    }
    text.extend_from_slice(b"end\n")?;
    Ok(text)
}

/// Appends 20,000 relocations to a file. Relocation i writes base + i at 0x188.
fn put_relocations(file: &mut Vec<u8>) -> Result<(), AllocError> {
    for i in 0..20_000u64 {
        put_words(file, &[0x188, 8, i])?;
    }
    Ok(())
}

/// Returns the sample with the 20,000 relocations of `put_relocations`.
fn many_relocations(alloc: Global) -> Result<Vec<u8>, Fail> {
    let mut file = sample(alloc)?;
    put_relocations(&mut file)?;
    let size = file.len() as u64;
    put(&mut file, FILE_SIZE_AT, &size.to_le_bytes());
    put(&mut file, MEMORY_SIZE_AT, &size.to_le_bytes());
    put(&mut file, RELOCATIONS_AT, &400u64.to_le_bytes());
    put(&mut file, RELOCATIONS_SIZE_AT, &480_000u64.to_le_bytes());
    Ok(file)
}

/// Returns the image of a program at 0x10000.
fn bound(alloc: Global, file: &[u8]) -> Result<Image, Fail> {
    match bind_alone(alloc, file, 0x10000) {
        Ok(image) => Ok(image),
        Err(_) => Err(Fail::from("refused")),
    }
}

/// Returns the image of the sample with 60,000 more segments, whose first segment has `size` bytes
/// of memory.
fn image_of_size(alloc: Global, size: u64) -> Result<Image, Fail> {
    let mut file = sample(alloc)?;
    put(&mut file, MEMORY_SIZE_AT, &size.to_le_bytes());
    bound(alloc, &file)
}

/// Returns the text of an image.
fn text_of(alloc: Global, image: &Image) -> Result<Vec<u8>, Fail> {
    let mut text = Vec::new(alloc);
    image.write_text(&mut text)?;
    Ok(text)
}

/// Returns three bytes of an image with many segments: the first byte of the first segment, the
/// last byte of the last segment, and the byte after that.
fn bytes_of_many(image: &Image) -> [Option<u8>; 3] {
    let last = 0x11000 + 32 * 59_999;
    [
        image.byte(0x11000),
        image.byte(last + 16),
        image.byte(last + 17),
    ]
}

/// Returns the three bytes of `bytes_of_many` for a first segment of `size` bytes of memory, the
/// length of the text, and whether the text ends with the line `end`.
fn seen_of_many(
    alloc: Global,
    size: u64,
    end: &[u8],
) -> Result<([Option<u8>; 3], usize, bool), Fail> {
    let file = many_segments(alloc, size)?;
    let image = bound(alloc, &file)?;
    let text = text_of(alloc, &image)?;
    Ok((bytes_of_many(&image), text.len(), text.ends_with(end)))
}

// A segment's lines have 70 bytes, and the writer gets pieces of 65,536 bytes. So the pieces of
// 60,000 segments end at every second offset within these lines. One more byte of memory in the
// first segment adds three bytes of text, so that the pieces end at the other offsets.
#[test]
fn binds_sixty_thousand_segments(rt: HostRuntime) -> Result<(), Fail> {
    let alloc = rt.alloc();
    let want = text_of_many(alloc)?;
    let seen = [
        seen_of_many(alloc, 400, &want)?,
        seen_of_many(alloc, 401, &want)?,
    ];
    let bytes = [Some(0x7f), Some(3), None];
    let length = 35 + 35 + 25 * 33 + want.len();
    assert!(rt; seen == [(bytes, length, true), (bytes, length + 3, true)]);
    Ok(())
}

/// Returns the bytes that the last relocation has written.
fn bytes_of_relocations(alloc: Global) -> Result<[Option<u8>; 4], Fail> {
    let file = many_relocations(alloc)?;
    let image = bound(alloc, &file)?;
    Ok([
        image.byte(0x10188),
        image.byte(0x10189),
        image.byte(0x1018a),
        image.byte(0x1018b),
    ])
}

#[test]
fn binds_twenty_thousand_relocations(rt: HostRuntime) -> Result<(), Fail> {
    let bytes = bytes_of_relocations(rt.alloc())?;
    // The last relocation writes 0x10000 + 19,999.
    assert!(rt; bytes == [Some(0x1f), Some(0x4e), Some(1), Some(0)]);
    Ok(())
}

/// The length of the text of 65,936 bytes of memory, which has 4,121 lines.
const LENGTH: usize = 35 + 37 + 2 * 65936 + 4121 + 4;

/// Numbers of bytes that are too few for this text.
const ROOMS: [usize; 5] = [0, 100, 65536, 65537, LENGTH - 1];

/// Returns whether the text of an image fits in `room` bytes.
fn fits(alloc: Global, image: &Image, room: usize) -> Result<bool, AllocError> {
    let mut held = vec![in alloc; 0u8; room]?;
    let mut out = held.as_mut_slice();
    Ok(image.write_text(&mut out).is_ok())
}

/// Returns the first number of bytes in `ROOMS` in which the text of an image fits.
fn first_fitting(alloc: Global, image: &Image) -> Result<Option<usize>, AllocError> {
    for &room in &ROOMS {
        if fits(alloc, image, room)? {
            return Ok(Some(room));
        }
    }
    Ok(None)
}

/// Returns the length of the text, and the first number of bytes in which it fits.
fn length_and_fitting(alloc: Global) -> Result<(usize, Option<usize>), Fail> {
    let image = image_of_size(alloc, 0x10190)?;
    let length = text_of(alloc, &image)?.len();
    Ok((length, first_fitting(alloc, &image)?))
}

#[test]
fn fails_where_the_writer_fails(rt: HostRuntime) -> Result<(), Fail> {
    assert!(rt; length_and_fitting(rt.alloc())? == (LENGTH, None));
    Ok(())
}
