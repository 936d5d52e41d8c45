// Makes the file header and the program headers (gABI chapters 4 and 5).

ghost use Rattle.std.specs.Prelude.{◌≡◌, ◌+◌, ◌^◌, ◌<◌, ◌≤◌, ◌++◌, length, IfOk, OnOk};
ghost use Rattle.std.specs.List.{All};
ghost use Rattle.std.specs.Vec.{vec_len, vec_capacity};
ghost use Rattle.byteorder.specs.Endian.{little_bytes};
ghost use Rattle.executable.specs.File.{file_header, header_bytes, load_header, load_headers};
ghost use Rattle.executable.specs.File.{own_header, table_header, stack_header, table_of};
ghost use Rattle.executable.specs.File.{is_below, piece_bytes, front_of};

use crate::piece::Piece;
use crate::place::{MEMORY_LIMIT, MOST_HEADERS, PAGE, headers_size, whole_pages};
use byteorder::{ByteOrder, LittleEndian};
use elf_file::{PT_LOAD, ProgramHeader};
use std::alloc::{AllocError, Global};

const PT_PHDR: u32 = 6;

const PT_GNU_STACK: u32 = 0x6474_e551;

const PF_W: u32 = 2;

const PF_R: u32 = 4;

const FILE_HEADER_SIZE: u64 = 64;

const PROGRAM_HEADER_SIZE: u64 = 56;

/// The first bytes of each file header: 64 bits, little endian, System V, an executable, x86-64.
const BEGIN: [u8; 24] = [
    0x7f, b'E', b'L', b'F', 2, 1, 1, 0, 0, 0, 0, 0, 0, 0, 0, 0, 2, 0, 62, 0, 1, 0, 0, 0,
];
/// The bytes of each file header from the end of the entry to the number of program headers: the
/// program headers follow the file header, and there are no flags and no sections.
const MIDDLE: [u8; 24] = [
    64, 0, 0, 0, 0, 0, 0, 0, 0, 0, 0, 0, 0, 0, 0, 0, 0, 0, 0, 0, 64, 0, 56, 0,
];

fn put_u16(bytes: &mut Vec<u8>, number: u16) -> Result<(), AllocError>
    ensures { OnOk result (bytes.new.items ≡ bytes.old.items ++ little_bytes 2 number) }
{
    let mut buffer = [0; 2];
    LittleEndian::write_u16(&mut buffer, number);
    bytes.extend_from_slice(&buffer)
}

fn put_u32(bytes: &mut Vec<u8>, number: u32) -> Result<(), AllocError>
    ensures { OnOk result (bytes.new.items ≡ bytes.old.items ++ little_bytes 4 number) }
{
    let mut buffer = [0; 4];
    LittleEndian::write_u32(&mut buffer, number);
    bytes.extend_from_slice(&buffer)
}

fn put_u64(bytes: &mut Vec<u8>, number: u64) -> Result<(), AllocError>
    ensures { OnOk result (bytes.new.items ≡ bytes.old.items ++ little_bytes 8 number) }
{
    let mut buffer = [0; 8];
    LittleEndian::write_u64(&mut buffer, number);
    bytes.extend_from_slice(&buffer)
}

/// Appends a file header with entry `entry` and `count` program headers.
fn put_file_header(bytes: &mut Vec<u8>, entry: u64, count: u16) -> Result<(), AllocError>
    ensures { OnOk result (bytes.new.items ≡ bytes.old.items ++ file_header entry count) }
{
    bytes.extend_from_slice(&BEGIN)?;
    put_u64(bytes, entry)?;
    bytes.extend_from_slice(&MIDDLE)?;
    put_u16(bytes, count)?;
    bytes.extend_from_slice(&[0; 6])
}

/// Appends a program header.
#[tactic(auto, unfolding(crate::specs::File::header_bytes))]
fn put_program_header(bytes: &mut Vec<u8>, header: &ProgramHeader) -> Result<(), AllocError>
    ensures { OnOk result (bytes.new.items ≡ bytes.old.items ++ header_bytes header.now) }
{
    put_u32(bytes, header.kind)?;
    put_u32(bytes, header.flags)?;
    put_u64(bytes, header.offset)?;
    put_u64(bytes, header.address)?;
    put_u64(bytes, header.address)?;
    put_u64(bytes, header.file_size)?;
    put_u64(bytes, header.memory_size)?;
    put_u64(bytes, header.alignment)
}

/// Returns the bytes of the file header and of the program headers in `table`.
#[tactic(auto, unfolding(crate::specs::File::front_of))]
pub(crate) fn front_of(
    alloc: Global,
    entry: u64,
    table: &[ProgramHeader],
) -> Result<Vec<u8>, AllocError>
    requires { length table.now ≤ MOST_HEADERS }
    ensures { IfOk result (λ front. front.items ≡ front_of entry table.now) }
{
    let mut bytes = Vec::with_capacity(alloc, 64 + 56 * table.len())?;
    put_file_header(&mut bytes, entry, table.len() as u16)?;
    for header in table {
        put_program_header(&mut bytes, header)?;
    }
    Ok(bytes)
}

/// Returns the size, in bytes, of the pages of the file that contain the bytes of `piece`.
fn piece_size(piece: &Piece) -> u64
    requires { length piece.now.contents ≤ MEMORY_LIMIT }
    ensures { result ≡ length (piece_bytes piece.now) }
{
    whole_pages(piece.address() % PAGE + piece.contents().len() as u64)
}

/// Returns the PT_LOAD of `piece`, whose pages in the file begin at `offset`.
fn load_header(offset: u64, piece: &Piece) -> ProgramHeader
    requires { offset < 2 ^ 63 }
    ensures { result ≡ load_header offset piece.now }
{
    ProgramHeader {
        kind: PT_LOAD,
        flags: piece.flags(),
        offset: offset + piece.address() % PAGE,
        address: piece.address(),
        file_size: piece.contents().len() as u64,
        memory_size: piece.size(),
        alignment: PAGE,
    }
}

/// Appends the PT_LOADs of `pieces` to a table that has room for them. The pages of the first piece
/// begin at `offset` of the file, and the pages of each later piece follow those of the piece
/// before it.
fn put_load_headers(table: &mut Vec<ProgramHeader>, mut offset: u64, pieces: &[Piece])
    requires offset { offset ≤ 2 ^ 20 }
    requires count { length pieces.now ≤ MOST_HEADERS }
    requires contents { All (λ p. length p.contents ≤ MEMORY_LIMIT) pieces.now }
    requires room { vec_len table.old + length pieces.now ≤ vec_capacity table.old }
    ensures items { table.new.items ≡ table.old.items ++ load_headers offset pieces.now }
    ensures len { vec_len table.new ≡ vec_len table.old + length pieces.now }
    ensures capacity { vec_capacity table.new ≡ vec_capacity table.old }
{
    for piece in pieces {
        table.push_reserved(load_header(offset, piece));
        offset += piece_size(piece);
    }
}

/// Returns the PT_LOAD of the headers, which are mapped at address `place`. There are `count`
/// program headers.
fn own_header(place: u64, count: usize) -> ProgramHeader
    requires { count ≤ MOST_HEADERS }
    ensures { result ≡ own_header place count }
{
    ProgramHeader {
        kind: PT_LOAD,
        flags: PF_R,
        offset: 0,
        address: place,
        file_size: headers_size(count),
        memory_size: headers_size(count),
        alignment: PAGE,
    }
}

/// Returns the PT_PHDR, with the address and the offset of the program headers.
fn table_header(place: u64, count: usize) -> ProgramHeader
    requires place { place ≤ MEMORY_LIMIT }
    requires count { count ≤ MOST_HEADERS }
    ensures { result ≡ table_header place count }
{
    ProgramHeader {
        kind: PT_PHDR,
        flags: PF_R,
        offset: FILE_HEADER_SIZE,
        address: place + FILE_HEADER_SIZE,
        file_size: PROGRAM_HEADER_SIZE * count as u64,
        memory_size: PROGRAM_HEADER_SIZE * count as u64,
        alignment: 8,
    }
}

/// Returns the PT_GNU_STACK of a stack that may be read and written, but not executed.
fn stack_header() -> ProgramHeader
    ensures { result ≡ stack_header }
{
    ProgramHeader {
        kind: PT_GNU_STACK,
        flags: PF_R | PF_W,
        offset: 0,
        address: 0,
        file_size: 0,
        memory_size: 0,
        alignment: 16,
    }
}

/// Returns whether address `place` is below the first piece, or there are no pieces.
fn is_below(place: u64, pieces: &[Piece]) -> bool
    ensures { result ≡ is_below place pieces.now }
{
    match pieces {
        [] => true,
        [first, ..] => place < first.address(),
    }
}

/// Returns all program headers of a file whose headers are mapped at address `place`.
pub(crate) fn table_of(
    alloc: Global,
    place: u64,
    pieces: &[Piece],
) -> Result<Vec<ProgramHeader>, AllocError>
    requires place { place ≤ MEMORY_LIMIT }
    requires count { length pieces.now + 3 ≤ MOST_HEADERS }
    requires contents { All (λ p. length p.contents ≤ MEMORY_LIMIT) pieces.now }
    ensures { IfOk result (λ table. table.items ≡ table_of place pieces.now) }
{
    let count = pieces.len() + 3;
    let below = is_below(place, pieces);
    let mut table = Vec::with_capacity(alloc, count)?;
    table.push_reserved(table_header(place, count));
    if below {
        table.push_reserved(own_header(place, count));
    }
    let from = whole_pages(headers_size(count));
    put_load_headers(&mut table, from, pieces);
    if !below {
        table.push_reserved(own_header(place, count));
    }
    table.push_reserved(stack_header());
    Ok(table)
}
