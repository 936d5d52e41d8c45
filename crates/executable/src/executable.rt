// Makes and writes an executable file.

ghost use Rattle.std.specs.Prelude.{◌≡◌, ℕ, ◌+◌, ◌<◌, ◌≤◌, ◌++◌, ◌⊎◌, replicate, length};
ghost use Rattle.std.specs.Prelude.{Some, None, IfOk, OnOk, IfErr};
ghost use Rattle.std.specs.List.{All, flat_map};
ghost use Rattle.std.specs.Io.KnownBytes.{Appends};
ghost use Rattle.elf_file.specs.Header.{entry_address, header_count};
ghost use Rattle.elf_file.specs.Segment.{loads};
ghost use Rattle.image.specs.Image.{image_byte};
ghost use Rattle.executable.specs.Meaning.{IsExecutable, IsFileOf, IsFrom, IsApart};
ghost use Rattle.executable.specs.Meaning.{IsCongruent, file_byte, loaded_by};
ghost use Rattle.executable.specs.File.{file_with, front_of, table_of, padded, piece_bytes};
ghost use Rattle.executable.specs.Entry.{entry_of};
ghost use Rattle.executable.specs.inside.Calls.{HasNoCalls};
ghost use Rattle.executable.specs.Refusal.{executable_refusal, IsAnswer};

use crate::entry::entry_of;
use crate::front::{front_of, table_of};
use crate::initializers::{first_finalized, first_initialized, is_preinitialized};
use crate::merging::pieces_of;
use crate::note::calls_itself;
use crate::piece::Piece;
use crate::place::{MEMORY_LIMIT, MOST_HEADERS, PAGE, padding, place_of};
use crate::refusal::ExecutableRefusal;
use crate::static_pie::is_static_pie;
use crate::writable_code::{first_unasked, owner};
use elf_file::u16_at;
use image::Image;
use names::Name;
use std::alloc::{AllocError, Global};
use std::io::{self, Write};
use std::marker::Model;

/// A static executable file. In contracts, the value is its bytes.
#[derive(Drop)]
pub struct Executable {
    front: Vec<u8>,
    pieces: Vec<Piece>,
}

impl Model for Executable {
    ghost use Rattle.std.specs.Prelude.{List, ℕ};
    ghost use Rattle.executable.specs.File.{file_with};

    ghost Value = { List ℕ };

    ghost use Rattle.std.specs.Prelude.{◌≤◌, length};

    ghost view = { λ e. file_with e.front.items e.pieces.items };

    // The bytes of `front` are at least a whole file header.
    ghost invariant = { λ e. 64 ≤ length e.front.items };
}

/// Writes `count` zeros, at most 4,096.
fn write_zeros<W: Write>(out: &mut W, count: usize) -> io::Result<()>
    requires { count ≤ 4096 }
    ensures { OnOk result
        (Appends (W.contents out.old) (W.contents out.new) (replicate count 0)) }
{
    let zeros = [0; 4096];
    out.write_all(&zeros[..count])
}

/// Writes `before` zeros, then `bytes`, and then zeros up to the end of the page.
fn write_padded<W: Write>(out: &mut W, before: usize, bytes: &[u8]) -> io::Result<()>
    requires { before < 4096 }
    ensures { OnOk result (Appends (W.contents out.old) (W.contents out.new)
        (padded (replicate before 0 ++ bytes.now))) }
{
    write_zeros(out, before)?;
    out.write_all(bytes)?;
    let last = before as u64 + bytes.len() as u64 % PAGE;
    write_zeros(out, padding(last) as usize)
}

/// Writes the pages of the pieces, one piece after the other.
fn write_pieces<W: Write>(out: &mut W, pieces: &[Piece]) -> io::Result<()>
    ensures { OnOk result (Appends (W.contents out.old) (W.contents out.new)
        (flat_map piece_bytes pieces.now)) }
{
    for piece in pieces {
        write_padded(out, (piece.address() % PAGE) as usize, piece.contents())?;
    }
    Ok(())
}

impl Executable {
    /// The number of program headers.
    pub fn header_count(&self) -> u16
        ensures { result ≡ header_count self.now }
    {
        u16_at(&self.front, 56)
    }

    /// Writes the file. Allocates nothing.
    #[tactic(auto, unfolding(crate::specs::File::file_with))]
    pub fn write_to<W: Write>(&self, out: &mut W) -> io::Result<()>
        ensures { OnOk result (Appends (W.contents out.old) (W.contents out.new) self.now) }
    {
        write_padded(out, 0, &self.front)?;
        write_pieces(out, &self.pieces)
    }
}

/// Returns the refusal `Initializers` with the library's name, or `OutOfMemory`.
fn initialized(alloc: Global, name: &Name) -> ExecutableRefusal
    ensures { (result ≡ ExecutableRefusal.Initializers name.now)
        ⊎ (result ≡ ExecutableRefusal.OutOfMemory) }
{
    match Name::copy_of(alloc, name.as_bytes()) {
        Ok(name) => ExecutableRefusal::Initializers { name },
        Err(_) => ExecutableRefusal::OutOfMemory,
    }
}

/// Returns the refusal `Finalizers` with the library's name, or `OutOfMemory`.
fn finalized(alloc: Global, name: &Name) -> ExecutableRefusal
    ensures { (result ≡ ExecutableRefusal.Finalizers name.now)
        ⊎ (result ≡ ExecutableRefusal.OutOfMemory) }
{
    match Name::copy_of(alloc, name.as_bytes()) {
        Ok(name) => ExecutableRefusal::Finalizers { name },
        Err(_) => ExecutableRefusal::OutOfMemory,
    }
}

/// Returns the refusal `WritableCode` with the object's name, or `OutOfMemory`.
fn writable_code(alloc: Global, name: &[u8]) -> ExecutableRefusal
    ensures { (result ≡ ExecutableRefusal.WritableCode name.now)
        ⊎ (result ≡ ExecutableRefusal.OutOfMemory) }
{
    match Name::copy_of(alloc, name) {
        Ok(name) => ExecutableRefusal::WritableCode { name },
        Err(_) => ExecutableRefusal::OutOfMemory,
    }
}

/// Returns the image's entry if none of these tests refuses: the program has no entry in its own
/// code; it relocates itself; an object has functions that nobody would call. Otherwise returns the
/// refusal of the first test that refuses. If the program has a note that it calls these functions
/// itself, the tests of functions don't refuse.
fn entry_to_call(alloc: Global, image: &Image) -> Result<u64, ExecutableRefusal>
    ensures entry { IfOk result (λ entry. entry_of image.now ≡ Some entry) }
    ensures called { OnOk result (HasNoCalls image.now) }
    ensures refused { IfErr result (IsAnswer image.now) }
{
    let Some(entry) = entry_of(image) else {
        return Err(ExecutableRefusal::NoEntry);
    };
    if is_static_pie(image) {
        return Err(ExecutableRefusal::StaticPie);
    }
    if calls_itself(image) {
        return Ok(entry);
    }
    if is_preinitialized(image) {
        return Err(ExecutableRefusal::PreInitializers);
    }
    if let Some(name) = first_initialized(image) {
        return Err(initialized(alloc, name));
    }
    if let Some(name) = first_finalized(image) {
        return Err(finalized(alloc, name));
    }
    Ok(entry)
}

/// Makes the file that loads `pieces`, and whose headers are mapped at address `place`.
fn file_of(
    alloc: Global,
    entry: u64,
    place: u64,
    pieces: Vec<Piece>,
) -> Result<Executable, AllocError>
    requires place { place ≤ MEMORY_LIMIT }
    requires count { length pieces.items + 3 ≤ MOST_HEADERS }
    requires contents { All (λ p. length p.contents ≤ MEMORY_LIMIT) pieces.items }
    ensures { IfOk result (λ file.
        file ≡ file_with (front_of entry (table_of place pieces.items)) pieces.items) }
{
    let table = table_of(alloc, place, &pieces)?;
    let front = front_of(alloc, entry, &table)?;
    Ok(Executable { front, pieces })
}

/// Makes the static executable file of a bound program.
///
/// Returns the file, or the first of these refusals: the program has no entry in its own code; it
/// is a static PIE; it has pre-initializers; a library has initializers; a library has finalizers;
/// there are more program headers than the kernel accepts; memory may be written and executed
/// although no segment in it requests both; no pages are free for the headers. If the program has a
/// note that it calls its libraries' functions itself, the three refusals for functions don't
/// apply.
///
/// Allocates as much memory as the image's bytes, and up to three times as much if it joins
/// segments. Makes two passes over the bytes.
pub fn executable_of(alloc: Global, image: &Image) -> Result<Executable, ExecutableRefusal>

    // Returns a file only if no test refuses. Otherwise returns the refusal of the first test that
    // refuses, or OutOfMemory.
    ensures accepted { OnOk result (executable_refusal image.now ≡ None) }
    ensures refused { IfErr result (IsAnswer image.now) }

    // The file is an ELF-64 file for x86-64 of type ET_EXEC, with the program's entry.
    ensures header { IfOk result IsExecutable }
    ensures entry { IfOk result (λ file.
        entry_of image.now ≡ Some (entry_address file)) }

    // The file has the defined program headers. They load the defined pieces of the segments, with
    // their permissions.
    ensures ok { IfOk result (IsFileOf image.now.segments) }

    // The offset of each PT_LOAD is congruent to its address, modulo the size of a page.
    ensures congruent { IfOk result (λ file. All IsCongruent (loads file)) }

    // The file loads the image's byte at each address of the image.
    ensures loads { IfOk result (λ file. (a b : ℕ) →
        image_byte image.now a ≡ Some b → file_byte file a ≡ Some b) }

    // Apart from these bytes, the file loads only its own headers, and zeros that lie between two
    // bytes of segments in the same page or in adjacent pages.
    ensures only { IfOk result (λ file. (a b : ℕ) →
        file_byte file a ≡ Some b → IsFrom image.now.segments file a b) }

    // The segments that the file loads are in ascending order of address, and no two segments share
    // a page.
    ensures apart { IfOk result (λ file. IsApart 0 (loaded_by file)) }
{
    let entry = entry_to_call(alloc, image)?;
    let pieces = pieces_of(alloc, image.segments())?;
    if pieces.len() + 3 > MOST_HEADERS {
        return Err(ExecutableRefusal::TooManyHeaders);
    }
    if let Some(piece) = first_unasked(image.segments(), &pieces) {
        return Err(writable_code(alloc, owner(image, piece)));
    }
    let Some(place) = place_of(&pieces) else {
        return Err(ExecutableRefusal::NoPages);
    };
    Ok(file_of(alloc, entry, place, pieces)?)
}
