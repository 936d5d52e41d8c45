// A part of an image that a file loads.

ghost use Rattle.std.specs.Prelude.{◌≡◌, ◌+◌, ◌≤◌, length, take, IfOk, OnOk};
ghost use Rattle.image.specs.Constant.{MEMORY_LIMIT};
ghost use Rattle.image.specs.Permissions.{permission_bits};
ghost use Rattle.executable.specs.Piece.{page_of, end_of, piece_of, shares_page, joined};
ghost use Rattle.executable.specs.Piece.{below, above, without_zeros, finished, is_both, goes_on};
ghost use Rattle.executable.specs.inside.Joining.{IsFull, IsShort};

use crate::place::PAGE;
use bitflags::Flags;
use image::Segment;
use std::alloc::{AllocError, Global};
use std::marker::Model;

/// The permission to write, as in `p_flags`.
const PF_W: u32 = 2;
/// The permissions to write and to execute.
const PF_WX: u32 = 3;

/// Returns the first address of the page of `address`.
pub(crate) fn page_of(address: u64) -> u64
    ensures { result ≡ page_of address }
{
    address - address % PAGE
}

/// Returns the permissions of a segment, as in `p_flags`.
pub(crate) fn flags_of(segment: &Segment) -> u32
    ensures { result ≡ permission_bits segment.now.permissions }
{
    u32::from(segment.permissions().bits()) & 7
}

/// Returns whether `flags`, as in `p_flags`, permit both writing and executing.
pub(crate) fn is_both(flags: u32) -> bool
    ensures { result ≡ is_both flags }
{
    flags & PF_WX == PF_WX
}

/// Returns the length of `bytes` without the zeros at their end.
fn length_without_zeros(bytes: &[u8]) -> usize
    ensures bound { result ≤ length bytes.now }
    ensures kept { take result bytes.now ≡ without_zeros bytes.now }
{
    let mut length = bytes.len();
    while length > 0 && bytes[length - 1] == 0 {
        length -= 1;
    }
    length
}

/// A part of an image that a file loads: the bytes of segments in pages that have the same
/// permissions. In contracts, the value is a PT_LOAD in memory.
#[derive(Drop)]
pub(crate) struct Piece {
    address: u64,
    flags: u32,
    size: u64,
    contents: Vec<u8>,
}

impl Model for Piece {
    ghost use Rattle.image.specs.Loading.{Loaded};

    ghost Value = { Loaded };

    ghost view = { λ p. record {
      heading = record { address = p.address; permissions = p.flags; size = p.size };
      contents = p.contents.items;
    } };
}

impl Piece {
    /// Makes a piece of a whole segment.
    pub(crate) fn of(alloc: Global, segment: &Segment) -> Result<Piece, AllocError>
        ensures { IfOk result (λ piece. piece ≡ piece_of segment.now) }
    {
        let memory = segment.memory();
        let mut contents = Vec::with_capacity(alloc, memory.len())?;
        memory.append_to(&mut contents)?;
        Ok(Piece {
            address: segment.address(),
            flags: flags_of(segment),
            size: memory.len() as u64,
            contents,
        })
    }

    /// The first address.
    pub(crate) fn address(&self) -> u64
        ensures { result ≡ self.now.heading.address }
    {
        self.address
    }

    /// The permissions of the piece, as in `p_flags`.
    pub(crate) fn flags(&self) -> u32
        ensures { result ≡ self.now.heading.permissions }
    {
        self.flags
    }

    /// The number of bytes of memory.
    pub(crate) fn size(&self) -> u64
        ensures { result ≡ self.now.heading.size }
    {
        self.size
    }

    /// The bytes of the piece that the file has.
    pub(crate) fn contents(&self) -> &[u8]
        ensures { result.now ≡ self.now.contents }
    {
        &self.contents
    }

    /// The address after the piece's last byte.
    pub(crate) fn end(&self) -> u64
        requires { end_of self.now ≤ MEMORY_LIMIT }
        ensures { result ≡ end_of self.now }
    {
        self.address + self.size
    }

    /// Returns whether the last page of this piece is the first page of `other`, which comes after
    /// it.
    pub(crate) fn shares_page(&self, other: &Piece) -> bool
        requires { end_of self.now ≤ MEMORY_LIMIT }
        ensures { result ≡ shares_page self.now other.now }
    {
        page_of(other.address) < self.end()
    }

    /// Returns whether this piece continues in `other`, which comes after it, so that one program
    /// header can load both.
    pub(crate) fn goes_on(&self, other: &Piece) -> bool
        requires short { IsShort self.now }
        requires limit { end_of self.now ≤ MEMORY_LIMIT }
        ensures { result ≡ goes_on self.now other.now }
    {
        self.flags == other.flags
            && !is_both(self.flags)
            && page_of(other.address) < self.address + self.contents.len() as u64 + PAGE
    }

    /// Joins `other`, which comes after this piece, to this piece.
    pub(crate) fn join(&mut self, other: &Piece) -> Result<(), AllocError>
        requires short { IsShort self.old }
        requires behind { end_of self.old ≤ other.now.heading.address }
        requires limit { end_of other.now ≤ MEMORY_LIMIT }
        ensures { OnOk result (self.new ≡ joined self.old other.now) }
    {
        let begin = other.address - self.address;
        self.contents.resize(begin as usize, 0)?;
        self.contents.extend_from_slice(&other.contents)?;
        self.flags |= other.flags;
        self.size = begin + other.size;
        Ok(())
    }

    /// Splits this piece at address `at`, and returns the part from `at` on. All bytes of the piece
    /// must be in its contents.
    pub(crate) fn split_off(&mut self, at: u64) -> Result<Piece, AllocError>
        requires full { IsFull self.old }
        requires from { self.old.heading.address ≤ at }
        requires to { at ≤ end_of self.old }
        ensures below { OnOk result (self.new ≡ below at self.old) }
        ensures above { IfOk result (λ piece. piece ≡ above at self.old) }
        ensures full { IfOk result (λ piece. IsFull piece) }
    {
        let size = at - self.address;
        let contents = self.contents.split_off(size as usize)?;
        let rest = Piece {
            address: at,
            flags: self.flags,
            size: self.size - size,
            contents,
        };
        self.size = size;
        Ok(rest)
    }

    /// Returns the piece as the file has it. If the piece may be written, its contents end before
    /// the zeros at their end.
    pub(crate) fn finish(mut self) -> Piece
        ensures { result ≡ finished self }
    {
        if self.flags & PF_W == PF_W {
            let length = length_without_zeros(&self.contents);
            self.contents.truncate(length);
        }
        self
    }
}
