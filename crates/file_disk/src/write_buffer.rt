// The write buffer: adjacent sectors that were written to the disk, and are written to the file
// together.
ghost use Rattle.std.specs.Prelude.{◌≡◌, ◌≤◌, ◌<◌, All, vec_len, vec_capacity};
ghost use Rattle.sector_disk.specs.Disk.{IsWhole};

use sector_disk::SECTOR_BYTES;
use std::alloc::{AllocError, Global};

/// The maximum number of buffered sectors: 128 KiB.
const MOST: usize = 256;

/// The write buffer: adjacent sectors, each with the content that was written to it last.
#[derive(Drop)]
pub(crate) struct WriteBuffer {
    start: u32,
    // The maximum number of buffered sectors. The memory for them is reserved, but isn't touched
    // until they are buffered.
    room: usize,
    contents: Vec<[u8; SECTOR_BYTES]>,
    ghost some: { 0 < room },
    ghost whole: { All IsWhole contents.items },
    ghost filled: { vec_len contents ≤ room },
    ghost reserved: { room ≤ vec_capacity contents },
}

impl WriteBuffer {
    ghost use Rattle.std.specs.Prelude.{◌≢◌, ℕ, None, Some, true, false, IfOk, option_copied};
    ghost use Rattle.std.specs.Prelude.{[]};
    ghost use Rattle.file_disk.specs.WriteBuffer.{write_buffer_at, has_room, write_buffer_end};

    /// Makes an empty write buffer for a disk of `sectors` sectors. Allocates all the memory that
    /// the buffer will ever use, and touches none of it.
    pub(crate) fn new(alloc: Global, sectors: u32) -> Result<WriteBuffer, AllocError>
        ensures none { IfOk result (λ write_buffer. (k : ℕ)
            → write_buffer_at write_buffer k ≡ None) }
        ensures end { IfOk result (λ write_buffer. write_buffer_end write_buffer ≡ 0) }
    {
        let room = (sectors as usize).clamp(1, MOST);
        Ok(WriteBuffer {
            start: 0,
            room,
            contents: Vec::with_capacity(alloc, room)?,
        })
    }

    /// Returns the number of the first buffered sector.
    pub(crate) fn start(&self) -> u32
        ensures { result ≡ self.now.start }
    {
        self.start
    }

    /// Returns the number of the sector after the last buffered one.
    pub(crate) fn end(&self) -> usize
        ensures { result ≡ write_buffer_end self.now }
    {
        self.start as usize + self.contents.len()
    }

    /// Returns whether the buffer is empty.
    pub(crate) fn is_empty(&self) -> bool
        ensures none { result ≡ true → (k : ℕ) → write_buffer_at self.now k ≡ None }
        ensures some { result ≡ false → write_buffer_at self.now self.now.start ≢ None }
        ensures empty { result ≡ true → self.now.contents.items ≡ [] }
    {
        self.contents.is_empty()
    }

    /// Returns the content of sector `at` in the buffer, if the buffer has the sector.
    pub(crate) fn get(&self, at: u32) -> Option<&[u8; SECTOR_BYTES]>
        ensures { option_copied result ≡ write_buffer_at self.now at }
    {
        if at < self.start {
            return None;
        }
        let place = (at - self.start) as usize;
        if place < self.contents.len() {
            Some(&self.contents[place])
        } else {
            None
        }
    }

    /// Returns whether sector `at` can be buffered: the buffer is empty, or it has this sector, or
    /// the sector is the next one and there is room for it.
    pub(crate) fn has_room(&self, at: u32) -> bool
        ensures { result ≡ has_room self.now at }
    {
        if self.contents.is_empty() {
            return true;
        }
        if at < self.start {
            return false;
        }
        let place = (at - self.start) as usize;
        place <= self.contents.len() && place < self.room
    }

    /// Puts the content `from` of sector `at` into the buffer.
    pub(crate) fn put(&mut self, at: u32, from: &[u8; SECTOR_BYTES])
        requires { has_room self.old at ≡ true }
        ensures here { write_buffer_at self.new at ≡ Some from.now }
        ensures others { (k : ℕ) → k ≢ at
            → write_buffer_at self.new k ≡ write_buffer_at self.old k }
        ensures end { (n : ℕ) → at < n → write_buffer_end self.old ≤ n
            → write_buffer_end self.new ≤ n }
    {
        if self.contents.is_empty() {
            self.start = at;
        }
        let place = (at - self.start) as usize;
        if place < self.contents.len() {
            self.contents[place] = *from;
            return;
        }
        self.contents.push_reserved(*from);
    }

    /// Returns the contents of all buffered sectors, in the order of the sectors.
    pub(crate) fn contents(&self) -> &[[u8; SECTOR_BYTES]]
        ensures { result.now ≡ self.now.contents.items }
    {
        &self.contents
    }

    /// Empties the buffer.
    pub(crate) fn clear(&mut self)
        ensures none { (k : ℕ) → write_buffer_at self.new k ≡ None }
        ensures empty { self.new.contents.items ≡ [] }
        ensures start { self.new.start ≡ self.old.start }
    {
        self.contents.clear();
    }
}
