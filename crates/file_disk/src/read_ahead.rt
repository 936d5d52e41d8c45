// Adjacent sectors that were read from the file. Some of them were read before a caller requested
// them.
ghost use Rattle.std.specs.Prelude.{◌≡◌, ◌≤◌, ◌<◌, vec_len, vec_capacity};

use crate::sector_file::SectorFile;
use crate::transfer::read_most;
use sector_disk::{DiskFault, SECTOR_BYTES};
use std::alloc::{AllocError, Global};

/// The maximum number of sectors that one read requests: 128 KiB.
const MOST: usize = 256;

/// The minimum number of sectors that a read requests, unless fewer can be read: 4 KiB.
const FIRST: usize = 8;

/// The read-ahead buffer: adjacent sectors, with the contents that the file returned for them.
#[derive(Drop)]
pub(crate) struct ReadAhead {
    start: u32,
    count: usize,
    // The maximum number of sectors in the buffer.
    room: usize,
    // The number of sectors that the last read requested.
    asked: usize,
    // The memory for all sectors is reserved. A read touches only the memory of the sectors that it
    // requests.
    contents: Vec<[u8; SECTOR_BYTES]>,
    ghost some: { 0 < room },
    ghost most: { room ≤ 256 },
    ghost size: { vec_len contents ≤ room },
    ghost reserved: { room ≤ vec_capacity contents },
    ghost filled: { count ≤ vec_len contents },
    ghost asks: { asked ≤ room },
}

impl ReadAhead {
    ghost use Rattle.std.specs.Prelude.{◌<◌, ◌+◌, ◌^◌, ℕ, None, false, IfOk, OnOk, OnErr};
    ghost use Rattle.std.specs.Prelude.{IsTrue, option_copied};
    ghost use Rattle.file_disk.specs.ReadAhead.{read_ahead_at, IsForgotten};
    ghost use Rattle.file_disk.specs.inside.Transfer.{IsFilled};

    /// Makes an empty read-ahead buffer for a disk of `sectors` sectors. Allocates all the memory
    /// that the buffer will ever use, and touches none of it.
    pub(crate) fn new(alloc: Global, sectors: u32) -> Result<ReadAhead, AllocError>
        ensures { IfOk result (λ read_ahead. (k : ℕ) → read_ahead_at read_ahead k ≡ None) }
    {
        let room = (sectors as usize).clamp(1, MOST);
        Ok(ReadAhead {
            start: 0,
            count: 0,
            room,
            asked: 0,
            contents: Vec::with_capacity(alloc, room)?,
        })
    }

    /// Returns the content that the file returned for sector `at`, if the buffer has it.
    pub(crate) fn get(&self, at: u32) -> Option<&[u8; SECTOR_BYTES]>
        ensures { option_copied result ≡ read_ahead_at self.now at }
    {
        if at < self.start {
            return None;
        }
        let place = (at - self.start) as usize;
        if place < self.count {
            Some(&self.contents[place])
        } else {
            None
        }
    }

    /// Empties the buffer if it has sector `at`.
    pub(crate) fn forget(&mut self, at: u32)
        ensures here { read_ahead_at self.new at ≡ None }
        ensures others { (k : ℕ) → IsForgotten self.old self.new k }
    {
        if self.get(at).is_some() {
            self.count = 0;
        }
    }

    // Sets the number of sectors that the next read requests: twice the previous number if `at` is
    // the sector after the buffered ones, and half of it otherwise.
    fn choose_length(&mut self, at: u32)
        ensures some { 0 < self.new.asked }
        ensures most { self.new.asked ≤ self.new.room }
        ensures room { self.new.room ≡ self.old.room }
        ensures start { self.new.start ≡ self.old.start }
        ensures contents { self.new.contents ≡ self.old.contents }
        ensures count { self.new.count ≡ 0 }
    {
        let is_next = self.count > 0 && at as usize == self.start as usize + self.count;
        let asked = if is_next {
            2 * self.asked
        } else {
            self.asked / 2
        };
        self.asked = asked.max(FIRST).min(self.room);
        self.count = 0;
    }

    // Extends the contents to at least `most` sectors, for a read.
    fn lengthen(&mut self, most: usize)
        requires { most ≤ self.old.room }
        ensures size { most ≤ vec_len self.new.contents }
        ensures room { self.new.room ≡ self.old.room }
        ensures start { self.new.start ≡ self.old.start }
        ensures count { self.new.count ≡ self.old.count }
        ensures asked { self.new.asked ≡ self.old.asked }
    {
        if self.contents.len() < most {
            match self.contents.resize(most, [0; SECTOR_BYTES]) {
                Ok(()) => {}
                Err(_) => unreachable!(),
            }
        }
    }

    /// Reads sector `at` and the sectors after it into the buffer. `choose_length` chooses the
    /// number of sectors, which is at most `most`.
    pub(crate) fn fill<F: SectorFile>(
        &mut self,
        file: &mut F,
        at: u32,
        most: usize,
    ) -> Result<(), DiskFault>
        requires some { 0 < most }
        requires fits { at + most < 2 ^ 32 }
        requires inside { IsTrue F.is_honest → at + most ≤ (F.facts file.old).sectors }
        requires trusted { IsTrue F.is_honest → (F.facts file.old).sync_failed ≡ false }
        ensures start { OnOk result (self.new.start ≡ at) }
        ensures some { OnOk result (0 < self.new.count) }
        ensures most { OnOk result (self.new.count ≤ most) }
        ensures honest { IsTrue F.is_honest → IsFilled (F.facts file.old) (F.facts file.new)
            self.new result }
        ensures err { OnErr result ((k : ℕ) → read_ahead_at self.new k ≡ None) }
    {
        self.choose_length(at);
        let end = self.asked.min(most);
        self.lengthen(end);
        self.start = at;
        self.count = read_most(file, at, &mut self.contents, end);
        if self.count > 0 {
            Ok(())
        } else {
            Err(DiskFault::Failed)
        }
    }
}
