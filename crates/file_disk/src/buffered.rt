// A file with its two buffers: the write buffer and the read-ahead buffer.
ghost use Rattle.std.specs.Prelude.{◌≡◌, ◌≤◌, ◌<◌, ◌^◌, false, IsTrue};
ghost use Rattle.file_disk.specs.ReadAhead.{KeepsOf};
ghost use Rattle.file_disk.specs.WriteBuffer.{write_buffer_end};
ghost use Rattle.file_disk.specs.inside.Apart.{IsApart};

use crate::read_ahead::ReadAhead;
use crate::sector_file::SectorFile;
use crate::transfer::write_all;
use crate::write_buffer::WriteBuffer;
use sector_disk::{DiskFault, SECTOR_BYTES};
use std::alloc::{AllocError, Global};

/// A file of `sectors` sectors, with its two buffers.
#[derive(Drop)]
pub(crate) struct Buffered<F: SectorFile> {
    pub(crate) file: F,
    pub(crate) sectors: u32,
    pub(crate) write_buffer: WriteBuffer,
    pub(crate) read_ahead: ReadAhead,
    // Whether a write or a sync has failed. If so, no call of the file is made any more.
    pub(crate) failed: bool,
    // Whether the file's length has been compared with the disk's since the file was opened or last
    // synced.
    compared: bool,
    // The read-ahead buffer has no content that a later write replaced.
    ghost apart: { IsApart write_buffer read_ahead },
    ghost few: { sectors < 2 ^ 32 },
    ghost inside: { write_buffer_end write_buffer ≤ sectors },
    ghost size: { IsTrue F.SectorFile.is_honest
        → (F.SectorFile.facts file).sectors ≡ sectors },
    ghost trusted: { IsTrue F.SectorFile.is_honest → failed ≡ false
        → (F.SectorFile.facts file).sync_failed ≡ false },
    ghost kept: { IsTrue F.SectorFile.is_honest → failed ≡ false
        → KeepsOf read_ahead (F.SectorFile.facts file).now },
}

impl<F: SectorFile + Drop> Buffered<F> {
    ghost use Rattle.std.specs.Prelude.{ℕ, None, IfOk};
    ghost use Rattle.file_disk.specs.ReadAhead.{read_ahead_at};
    ghost use Rattle.file_disk.specs.WriteBuffer.{write_buffer_at};

    /// Makes empty buffers over a file of `sectors` sectors. Makes no call of the file.
    pub(crate) fn new(alloc: Global, file: F, sectors: u32) -> Result<Buffered<F>, AllocError>
        requires sectors { IsTrue F.is_honest → (F.facts file).sectors ≡ sectors }
        requires trusted { IsTrue F.is_honest → (F.facts file).sync_failed ≡ false }
        ensures sectors { IfOk result (λ buffered. buffered.sectors ≡ sectors) }
        ensures file { IfOk result (λ buffered. buffered.file ≡ file) }
        ensures failed { IfOk result (λ buffered. buffered.failed ≡ false) }
        ensures waits { IfOk result (λ buffered. (k : ℕ)
            → write_buffer_at buffered.write_buffer k ≡ None) }
        ensures kept { IfOk result (λ buffered. (k : ℕ)
            → read_ahead_at buffered.read_ahead k ≡ None) }
    {
        Ok(Buffered {
            file,
            sectors,
            write_buffer: WriteBuffer::new(alloc, sectors)?,
            read_ahead: ReadAhead::new(alloc, sectors)?,
            failed: false,
            compared: false,
        })
    }
}

impl<F: SectorFile> Buffered<F> {
    ghost use Rattle.std.specs.Prelude.{◌≢◌, ◌⊎◌, [], ℕ, None, Some, true, IfSome, IsSome};
    ghost use Rattle.std.specs.Prelude.{OnOk, OnErr, is_err};
    ghost use Rattle.file_disk.specs.ReadAhead.{read_ahead_at, IsForgotten};
    ghost use Rattle.file_disk.specs.WriteBuffer.{write_buffer_at, has_room};
    ghost use Rattle.file_disk.specs.inside.Buffered.{IsStill, IsFailed, IsRefused, IsWrittenBack, IsRoomy};
    ghost use Rattle.file_disk.specs.inside.Buffered.{IsPut, IsSynced};

    /// Returns the file. The contents of the write buffer are lost.
    pub(crate) fn into_file(self) -> F
        ensures { result ≡ self.file }
    {
        let Buffered { file, .. } = self;
        file
    }

    // Compares the file's length with the disk's, and fails if they differ.
    fn check_length(&mut self) -> Result<(), DiskFault>
        requires { self.old.failed ≡ false }
        ensures sectors { self.new.sectors ≡ self.old.sectors }
        ensures write_buffer { self.new.write_buffer ≡ self.old.write_buffer }
        ensures read_ahead { self.new.read_ahead ≡ self.old.read_ahead }
        ensures ok { IsTrue F.is_honest → OnOk result (IsStill self.old self.new) }
        ensures err { IsTrue F.is_honest → OnErr result (IsFailed self.old self.new) }
        ensures failed { self.new.failed ≡ is_err result }
    {
        match self.file.count_sectors() {
            Ok(found) if found == self.sectors => {
                self.compared = true;
                Ok(())
            }
            _ => {
                self.failed = true;
                Err(DiskFault::Failed)
            }
        }
    }

    // Prevents writes to a truncated file: compares the length before the first write after the
    // opening or a sync. Also compares it before each write that reaches the file's end, because
    // such a write would hide a truncation from the next sync.
    fn check_write(&mut self) -> Result<(), DiskFault>
        requires { self.old.failed ≡ false }
        ensures sectors { self.new.sectors ≡ self.old.sectors }
        ensures write_buffer { self.new.write_buffer ≡ self.old.write_buffer }
        ensures read_ahead { self.new.read_ahead ≡ self.old.read_ahead }
        ensures ok { IsTrue F.is_honest → OnOk result (IsStill self.old self.new) }
        ensures err { IsTrue F.is_honest → OnErr result (IsFailed self.old self.new) }
        ensures failed { self.new.failed ≡ is_err result }
    {
        if self.compared && self.write_buffer.end() < self.sectors as usize {
            return Ok(());
        }
        self.check_length()
    }

    // Writes the write buffer to the file. The buffer stays as it is.
    fn write_back(&mut self) -> Result<(), DiskFault>
        requires { self.old.failed ≡ false }
        ensures sectors { self.new.sectors ≡ self.old.sectors }
        ensures write_buffer { self.new.write_buffer ≡ self.old.write_buffer }
        ensures read_ahead { self.new.read_ahead ≡ self.old.read_ahead }
        ensures ok { IsTrue F.is_honest → OnOk result (IsWrittenBack self.old self.new) }
        ensures err { IsTrue F.is_honest → OnErr result (IsFailed self.old self.new) }
        ensures failed { self.new.failed ≡ is_err result }
    {
        let start = self.write_buffer.start();
        if write_all(&mut self.file, start, self.write_buffer.contents()).is_ok() {
            return Ok(());
        }
        self.failed = true;
        Err(DiskFault::Failed)
    }

    // Writes the write buffer to the file, and clears it.
    fn flush(&mut self) -> Result<(), DiskFault>
        requires { self.old.failed ≡ false }
        ensures sectors { self.new.sectors ≡ self.old.sectors }
        ensures read_ahead { self.new.read_ahead ≡ self.old.read_ahead }
        ensures empty { OnOk result (self.new.write_buffer.contents.items ≡ []) }
        ensures waits { OnOk result ((k : ℕ) → write_buffer_at self.new.write_buffer k ≡ None) }
        ensures ok { IsTrue F.is_honest → OnOk result (IsWrittenBack self.old self.new) }
        ensures err { IsTrue F.is_honest → OnErr result (IsFailed self.old self.new) }
        ensures same { OnErr result (self.new.write_buffer ≡ self.old.write_buffer) }
        ensures failed { self.new.failed ≡ is_err result }
    {
        self.check_write()?;
        self.write_back()?;
        self.write_buffer.clear();
        Ok(())
    }

    // Writes the write buffer to the file if it has no room for sector `at`.
    fn make_room(&mut self, at: u32) -> Result<(), DiskFault>
        requires { self.old.failed ≡ false }
        ensures sectors { self.new.sectors ≡ self.old.sectors }
        ensures read_ahead { self.new.read_ahead ≡ self.old.read_ahead }
        ensures room { OnOk result (has_room self.new.write_buffer at ≡ true) }
        ensures moved { OnOk result
            (((self.new.file ≡ self.old.file) × (self.new.write_buffer ≡ self.old.write_buffer))
            ⊎ ((k : ℕ) → write_buffer_at self.new.write_buffer k ≡ None)) }
        ensures ok { IsTrue F.is_honest → OnOk result (IsRoomy self.old self.new) }
        ensures err { IsTrue F.is_honest → OnErr result (IsFailed self.old self.new) }
        ensures same { OnErr result (self.new.write_buffer ≡ self.old.write_buffer) }
        ensures failed { self.new.failed ≡ is_err result }
    {
        if self.write_buffer.has_room(at) {
            return Ok(());
        }
        self.flush()
    }

    /// Puts the content `from` of sector `at` into the write buffer.
    pub(crate) fn write(&mut self, at: u32, from: &[u8; SECTOR_BYTES]) -> Result<(), DiskFault>
        requires { at < self.old.sectors }
        ensures sectors { self.new.sectors ≡ self.old.sectors }
        ensures here { OnOk result (write_buffer_at self.new.write_buffer at ≡ Some from.now) }
        ensures others { OnOk result ((k : ℕ) → k ≢ at
            → (write_buffer_at self.new.write_buffer k ≡ write_buffer_at self.old.write_buffer k)
            ⊎ (write_buffer_at self.new.write_buffer k ≡ None)) }
        ensures forgotten { OnOk result (read_ahead_at self.new.read_ahead at ≡ None) }
        ensures kept { (k : ℕ) → IsForgotten self.old.read_ahead self.new.read_ahead k }
        ensures ok { IsTrue F.is_honest → OnOk result (IsPut at self.old self.new) }
        ensures err { IsTrue F.is_honest → OnErr result (IsRefused self.old self.new) }
        ensures same { OnErr result (self.new.write_buffer ≡ self.old.write_buffer) }
        ensures kept_err { OnErr result (self.new.read_ahead ≡ self.old.read_ahead) }
        ensures failed { self.new.failed ≡ is_err result }
        ensures stays { self.old.failed ≡ true → is_err result ≡ true }
    {
        if self.failed {
            return Err(DiskFault::Failed);
        }
        self.make_room(at)?;
        self.read_ahead.forget(at);
        self.write_buffer.put(at, from);
        Ok(())
    }

    /// Writes the write buffer to the file and syncs the file, so that the medium has all written
    /// contents. The write buffer keeps its contents until the sync has succeeded.
    pub(crate) fn sync(&mut self) -> Result<(), DiskFault>
        ensures sectors { self.new.sectors ≡ self.old.sectors }
        ensures read_ahead { self.new.read_ahead ≡ self.old.read_ahead }
        ensures waits { OnOk result ((k : ℕ) → write_buffer_at self.new.write_buffer k ≡ None) }
        ensures ok { IsTrue F.is_honest → OnOk result (IsSynced self.old self.new) }
        ensures err { IsTrue F.is_honest → OnErr result (IsRefused self.old self.new) }
        ensures same { OnErr result (self.new.write_buffer ≡ self.old.write_buffer) }
        ensures failed { self.new.failed ≡ is_err result }
        ensures stays { self.old.failed ≡ true → is_err result ≡ true }
    {
        if self.failed {
            return Err(DiskFault::Failed);
        }
        self.check_length()?;
        self.write_back()?; // the buffer is cleared only after the sync
        if self.file.sync().is_ok() {
            self.write_buffer.clear();
            self.compared = false;
            return Ok(());
        }
        self.failed = true;
        Err(DiskFault::Failed)
    }

    // Reads sector `at` and some sectors after it from the file into the read-ahead buffer. Reads
    // no sector that is in the write buffer.
    fn fill_read_ahead(&mut self, at: u32) -> Result<(), DiskFault>
        requires inside { at < self.old.sectors }
        requires open { self.old.failed ≡ false }
        requires waits_not { write_buffer_at self.old.write_buffer at ≡ None }
        ensures sectors { self.new.sectors ≡ self.old.sectors }
        ensures waits { self.new.write_buffer ≡ self.old.write_buffer }
        ensures failed { self.new.failed ≡ self.old.failed }
        ensures some { OnOk result (IsSome (read_ahead_at self.new.read_ahead at)) }
        ensures still { IsTrue F.is_honest → IsStill self.old self.new }
        ensures err { IsTrue F.is_honest → OnErr result
            ((F.facts self.old.file).failures < (F.facts self.new.file).failures) }
    {
        let sectors = self.sectors;
        let start = self.write_buffer.start();
        let end = if at < start && !self.write_buffer.is_empty() {
            start
        } else {
            sectors
        };
        let most = (end.max(at + 1) - at) as usize;
        self.read_ahead.fill(&mut self.file, at, most)
    }

    /// Copies the content of sector `at` to `into`. After a failed write or sync, makes no call of
    /// the file.
    pub(crate) fn read(&mut self, at: u32, into: &mut [u8; SECTOR_BYTES]) -> Result<(), DiskFault>
        requires inside { at < self.old.sectors }
        ensures sectors { self.new.sectors ≡ self.old.sectors }
        ensures waits { self.new.write_buffer ≡ self.old.write_buffer }
        ensures failed { self.new.failed ≡ self.old.failed }
        ensures waiting { IfSome (write_buffer_at self.old.write_buffer at)
            (λ content. (is_err result ≡ false) × (into.new ≡ content)) }
        ensures kept { write_buffer_at self.old.write_buffer at ≡ None
            → IfSome (read_ahead_at self.old.read_ahead at)
            (λ content. (is_err result ≡ false) × (into.new ≡ content)) }
        ensures buffered { IsSome (write_buffer_at self.old.write_buffer at)
            ⊎ IsSome (read_ahead_at self.old.read_ahead at) → self.new ≡ self.old }
        ensures over { self.old.failed ≡ true → self.new ≡ self.old }
        ensures answer { OnOk result ((write_buffer_at self.old.write_buffer at ≡ Some into.new)
            ⊎ (read_ahead_at self.new.read_ahead at ≡ Some into.new)) }
        ensures still { IsTrue F.is_honest → IsStill self.old self.new }
        ensures err { IsTrue F.is_honest → OnErr result ((self.old.failed ≡ true)
            ⊎ ((F.facts self.old.file).failures < (F.facts self.new.file).failures)) }
    {
        if let Some(content) = self.write_buffer.get(at) {
            *into = *content;
            return Ok(());
        }
        if self.read_ahead.get(at).is_none() {
            if self.failed {
                return Err(DiskFault::Failed);
            }
            self.fill_read_ahead(at)?;
        }
        match self.read_ahead.get(at) {
            Some(content) => {
                *into = *content;
                Ok(())
            }
            None => Err(DiskFault::Failed),
        }
    }
}
