// A disk over a file.
ghost use Rattle.std.specs.Prelude.{◌≡◌, ◌<◌, ℕ, false, Some, IsTrue, length};
ghost use Rattle.sector_disk.specs.CallCount.{calls_made};
ghost use Rattle.sector_disk.specs.Disk.{Sector};
ghost use Rattle.file_disk.specs.ReadAhead.{read_ahead_at};
ghost use Rattle.file_disk.specs.Buffered.{shown_at, Leaves};
ghost use Rattle.file_disk.specs.WriteBuffer.{write_buffer_at};
ghost use Rattle.file_disk.specs.Left.{LeftOf, shown_of, IsTimed, IsFollowed};

use crate::buffered::Buffered;
use crate::property::Property;
use crate::sector_file::SectorFile;
use sector_disk::{CallCount, Disk, DiskFault, Past, SECTOR_BYTES};
use std::alloc::{AllocError, Global};

/// A disk over a file. It is an honest disk if the file is honest.
///
/// Written sectors are buffered in memory until a sector is written that doesn't adjoin the
/// buffered sectors, until 128 KiB are buffered, or until the next sync. Reads return buffered
/// sectors too. If the disk is dropped, the contents of the write buffer are lost, as in a power
/// cut. After a failed write or sync, all later writes and syncs fail, and so do reads of sectors
/// that aren't in memory. This is because the system may have dropped data that it couldn't write,
/// and the next sync may not report it.
#[derive(Drop)]
pub struct FileDisk<F: SectorFile> {
    buffered: Buffered<F>,
    // The remaining fields are only for clauses. `latest` is the last moment at which no write or
    // sync had failed.
    latest: Past<Buffered<F>>,
    // The moment of the last successful sync, followed by the moment of each write since.
    since: Past<Buffered<F>>,
    // For each past moment, the value of `since` at that moment.
    past: Past<Past<Buffered<F>>>,
    // For each past moment, the file with its buffers.
    files: Past<Buffered<F>>,
    calls: CallCount,
    ghost counted: { length past.items ≡ calls_made calls },
    ghost shown: { IsTrue F.SectorFile.is_honest → buffered.failed ≡ false → (k : ℕ)
        → shown_at buffered k ≡ shown_of latest.items k },
    ghost waits: { IsTrue F.SectorFile.is_honest → (k : ℕ) (content : Sector)
        → write_buffer_at buffered.write_buffer k ≡ Some content
        → content ≡ shown_of latest.items k },
    ghost kept: { IsTrue F.SectorFile.is_honest → (k : ℕ) (content : Sector)
        → read_ahead_at buffered.read_ahead k ≡ Some content → content ≡ shown_of latest.items k },
    ghost covered: { IsTrue F.SectorFile.is_honest → (k : ℕ) (content : Sector)
        → Leaves buffered k content → LeftOf since.items k content },
    ghost held: { IsTrue F.SectorFile.is_honest → (k : ℕ) → k < buffered.sectors
        → LeftOf since.items k (shown_of latest.items k) },
    ghost noted: { length files.items ≡ calls_made calls },
    ghost timed: { IsTrue F.SectorFile.is_honest
        → IsTimed files.items buffered (calls_made calls) },
    ghost followed: { IsTrue F.SectorFile.is_honest
        → IsFollowed files.items buffered past.items since (calls_made calls) },
}

impl<F: SectorFile + Drop> FileDisk<F> {
    ghost use Rattle.std.specs.Prelude.{IfOk};
    ghost use Rattle.file_disk.specs.FileDisk.{file_facts, file_of, IsNew, IsAsTheFile};

    /// Makes a disk over an open file of `sectors` sectors. Allocates all the memory that the disk
    /// will ever use: twice the size of the file, but at most 256 KiB.
    pub(crate) fn new(alloc: Global, file: F, sectors: u32) -> Result<FileDisk<F>, AllocError>
        requires sectors { IsTrue F.is_honest → (F.facts file).sectors ≡ sectors }
        requires trusted { IsTrue F.is_honest → (F.facts file).sync_failed ≡ false }
        ensures sectors { IfOk result (λ disk. (file_facts disk).sectors ≡ sectors) }
        ensures new { IfOk result (λ disk. IsNew disk) }
        ensures file { IfOk result (λ disk. file_of disk ≡ file) }
        ensures starts { IsTrue F.is_honest → IfOk result (λ disk. IsAsTheFile disk) }
    {
        let buffered = Buffered::new(alloc, file, sectors)?;
        let latest = Past::new().and(&buffered);
        let since = latest.copy();
        Ok(FileDisk {
            buffered,
            latest,
            since,
            past: Past::new(),
            files: Past::new(),
            calls: CallCount::new(),
        })
    }
}

impl<F: SectorFile> FileDisk<F> {
    ghost use Rattle.file_disk.specs.FileDisk.{file_of, FollowsTheFile, HoldsOfTheMedium};

    /// States a law. At every moment, also within the disk's calls, the medium of an honest file
    /// has only contents that a stop of the disk might have left at that moment.
    pub fn follows_its_file(&self)
        ensures { IsTrue F.is_honest → FollowsTheFile self.now }
    {}

    /// States a law. If a property holds of every list of sectors that a stop of the disk may
    /// leave, from an earlier moment to now, then it holds of every list of sectors that the medium
    /// of an honest file may have had since that moment.
    pub fn holds_of_its_medium<P: Property>(&self)
        ensures { IsTrue F.is_honest → HoldsOfTheMedium self.now P.holds }
    {}

    /// Returns the file. The contents of the write buffer are lost.
    pub fn into_file(self) -> F
        ensures { result ≡ file_of self }
    {
        let FileDisk { buffered, .. } = self;
        buffered.into_file()
    }
}

impl<F: SectorFile> Disk for FileDisk<F> {
    ghost use Rattle.std.specs.Prelude.{◌⊎◌, None, true, IsSome, IfSome, OnOk, OnErr, is_err};
    ghost use Rattle.sector_disk.specs.Disk.{IsCall, IsRead, IsWrite, IsSync};
    ghost use Rattle.file_disk.specs.FileDisk.{file_facts, facts_below, has_failed};
    ghost use Rattle.file_disk.specs.FileDisk.{waiting, kept, IsSame, WaitsNot, WaitsSame};
    ghost use Rattle.file_disk.specs.FileDisk.{IsBuffered, IsCovered};
    ghost use Rattle.file_disk.specs.inside.FileDiskLaws.{disk_holds, disk_whole};

    ghost facts = { file_facts };

    ghost holds_now = { λ disk honest. disk_holds disk honest };

    ghost whole_sectors = { λ disk honest.
        disk_whole (λ file. F.whole_sectors file honest) disk honest };

    fn sectors(&self) -> u32 {
        self.buffered.sectors
    }

    /// Reads a sector from the first of these that has it: the write buffer, the read-ahead buffer,
    /// the file. A failed read doesn't make later writes and syncs fail.
    fn read(&mut self, at: u32, into: &mut [u8; SECTOR_BYTES]) -> Result<(), DiskFault>
        requires { at < (file_facts self.old).sectors }
        ensures calls { IsCall (file_facts self.old) (file_facts self.new) result }
        ensures honest { IsTrue (file_facts self.old).honest
            → IsRead (file_facts self.old) (file_facts self.new) at into.new result }

        // During the call, the file's medium has only contents that a stop of the disk may leave.
        ensures any_moment { IsTrue F.is_honest → IsCovered self.old self.new }

        // The read fails only if a call of the file failed, or if an earlier write or sync failed.
        ensures cause { IsTrue F.is_honest → OnErr result ((has_failed self.old ≡ true)
            ⊎ ((facts_below self.old).failures < (facts_below self.new).failures)) }

        // A read of a sector that is in one of the two buffers succeeds. It returns the content
        // from the buffer, and makes no call of the file.
        ensures waiting { IfSome (waiting self.old at)
            (λ content. (is_err result ≡ false) × (into.new ≡ content)) }
        ensures kept { waiting self.old at ≡ None → IfSome (kept self.old at)
            (λ content. (is_err result ≡ false) × (into.new ≡ content)) }
        ensures buffered { IsSome (waiting self.old at) ⊎ IsSome (kept self.old at)
            → IsSame self.old self.new }
        ensures same { WaitsSame self.old self.new }
        ensures failed { has_failed self.new ≡ has_failed self.old }
    {
        self.files = self.files.and(&self.buffered);
        let reply = self.buffered.read(at, into);
        self.past = self.past.and(&self.since);
        self.calls.end_call(&reply);
        reply
    }

    /// Puts a sector into the write buffer. If the buffer has no room for the sector, first writes
    /// the buffer to the file, and fails if this fails.
    fn write(&mut self, at: u32, from: &[u8; SECTOR_BYTES]) -> Result<(), DiskFault>
        requires { at < (file_facts self.old).sectors }
        ensures calls { IsCall (file_facts self.old) (file_facts self.new) result }
        ensures honest { IsTrue (file_facts self.old).honest
            → IsWrite (file_facts self.old) (file_facts self.new) at from.now result }
        ensures any_moment { IsTrue F.is_honest → IsCovered self.old self.new }
        ensures cause { IsTrue F.is_honest → OnErr result ((has_failed self.old ≡ true)
            ⊎ ((facts_below self.old).failures < (facts_below self.new).failures)) }
        ensures ok { OnOk result (IsBuffered self.old self.new at from.now) }

        // After a successful write, the read-ahead buffer has no content of the sector.
        ensures forgotten { OnOk result (kept self.new at ≡ None) }
        ensures kept { (k : ℕ) → (kept self.new k ≡ kept self.old k) ⊎ (kept self.new k ≡ None) }
        ensures same { OnErr result (WaitsSame self.old self.new) }

        // If this write fails, all later writes and syncs fail.
        ensures failed { has_failed self.new ≡ is_err result }
        ensures stays { has_failed self.old ≡ true → is_err result ≡ true }
    {
        self.files = self.files.and(&self.buffered);
        let reply = self.buffered.write(at, from);
        self.past = self.past.and(&self.since);
        if reply.is_ok() {
            self.latest = Past::new().and(&self.buffered);
            self.since = self.since.and(&self.buffered);
        }
        self.calls.end_call(&reply);
        reply
    }

    /// Writes the write buffer to the file, and syncs the file. The buffer keeps its contents until
    /// the sync has succeeded.
    fn sync(&mut self) -> Result<(), DiskFault>
        ensures calls { IsCall (file_facts self.old) (file_facts self.new) result }
        ensures honest { IsTrue (file_facts self.old).honest
            → IsSync (file_facts self.old) (file_facts self.new) result }
        ensures any_moment { IsTrue F.is_honest → IsCovered self.old self.new }
        ensures cause { IsTrue F.is_honest → OnErr result ((has_failed self.old ≡ true)
            ⊎ ((facts_below self.old).failures < (facts_below self.new).failures)) }
        ensures waits { OnOk result (WaitsNot self.new) }
        ensures kept { (k : ℕ) → kept self.new k ≡ kept self.old k }

        // If the sync fails, the write buffer is unchanged, and reads still return its contents.
        ensures same { OnErr result (WaitsSame self.old self.new) }
        ensures failed { has_failed self.new ≡ is_err result }
        ensures stays { has_failed self.old ≡ true → is_err result ≡ true }
    {
        self.files = self.files.and(&self.buffered);
        let reply = self.buffered.sync();
        self.past = self.past.and(&self.since);
        if reply.is_ok() {
            self.latest = Past::new().and(&self.buffered);
            self.since = self.latest.copy();
        }
        self.calls.end_call(&reply);
        reply
    }
}
