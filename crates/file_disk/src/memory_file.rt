// A file in memory, which a test can stop, or make fail at one of its calls.
ghost use Rattle.std.specs.Prelude.{◌≡◌, ◌-◌, length};

use crate::medium::{get, put, sync_if};
use crate::open::OpenFault;
use crate::sector_file::SectorFile;
use sector_disk::{CallCount, Disk, DiskFault, Memory, Past, SECTOR_BYTES};
use std::io;
use std::io::ErrorKind;

/// The result of a call of a `MemoryFile`.
#[derive(Clone, Copy)]
pub struct CallOutcome {
    /// The maximum number of sectors that a read or a write moves. If this isn't 0, a sync brings
    /// everything to the medium even if it fails.
    pub most: usize,
    /// Whether the call fails, after it has moved its sectors.
    pub fails: bool,
}

/// The planned call of a `MemoryFile`, which fails or moves only some of its sectors. It is call
/// number `call`, counted from 1. If `call` is 0, no call is planned. If `forever` is true, all
/// later calls fail and move nothing, as if the system had stopped.
#[derive(Clone, Copy)]
pub struct FilePlan {
    pub call: u64,
    pub outcome: CallOutcome,
    pub forever: bool,
}

/// An honest file in memory. Its medium is a disk that can be stopped. Contents that were written
/// since the last sync reach the medium sector by sector, in any order, or never. After a failed
/// sync, later syncs succeed and bring nothing to the medium.
pub struct MemoryFile {
    medium: Memory,
    plan: FilePlan,
    // The number of calls up to the planned one, including it. After the planned call, the number
    // is 0.
    wait: u64,
    sync_failed: bool,
    // The medium at each past moment.
    past: Past<Memory>,
    calls: CallCount,
    ghost waits: { wait ≡ plan.call - length past.items },
}

impl MemoryFile {
    ghost use Rattle.std.specs.Prelude.{◌++◌, ◌∷◌, ◌+◌, ◌==◌, ◌≤◌, [], false, if◌then◌else◌, List, IfOk, is_err};
    ghost use Rattle.file_disk.specs.MemoryFile.{memory_file_facts, medium_of, plan_of};
    ghost use Rattle.file_disk.specs.MemoryFile.{next_outcome, does_work};
    ghost use Rattle.file_disk.specs.SectorFile.{moved, IsFoundWith};
    ghost use Rattle.sector_disk.specs.Disk.{Sector, StartsWith};
    ghost use Rattle.sector_disk.specs.Memory.{memory_facts};

    /// Makes a file with the contents of the disk `medium`, and with the plan `plan` for its calls.
    pub fn new(medium: Memory, plan: FilePlan) -> MemoryFile
        ensures medium { medium_of result ≡ medium }
        ensures plan { plan_of result ≡ plan }
        ensures time { (memory_file_facts result).time ≡ 0 }
        ensures failures { (memory_file_facts result).failures ≡ 0 }
        ensures sync_failed { (memory_file_facts result).sync_failed ≡ false }

        // If the disk is at its start, the file is one that is found with the disk's sectors.
        ensures reopen { (contents : List Sector) → StartsWith (memory_facts medium) contents
            → IsFoundWith (memory_file_facts result) contents }
    {
        MemoryFile {
            medium,
            plan,
            wait: plan.call,
            sync_failed: false,
            past: Past::new(),
            calls: CallCount::new(),
        }
    }

    /// Returns the number of calls up to the planned one, including it, or 0 after the planned
    /// call.
    pub fn calls_left(&self) -> u64
        ensures { result ≡ (plan_of self.now).call - (memory_file_facts self.now).time }
    {
        self.wait
    }

    /// Returns the medium, a disk that can be stopped. It also has the contents that were written
    /// since the last sync.
    pub fn into_medium(self) -> Memory
        ensures { result ≡ medium_of self }
    {
        let MemoryFile {
            medium,
            plan: _,
            wait: _,
            sync_failed: _,
            past: _past,
            calls: _calls,
        } = self;
        medium
    }

    // Begins a call, and returns its outcome.
    fn begin_call(&mut self) -> CallOutcome
        ensures outcome { result ≡ next_outcome self.old }
        ensures past { self.new.past.items ≡ self.old.past.items ++ self.old.medium ∷ [] }
        ensures medium { self.new.medium ≡ self.old.medium }
        ensures plan { self.new.plan ≡ self.old.plan }
        ensures calls { self.new.calls ≡ self.old.calls }
        ensures sync_failed { self.new.sync_failed ≡ self.old.sync_failed }
    {
        let outcome = if self.wait == 1 {
            self.plan.outcome
        } else if self.wait == 0 && self.plan.call > 0 && self.plan.forever {
            CallOutcome {
                most: 0,
                fails: true,
            }
        } else {
            CallOutcome {
                most: usize::MAX,
                fails: false,
            }
        };
        self.past = self.past.and(&self.medium);
        self.wait = self.wait.saturating_sub(1);
        outcome
    }

    // Returns whether a sync with this outcome brings everything to the medium.
    fn does_work(&self, outcome: CallOutcome) -> bool
        ensures { result ≡ does_work self.now outcome }
    {
        !self.sync_failed && (outcome.most > 0 || !outcome.fails)
    }

    // Ends a call that moved `count` sectors, with an error if `fails` is true.
    fn end_call(&mut self, fails: bool, count: usize) -> io::Result<usize>
        ensures ok { IfOk result (λ moved. moved ≡ count) }
        ensures few { moved result ≤ count }
        ensures err { is_err result ≡ fails }
        ensures failures { (memory_file_facts self.new).failures
            ≡ (if moved result == 0 then (memory_file_facts self.old).failures + 1
            else (memory_file_facts self.old).failures) }
        ensures past { self.new.past.items ≡ self.old.past.items }
        ensures medium { self.new.medium ≡ self.old.medium }
        ensures plan { self.new.plan ≡ self.old.plan }
        ensures sync_failed { self.new.sync_failed ≡ self.old.sync_failed }
    {
        if fails {
            self.calls.end_call(&Err(DiskFault::Failed));
            return Err(ErrorKind::Other.into());
        }
        if count == 0 {
            self.calls.end_call(&Err(DiskFault::Failed));
        } else {
            self.calls.end_call(&Ok(()));
        }
        Ok(count)
    }
}

impl Drop for MemoryFile {
    fn drop(self) {
        let MemoryFile {
            medium: _medium,
            plan: _,
            wait: _,
            sync_failed: _,
            past: _past,
            calls: _calls,
        } = self;
    }
}

impl SectorFile for MemoryFile {
    ghost use Rattle.std.specs.Prelude.{◌≤◌, ◌+◌, true, IfErr, IsTrue};
    ghost use Rattle.file_disk.specs.Length.{IsLengthFault};
    ghost use Rattle.file_disk.specs.SectorFile.{moved, IsCounted, IsFileRead};
    ghost use Rattle.file_disk.specs.SectorFile.{IsFileWrite, IsFileSync};
    ghost use Rattle.file_disk.specs.MemoryFile.{memory_file_facts, medium_of, HasOutcome, IsMoved};
    ghost use Rattle.file_disk.specs.MemoryFile.{IsCutWrite, IsCutSync};
    ghost use Rattle.sector_disk.specs.Memory.{memory_facts};
    ghost use Rattle.file_disk.specs.Medium.{IsSameMedium};
    ghost use Rattle.file_disk.specs.inside.MemoryFileLaws.{file_holds, file_whole};

    ghost is_honest = { true };

    ghost facts = { memory_file_facts };

    ghost holds_now = { λ file honest. file_holds file };

    ghost whole_sectors = { λ file honest. file_whole file };

    fn count_sectors(&mut self) -> Result<u32, OpenFault>
        ensures honest { IsTrue true
            → IsCounted (memory_file_facts self.old) (memory_file_facts self.new) result }
        ensures length { IfErr result IsLengthFault }
        ensures outcome { HasOutcome self.old self.new result }
        ensures medium { medium_of self.new ≡ medium_of self.old }
    {
        let outcome = self.begin_call();
        match self.end_call(outcome.fails, 1) {
            Ok(_) => Ok(self.medium.sectors()),
            Err(_) => Err(OpenFault::CannotOpen),
        }
    }

    fn read_at(&mut self, at: u32, into: &mut [[u8; SECTOR_BYTES]]) -> io::Result<usize>
        requires inside { IsTrue true
            → at + length into.old ≤ (memory_file_facts self.old).sectors }
        ensures bound { moved result ≤ length into.old }
        ensures honest { IsTrue true → IsFileRead (memory_file_facts self.old)
            (memory_file_facts self.new) at into.new result }
        ensures outcome { HasOutcome self.old self.new result }
        ensures count { IsMoved self.old (length into.old) result }
        ensures medium { IsSameMedium (memory_facts (medium_of self.old))
            (memory_facts (medium_of self.new)) }
    {
        let outcome = self.begin_call();
        let count = outcome.most.min(into.len());
        get(&mut self.medium, at, &mut into[..count]);
        self.end_call(outcome.fails, count)
    }

    fn write_at(&mut self, at: u32, from: &[[u8; SECTOR_BYTES]]) -> io::Result<usize>
        requires inside { IsTrue true
            → at + length from.now ≤ (memory_file_facts self.old).sectors }
        ensures bound { moved result ≤ length from.now }
        ensures honest { IsTrue true → IsFileWrite (memory_file_facts self.old)
            (memory_file_facts self.new) at from.now result }
        ensures outcome { HasOutcome self.old self.new result }
        ensures written { IsCutWrite self.old self.new at from.now result }
    {
        let outcome = self.begin_call();
        let most = outcome.most.min(from.len());
        let count = put(&mut self.medium, at, &from[..most]);
        self.end_call(outcome.fails, count)
    }

    fn sync(&mut self) -> io::Result<()>
        ensures honest { IsTrue true → IsFileSync (memory_file_facts self.old)
            (memory_file_facts self.new) result }
        ensures outcome { HasOutcome self.old self.new result }
        ensures synced { IsCutSync self.old self.new }
    {
        let outcome = self.begin_call();
        let works = self.does_work(outcome);
        sync_if(&mut self.medium, works);
        if outcome.fails {
            self.sync_failed = true;
        }
        match self.end_call(outcome.fails, 1) {
            Ok(_) => Ok(()),
            Err(fault) => Err(fault),
        }
    }
}
