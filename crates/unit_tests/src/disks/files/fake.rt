// A file in memory. Its calls are counted, and can be shortened, interrupted, or made to fail.
ghost use Rattle.file_disk.specs.SectorFile.{unknown_file};
ghost use Rattle.std.specs.Prelude.{false};

use file_disk::{FileDisk, OpenFault, SectorFile};
use sector_disk::SECTOR_BYTES;
use std::alloc::Global;
use std::io;
use std::io::ErrorKind;

/// The ways in which the calls of a file are disturbed.
#[derive(Clone, Copy)]
pub(crate) struct Plan {
    /// The maximum number of sectors that a read or a write transfers.
    pub(crate) most: usize,
    /// Whether a signal interrupts every second read and write.
    pub(crate) interrupts: bool,
    /// The number of the call that fails, or 0 if none fails. The opening is call number 1.
    pub(crate) fails: u64,
}

pub(crate) const WELL: Plan = Plan {
    most: usize::MAX,
    interrupts: false,
    fails: 0,
};

#[derive(Drop)]
pub(crate) struct Fake {
    pub(crate) sectors: Vec<[u8; SECTOR_BYTES]>,
    plan: Plan,
    pub(crate) reads: u64,
    pub(crate) writes: u64,
    /// The number of writes that were made up to the last sync.
    pub(crate) synced: u64,
    turn: bool,
    calls: u64,
}

impl Fake {
    /// Makes a file of `sectors` sectors of zeros.
    pub(crate) fn of(alloc: Global, sectors: u32, plan: Plan) -> Option<Fake> {
        Some(Fake {
            sectors: vec![in alloc; [0; SECTOR_BYTES]; sectors as usize].ok()?,
            plan,
            reads: 0,
            writes: 0,
            synced: 0,
            turn: false,
            calls: 0,
        })
    }

    fn call(&mut self) -> io::Result<()> {
        self.calls = self.calls.saturating_add(1);
        if self.calls == self.plan.fails {
            Err(io::Error::from(ErrorKind::Other))
        } else {
            Ok(())
        }
    }

    // Begins a read or a write. If the plan requests it, interrupts the call. If the call is the
    // one that fails, lets it fail.
    fn begin(&mut self) -> io::Result<()> {
        self.turn = !self.turn;
        if self.plan.interrupts && self.turn {
            return Err(io::Error::from(ErrorKind::Interrupted));
        }
        self.call()
    }
}

/// A file for tests. No clause states anything about the file's contents.
impl SectorFile for Fake {
    ghost is_honest = { false };

    ghost facts = { λ file. unknown_file };

    ghost holds_now = { λ file honest. Prim.cc };

    ghost whole_sectors = { λ file honest. Prim.cc };

    fn count_sectors(&mut self) -> Result<u32, OpenFault> {
        match self.call() {
            Ok(()) => match u32::try_from(self.sectors.len()) {
                Ok(sectors) => Ok(sectors),
                Err(_) => Err(OpenFault::CannotOpen),
            },
            Err(_) => Err(OpenFault::CannotOpen),
        }
    }

    fn read_at(&mut self, at: u32, into: &mut [[u8; SECTOR_BYTES]]) -> io::Result<usize> {
        self.reads = self.reads.saturating_add(1);
        self.begin()?;
        let from = self.sectors.get(at as usize..).unwrap_or(&[]);
        let count = from.len().min(self.plan.most).min(into.len());
        into[..count].copy_from_slice(&from[..count]);
        Ok(count)
    }

    fn write_at(&mut self, at: u32, from: &[[u8; SECTOR_BYTES]]) -> io::Result<usize> {
        self.writes = self.writes.saturating_add(1);
        self.begin()?;
        let Some(into) = self.sectors.as_mut_slice().get_mut(at as usize..) else {
            return Ok(0);
        };
        let count = into.len().min(self.plan.most).min(from.len());
        into[..count].copy_from_slice(&from[..count]);
        Ok(count)
    }

    fn sync(&mut self) -> io::Result<()> {
        self.call()?;
        self.synced = self.writes;
        Ok(())
    }
}

/// Opens a disk over an existing file.
pub(crate) fn reopened(alloc: Global, file: Fake) -> Option<FileDisk<Fake>> {
    FileDisk::over(alloc, file).ok()
}

/// Makes a disk over a new file of `sectors` sectors of zeros.
pub(crate) fn disk(alloc: Global, sectors: u32, plan: Plan) -> Option<FileDisk<Fake>> {
    reopened(alloc, Fake::of(alloc, sectors, plan)?)
}
