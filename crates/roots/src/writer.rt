//! A sector that is written field by field.

ghost use Rattle.std.specs.Prelude.{◌≡◌, ℕ, List, [], ◌+◌, ◌-◌, ◌*◌, ◌≤◌, ◌++◌, length, take, drop};
ghost use Rattle.std.specs.List.{flat_map};
ghost use Rattle.sector_disk.specs.Disk.{sector_bytes};
ghost use Rattle.roots.specs.Fields.{zeros};

use crate::field::Field;
use sector_disk::SECTOR_BYTES;
use std::marker::Model;

/// The fields of a sector that have been written so far. The bytes after them are zero.
#[derive(Drop)]
pub(crate) struct SectorWriter {
    bytes: [u8; SECTOR_BYTES],
    len: usize,
}

impl Model for SectorWriter {
    ghost Value = { List ℕ };

    ghost view = { λ writer. take writer.len writer.bytes };

    ghost invariant = { λ writer. (writer.len ≤ sector_bytes)
        × (drop writer.len writer.bytes ≡ zeros (sector_bytes - writer.len)) };
}

impl SectorWriter {
    pub(crate) fn new() -> Self
        ensures { result ≡ [] }
    {
        SectorWriter {
            bytes: [0; SECTOR_BYTES],
            len: 0,
        }
    }

    pub(crate) fn put(&mut self, field: &[u8])
        requires { length self.old + length field.now ≤ sector_bytes }
        ensures fields { self.new ≡ self.old ++ field.now }
        ensures len { length self.new ≡ length self.old + length field.now }
    {
        self.bytes[self.len..self.len + field.len()].copy_from_slice(field);
        self.len += field.len();
    }

    /// Writes values, one after the other.
    pub(crate) fn put_all<T: Field>(&mut self, values: &[T])
        requires { length self.old + T.BYTES * length values.now ≤ sector_bytes }
        ensures fields { self.new ≡ self.old ++ flat_map T.spell values.now }
        ensures len { length self.new ≡ length self.old + T.BYTES * length values.now }
    {
        for value in values {
            value.put_to(self);
        }
    }

    /// Returns the sector: its fields, followed by zeros.
    pub(crate) fn finish(self) -> [u8; SECTOR_BYTES]
        ensures { result ≡ self ++ zeros (sector_bytes - length self) }
    {
        self.bytes
    }
}
