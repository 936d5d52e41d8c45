//! An entry encoded as a sector.

ghost use Rattle.std.specs.Prelude.{◌≡◌, ◌↔◌, IsTrue, IfSome, Some};
ghost use Rattle.roots.specs.declared.entry.Entry.{Entry};
ghost use Rattle.roots.specs.Entry.{EntryHasSpelling, SpellsEntry, entry_bytes};
ghost use Rattle.roots.specs.inside.Reading.{entry_of};

use crate::entry::Entry;
use crate::field::{Field, values_at};
use crate::limits::MOST_NAME_BYTES;
use crate::writer::SectorWriter;
use sector_disk::SECTOR_BYTES;

const MAGIC: [u8; 4] = *b"LIBE";

/// Returns the sector that encodes the entry. The entry must be one that can be encoded:
/// `Entry::has_spelling` tests this.
pub fn encode_entry(entry: &Entry) -> [u8; SECTOR_BYTES]
    requires { EntryHasSpelling entry.now }
    ensures spelling { result ≡ entry_bytes entry.now }

    // This sector encodes no other entry.
    ensures alone { (other : Entry) → SpellsEntry result other → other ≡ entry.now }
{
    let mut sector = SectorWriter::new();
    sector.put(&MAGIC);
    sector.put(&entry.file_length.to_le_bytes());
    sector.put(&entry.name_length.to_le_bytes());
    sector.put(&entry.extent_count.to_le_bytes());
    sector.put(&[0; 4]);
    sector.put(&entry.name);
    sector.put_all(&entry.extents);
    sector.finish()
}

/// Returns the entry that a sector encodes, or `None` if it encodes none.
pub fn decode_entry(bytes: &[u8; SECTOR_BYTES]) -> Option<Entry>
    // The sector encodes the returned entry.
    ensures read { IfSome result (λ entry. SpellsEntry bytes.now entry) }

    // If the sector encodes an entry, the call returns this entry.
    ensures spelt { (entry : Entry) → SpellsEntry bytes.now entry → result ≡ Some entry }
{
    let entry = entry_fields(bytes);
    spells(bytes, &entry).then_some(entry)
}

// Returns whether the sector encodes the entry.
fn spells(bytes: &[u8; SECTOR_BYTES], entry: &Entry) -> bool
    ensures { IsTrue result ↔ SpellsEntry bytes.now entry.now }
{
    entry.has_spelling() && *bytes == encode_entry(entry)
}

// Returns the contents of the fields, without testing their limits.
#[tactic(auto, unfolding(crate::specs::inside::Reading::entry_of))]
fn entry_fields(bytes: &[u8; SECTOR_BYTES]) -> Entry
    ensures { result ≡ entry_of bytes.now }
{
    let mut name = [0; MOST_NAME_BYTES];
    name.copy_from_slice(&bytes[16..16 + MOST_NAME_BYTES]);
    Entry {
        file_length: u32::read_at(bytes, 4),
        name_length: u16::read_at(bytes, 8),
        extent_count: u16::read_at(bytes, 10),
        name,
        extents: values_at(bytes, 256),
    }
}
