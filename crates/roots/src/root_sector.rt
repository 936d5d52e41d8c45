//! A root encoded as a sector.

ghost use Rattle.std.specs.Prelude.{◌≡◌, ◌↔◌, ◌+◌, ◌≤◌, ◌++◌, IsTrue, length};
ghost use Rattle.sector_disk.specs.Disk.{sector_bytes};
ghost use Rattle.roots.specs.declared.root.Root.{Root};
ghost use Rattle.roots.specs.Root.{RootHasSpelling, SpellsRoot, HasMagic, LacksMagic};
ghost use Rattle.roots.specs.Root.{magic_of, list_bytes, root_bytes};
ghost use Rattle.roots.specs.Slot.{IsSlotOf};
ghost use Rattle.roots.specs.inside.Reading.{list_of, root_of};

use crate::entry_list::EntryList;
use crate::field::{Field, values_at};
use crate::root::Root;
use crate::slot::Slot;
use crate::writer::SectorWriter;
use sector_disk::SECTOR_BYTES;

// The first bytes of the root sectors of each version.
const MAGIC_1: [u8; 8] = *b"RLIBREG1";

const MAGIC_2: [u8; 8] = *b"RLIBREG2";

const MAGICS: [[u8; 8]; 2] = [MAGIC_1, MAGIC_2];

/// Returns the sector that encodes the root. The root must be one that can be encoded:
/// `Root::has_spelling` tests this.
pub fn encode_root(root: &Root) -> [u8; SECTOR_BYTES]
    requires { RootHasSpelling root.now }
    ensures spelling { result ≡ root_bytes root.now }

    // This sector encodes no other root.
    ensures alone { (other : Root) → SpellsRoot result other → other ≡ root.now }
{
    let mut sector = SectorWriter::new();
    sector.put(&magic_of(&root.list));
    sector.put(&root.generation.to_le_bytes());
    sector.put(&root.sectors.to_le_bytes());
    sector.put(&root.library_count.to_le_bytes());
    sector.put(&root.preload_count.to_le_bytes());
    sector.put_all(&root.preloads);
    put_list(&mut sector, &root.list);
    sector.finish()
}

// Returns the first bytes of the sector of a root with this list.
fn magic_of(list: &EntryList) -> [u8; 8]
    ensures { result ≡ magic_of list.now }
{
    match list {
        EntryList::InRoot(_) => MAGIC_1,
        EntryList::InCatalogues { .. } => MAGIC_2,
    }
}

// Appends the list to the fields that all versions have.
fn put_list(sector: &mut SectorWriter, list: &EntryList)
    requires { length sector.old ≡ 56 }
    ensures fields { sector.new ≡ sector.old ++ list_bytes list.now }
    ensures len { length sector.new ≡ sector_bytes }
{
    match list {
        EntryList::InRoot(sectors) => {
            sector.put(&[0; 8]);
            sector.put_all(sectors);
            sector.put(&[0; 48]);
        }
        EntryList::InCatalogues { count, sectors } => {
            sector.put(&count.to_le_bytes());
            sector.put(&[0; 6]);
            sector.put_all(sectors);
            sector.put(&[0; 320]);
        }
    }
}

/// Returns the slot of a root sector. The slot has a root if the sector is exactly the one that
/// encodes this root.
pub fn decode_root(bytes: &[u8; SECTOR_BYTES]) -> Slot
    // The returned slot is that of the sector.
    ensures slot { IsSlotOf bytes.now result }

    // If the sector encodes a root, the call returns this root.
    ensures spelt { (root : Root) → SpellsRoot bytes.now root → result ≡ Slot.Good root }
    ensures empty { LacksMagic bytes.now → result ≡ Slot.Empty }
{
    if !has_magic(bytes) {
        return Slot::Empty;
    }
    let root = root_fields(bytes);
    if spells(bytes, &root) {
        Slot::Good(root)
    } else {
        Slot::Bad
    }
}

// Returns whether the sector begins with the magic of a version.
fn has_magic(bytes: &[u8; SECTOR_BYTES]) -> bool
    ensures { IsTrue result ↔ HasMagic bytes.now }
{
    MAGICS.iter().any(|magic| bytes.starts_with(magic))
}

// Returns whether the sector encodes the root.
fn spells(bytes: &[u8; SECTOR_BYTES], root: &Root) -> bool
    ensures { IsTrue result ↔ SpellsRoot bytes.now root.now }
{
    root.has_spelling() && *bytes == encode_root(root)
}

// Returns the contents of the fields, without testing their limits.
#[tactic(auto, unfolding(crate::specs::inside::Reading::root_of))]
fn root_fields(bytes: &[u8; SECTOR_BYTES]) -> Root
    ensures { result ≡ root_of bytes.now }
{
    Root {
        generation: u64::read_at(bytes, 8),
        sectors: u32::read_at(bytes, 16),
        library_count: u16::read_at(bytes, 20),
        preload_count: u16::read_at(bytes, 22),
        preloads: values_at(bytes, 24),
        list: list_fields(bytes),
    }
}

// Returns the list in the sector. Its form depends on the magic.
#[tactic(auto, unfolding(crate::specs::inside::Reading::list_of))]
fn list_fields(bytes: &[u8; SECTOR_BYTES]) -> EntryList
    ensures { result ≡ list_of bytes.now }
{
    if bytes.starts_with(&MAGIC_2) {
        EntryList::InCatalogues {
            count: u16::read_at(bytes, 56),
            sectors: values_at(bytes, 64),
        }
    } else {
        EntryList::InRoot(values_at(bytes, 64))
    }
}
