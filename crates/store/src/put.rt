// The room of a put: sectors for its bytes, and an entry for them.
ghost use Rattle.std.specs.Prelude.{◌≡◌, ◌+◌, ◌*◌, ◌<◌, ◌≤◌, ◌↔◌, All, Err, IfOk, OnOk, OnErr, length};
ghost use Rattle.std.specs.Prelude.{vec_len, vec_capacity};
ghost use Rattle.std.specs.Int.{div_ceil};
ghost use Rattle.extents.specs.Extent.{sector_count};
ghost use Rattle.extents.specs.Layout.{unused_count};
ghost use Rattle.extents.specs.Limits.{most_extents, most_sectors};
ghost use Rattle.extents.specs.Longest.{longest_runs};
ghost use Rattle.sector_disk.specs.Disk.{sector_bytes};
ghost use Rattle.roots.specs.Entry.{EntryHasSpelling, IsDataExtent};
ghost use Rattle.roots.specs.Limits.{most_catalogues};
ghost use Rattle.store.specs.Names.{IsName, IsFileSize};
ghost use Rattle.store.specs.Stands.{name_of, extents_of};
ghost use Rattle.store.specs.inside.Room.{IsPutTaken};

use crate::name_index::NameIndex;
use crate::placed_entry::PlacedEntry;
use crate::room::{CatalogueSectors, Room, take_room};
use extents::{Layout, TakeRefusal};
use roots::Entry;
use sector_disk::SECTOR_BYTES;
use std::alloc::AllocError;

/// An entry whose sectors are claimed, and the sectors for all catalogues of the list that has this
/// entry.
#[derive(Drop)]
pub(crate) struct PutRoom {
    pub put: PlacedEntry,
    pub catalogues: CatalogueSectors,
}

/// Makes room in memory for one more entry.
pub(crate) fn reserve_one(
    index: &mut NameIndex,
    entries: &mut Vec<PlacedEntry>,
    sectors: &mut Vec<u32>,
) -> Result<(), AllocError>
    ensures index { index.new.positions ≡ index.old.positions }
    ensures entries { entries.new.items ≡ entries.old.items }
    ensures sectors { sectors.new.items ≡ sectors.old.items }
    ensures index_room { OnOk result (1 ≤ index.new.room) }
    ensures entries_room { OnOk result (vec_len entries.new < vec_capacity entries.new) }
    ensures sectors_room { OnOk result (vec_len sectors.new < vec_capacity sectors.new) }
{
    index.reserve()?;
    entries.reserve(1)?;
    sectors.reserve(1)
}

/// Returns the number of sectors that the bytes take.
fn sector_need(bytes: &[u8]) -> u32
    requires { IsFileSize (length bytes.now) }
    ensures { result ≡ div_ceil (length bytes.now) sector_bytes }
{
    (bytes.len() as u32).div_ceil(SECTOR_BYTES as u32)
}

/// Returns the entry of a byte string with the name `name` and the bytes `bytes`, in the sectors
/// `room`.
fn new_entry(name: &[u8], bytes: &[u8], room: &Room) -> PlacedEntry
    requires name { IsName name.now }
    requires size { IsFileSize (length bytes.now) }
    requires extents { All IsDataExtent room.now.extents }
    requires few { length room.now.extents ≤ most_extents }
    requires sum { sector_count room.now.extents ≡ div_ceil (length bytes.now) sector_bytes }
    ensures at { result.at ≡ room.now.entry }
    ensures fits { EntryHasSpelling result.entry }
    ensures name { name_of result.entry ≡ name.now }
    ensures length { result.entry.file_length ≡ length bytes.now }
    ensures extents { extents_of result.entry ≡ room.now.extents }
{
    PlacedEntry {
        at: room.entry,
        entry: Entry::new(name, bytes.len() as u32, room.extents.as_slice()),
    }
}

/// Claims sectors for the bytes `bytes`, for their entry with the name `name`, and for `catalogues`
/// catalogues. Refuses with Full if that would leave fewer than `spare` sectors unused, and with
/// Fragmented if the longest unused runs are too short for the bytes. If it refuses, claims none.
pub(crate) fn take_put(
    layout: &mut Layout,
    name: &[u8],
    bytes: &[u8],
    catalogues: usize,
    spare: usize,
) -> Result<PutRoom, TakeRefusal>
    requires name { IsName name.now }
    requires size { IsFileSize (length bytes.now) }
    requires disk { length layout.old ≤ most_sectors }
    requires few { catalogues ≤ most_catalogues }
    requires spare { spare ≤ 2 * most_catalogues }
    ensures taken { IfOk result (λ room. IsPutTaken layout.old layout.new name.now bytes.now
        catalogues spare room.put room.catalogues) }
    ensures full { (result ≡ Err TakeRefusal.Full) ↔ (unused_count layout.old
        < div_ceil (length bytes.now) sector_bytes + 1 + catalogues + spare) }
    ensures fragmented { (result ≡ Err TakeRefusal.Fragmented)
        ↔ ((div_ceil (length bytes.now) sector_bytes + 1 + catalogues + spare
        ≤ unused_count layout.old) × (sector_count (longest_runs layout.old)
        < div_ceil (length bytes.now) sector_bytes)) }
    ensures err { OnErr result (layout.new ≡ layout.old) }
{
    let room = take_room(layout, sector_need(bytes), catalogues, spare)?;
    let put = new_entry(name, bytes, &room);
    Ok(PutRoom {
        put,
        catalogues: room.catalogues,
    })
}
