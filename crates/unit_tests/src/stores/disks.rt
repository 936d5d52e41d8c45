// Writes entries, catalogues and roots to the sectors of a disk.
use crate::stores::sectors::write;
use roots::{Catalogue, Entry, Root, encode_catalogue, encode_entry, encode_root};
use sector_disk::Memory;
use std::process::Abort;

/// Writes `entry` to sector `at`.
pub(crate) fn write_entry(rt: &impl Abort, disk: &mut Memory, at: u32, entry: &Entry) {
    assert!(rt; entry.has_spelling());
    write(rt, disk, at, &encode_entry(entry));
}

/// Writes to sector `at` a catalogue that lists the entries in the sectors `entries`.
pub(crate) fn write_catalogue(rt: &impl Abort, disk: &mut Memory, at: u32, entries: &[u32]) {
    assert!(rt; entries.len() <= 64);
    let catalogue = Catalogue::new(entries);
    assert!(rt; catalogue.has_spelling());
    write(rt, disk, at, &encode_catalogue(&catalogue));
}

/// Writes a root to the sector in which a root of its generation belongs.
pub(crate) fn write_root(rt: &impl Abort, disk: &mut Memory, root: &Root) {
    assert!(rt; root.has_spelling());
    write(rt, disk, (root.generation % 2) as u32, &encode_root(root));
}
