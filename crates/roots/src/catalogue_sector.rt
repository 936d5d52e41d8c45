//! A catalogue encoded as a sector.

ghost use Rattle.std.specs.Prelude.{◌≡◌, ◌↔◌, IsTrue, IfSome, Some};
ghost use Rattle.roots.specs.declared.catalogue.Catalogue.{Catalogue};
ghost use Rattle.roots.specs.Catalogue.{CatalogueHasSpelling, SpellsCatalogue, catalogue_bytes};
ghost use Rattle.roots.specs.inside.Reading.{catalogue_of};

use crate::catalogue::Catalogue;
use crate::field::{Field, values_at};
use crate::writer::SectorWriter;
use sector_disk::SECTOR_BYTES;

const MAGIC: [u8; 4] = *b"LIBC";

/// Returns the sector that encodes the catalogue. The catalogue must be one that can be encoded:
/// `Catalogue::has_spelling` tests this.
pub fn encode_catalogue(catalogue: &Catalogue) -> [u8; SECTOR_BYTES]
    requires { CatalogueHasSpelling catalogue.now }
    ensures spelling { result ≡ catalogue_bytes catalogue.now }

    // This sector encodes no other catalogue.
    ensures alone { (other : Catalogue) → SpellsCatalogue result other → other ≡ catalogue.now }
{
    let mut sector = SectorWriter::new();
    sector.put(&MAGIC);
    sector.put(&catalogue.count.to_le_bytes());
    sector.put(&[0; 10]);
    sector.put_all(&catalogue.entry_sectors);
    sector.finish()
}

/// Returns the catalogue that a sector encodes, or `None` if it encodes none.
pub fn decode_catalogue(bytes: &[u8; SECTOR_BYTES]) -> Option<Catalogue>
    // The sector encodes the returned catalogue.
    ensures read { IfSome result (λ catalogue. SpellsCatalogue bytes.now catalogue) }

    // If the sector encodes a catalogue, the call returns this catalogue.
    ensures spelt { (catalogue : Catalogue) → SpellsCatalogue bytes.now catalogue
        → result ≡ Some catalogue }
{
    let catalogue = catalogue_fields(bytes);
    spells(bytes, &catalogue).then_some(catalogue)
}

// Returns whether the sector encodes the catalogue.
fn spells(bytes: &[u8; SECTOR_BYTES], catalogue: &Catalogue) -> bool
    ensures { IsTrue result ↔ SpellsCatalogue bytes.now catalogue.now }
{
    catalogue.has_spelling() && *bytes == encode_catalogue(catalogue)
}

// Returns the contents of the fields, without testing their limits.
#[tactic(auto, unfolding(crate::specs::inside::Reading::catalogue_of))]
fn catalogue_fields(bytes: &[u8; SECTOR_BYTES]) -> Catalogue
    ensures { result ≡ catalogue_of bytes.now }
{
    Catalogue {
        count: u16::read_at(bytes, 4),
        entry_sectors: values_at(bytes, 16),
    }
}
