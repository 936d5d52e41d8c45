// Reads the list of entries. A root of version 1 lists the entries itself. A root of version 2
// lists catalogues, which list the entries.
ghost use Rattle.std.specs.Prelude.{◌≡◌, ◌<◌, ◌↔◌, ℕ, All, List, Some, IsTrue, IfOk, IfErr};
ghost use Rattle.std.specs.Prelude.{OnOk, length};
ghost use Rattle.sector_disk.specs.Disk.{Sector, IsCall, IsRead, AreCallsExactly, AreCallsAtMost};
ghost use Rattle.passes.specs.Calls.{AreReads};
ghost use Rattle.roots.specs.declared.catalogue.Catalogue.{Catalogue};
ghost use Rattle.roots.specs.declared.version.Version.TheVariants.{Two};
ghost use Rattle.roots.specs.Catalogue.{SpellsCatalogue};
ghost use Rattle.roots.specs.Root.{RootHasSpelling, version_of};
ghost use Rattle.store.specs.Stands.{AreListed, catalogues_of};
ghost use Rattle.store.specs.inside.Reading.{IsRefusalOfList};

use crate::refusal::StoreRefusal;
use roots::{Catalogue, MOST_CATALOGUE_ENTRIES, Root, Version, decode_catalogue};
use sector_disk::{Disk, DiskFault, SECTOR_BYTES};
use std::alloc::Global;

/// Returns the sectors of the catalogues that a root lists. A root of version 1 lists none.
pub(crate) fn catalogues(root: &Root) -> &[u32]
    requires { RootHasSpelling root.now }
    ensures { result.now ≡ catalogues_of root.now }
{
    match root.version() {
        Version::One => &[],
        Version::Two => root.listed_sectors(),
    }
}

/// Reads sector `at`, and returns the catalogue that the sector encodes, or `None` if it encodes
/// none.
fn read_catalogue<D: Disk>(disk: &mut D, at: u32) -> Result<Option<Catalogue>, DiskFault>
    requires { at < (D.facts disk.old).sectors }
    ensures calls { IsCall (D.facts disk.old) (D.facts disk.new) result }

    // On any disk, some content encodes the returned catalogue. On an honest disk, this is the
    // content of sector `at`.
    ensures catalogue { (content : Sector) × IfOk result (λ found. (catalogue : Catalogue)
        → (found ≡ Some catalogue) ↔ SpellsCatalogue content catalogue)
        × (IsTrue (D.facts disk.old).honest
        → IsRead (D.facts disk.old) (D.facts disk.new) at content result) }
{
    let mut content = [0; SECTOR_BYTES];
    disk.read(at, &mut content)?;
    Ok(decode_catalogue(&content))
}

/// Returns the sectors of the entries that a root's catalogues list, in the order of the list.
/// Reads each catalogue once. Refuses with Damaged if a sector that the root lists encodes no
/// catalogue, or a catalogue with another number of entries than it must list.
fn read_catalogues<D: Disk>(
    alloc: Global,
    disk: &mut D,
    root: &Root,
) -> Result<Vec<u32>, StoreRefusal>
    requires root { RootHasSpelling root.now }
    requires version { version_of root.now ≡ Two }
    requires sectors { root.now.sectors ≡ (D.facts disk.old).sectors }
    ensures calls { AreCallsAtMost (length (catalogues_of root.now))
        (D.facts disk.old) (D.facts disk.new) }
    ensures all_calls { OnOk result (AreCallsExactly (length (catalogues_of root.now))
        (D.facts disk.old) (D.facts disk.new)) }
    ensures same { IsTrue (D.facts disk.old).honest
        → AreReads (D.facts disk.old) (D.facts disk.new) }
    ensures count { IfOk result (λ listed. length listed.items ≡ root.now.library_count) }
    ensures listed { IsTrue (D.facts disk.old).honest → IfOk result (λ listed.
        AreListed (D.facts disk.old).now root.now.library_count root.now.list listed.items) }
    ensures unlisted { IsTrue (D.facts disk.old).honest
        → IfErr result (λ e. e ≡ StoreRefusal.Damaged → (sectors : List ℕ)
        → AreListed (D.facts disk.old).now root.now.library_count root.now.list sectors → ⊥) }
    ensures device { IfErr result (λ e. e ≡ StoreRefusal.Device
        → (D.facts disk.old).failures < (D.facts disk.new).failures) }
    ensures refusals { IfErr result IsRefusalOfList }
{
    let count = usize::from(root.library_count);
    let mut listed = Vec::with_capacity(alloc, count)?;
    for at in root.listed_sectors() {
        let Some(catalogue) = read_catalogue(disk, *at)? else {
            return Err(StoreRefusal::Damaged);
        };
        if catalogue.sectors().len() != (count - listed.len()).min(MOST_CATALOGUE_ENTRIES) {
            return Err(StoreRefusal::Damaged);
        }
        listed.extend_from_slice(catalogue.sectors())?;
    }
    Ok(listed)
}

/// Returns whether all of the sectors `listed` lie on a disk of `sectors` sectors.
fn are_inside(listed: &[u32], sectors: u32) -> bool
    ensures { IsTrue result ↔ All (λ at. at < sectors) listed.now }
{
    listed.iter().all(|at| *at < sectors)
}

/// Returns the sectors of the entries that a root lists, in the order of the list. Reads each
/// catalogue once. Refuses with Damaged if one of these sectors isn't on the disk.
pub(crate) fn read_listed<D: Disk>(
    alloc: Global,
    disk: &mut D,
    root: &Root,
) -> Result<Vec<u32>, StoreRefusal>
    requires root { RootHasSpelling root.now }
    requires sectors { root.now.sectors ≡ (D.facts disk.old).sectors }
    ensures calls { AreCallsAtMost (length (catalogues_of root.now))
        (D.facts disk.old) (D.facts disk.new) }
    ensures all_calls { OnOk result (AreCallsExactly (length (catalogues_of root.now))
        (D.facts disk.old) (D.facts disk.new)) }
    ensures same { IsTrue (D.facts disk.old).honest
        → AreReads (D.facts disk.old) (D.facts disk.new) }
    ensures count { IfOk result (λ listed. length listed.items ≡ root.now.library_count) }
    ensures inside { IfOk result (λ listed. All (λ at. at < root.now.sectors) listed.items) }
    ensures listed { IsTrue (D.facts disk.old).honest → IfOk result (λ listed.
        AreListed (D.facts disk.old).now root.now.library_count root.now.list listed.items) }
    ensures unlisted { IsTrue (D.facts disk.old).honest
        → IfErr result (λ e. e ≡ StoreRefusal.Damaged → (sectors : List ℕ)
        → AreListed (D.facts disk.old).now root.now.library_count root.now.list sectors
        → All (λ at. at < root.now.sectors) sectors → ⊥) }
    ensures device { IfErr result (λ e. e ≡ StoreRefusal.Device
        → (D.facts disk.old).failures < (D.facts disk.new).failures) }
    ensures refusals { IfErr result IsRefusalOfList }
{
    let listed = match root.version() {
        Version::One => {
            let mut listed = Vec::new(alloc);
            listed.extend_from_slice(root.listed_sectors())?;
            listed
        }
        Version::Two => read_catalogues(alloc, disk, root)?,
    };
    if !are_inside(&listed, root.sectors) {
        return Err(StoreRefusal::Damaged);
    }
    Ok(listed)
}
