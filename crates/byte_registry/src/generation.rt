// The current root on a disk of given bytes, and its generation.
ghost use Rattle.std.specs.Prelude.{◌≡◌, List, Some};
ghost use Rattle.byte_disk.specs.Bytes.{sectors_in};
ghost use Rattle.roots.specs.declared.version.Version.{Version};
ghost use Rattle.states.specs.State.{State};
ghost use Rattle.store.specs.declared.placed_entry.PlacedEntry.{PlacedEntry};
ghost use Rattle.store.specs.Stands.{StandsBy};
ghost use Rattle.byte_registry.specs.Bytes.{HoldStore};

use roots::{Root, choose, decode_root};
use sector_disk::SECTOR_BYTES;

/// Returns the current root on the bytes `disk`, if there is one.
pub(crate) fn current_root(disk: &[u8]) -> Option<Root>
    ensures { (version : Version) → (root : Root) → (entries : List PlacedEntry) → (s : State)
        → StandsBy version (sectors_in disk.now) root entries s → result ≡ Some root }
{
    let (sectors, _) = disk.as_chunks::<SECTOR_BYTES>();
    if sectors.len() < 2 {
        return None;
    }
    match choose(decode_root(&sectors[0]), decode_root(&sectors[1])) {
        Ok(root) => Some(root),
        Err(_) => None,
    }
}

/// Returns the generation of the current root on the bytes `disk`, or 0 if there is none.
pub fn generation_of(disk: &[u8]) -> u64
    ensures { (s : State) → HoldStore disk.now s → result ≡ s.generation }
{
    match current_root(disk) {
        Some(root) => root.generation,
        None => 0,
    }
}
