// Implements `Listed` for the draft of an update, so that tests, listings and walks can use it.
ghost use Rattle.std.specs.Prelude.{◌≡◌, length, refl};
ghost use Rattle.states.specs.State.{State};
ghost use Rattle.store.specs.Draft.{IsDraftedAt};

use crate::listed::Listed;
use crate::source::Named;
use sector_disk::Disk;
use store::Update;

impl<D: Disk> Listed for Update<D> {
    ghost is_at = { λ update d. (s : State) × IsDraftedAt D.facts update s d };

    ghost entries = { λ update. update.entries };

    ghost chosen = { λ update. update.preloads };

    ghost failed = { λ update. update.store.failed };

    fn has_failed(&self) -> bool {
        Update::has_failed(self)
    }

    fn count(&self) -> usize {
        Update::count(self)
    }

    fn name(&self, position: usize) -> &[u8] {
        Update::name(self, position)
    }

    fn length(&self, position: usize) -> u32 {
        Update::length(self, position)
    }

    fn position(&self, name: &[u8]) -> Option<usize> {
        Update::position(self, name)
    }

    fn preloads(&self) -> &[u16] {
        Update::preloads(self)
    }

    ghost usable = { λ update d at. at.1.stands.usable };
}

impl<D: Disk> Named for Update<D> {
    ghost has = { λ update entries. update.entries ≡ entries };

    ghost offered = { λ update. length update.entries };

    ghost listed = { λ update. update.preloads };

    fn count(&self) -> usize {
        Update::count(self)
    }

    fn preloads(&self) -> &[u16] {
        Update::preloads(self)
    }

    fn position(&self, name: &[u8]) -> Option<usize> {
        Update::position(self, name)
    }

    ghost counted = { λ update entries has i. length (has i) };
}
