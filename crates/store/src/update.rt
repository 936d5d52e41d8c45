// An update: several changes, and one commit.
use crate::draft::Draft;
use crate::kept::Kept;
use crate::refusal::StoreRefusal;
use crate::store::Store;
use sector_disk::Disk;
use std::alloc::Global;
use std::marker::Model;

/// A store during an update: the current state on its disk, and a draft of the state after the
/// update. The update writes its byte strings to unused sectors immediately. No root leads to them
/// before the commit.
pub struct Update<D: Disk> {
    pub(crate) disk: D,
    pub(crate) kept: Kept,
    pub(crate) draft: Draft,
}

impl<D: Disk> Model for Update<D> {
    ghost use Rattle.store.specs.Draft.{Drafted};
    ghost use Rattle.store.specs.inside.Draft.{IsDrafting, drafting};

    ghost Value = { Drafted D };

    ghost view = { λ update. drafting update.disk update.kept update.draft };

    ghost invariant = { λ update. IsDrafting (D.facts update.disk).sectors
        update.kept update.draft };
}

impl<D: Disk> Store<D> {
    ghost use Rattle.std.specs.Prelude.{◌≡◌, ◌⊎◌, IsTrue, IsFalse, IfOk, IfErr};
    ghost use Rattle.states.specs.State.{State};
    ghost use Rattle.store.specs.Draft.{IsDraftedAt, begun};
    ghost use Rattle.store.specs.Opened.{IsAt};

    /// Begins an update, whose draft is the current state. Makes no call of the disk. Refuses with
    /// S2 or S11, and then also returns the store.
    pub fn update(self, alloc: Global) -> Result<Update<D>, (StoreRefusal, Store<D>)>
        ensures begun { IfOk result (λ update. update ≡ begun self) }
        ensures usable { IfOk result (λ update. IsFalse self.failed) }
        ensures ok { (s : State) → IsAt D.facts self s
            → IfOk result (λ update. IsDraftedAt D.facts update s s) }
        ensures same { IfErr result (λ e. e.1 ≡ self) }
        ensures refused { IfErr result (λ e.
            ((e.0 ≡ StoreRefusal.Reopen) × IsTrue self.failed)
            ⊎ ((e.0 ≡ StoreRefusal.OutOfMemory) × IsFalse self.failed)) }
    {
        if self.kept.failed {
            return Err((StoreRefusal::Reopen, self));
        }
        match Draft::over(alloc, &self.kept) {
            Ok(draft) => {
                let Store { disk, kept } = self;
                Ok(Update { disk, kept, draft })
            }
            Err(_) => Err((StoreRefusal::OutOfMemory, self)),
        }
    }
}

impl<D: Disk> Update<D> {
    ghost use Rattle.std.specs.Prelude.{◌≡◌};

    /// Gives an update up, and returns the store as it would be if no update had been begun. Makes
    /// no call of the disk. Also succeeds if an earlier call of the disk failed.
    pub fn give_up(self) -> Store<D>
        ensures { result ≡ self.store }
    {
        let Update { disk, kept, draft } = self;
        let mut kept = kept;
        kept.leave_all(&draft.entries);
        Store { disk, kept }
    }
}
