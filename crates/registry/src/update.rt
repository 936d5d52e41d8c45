// An update of a registry: several changes, and one commit.
ghost use Rattle.std.specs.Prelude.{◌≡◌};

use crate::bind::refusal_of_read;
use crate::refusal::in_words;
use crate::registry::Registry;
use requests::Refusal;
use sector_disk::Disk;
use std::alloc::Global;
use std::marker::Model;

/// A registry during an update: the current state on its disk, and a draft of the next state. In
/// contracts, the value is the draft.
pub struct Update<D: Disk> {
    pub(crate) alloc: Global,
    pub(crate) draft: store::Update<D>,
}

impl<D: Disk> Model for Update<D> {
    ghost use Rattle.store.specs.Draft.{Drafted};

    ghost Value = { Drafted D };

    ghost view = { λ u. u.draft };
}

impl<D: Disk> Registry<D> {
    ghost use Rattle.std.specs.Prelude.{◌≡◌, ◌⊎◌, IfErr, IfOk, IsFalse, IsTrue};
    ghost use Rattle.states.specs.State.{State};
    ghost use Rattle.store.specs.Draft.{IsDraftedAt, begun};
    ghost use Rattle.store.specs.Opened.{IsAt};

    /// Begins an update, whose draft is the current state. Makes no call of the disk. Refuses with
    /// S2 (Reopen) or S11 (OutOfMemory), and then also returns the registry.
    pub fn update(self) -> Result<Update<D>, (Refusal, Registry<D>)>
        ensures begun { IfOk result (λ update. update ≡ begun self) }
        ensures usable { IfOk result (λ update. IsFalse self.failed) }
        ensures ok { (s : State) → IsAt D.facts self s
            → IfOk result (λ update. IsDraftedAt D.facts update s s) }
        ensures same { IfErr result (λ e. e.1 ≡ self) }
        ensures refused { IfErr result (λ e.
            ((e.0 ≡ Refusal.Reopen) × IsTrue self.failed)
            ⊎ ((e.0 ≡ Refusal.OutOfMemory) × IsFalse self.failed)) }
    {
        let Registry { alloc, store } = self;
        match store.update(alloc) {
            Ok(draft) => Ok(Update { alloc, draft }),
            Err((refusal, store)) => Err((refusal_of_read(refusal), Registry { alloc, store })),
        }
    }
}

impl<D: Disk> Update<D> {
    ghost use Rattle.std.specs.Prelude.{◌≡◌, ◌⊎◌, IfErr, List, OnErr, OnOk, length};
    ghost use Rattle.sector_disk.specs.Disk.{LeavesOnly};
    ghost use Rattle.states.specs.State.{State};
    ghost use Rattle.store.specs.Changed.{Changed};
    ghost use Rattle.store.specs.Draft.{IsDraftedAt, begun, commit_calls, committed};
    ghost use Rattle.store.specs.Holds.{KeepsHeld};
    ghost use Rattle.store.specs.Opened.{IsAt, Opened};
    ghost use Rattle.store.specs.Stands.{Stands};
    ghost use Rattle.store.specs.declared.draft.Touched.TheVariants.{Nothing};
    ghost use Rattle.requests.specs.Request.{Request};
    ghost use Rattle.requests.specs.Runs.{Run};
    ghost use Rattle.requests.specs.Step.{answer_of};
    ghost use Rattle.requests.specs.declared.reply.Reply.{Reply};
    ghost use Rattle.registry.specs.Opened as registry;
    ghost use Rattle.registry.specs.Ran.{GivesUp, UpdatesAt, point};
    ghost use Rattle.registry.specs.Updating.{DraftAnswers, Plans};

    /// Returns whether a write of the update has failed. If so, each command of the update is
    /// refused with S2 (Reopen).
    pub fn has_failed(&self) -> bool
        ensures { result ≡ self.now.store.failed }
    {
        self.draft.has_failed()
    }

    /// Commits the draft: makes one change of the registry, or none if the draft has no change.
    /// Allocates no memory, and takes no sectors that it could lack. Refuses with S1 (Device) or S2
    /// (Reopen), and then gives the update up. After S1, the disk may hold the state before or
    /// after the commit, and has to be opened again.
    pub fn commit(self) -> (Result<(), Refusal>, Registry<D>)
        // A stop at any moment leaves the state before the commit, or the draft's whole state.
        ensures any_moment { (s d : State) → IsDraftedAt D.facts self s d
            → LeavesOnly (D.facts self.store.disk) (D.facts result.1.disk)
            (λ m. Stands m s ⊎ Stands m (committed self.touched s d)) }
        ensures ok { (s d : State) → IsDraftedAt D.facts self s d → OnOk result.0
            (IsAt D.facts result.1 (committed self.touched s d)) }

        // If the update began on a registry at a state in which each file is a library, and its
        // requests `requests` were planned, then the update is one exchange of a run, is made
        // completely or not at all, and leaves only files that are libraries.
        ensures made { (old : Opened D) (s : State) (requests : List Request)
            (answers : List Reply) → registry.IsAt D.facts old s
            → Plans D.facts (begun old) self requests answers → (s' : State)
            × UpdatesAt D.facts (point old s) requests (answer_of result.0) (point result.1 s') }

        // The held byte strings stay unchanged.
        ensures held { KeepsHeld D.facts self.store result.1 }

        // This clause holds on any disk, honest or not.
        ensures on_any_disk { Changed D.facts Refusal.Device Refusal.Reopen
            self.store result.1 (commit_calls self.touched (length self.entries))
            (λ e. (e ≡ Refusal.Device) ⊎ (e ≡ Refusal.Reopen)) result.0 }
        ensures given_up { OnErr result.0 ((result.1.root ≡ self.store.root)
            × (result.1.entries ≡ self.store.entries) × (result.1.held ≡ self.store.held)) }
        ensures entries { OnOk result.0 (result.1.entries ≡ self.entries) }

        // If the draft has no change, the registry is unchanged.
        ensures same { self.touched ≡ Nothing → result.1 ≡ self.store }
    {
        let Update { alloc, draft } = self;
        let (made, store) = draft.commit();
        (in_words(made), Registry { alloc, store })
    }

    /// Gives the update up, and returns the registry as it was before the update. Makes no call of
    /// the disk. You may also call it after S2 (Reopen).
    pub fn give_up(self) -> Registry<D>
        ensures same { result ≡ self.store }

        // If the update began on a registry at a state, the registry stays at that state. This
        // holds for any requests of the update, and even if a write failed.
        ensures given_up { (old : Opened D) (s : State) (requests : List Request)
            (answers : List Reply) → registry.IsAt D.facts old s
            → Run (DraftAnswers D.facts) (begun old) requests answers self
            → GivesUp D.facts (point old s) (point result s) }
    {
        let Update { alloc, draft } = self;
        let store = draft.give_up();
        Registry { alloc, store }
    }
}
