// Binders. A binder binds a program step by step, while the registry may change.
ghost use Rattle.std.specs.Prelude.{◌≡◌, [], None, List, IfOk, IfErr, OnOk};
ghost use Rattle.image.specs.Refusal.{IsProgramAnswer};
ghost use Rattle.image.specs.Refusal.{program_refusal};
ghost use Rattle.states.specs.State.{State};
ghost use Rattle.store.specs.declared.placed_entry.PlacedEntry.{PlacedEntry};
ghost use Rattle.registry.specs.Flying.{IsLastStep};
ghost use Rattle.registry.specs.inside.Source.{Offers, offered};
ghost use Rattle.registry.specs.inside.Stepping.{refused_step, unread_step};
ghost use Rattle.registry.specs.inside.Walked.{IsAmong, IsBoundBy, IsWalked};

use crate::bind::refusal_of_read;
use crate::bound::bind_walked;
use crate::registry::Registry;
use crate::source::{Files, Source};
use crate::walk::Walk;
use hash_check::Admitted;
use image::{BindRefusal, Image, admit_program};
use requests::{Refusal, Reply};
use sector_disk::Disk;
use snapshots::Snapshot;
use std::alloc::Global;
use std::marker::Model;
use store::{Store, StoreRefusal};

/// The result of a step of a binder.
#[derive(Drop)]
pub enum Step {
    /// The bind isn't finished yet.
    Going,
    /// The answer of the bind: an image, B1 to B5, or S5 (Damaged). This was the last step.
    Final(Reply),
}

/// A program that is bound in steps, with the libraries that the registry had when the binder
/// began. You may use a binder only with its own registry, until you pass it to `Registry::end`.
#[derive(Drop)]
pub struct Binder {
    program: Vec<u8>,
    base: u64,
    snapshot: Snapshot,
    // `None` before the first step.
    walk: Option<Walk>,
}

impl Model for Binder {
    ghost use Rattle.registry.specs.inside.Binding.{Binding, IsReady, found_of};

    ghost Value = { Binding };

    ghost view = { λ b. record {
      program = b.program.items;
      base = b.base;
      snapshot = b.snapshot;
      found = found_of b.walk;
    } };

    ghost invariant = { λ b. IsReady (record {
      program = b.program.items;
      base = b.base;
      snapshot = b.snapshot;
      found = found_of b.walk;
    }) };
}

/// Makes the first step: tests the program without its libraries, and starts the walk.
fn look<D: Disk>(
    alloc: Global,
    store: &Store<D>,
    source: Source<'_>,
    program: &[u8],
    base: u64,
) -> Result<Walk, BindRefusal>
    ensures accepted { OnOk result (program_refusal program.now base ≡ None) }
    ensures ok { (entries : List PlacedEntry) → (s : State)
        → Offers D.facts source.entry entries s store.now
        → IfOk result (λ walk. IsWalked program.now s walk.needs walk.files.items) }
    ensures among { IfOk result (λ walk. IsAmong (offered source.entry store.now)
        walk.needs walk.files.items) }
    ensures none { IfOk result (λ walk. walk.files.items ≡ []) }
    ensures refused { IfErr result (IsProgramAnswer program.now base) }
{
    let program = admit_program(alloc, program, base)?;
    let walk = Walk::start(alloc, &Files { store, source }, &program)?;
    Ok(walk)
}

/// Makes the last step: binds the program with the findings of the walk.
fn answer(alloc: Global, program: &[u8], base: u64, walk: &Walk) -> Result<Image, BindRefusal>
    requires { program_refusal program.now base ≡ None }
    ensures { IsBoundBy program.now base walk.now.needs.missing walk.now.files.items result }
{
    let program = admit_program(alloc, program, base)?;
    bind_walked(alloc, &program, base, walk)
}

/// Returns the result of a step in which the bind was refused. If memory was refused, the caller
/// can repeat the step. Any other refusal is the answer.
fn refused(refusal: BindRefusal) -> Result<Step, Refusal>
    ensures value { result ≡ refused_step refusal }
    ensures last { IfOk result IsLastStep }
{
    match refusal {
        BindRefusal::OutOfMemory => Err(Refusal::OutOfMemory),
        refusal => Ok(Step::Final(Reply::Refused(Refusal::Bind(refusal)))),
    }
}

/// Returns the result of a step in which a read was refused. If a file is damaged, this is the
/// answer. After a failed call or refused memory, the caller can repeat the step. After S2
/// (Reopen), the disk has to be opened again.
fn unread(refusal: StoreRefusal) -> Result<Step, Refusal>
    ensures value { result ≡ unread_step refusal }
    ensures last { IfOk result IsLastStep }
{
    match refusal {
        StoreRefusal::Device => Err(Refusal::Device),
        StoreRefusal::Reopen => Err(Refusal::Reopen),
        StoreRefusal::OutOfMemory => Err(Refusal::OutOfMemory),
        _ => Ok(Step::Final(Reply::Refused(Refusal::Damaged))),
    }
}

impl Binder {
    ghost use Rattle.std.specs.Prelude.{◌≡◌, ◌<◌, ◌+◌, None, All, IfOk, IfErr, length, nat_eq};
    ghost use Rattle.std.specs.List.{IsDistinct};
    ghost use Rattle.registry.specs.Flight.{Flight};
    ghost use Rattle.registry.specs.Flying.{Flies, IsLastStep, IsStep, IsStepRefusal};
    ghost use Rattle.registry.specs.inside.Binding.{Stays};
    ghost use Rattle.store.specs.IsRead.{IsRead};

    // Does nothing. Its clauses state for proofs that no preload occurs twice, and that each
    // preload is a library.
    fn preloads_are_apart(&self)
        ensures inside { All (λ p. p < length self.now.snapshot.handles)
            self.now.snapshot.preloads }
        ensures once { IsDistinct nat_eq self.now.snapshot.preloads }
    {
        let _ = self.snapshot.preloads();
    }

    /// Makes the first step.
    fn first<D: Disk>(&mut self, alloc: Global, store: &Store<D>) -> Result<Step, Refusal>
        requires { self.old.found ≡ None }
        ensures step { (flight : Flight) → Flies D.facts store.now self.old flight
            → IsStep D.facts store.now store.now flight self.new result }
        ensures stays { Stays self.old self.new }
        ensures refusals { IfErr result (λ e. e ≡ Refusal.OutOfMemory) }
        ensures answers { IfOk result IsLastStep }
    {
        match look(
            alloc,
            store,
            Source::Held(&self.snapshot),
            &self.program,
            self.base,
        ) {
            Ok(walk) => {
                self.walk = Some(walk);
                Ok(Step::Going)
            }
            Err(refusal) => refused(refusal),
        }
    }

    /// Makes a step: examines the program, or reads the next file, or binds the program.
    fn step<D: Disk>(&mut self, alloc: Global, store: &mut Store<D>) -> Result<Step, Refusal>
        ensures step { (flight : Flight) → Flies D.facts store.old self.old flight
            → IsStep D.facts store.old store.new flight self.new result }
        ensures read { IsRead D.facts store.old store.new }
        ensures stays { Stays self.old self.new }
        ensures refusals { IfErr result (IsStepRefusal D.facts store.old store.new) }
        ensures answers { IfOk result IsLastStep }
    {
        let Some(walk) = &mut self.walk else {
            return self.first(alloc, store);
        };
        if !walk.has_next() {
            return match answer(alloc, &self.program, self.base, walk) {
                Ok(image) => Ok(Step::Final(Reply::Bound(image))),
                Err(refusal) => refused(refusal),
            };
        }
        match walk.step(alloc, store, Source::Held(&self.snapshot)) {
            Ok(()) => Ok(Step::Going),
            Err(refusal) => unread(refusal),
        }
    }
}

impl<D: Disk> Registry<D> {
    ghost use Rattle.registry.specs.Flying.{Advances, Begins, Ends};

    /// Begins to bind the program `program` at `base`, with the present libraries and preloads.
    /// Later changes of the registry don't affect the bind. Copies the program, holds each library,
    /// and makes no call of the disk. Refuses with S2 (Reopen) or S11 (OutOfMemory).
    pub fn begin(&mut self, program: &[u8], base: u64) -> Result<Binder, Refusal>
        ensures { Begins D.facts self.old self.new program.now base result }
    {
        // No two libraries have the same name. A held byte string is marked as listed if and only
        // if the state lists it.
        self.store.entries_are_sound();
        self.store.holds_are_sound();
        if self.store.has_failed() {
            return Err(Refusal::Reopen);
        }
        let program = program.to_vec(self.alloc)?;
        match Snapshot::take(self.alloc, &mut self.store) {
            Ok(snapshot) => Ok(Binder {
                program,
                base,
                snapshot,
                walk: None,
            }),
            Err(refusal) => Err(refusal_of_read(refusal)),
        }
    }

    /// Makes the next step of `binder`. The first step tests the program without its libraries.
    /// Each later step reads and admits one library, in load order, and the last step binds the
    /// program. After S1 (Device) and S11 (OutOfMemory), you can repeat the step. After S2
    /// (Reopen), the disk has to be opened again, and you can only end the binder.
    pub fn advance(&mut self, binder: &mut Binder) -> Result<Step, Refusal>
        ensures { Advances D.facts self.old self.new binder.old binder.new result }
    {
        // This call states for the proof that no library is read twice.
        binder.preloads_are_apart();
        if self.store.has_failed() {
            return Err(Refusal::Reopen);
        }
        binder.step(self.alloc, &mut self.store)
    }

    /// Ends `binder`, finished or not, and releases the libraries that it holds. Allocates no
    /// memory and makes no call of the disk. You may also call it after S2 (Reopen).
    pub fn end(&mut self, binder: Binder)
        ensures { Ends D.facts self.old self.new binder }
    {
        let Binder {
            program: _,
            base: _,
            snapshot,
            walk: _,
        } = binder;
        snapshot.let_go(&mut self.store);
    }
}
