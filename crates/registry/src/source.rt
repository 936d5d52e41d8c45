// The place where a walk finds the files of a bind, and the search for a file by its name.
ghost use Rattle.std.specs.Prelude.{◌≡◌, ◌<◌, ◌≤◌, ℕ, All, IfOk, IfSome, nat_eq, length, List};
ghost use Rattle.std.specs.List.{IsDistinct};
ghost use Rattle.scope.specs.LoadOrder.{place_of};
ghost use Rattle.store.specs.Stands.{HaveOwnNames};
ghost use Rattle.store.specs.declared.placed_entry.PlacedEntry.{PlacedEntry};
ghost use Rattle.store.specs.NameOrder.{entry_names};
ghost use Rattle.registry.specs.inside.Source.{HasEntries, IsFound, offered, offered_preloads};

use sector_disk::Disk;
use snapshots::Snapshot;
use std::alloc::{AllocError, Global};
use store::Store;

/// The place where a walk finds files: the current store, or a snapshot of it.
#[derive(Clone, Copy)]
pub(crate) enum Source<'a> {
    Current,
    Held(&'a Snapshot),
}

/// Files that are found by their names, with preloads among them.
pub(crate) trait Named {
    /// The files have these entries.
    ghost has: { Self → List PlacedEntry → Type 0 };

    /// The number of files.
    ghost offered: { Self → ℕ };

    /// The positions of the preloads.
    ghost listed: { Self → List ℕ };

    /// Returns the number of files.
    fn count(&self) -> usize
        ensures count { result ≡ offered self.now }
        ensures few { result ≤ 2048 };

    /// Returns the positions of the preloads.
    fn preloads(&self) -> &[u16]
        ensures value { result.now ≡ listed self.now }
        ensures inside { All (λ p. p < offered self.now) result.now }
        ensures once { IsDistinct nat_eq result.now };

    /// Returns the position of the file with the name `name`, if there is one. Makes a binary
    /// search in the order of the names.
    fn position(&self, name: &[u8]) -> Option<usize>
        ensures within { IfSome result (λ i. i < offered self.now) }
        ensures few { offered self.now ≤ 2048 }
        ensures found { (entries : List PlacedEntry) → has self.now entries
            → IsFound entries name.now result };

    /// The number of files is the number of entries.
    ghost counted: { (files : Self) → (entries : List PlacedEntry) → has files entries
        → offered files ≡ length entries };
}

/// The files of the current store, or of a snapshot of it.
#[derive(Clone, Copy)]
pub(crate) struct Files<'a, D: Disk> {
    pub store: &'a Store<D>,
    pub source: Source<'a>,
}

impl<'a, D: Disk> Named for Files<'a, D> {
    ghost use Rattle.registry.specs.inside.Source.{offered_count};

    ghost has = { λ files. HasEntries files.source files.store.now };

    ghost offered = { λ files. offered files.source files.store.now };

    ghost listed = { λ files. offered_preloads files.source files.store.now };

    fn count(&self) -> usize {
        match self.source {
            Source::Current => self.store.count(),
            Source::Held(snapshot) => snapshot.count(),
        }
    }

    fn preloads(&self) -> &[u16] {
        match self.source {
            Source::Current => self.store.preloads(),
            Source::Held(snapshot) => snapshot.preloads(),
        }
    }

    fn position(&self, name: &[u8]) -> Option<usize> {
        match self.source {
            Source::Current => self.store.position(name),
            Source::Held(snapshot) => snapshot.position(self.store, name),
        }
    }

    ghost counted = { λ files. offered_count files.source files.store.now };
}

/// Returns the positions of the preloads as `usize`.
pub(crate) fn preload_numbers<N: Named>(alloc: Global, files: &N) -> Result<Vec<usize>, AllocError>
    ensures same { IfOk result (λ v. v.items ≡ N.listed files.now) }
    ensures inside { All (λ p. p < N.offered files.now) (N.listed files.now) }
    ensures once { IsDistinct nat_eq (N.listed files.now) }
{
    files
        .preloads()
        .iter()
        .map(|position| *position as usize)
        .collect(alloc)
}

/// Returns the place, in a queue, of the file with the name `name`. The first file is at place 1.
pub(crate) fn place_of<N: Named>(files: &N, name: &[u8]) -> Option<usize>
    ensures place { (entries : List PlacedEntry) → N.has files.now entries
        → HaveOwnNames entries → result ≡ place_of (entry_names entries) name.now }
    ensures within { IfSome result (λ place. place ≤ N.offered files.now) }
{
    match files.position(name) {
        Some(position) => Some(position + 1),
        None => None,
    }
}
