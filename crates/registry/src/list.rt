// Reports the libraries and preloads of a list, without a call of the disk.
ghost use Rattle.std.specs.Prelude.{◌≡◌, IfOk, map};
ghost use Rattle.states.specs.State.{State};
ghost use Rattle.requests.specs.Table.{entry_of, listed};

use crate::listed::Listed;
use crate::registry::Registry;
use names::Name;
use requests::{Listing, Refusal, Reply};
use sector_disk::Disk;
use std::alloc::{AllocError, Global};

/// Returns the libraries' names, and the lengths of their files in bytes.
fn entries<L: Listed>(alloc: Global, list: &L) -> Result<Vec<(Name, u32)>, AllocError>
    ensures { (s : State) → L.is_at list.now s
        → IfOk result (λ v. v.items ≡ map entry_of s.libraries) }
{
    let mut entries = Vec::with_capacity(alloc, list.count())?;
    for position in 0..list.count() {
        let name = Name::copy_of(alloc, list.name(position))?;
        entries.push_reserved((name, list.length(position)));
    }
    Ok(entries)
}

/// Returns the names of the preloads.
fn preload_names<L: Listed>(alloc: Global, list: &L) -> Result<Vec<Name>, AllocError>
    ensures { (s : State) → L.is_at list.now s → IfOk result (λ v. v.items ≡ s.preloads) }
{
    let positions = list.preloads();
    let mut names = Vec::with_capacity(alloc, positions.len())?;
    for position in positions {
        names.push_reserved(Name::copy_of(alloc, list.name(*position as usize))?);
    }
    Ok(names)
}

/// Returns the libraries and the preloads.
pub(crate) fn listing<L: Listed>(alloc: Global, list: &L) -> Result<Listing, AllocError>
    ensures { (s : State) → L.is_at list.now s → IfOk result (λ listing. listing ≡ listed s) }
{
    let libraries = entries(alloc, list)?;
    let preloads = preload_names(alloc, list)?;
    Ok(Listing {
        libraries,
        preloads,
    })
}

impl<D: Disk> Registry<D> {
    ghost use Rattle.std.specs.Prelude.{◌≡◌, ◌↔◌, IsTrue};
    ghost use Rattle.requests.specs.Request.{list};
    ghost use Rattle.states.specs.State.{State};
    ghost use Rattle.store.specs.Opened.{IsAt};
    ghost use Rattle.registry.specs.Answered.{IsListAnswer};
    ghost use Rattle.registry.specs.Untested.{AppliesUntested};

    /// Returns the reply to `List`. Makes no call of the disk.
    pub(crate) fn list(&self) -> Reply
        ensures applied { (s : State) → IsAt D.facts self.now s
            → AppliesUntested D.facts self.now self.now s list result }

        // This clause holds on any disk, honest or not.
        ensures reopen { (result ≡ Reply.Refused Refusal.Reopen) ↔ IsTrue self.now.failed }
        ensures answers { IsListAnswer result }
        ensures device { result ≡ Reply.Refused Refusal.Device → ⊥ }
    {
        if self.store.has_failed() {
            return Reply::Refused(Refusal::Reopen);
        }
        match listing(self.alloc, &self.store) {
            Ok(listing) => Reply::Listing(listing),
            Err(_) => Reply::Refused(Refusal::OutOfMemory),
        }
    }
}
