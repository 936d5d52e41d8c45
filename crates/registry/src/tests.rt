// Makes the tests of a command that depend only on the list of libraries.
ghost use Rattle.std.specs.Prelude.{◌≡◌, ◌≢◌, ◌==◌, ◌<◌, ◌≤◌, ◌↔◌, ℕ, All, Err, IfErr, IfOk};
ghost use Rattle.std.specs.Prelude.{IfSome, IsNone, IsTrue, OnOk, length, map, not, slice_index_or, true};
ghost use Rattle.std.specs.List.{list_any};
ghost use Rattle.elf_file.specs.FirstOf.{first_of};
ghost use Rattle.extents.specs.Extent.{AreDistinct};
ghost use Rattle.states.specs.Limits.{most_preloads};
ghost use Rattle.states.specs.Room.{change_tests};
ghost use Rattle.states.specs.State.{State, has_name, names_of};
ghost use Rattle.store.specs.Stands.{name_of, names_at};
ghost use Rattle.store.specs.declared.placed_entry.PlacedEntry.{PlacedEntry};
ghost use Rattle.requests.specs.Request.{remove, set_preloads};
ghost use Rattle.requests.specs.Table.{Table};
ghost use Rattle.requests.specs.Tests.{first_refusal, for_room};
ghost use Rattle.registry.specs.Answered.{IsPreloadsRefusal, IsRemoveRefusal};
ghost use Rattle.registry.specs.inside.Named.{AreNamed, IsTableOf};

use crate::listed::Listed;
use arrayvec::ArrayVec;
use requests::{Refusal, are_too_many, has_repeat};
use states::MOST_PRELOADS;

/// Returns whether the library at `position` is a preload.
fn is_preload<L: Listed>(list: &L, position: usize) -> bool
    ensures inside { All (λ p. p < length (L.entries list.now)) (L.chosen list.now) }
    ensures is { result ≡ list_any (λ p. p == position) (L.chosen list.now) }
    ensures within { (s : State) → L.is_at list.now s
        → All (λ p. p < length s.libraries) (L.chosen list.now) }
    ensures state { (s : State) → L.is_at list.now s
        → s.preloads ≡ names_at s.libraries (L.chosen list.now) }
{
    list.preloads()
        .iter()
        .any(|preload| *preload as usize == position)
}

/// Makes all tests for removing the library `name`, except the test of the generation. Returns the
/// refusal of the first test that refuses.
pub(crate) fn test_remove<L: Listed>(list: &L, name: &[u8]) -> Result<(), Refusal>
    ensures ok { (s : State) → L.is_at list.now s → (t : Table) → IsTableOf t s
        → OnOk result (first_refusal t (remove name.now)
        ≡ first_of (for_room (change_tests t.generation))) }
    ensures refused { (s : State) → L.is_at list.now s → (t : Table) → IsTableOf t s
        → IfErr result (λ refusal. first_refusal t (remove name.now) ≡ Some refusal) }
    ensures reopen { (result ≡ Err Refusal.Reopen) ↔ IsTrue (L.failed list.now) }
    ensures refusals { IfErr result IsRemoveRefusal }
    ensures device { result ≢ Err Refusal.Device }
    ensures present { OnOk result ((i : ℕ) × (i < length (L.entries list.now))
        × ((d : PlacedEntry)
        → name_of (slice_index_or (L.entries list.now) i d).entry ≡ name.now)) }
    ensures no_preload { OnOk result (All (λ p. (d : PlacedEntry)
        → name_of (slice_index_or (L.entries list.now) p d).entry ≢ name.now)
        (L.chosen list.now)) }
{
    if list.has_failed() {
        return Err(Refusal::Reopen);
    }
    let Some(position) = list.position(name) else {
        return Err(Refusal::NotInstalled);
    };
    if is_preload(list, position) {
        return Err(Refusal::InPreloads);
    }
    Ok(())
}

/// Returns the positions of the libraries with the names `names`, or `None` if one of these
/// libraries isn't installed.
fn positions_of<L: Listed>(list: &L, names: &[&[u8]]) -> Option<ArrayVec<usize, MOST_PRELOADS>>
    requires { length names.now ≤ most_preloads }
    ensures named { IfSome result (λ positions.
        AreNamed (L.entries list.now) positions.items (map (λ n. n.now) names.now)) }
    ensures state { (s : State) → L.is_at list.now s → IfSome result (λ positions.
        names_at s.libraries positions.items ≡ map (λ n. n.now) names.now) }
    ensures lacking { (s : State) → L.is_at list.now s → (IsNone result)
        ↔ (list_any (λ name. not (has_name (names_of s.libraries) name))
        (map (λ n. n.now) names.now) ≡ true) }
{
    let mut positions = ArrayVec::new();
    for name in names {
        let Some(position) = list.position(name) else {
            return None;
        };
        positions.push(position);
    }
    Some(positions)
}

/// Makes all tests for setting the preloads to `names`, except the test of the generation. Returns
/// the positions of these libraries, or the refusal of the first test that refuses.
pub(crate) fn test_preloads<L: Listed>(
    list: &L,
    names: &[&[u8]],
) -> Result<ArrayVec<usize, MOST_PRELOADS>, Refusal>
    ensures ok { (s : State) → L.is_at list.now s → (t : Table) → IsTableOf t s
        → OnOk result (first_refusal t (set_preloads (map (λ n. n.now) names.now))
        ≡ first_of (for_room (change_tests t.generation))) }
    ensures refused { (s : State) → L.is_at list.now s → (t : Table) → IsTableOf t s
        → IfErr result (λ refusal.
        first_refusal t (set_preloads (map (λ n. n.now) names.now)) ≡ Some refusal) }
    ensures reopen { (result ≡ Err Refusal.Reopen) ↔ IsTrue (L.failed list.now) }
    ensures refusals { IfErr result IsPreloadsRefusal }
    ensures device { result ≢ Err Refusal.Device }
    ensures state { (s : State) → L.is_at list.now s → IfOk result (λ positions.
        names_at s.libraries positions.items ≡ map (λ n. n.now) names.now) }
    ensures few { IfOk result (λ positions. length positions.items ≤ most_preloads) }
    ensures inside { IfOk result (λ positions.
        All (λ position. position < length (L.entries list.now)) positions.items) }
    ensures distinct { IfOk result (λ positions. AreDistinct positions.items) }
{
    if list.has_failed() {
        return Err(Refusal::Reopen);
    }
    if are_too_many(names) {
        return Err(Refusal::TooManyPreloads);
    }
    if has_repeat(names) {
        return Err(Refusal::RepeatedPreload);
    }
    match positions_of(list, names) {
        Some(positions) => Ok(positions),
        None => Err(Refusal::NotInstalled),
    }
}
