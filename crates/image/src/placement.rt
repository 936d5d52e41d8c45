// Computes the bases of objects, and tests the base of a program.

ghost use Rattle.std.specs.Prelude.{◌≡◌, ◌+◌, ◌<◌, ◌≤◌, map, true, false, IfOk, OnOk, IfErr, OnErr};
ghost use Rattle.std.specs.Prelude.{MatchOption};
ghost use Rattle.std.specs.Int.{next_multiple_of};
ghost use Rattle.scope.specs.Objects.{file_at, IsOrder};
ghost use Rattle.image.specs.Constant.{MEMORY_LIMIT};
ghost use Rattle.image.specs.Placement.{unit, reach, is_good_base, lacks_room, place};
ghost use Rattle.image.specs.Refusal.{IsPlaceAnswer, PlacesWantMemory};

use crate::refusal::BindRefusal;
use elf_dynamic::Object;
use hash_check::Admitted;
use scope::Order;
use std::alloc::{AllocError, Global};

/// The size of a page in bytes.
const PAGE: u64 = 4096;
/// The highest address at which memory may end: a page below 2^47.
const MEMORY_LIMIT: u64 = 0x7fff_ffff_f000;

/// Returns the unit of `object`, in bytes. Makes one pass over its PT_LOADs.
#[tactic(auto, unfolding(crate::specs::Placement::unit))]
fn unit(object: &Object<'_>) -> u64
    ensures { result ≡ unit object.now }
{
    object
        .segments()
        .map(|header| header.alignment)
        .fold(PAGE, |unit, alignment| unit.max(alignment))
}

/// Returns the number of bytes from the base of `object` to the end of its memory. This is the end
/// of the last PT_LOAD, because each PT_LOAD ends at or below the beginning of the next one.
fn reach(object: &Object<'_>) -> u64
    ensures { result ≡ reach object.now }
{
    let count = object.segment_count();
    let last = object.segment(count - 1);
    last.address + last.memory_size
}

/// Returns whether a program may be placed at `base`: `base` is a multiple of the program's unit,
/// which is the greatest of 4,096 and the alignments of its PT_LOADs.
#[tactic(auto, using(crate::proofs::Placing::unit_positive))]
pub fn good_base(program: &Admitted<'_>, base: u64) -> bool
    ensures { result ≡ is_good_base program.now base }
{
    base % unit(program.object()) == 0
}

/// Returns the address at which the memory of `object` ends if the object is at `base`, or `None`
/// if this address is above the limit.
fn end_at(object: &Object<'_>, base: u64) -> Option<u64>
    ensures { MatchOption result (MEMORY_LIMIT < base + reach object.now)
        (λ end. (end ≡ base + reach object.now) × (end ≤ MEMORY_LIMIT)) }
{
    let size = reach(object);
    if base > MEMORY_LIMIT || size > MEMORY_LIMIT - base {
        None
    } else {
        Some(base + size)
    }
}

/// Returns the least multiple of `unit` that isn't below `end`, or `None` if this multiple is above
/// the limit.
fn base_after(end: u64, unit: u64) -> Option<u64>
    requires end { end ≤ MEMORY_LIMIT }
    requires unit { 0 < unit }
    ensures { MatchOption result (MEMORY_LIMIT < next_multiple_of end unit)
        (λ base. base ≡ next_multiple_of end unit) }
{
    let more = (unit - end % unit) % unit;
    if more > MEMORY_LIMIT - end {
        None
    } else {
        Some(end + more)
    }
}

/// Returns the base of an object that is placed after `end`, and the end of the object's memory.
/// Returns `None` if the base or the end is above the limit.
#[tactic(auto, using(crate::proofs::Placing::unit_positive))]
fn place_behind(object: &Object<'_>, end: u64) -> Option<(u64, u64)>
    requires { end ≤ MEMORY_LIMIT }
    ensures { MatchOption result
        (MEMORY_LIMIT < next_multiple_of end (unit object.now) + reach object.now)
        (λ p. (p.0 ≡ next_multiple_of end (unit object.now)) × (p.1 ≡ p.0 + reach object.now)
        × (p.1 ≤ MEMORY_LIMIT)) }
{
    let Some(base) = base_after(end, unit(object)) else {
        return None;
    };
    let Some(end) = end_at(object, base) else {
        return None;
    };
    Some((base, end))
}

/// Returns the bases of the objects in load order, or `None` if the memory of an object would end
/// above the limit.
fn fitting_bases(
    alloc: Global,
    order: &Order<'_>,
    base: u64,
) -> Result<Option<Vec<u64>>, AllocError>
    ensures order { IsOrder order.now }
    ensures ok { IfOk result (λ fitting. MatchOption fitting
        (lacks_room (place base order.now) ≡ true)
        (λ bases. (bases.items ≡ map (λ p. p.base) (place base order.now))
        × (lacks_room (place base order.now) ≡ false))) }
    ensures memory { OnErr result (PlacesWantMemory (place base order.now)) }
{
    let count = order.count();
    let Some(mut end) = end_at(order.object(0).object(), base) else {
        return Ok(None);
    };
    let mut bases = Vec::with_capacity(alloc, count)?;
    bases.push_reserved(base);
    for i in 1..count {
        let Some((next, next_end)) = place_behind(order.object(i).object(), end) else {
            return Ok(None);
        };
        bases.push_reserved(next);
        end = next_end;
    }
    Ok(Some(bases))
}

/// Returns the bases of the objects in load order. The program's base is `base`. Each later base is
/// the least multiple of its object's unit that isn't below the end of the object before it.
///
/// Makes one pass over the PT_LOADs of each object. Allocates eight bytes for each object.
pub fn place(alloc: Global, order: &Order<'_>, base: u64) -> Result<Vec<u64>, BindRefusal>
    requires { is_good_base (file_at order.now 0) base ≡ true }
    ensures order { IsOrder order.now }
    ensures ok { IfOk result (λ bases. bases.items ≡ map (λ p. p.base) (place base order.now)) }

    // Returns bases only if no memory ends above the limit. Otherwise returns NoRoom. May also
    // return OutOfMemory, if the end of the program's own memory isn't too high.
    ensures room { OnOk result (lacks_room (place base order.now) ≡ false) }
    ensures refused { IfErr result (IsPlaceAnswer (place base order.now)) }
{
    match fitting_bases(alloc, order, base)? {
        Some(bases) => Ok(bases),
        None => Err(BindRefusal::NoRoom),
    }
}
