// Places objects at their bases, and finds the values of their symbols.

ghost use Rattle.std.specs.Prelude.{◌≡◌, ◌<◌, length, true, None, All, IfOk, IfErr, OnOk};
ghost use Rattle.scope.specs.Objects.{file_at};
ghost use Rattle.image.specs.Bound.{AreBound, IsBound, IsReady, placed_as};
ghost use Rattle.image.specs.Image.{object_of};
ghost use Rattle.image.specs.Placement.{is_good_base, place};
ghost use Rattle.image.specs.Refusal.{IsFirstOrWantsMemory, IsPlacedAnswer};
ghost use Rattle.image.specs.Refusal.{placed_refusal, undefined_in, undefined_refusal};
ghost use Rattle.image.specs.Relocating.{relocations_of};

use crate::object::ImageObject;
use crate::placed::PlacedOrder;
use crate::refusal::BindRefusal;
use crate::value::{Values, find_value_of};
use elf_dynamic::Object;
use names::Name;
use scope::Order;
use std::alloc::{AllocError, Global};
use std::marker::Model;

/// An object at its base, with the values of the symbols to which its relocations refer. Given
/// these values, the object's segments depend only on its file. In contracts, the value is the
/// object's name, its base and these values.
#[derive(Drop)]
pub struct BoundObject {
    name: Name,
    base: u64,
    // The values, in the order of the symbol numbers: eight bytes for each symbol.
    values: Vec<u64>,
}

impl Model for BoundObject {
    ghost use Rattle.image.specs.Bound.{Bound};

    ghost Value = { Bound };

    ghost view = { λ b. record { name = b.name; base = b.base; values = b.values.items } };
}

impl BoundObject {
    /// The base of the object.
    pub(crate) fn base(&self) -> u64
        ensures { result ≡ self.now.base }
    {
        self.base
    }

    /// The values of the object's symbols, in the order of the symbol numbers.
    pub(crate) fn values(&self) -> &[u64]
        ensures { result.now ≡ self.now.values }
    {
        &self.values
    }

    /// Returns the record of this object in an image. `object` is the object's file.
    pub(crate) fn image_object(
        &self,
        alloc: Global,
        object: &Object<'_>,
    ) -> Result<ImageObject, AllocError>
        ensures { IfOk result (λ named. named ≡ object_of (placed_as self.now object.now)) }
    {
        let name = Name::copy_of(alloc, self.name.as_bytes())?;
        let segment_count = object.segment_count();
        let addresses = object.addresses();
        Ok(ImageObject {
            name,
            base: self.base,
            segment_count,
            addresses,
        })
    }
}

/// Returns the values of the symbols to which the relocations of object number `own` refer. If a
/// relocation's symbol is undefined, returns the refusal for the first such relocation. Looks up
/// each symbol once.
fn symbol_values(
    alloc: Global,
    objects: &PlacedOrder<'_>,
    own: usize,
) -> Result<Vec<u64>, BindRefusal>
    requires { own < length objects.now }
    ensures ok { OnOk result (undefined_in objects.now own ≡ None) }
    ensures ready { IfOk result (λ values.
        All (IsReady objects.now own values.items) (relocations_of objects.now own)) }
    ensures refused { IfErr result (IsFirstOrWantsMemory (undefined_in objects.now own)) }
{
    let object = objects.object(own);
    let mut found = Values::unknown(alloc, object.symbol_count())?;
    for i in 0..object.rela_count() {
        let relocation = object.rela(i);
        let Ok(()) = find_value_of(objects, own, &mut found, relocation) else {
            let symbol = object.name_of(relocation.symbol);
            return Err(BindRefusal::undefined(alloc, objects.name(own), symbol));
        };
    }
    let Values { values, known: _ } = found;
    Ok(values)
}

/// Returns object number `own` with the values of its symbols. If the symbol of one of its
/// relocations is undefined, returns the refusal for the first such relocation.
fn bound_object(
    alloc: Global,
    objects: &PlacedOrder<'_>,
    own: usize,
) -> Result<BoundObject, BindRefusal>
    requires { own < length objects.now }
    ensures ok { OnOk result (undefined_in objects.now own ≡ None) }
    ensures bound { IfOk result (IsBound objects.now own) }
    ensures refused { IfErr result (IsFirstOrWantsMemory (undefined_in objects.now own)) }
{
    let values = symbol_values(alloc, objects, own)?;
    let name = Name::copy_of(alloc, objects.name(own))?;
    let base = objects.base(own);
    Ok(BoundObject { name, base, values })
}

/// Returns all objects with the values of their symbols. If a relocation's symbol is undefined,
/// returns the refusal for the first such relocation.
fn all_bound(alloc: Global, objects: &PlacedOrder<'_>) -> Result<Vec<BoundObject>, BindRefusal>
    ensures ok { OnOk result (undefined_refusal objects.now ≡ None) }
    ensures bound { IfOk result (λ all. AreBound objects.now all.items) }
    ensures refused { IfErr result (IsFirstOrWantsMemory (undefined_refusal objects.now)) }
{
    let count = objects.count();
    let mut bound = Vec::with_capacity(alloc, count)?;
    for own in 0..count {
        let object = bound_object(alloc, objects, own)?;
        bound.push_reserved(object);
    }
    Ok(bound)
}

/// Places a program and its libraries, and finds the values of the symbols to which their
/// relocations refer. `order` has the program and the libraries in load order, and `base` is the
/// program's base.
///
/// Returns the objects, or the first of these refusals: memory would end above 2^47 - 4,096 (B4); a
/// relocation's symbol is undefined (B5).
///
/// The time is linear in the relocations, except that each symbol is searched by its name.
/// Allocates eight bytes for each symbol.
pub fn bound_objects(
    alloc: Global,
    order: &Order<'_>,
    base: u64,
) -> Result<Vec<BoundObject>, BindRefusal>
    requires { is_good_base (file_at order.now 0) base ≡ true }

    // Returns objects only if no test refuses. Otherwise returns the refusal of the first test that
    // refuses. May also return OutOfMemory, if the end of the program's own memory isn't too high.
    ensures accepted { OnOk result (placed_refusal (place base order.now) ≡ None) }
    ensures refused { IfErr result (IsPlacedAnswer (place base order.now)) }

    // Returns the objects in load order, each at its base and with the values of its symbols.
    ensures bound { IfOk result (λ all. AreBound (place base order.now) all.items) }
{
    let objects = PlacedOrder::of(alloc, order, base)?;
    all_bound(alloc, &objects)
}
