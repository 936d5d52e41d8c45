// Places the objects of an order at their bases.

ghost use Rattle.std.specs.Prelude.{◌≡◌, ◌<◌, length, map, true, false, Some, None};
ghost use Rattle.std.specs.Prelude.{IfOk, IfErr, OnOk, MatchResult};
ghost use Rattle.elf_dynamic.specs.Symbol.{symbols};
ghost use Rattle.scope.specs.Objects as ordered;
ghost use Rattle.scope.specs.Target.{target};
ghost use Rattle.image.specs.Bound.{AllAccepted};
ghost use Rattle.image.specs.Placement.{Stacked, is_good_base, lacks_room, named, place};
ghost use Rattle.image.specs.Refusal.{IsPlaceAnswer};
ghost use Rattle.image.specs.Relocating.{base_at, file_at, name_at, own_address, symbol_value};
ghost use Rattle.image.specs.inside.Segments.{IsPlaced, with_bases};

use crate::placement::place;
use crate::refusal::BindRefusal;
use elf_dynamic::Object;
use scope::{Order, Target, Undefined, resolve};
use std::alloc::Global;
use std::marker::Model;

/// The objects of an order, each at its base. In contracts, the value is the list of the objects,
/// each with its name, its file's bytes and its base.
#[derive(Drop)]
pub struct PlacedOrder<'a> {
    order: &'a Order<'a>,
    bases: Vec<u64>,
}

impl<'a> Model for PlacedOrder<'a> {
    ghost use Rattle.std.specs.Prelude.{List};
    ghost use Rattle.image.specs.Placement.{Placed};
    ghost use Rattle.image.specs.inside.Segments.{IsPlaced, with_bases};

    ghost Value = { List Placed };

    ghost view = { λ p. with_bases p.order.now p.bases.items };

    ghost invariant = { λ p. IsPlaced p.order.now p.bases.items };
}

impl<'a> PlacedOrder<'a> {
    /// Places the objects of `order`. The program's base is `base`. Takes as much time and memory
    /// as `place`.
    pub fn of(
        alloc: Global,
        order: &'a Order<'a>,
        base: u64,
    ) -> Result<PlacedOrder<'a>, BindRefusal>
        requires { is_good_base (ordered.file_at order.now 0) base ≡ true }
        ensures ok { IfOk result (λ placed. placed ≡ place base order.now) }

        // Refuses with NoRoom if the memory of an object would end above 2^47 - 4,096. Otherwise
        // returns the objects or OutOfMemory. OutOfMemory is possible only if the end of the
        // program's own memory isn't too high.
        ensures room { OnOk result (lacks_room (place base order.now) ≡ false) }
        ensures refused { IfErr result (IsPlaceAnswer (place base order.now)) }
    {
        let bases = place(alloc, order, base)?;
        Ok(PlacedOrder { order, bases })
    }

    /// Returns the number of objects.
    pub fn count(&self) -> usize
        ensures count { result ≡ length self.now }

        // The clauses from here on hold for all objects.
        ensures stacked { Stacked 0 self.now }
        ensures accepted { AllAccepted self.now }
    {
        self.bases.len()
    }

    /// Returns the base of object number `i` in load order.
    pub fn base(&self, i: usize) -> u64
        requires { i < length self.now }
        ensures { result ≡ base_at self.now i }
    {
        self.bases[i]
    }

    /// Returns the name of object number `i`.
    pub fn name(&self, i: usize) -> &'a [u8]
        requires { i < length self.now }
        ensures { result.now ≡ name_at self.now i }
    {
        self.order.name(i)
    }

    /// Returns the file of object number `i`.
    pub fn object(&self, i: usize) -> &Object<'a>
        requires { i < length self.now }
        ensures file { result.now ≡ file_at self.now i }

        // The clauses from here on hold for all objects.
        ensures stacked { Stacked 0 self.now }
        ensures accepted { AllAccepted self.now }
    {
        let admitted = self.order.object(i);
        admitted.object()
    }

    /// Returns the symbol to which symbol number `symbol` of object number `own` is bound. Takes as
    /// much time as `resolve`.
    pub fn target(&self, own: usize, symbol: u32) -> Result<Target, Undefined>
        requires own { own < length self.now }
        requires symbol { symbol < length (symbols (file_at self.now own)) }
        ensures { MatchResult result
            (λ found. target (map named self.now) own symbol ≡ Some found)
            (λ _. target (map named self.now) own symbol ≡ None) }
    {
        resolve(self.order, own, symbol)
    }

    /// Returns the address of symbol number `symbol` of object number `object`.
    pub fn own_address(&self, object: usize, symbol: u32) -> u64
        requires object { object < length self.now }
        requires symbol { symbol < length (symbols (file_at self.now object)) }
        ensures { result ≡ own_address self.now object symbol }
    {
        let found = self.object(object).symbol(symbol);
        if found.is_absolute() {
            found.value
        } else {
            self.base(object).wrapping_add(found.value)
        }
    }

    /// Returns the value of symbol number `symbol` of object number `own`, or `Undefined` if it has
    /// none. Searches for the symbol's name.
    #[tactic(auto, unfolding(crate::specs::Relocating::symbol_value))]
    pub(crate) fn symbol_value(&self, own: usize, symbol: u32) -> Result<u64, Undefined>
        requires own { own < length self.now }
        requires symbol { symbol < length (symbols (file_at self.now own)) }
        ensures { MatchResult result (λ value. symbol_value self.now own symbol ≡ Some value)
            (λ _. symbol_value self.now own symbol ≡ None) }
    {
        match self.target(own, symbol)? {
            Target::Zero => Ok(0),
            Target::At { object, symbol } => Ok(self.own_address(object, symbol)),
        }
    }
}
