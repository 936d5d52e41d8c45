// Placed objects, and the text of their symbols' bindings.

ghost use Rattle.std.specs.Prelude.{◌≡◌, ◌<◌, length, is_none, IfOk, IfErr, OnOk, true, false};
ghost use Rattle.std.specs.Io.KnownBytes.{Appends};
ghost use Rattle.image.specs.Placement.{is_good_base, lacks_room, place};
ghost use Rattle.image.specs.Refusal.{IsPlaceAnswer, undefined_in, undefined_refusal};
ghost use Rattle.image.specs.Relocating.{file_at};
ghost use Rattle.scope.specs.Objects as ordered;
ghost use Rattle.text_output.specs.Sends.{Sends};
ghost use Rattle.bindings.specs.Bindings.{bindings_text, object_text};
ghost use Rattle.bindings.specs.inside.Flags.{FileFlags};

use crate::lines::{TextBuffer, put_object_line};
use crate::named::all_flags;
use crate::needs::put_needs;
use crate::symbols::put_symbols;
use image::{BindRefusal, PlacedOrder};
use scope::Order;
use std::alloc::Global;
use std::io::Write;
use std::marker::Model;
use text_output::WriteFault;

/// A program and its libraries at their bases, with flags for the symbols to which their
/// relocations refer. In contracts, the value is the list of the placed objects.
#[derive(Drop)]
pub struct Bindings<'a> {
    objects: PlacedOrder<'a>,
    named: Vec<Vec<bool>>,
}

impl<'a> Model for Bindings<'a> {
    ghost use Rattle.std.specs.Prelude.{List, map};
    ghost use Rattle.image.specs.Placement.{Placed};
    ghost use Rattle.bindings.specs.inside.Flags.{AllFlags};

    ghost Value = { List Placed };

    ghost view = { λ b. b.objects };

    ghost invariant = { λ b. AllFlags b.objects (map (λ f. f.items) b.named.items) };
}

/// Writes the lines of object number `own`. `named` has a flag for each symbol of the object, which
/// is true if a relocation refers to the symbol. Returns whether all symbols with a true flag are
/// bound.
#[tactic(auto, unfolding(crate::specs::Bindings::object_text))]
fn put_object<W: Write>(
    out: &mut W,
    buffer: &mut TextBuffer,
    objects: &PlacedOrder<'_>,
    own: usize,
    named: &[bool],
) -> Result<bool, WriteFault>
    requires own { own < length objects.now }
    requires named { FileFlags (file_at objects.now own) named.now }
    ensures text { OnOk result (Sends (W.contents out.old) buffer.old
        (W.contents out.new) buffer.new (object_text objects.now own)) }
    ensures bound { IfOk result (λ bound. bound ≡ is_none (undefined_in objects.now own)) }
{
    put_object_line(out, buffer, objects.base(own), objects.name(own))?;
    put_needs(out, buffer, objects.object(own))?;
    put_symbols(out, buffer, objects, own, named)
}

impl<'a> Bindings<'a> {
    /// Places the objects of an order, with the program at `base`, and finds the symbols to which
    /// their relocations refer. Makes one pass over the relocations, and allocates one byte for
    /// each symbol.
    pub fn of(alloc: Global, order: &'a Order<'a>, base: u64) -> Result<Bindings<'a>, BindRefusal>
        requires { is_good_base (ordered.file_at order.now 0) base ≡ true }
        ensures ok { IfOk result (λ bindings. bindings ≡ place base order.now) }

        // Refuses with NoRoom if the memory of an object would end above 2^47 - 4,096. Returns
        // OutOfMemory only if the program's own memory doesn't end above that address.
        ensures room { OnOk result (lacks_room (place base order.now) ≡ false) }
        ensures refused { IfErr result (IsPlaceAnswer (place base order.now)) }
    {
        let objects = PlacedOrder::of(alloc, order, base)?;
        let named = all_flags(alloc, &objects)?;
        Ok(Bindings { objects, named })
    }

    /// Writes the text. Returns whether every symbol to which a relocation refers is bound, so that
    /// a bind would find no undefined symbol. Uses 64 KiB of stack, allocates nothing, and passes
    /// the text to the writer in pieces of 64 KiB. Searches once for each symbol to which a
    /// relocation refers. If the writer fails, the writer's contents are unspecified.
    #[tactic(auto, unfolding(crate::specs::Bindings::bindings_text))]
    pub fn write_text<W: Write>(&self, out: &mut W) -> Result<bool, WriteFault>
        ensures text { OnOk result
            (Appends (W.contents out.old) (W.contents out.new) (bindings_text self.now)) }
        ensures bound { IfOk result (λ bound. bound ≡ is_none (undefined_refusal self.now)) }
    {
        let mut buffer = TextBuffer::new();
        let mut bound = true;
        for own in 0..self.objects.count() {
            bound &= put_object(out, &mut buffer, &self.objects, own, &self.named[own])?;
        }
        buffer.put(out, b"end\n")?;
        buffer.send(out)?;
        Ok(bound)
    }
}
