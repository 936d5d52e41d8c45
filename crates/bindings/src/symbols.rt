// Writes the lines of an object's symbols.

ghost use Rattle.std.specs.Prelude.{◌≡◌, ◌<◌, ◌||◌, [], length, not, is_some, is_none, IfOk, OnOk};
ghost use Rattle.std.specs.Prelude.{if◌then◌else◌};
ghost use Rattle.std.specs.List.{flat_map};
ghost use Rattle.elf_dynamic.specs.Symbol.{symbols};
ghost use Rattle.image.specs.Refusal.{undefined_in};
ghost use Rattle.image.specs.Relocating.{file_at};
ghost use Rattle.text_output.specs.Sends.{Sends};
ghost use Rattle.bindings.specs.Bindings.{symbol_line, target_at};
ghost use Rattle.bindings.specs.Named.{named_symbols};
ghost use Rattle.bindings.specs.inside.Flags.{FileFlags};

use crate::lines::{TextBuffer, put_binds_line, put_name_line, put_names_line};
use image::PlacedOrder;
use scope::{Target, Undefined};
use std::io::Write;
use text_output::WriteFault;

/// Writes the line of symbol number `i` of object number `own`. Returns whether the symbol is
/// bound.
#[tactic(auto, unfolding(crate::specs::Bindings::symbol_line))]
fn put_symbol<W: Write>(
    out: &mut W,
    buffer: &mut TextBuffer,
    objects: &PlacedOrder<'_>,
    own: usize,
    symbol: u32,
) -> Result<bool, WriteFault>
    requires own { own < length objects.now }
    requires symbol { symbol < length (symbols (file_at objects.now own)) }
    ensures text { OnOk result (Sends (W.contents out.old) buffer.old
        (W.contents out.new) buffer.new (symbol_line objects.now own symbol)) }
    ensures bound { IfOk result (λ bound. bound ≡ is_some (target_at objects.now own symbol)) }
{
    let name = objects.object(own).name_of(symbol);
    match objects.target(own, symbol) {
        Ok(
            Target::At {
                object,
                symbol: found,
            },
        ) => {
            let value = objects.own_address(object, found);
            put_binds_line(out, buffer, name, value, objects.name(object))?;
            Ok(true)
        }
        Ok(Target::Zero) => {
            put_name_line(out, buffer, b"unresolved ", name)?;
            Ok(true)
        }
        Err(Undefined) => {
            put_names_line(out, buffer, b"undefined ", name, objects.name(own))?;
            Ok(false)
        }
    }
}

/// Writes the line of the symbol if a relocation refers to it, and returns whether the symbol is
/// bound. If no relocation refers to it, writes nothing and returns true.
fn put_if_named<W: Write>(
    out: &mut W,
    buffer: &mut TextBuffer,
    objects: &PlacedOrder<'_>,
    own: usize,
    symbol: u32,
    named: bool,
) -> Result<bool, WriteFault>
    requires own { own < length objects.now }
    requires symbol { symbol < length (symbols (file_at objects.now own)) }
    ensures text { OnOk result (Sends (W.contents out.old) buffer.old
        (W.contents out.new) buffer.new
        (if named then symbol_line objects.now own symbol else [])) }
    ensures bound { IfOk result (λ bound. bound
        ≡ (not named || is_some (target_at objects.now own symbol))) }
{
    if named {
        put_symbol(out, buffer, objects, own, symbol)
    } else {
        Ok(true)
    }
}

/// Writes the lines of the symbols of object number `own` whose flags are true. Returns whether all
/// of these symbols are bound, so that a bind finds no undefined symbol in this object.
pub(crate) fn put_symbols<W: Write>(
    out: &mut W,
    buffer: &mut TextBuffer,
    objects: &PlacedOrder<'_>,
    own: usize,
    named: &[bool],
) -> Result<bool, WriteFault>
    requires own { own < length objects.now }
    requires named { FileFlags (file_at objects.now own) named.now }
    ensures text { OnOk result (Sends (W.contents out.old) buffer.old
        (W.contents out.new) buffer.new
        (flat_map (symbol_line objects.now own) (named_symbols (file_at objects.now own)))) }
    ensures bound { IfOk result (λ bound. bound ≡ is_none (undefined_in objects.now own)) }
{
    let mut bound = true;
    for symbol in 1..objects.object(own).symbol_count() {
        let flag = named[symbol as usize];
        bound &= put_if_named(out, buffer, objects, own, symbol, flag)?;
    }
    Ok(bound)
}
