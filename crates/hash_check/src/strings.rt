// Finds the strings of the string table whose tails are names of symbols.

ghost use Rattle.std.specs.Prelude.{◌≡◌, map, IfOk};
ghost use Rattle.std.specs.List.{All};
ghost use Rattle.std.specs.Option.{ForSome};
ghost use Rattle.elf_dynamic.specs.Strings.{name_of};
ghost use Rattle.hash_check.specs.inside.Endings.{AreEndings};
ghost use Rattle.hash_check.specs.inside.Names.{IsSymbol, IsStretch, BeginsIn, stretch_bytes};

use crate::endings::Ending;
use crate::names::offset_of;
use elf_dynamic::Object;
use std::alloc::{AllocError, Global};

/// A string of the string table: its offset and its length, in bytes.
#[derive(Clone, Copy)]
pub(crate) struct Stretch {
    pub(crate) from: u32,
    pub(crate) length: usize,
}

/// Returns the bytes of a stretch.
fn stretch_bytes<'a>(object: &Object<'a>, stretch: Stretch) -> &'a [u8]
    ensures { result.now ≡ stretch_bytes object.now stretch }
{
    let table = object.string_table();
    let rest = &table[(stretch.from as usize).min(table.len())..];
    &rest[..stretch.length.min(rest.len())]
}

/// Returns the stretch in which the name of symbol number `i` begins: `last`, if the name begins in
/// `last`, and otherwise the stretch that is the whole name. `last` is the stretch of the previous
/// symbol in the list.
pub(crate) fn stretch_of(object: &Object<'_>, last: Option<Stretch>, i: u32) -> Stretch
    requires symbol { IsSymbol object.now i }
    requires last { ForSome last (IsStretch object.now) }
    ensures stretch { IsStretch object.now result }
    ensures within { BeginsIn object.now i result }
{
    let offset = offset_of(object, i);
    if let Some(stretch) = last {
        if stretch.from <= offset && (offset - stretch.from) as usize <= stretch.length {
            return stretch;
        }
    }
    Stretch {
        from: offset,
        length: object.name_of(i).len(),
    }
}

/// Returns the endings of the names of symbols. If the symbols are sorted by the places of their
/// names, there is one ending for each place at which names end.
pub(crate) fn endings_of<'a>(
    alloc: Global,
    object: &Object<'a>,
    symbols: &[u32],
) -> Result<Vec<Ending<'a>>, AllocError>
    requires { All (IsSymbol object.now) symbols.now }
    ensures { IfOk result (λ v. AreEndings (map (name_of object.now) symbols.now) v.items) }
{
    let mut endings = Vec::new(alloc);
    if symbols.is_empty() {
        return Ok(endings);
    }
    let mut stretch = stretch_of(object, None, symbols[0]);
    let mut first = 0;
    for number in 0..symbols.len() {
        let next = stretch_of(object, Some(stretch), symbols[number]);
        if next.from != stretch.from {
            endings.push(Ending {
                string: stretch_bytes(object, stretch),
                first,
                past: number,
            })?;
            first = number;
        }
        stretch = next;
    }
    endings.push(Ending {
        string: stretch_bytes(object, stretch),
        first,
        past: symbols.len(),
    })?;
    Ok(endings)
}
