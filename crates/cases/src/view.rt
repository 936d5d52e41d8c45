// Writes the names and the symbols of an admitted file, as calls of the library report them.

use anyhow::Result;
use elf_dynamic::{Object, Symbol};
use hash_check::Admitted;
use std::io::Write;
use text_output::write_name;

/// Appends to `text` a line that begins with `front` and ends with a name.
pub(crate) fn put_named(text: &mut Vec<u8>, front: &[u8], name: &[u8]) -> Result<()> {
    text.extend_from_slice(front)?;
    write_name(text, name)?;
    text.extend_from_slice(b"\n")?;
    Ok(())
}

/// Appends to `text` the line of the SONAME, and the lines of the needed libraries.
fn put_names(text: &mut Vec<u8>, object: &Object) -> Result<()> {
    match object.soname() {
        Some(name) => put_named(text, b"soname ", name)?,
        None => text.extend_from_slice(b"no soname\n")?,
    }
    for i in 0..object.needed_count() {
        put_named(text, b"needed ", object.needed(i))?;
    }
    Ok(())
}

/// Appends to `text` the index of a symbol and the numbers in its fields.
fn put_fields(text: &mut Vec<u8>, i: u32, symbol: Symbol) -> Result<()> {
    let Symbol {
        value,
        size,
        section,
        ..
    } = symbol;
    let (kind, binding, visibility) = (symbol.kind(), symbol.binding(), symbol.visibility());
    write!(
        text,
        "symbol {i} {value:#018x} {size} {kind} {binding} {visibility} {section} "
    )?;
    Ok(())
}

/// Appends to `text` the line of symbol `i`, with the number of the symbol that is exported under
/// the same name.
fn put_symbol(
    text: &mut Vec<u8>,
    i: u32,
    symbol: Symbol,
    name: &[u8],
    found: Option<u32>,
) -> Result<()> {
    put_fields(text, i, symbol)?;
    write_name(text, name)?;
    match found {
        Some(found) => writeln!(text, " {found}")?,
        None => text.extend_from_slice(b" none\n")?,
    }
    Ok(())
}

/// Appends to `text` the SONAME, the needed names, and the lines of all symbols, including symbol
/// 0.
pub(crate) fn put_view(text: &mut Vec<u8>, admitted: &Admitted) -> Result<()> {
    let object = admitted.object();
    put_names(text, object)?;
    for i in 0..object.symbol_count() {
        let name = object.name_of(i);
        put_symbol(text, i, object.symbol(i), name, admitted.find(name))?;
    }
    text.extend_from_slice(b"end\n")?;
    Ok(())
}
