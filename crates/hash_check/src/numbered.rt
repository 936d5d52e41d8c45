// Numbers the names of all symbols of several objects, so that two names have the same number if
// and only if they are equal.

ghost use Rattle.std.specs.Prelude.{◌≡◌, ◌<◌, ◌≤◌, ◌+◌, ◌^◌, ◌++◌, ℕ, length, map, slice_index};
ghost use Rattle.std.specs.Prelude.{IfOk, IfSome, OnOk};
ghost use Rattle.std.specs.List.{All};
ghost use Rattle.std.specs.List.Sorted.{IsPermutation};
ghost use Rattle.hash_check.specs.Numbered.{nth_symbol, AreNumbered};
ghost use Rattle.hash_check.specs.inside.Endings.{AreEndings};
ghost use Rattle.hash_check.specs.inside.Names.{all_symbols};
ghost use Rattle.hash_check.specs.inside.Numbered.{unnumbered, with_number, behind, AreGathered};

use crate::admitted::Admitted;
use crate::endings::{Ending, numbers_of_endings};
use crate::name::Name;
use crate::name_table::numbers_in_table;
use crate::names::{names_of, offset_of, short_names};
use crate::strings::endings_of;
use elf_dynamic::Object;
use std::alloc::{AllocError, Global};

/// A symbol of one of several objects, with the number of its name.
#[derive(Clone, Copy, PartialEq, Eq)]
pub struct NumberedSymbol {
    /// The position of the object in the list of objects.
    pub object: usize,
    /// The number of the symbol in the object.
    pub symbol: u32,
    /// The number of the symbol's name.
    pub number: u32,
}

/// Symbols of objects, and the names of these symbols. No name has a number yet.
#[derive(Drop)]
struct Gathered<'a> {
    symbols: Vec<NumberedSymbol>,
    names: Vec<Name<'a>>,
}

/// Adds the symbols of object number `place`, and their names, to `gathered`.
fn add_symbols<'a>(
    gathered: &mut Gathered<'a>,
    place: usize,
    symbols: &[u32],
    mut names: Vec<Name<'a>>,
) -> Result<(), AllocError>
    ensures symbols { OnOk result (gathered.new.symbols.items
        ≡ gathered.old.symbols.items ++ map (unnumbered place) symbols.now) }
    ensures names { OnOk result (gathered.new.names.items
        ≡ gathered.old.names.items ++ names.entry.items) }
{
    gathered.names.append(&mut names)?;
    gathered.symbols.reserve(symbols.len())?;
    for symbol in symbols {
        gathered.symbols.push_reserved(NumberedSymbol {
            object: place,
            symbol: *symbol,
            number: 0,
        });
    }
    Ok(())
}

/// Returns the numbers of all symbols except number 0.
#[tactic(auto, unfolding(crate::specs::inside::Names::all_symbols))]
fn all_symbols(alloc: Global, object: &Object<'_>) -> Result<Vec<u32>, AllocError>
    ensures { IfOk result (λ numbers. numbers.items ≡ all_symbols object.now) }
{
    (1..object.symbol_count()).collect(alloc)
}

/// Returns the numbers of all symbols except number 0, sorted by the places of their names in the
/// string table.
fn symbols_by_name_place(alloc: Global, object: &Object<'_>) -> Result<Vec<u32>, AllocError>
    ensures { IfOk result (λ numbers. IsPermutation (all_symbols object.now) numbers.items) }
{
    let mut symbols = all_symbols(alloc, object)?;
    symbols.sort_unstable_by_key(|i| offset_of(object, *i));
    Ok(symbols)
}

/// Returns all symbols of the objects with their names, and reads each name to its end. Returns
/// `None` if the names of an object have too many bytes in total, because then many names are tails
/// of other names.
fn all_short_names<'a>(
    alloc: Global,
    objects: &[&'a Admitted<'a>],
) -> Result<Option<Gathered<'a>>, AllocError>
    ensures { IfOk result (λ found. IfSome found (λ g.
        AreGathered (map (λ o. o.now) objects.now) (length objects.now)
        g.symbols.items g.names.items)) }
{
    let mut gathered = Gathered {
        symbols: Vec::new(alloc),
        names: Vec::new(alloc),
    };
    for place in 0..objects.len() {
        let object = objects[place].object();
        let symbols = all_symbols(alloc, object)?;
        let Some(names) = short_names(alloc, object, &symbols)? else {
            return Ok(None);
        };
        add_symbols(&mut gathered, place, &symbols, names)?;
    }
    Ok(Some(gathered))
}

/// Appends `endings` to `all`. Adds `before` to the numbers of the endings' names, because `before`
/// other names come before them.
#[tactic(auto, unfolding(crate::specs::inside::Numbered::behind))]
fn add_endings<'a>(
    all: &mut Vec<Ending<'a>>,
    endings: &[Ending<'a>],
    before: usize,
) -> Result<(), AllocError>
    requires { All (λ e. (e.first ≤ e.past) × (before + e.past < 2 ^ 64)) endings.now }
    ensures { OnOk result (all.new.items
        ≡ all.old.items ++ map (behind before) endings.now) }
{
    all.reserve(endings.len())?;
    for ending in endings {
        all.push_reserved(Ending {
            string: ending.string,
            first: before + ending.first,
            past: before + ending.past,
        });
    }
    Ok(())
}

/// Returns all symbols of the objects with their names, and the endings of these names. The symbols
/// of each object are sorted by the places of their names.
fn all_names_by_place<'a>(
    alloc: Global,
    objects: &[&'a Admitted<'a>],
) -> Result<(Gathered<'a>, Vec<Ending<'a>>), AllocError>
    ensures gathered { IfOk result (λ r.
        AreGathered (map (λ o. o.now) objects.now) (length objects.now)
        r.0.symbols.items r.0.names.items) }
    ensures endings { IfOk result (λ r. AreEndings r.0.names.items r.1.items) }
{
    let mut gathered = Gathered {
        symbols: Vec::new(alloc),
        names: Vec::new(alloc),
    };
    let mut all = Vec::new(alloc);
    for place in 0..objects.len() {
        let object = objects[place].object();
        let symbols = symbols_by_name_place(alloc, object)?;
        let names = names_of(alloc, object, &symbols)?;
        let endings = endings_of(alloc, object, &symbols)?;
        add_endings(&mut all, &endings, gathered.names.len())?;
        add_symbols(&mut gathered, place, &symbols, names)?;
    }
    Ok((gathered, all))
}

/// Returns `symbols` with the numbers of their names, which are in `numbers`.
fn set_numbers(mut symbols: Vec<NumberedSymbol>, numbers: &[u32]) -> Vec<NumberedSymbol>
    requires { length numbers.now ≡ length symbols.items }
    ensures size { length result.items ≡ length symbols.items }
    ensures given { (k : ℕ) → k < length symbols.items → nth_symbol result.items k
        ≡ with_number (nth_symbol symbols.items k) (slice_index numbers.now k) }
{
    for i in 0..symbols.len() {
        symbols[i].number = numbers[i];
    }
    symbols
}

/// Returns all symbols of the objects, except those with number 0, with the numbers of their names.
pub fn numbered_symbols(
    alloc: Global,
    objects: &[&Admitted<'_>],
) -> Result<Vec<NumberedSymbol>, AllocError>
    ensures { IfOk result (λ all. AreNumbered (map (λ o. o.now) objects.now) all.items) }
{
    if let Some(gathered) = all_short_names(alloc, objects)? {
        if let Some(numbers) = numbers_in_table(alloc, &gathered.names)? {
            return Ok(set_numbers(gathered.symbols, &numbers));
        }
    }
    let (gathered, endings) = all_names_by_place(alloc, objects)?;
    let numbers = numbers_of_endings(alloc, &gathered.names, endings)?;
    Ok(set_numbers(gathered.symbols, &numbers))
}
