// Numbers names, so that two names have the same number if and only if they are equal. Uses a table
// in which each name is stored near the cell that the name's key determines.

ghost use Rattle.std.specs.Prelude.{ℕ, ◌≡◌, ◌<◌, ◌≤◌, ◌+◌, ◌^◌, length, slice_index, IfOk, IfSome};
ghost use Rattle.hash_check.specs.Numbers.{AreNumbers};
ghost use Rattle.hash_check.specs.inside.NameTable.{home, IsPut};

use crate::name::Name;
use std::alloc::{AllocError, Global};

/// The maximum distance of a name's cell from the name's home, in cells. More than half of all
/// cells are empty, so names whose keys weren't chosen on purpose are only a few cells away from
/// their homes.
const FARTHEST: usize = 128;

/// Returns the home of a key in a table of `count` cells: the first cell in which a name with this
/// key may be stored.
#[tactic(auto, using(crate::proofs::Homes::near), unfolding(crate::specs::inside::NameTable::home))]
fn home(count: usize, key: u64) -> usize
    requires many { 128 < count }
    requires few { count ≤ 2 ^ 32 + 128 }
    ensures value { result ≡ home count key }
    ensures within { result + 128 < count }
{
    let spread = key.wrapping_mul(0x9e37_79b9_7f4a_7c15) >> 32;
    let cells = (count - FARTHEST) as u64;
    (spread * cells >> 32) as usize
}

/// Adds name number `number` to `cells`, a table of the names with lower numbers, unless the table
/// already has an equal name. Returns the number in the name's cell, or `None` if the name would be
/// stored too far from its home.
fn put(names: &[Name<'_>], cells: &mut [u32], number: usize) -> Option<u32>
    requires number { number < length names.now }
    requires many { length names.now < 2 ^ 32 }
    requires size { 128 < length cells.old }
    requires room { length cells.old ≤ 2 ^ 32 + 128 }
    requires few { (k : ℕ) → slice_index cells.old k ≤ number }
    ensures { IfSome result (IsPut names.now cells.old cells.new number) }
{
    let name = &names[number];
    let first = home(cells.len(), name.key());
    for at in first..first + FARTHEST {
        let cell = cells[at];
        if cell == 0 {
            let own = (number + 1) as u32;
            cells[at] = own;
            return Some(own);
        }
        if names[cell as usize - 1].is(name) {
            return Some(cell);
        }
    }
    None
}

/// Returns the numbers of names, or `None` if a name would be stored too far from its home. Only
/// files that were made for this purpose have such names. Allocates 12 bytes for each name, and
/// frees all but 4 of them before it returns.
pub(crate) fn numbers_in_table(
    alloc: Global,
    names: &[Name<'_>],
) -> Result<Option<Vec<u32>>, AllocError>
    ensures { IfOk result (λ found. IfSome found (λ v. AreNumbers names.now v.items)) }
{
    if names.len() >= 1 << 31 {
        return Ok(None);
    }
    let mut cells = vec![in alloc; 0; 2 * names.len() + 1 + FARTHEST]?;
    let mut numbers = Vec::with_capacity(alloc, names.len())?;
    for number in 0..names.len() {
        match put(names, &mut cells, number) {
            Some(told) => numbers.push_reserved(told),
            None => return Ok(None),
        }
    }
    Ok(Some(numbers))
}
