// Tests whether the bytes that relocations write lie in memory (gABI chapter 5, `p_vaddr` and
// `p_memsz`).

ghost use Rattle.std.specs.Prelude.{◌≡◌, IfSome};
ghost use Rattle.std.specs.List.{list_any};
ghost use Rattle.elf_file.specs.Address.{IsLoadOf};
ghost use Rattle.elf_dynamic.specs.Relocation.{is_misplaced, relocations_in};

use crate::relocation::{Relocation, is_writing, nth_relocation, relocation_count};
use elf_file::{IndexedSegments, ProgramHeader, is_in_memory_part};

/// The number of bytes that a relocation writes.
const WRITTEN: u64 = 8;

/// Returns whether a relocation writes bytes that don't lie in the memory of one PT_LOAD. `last` is
/// the PT_LOAD to which the previous writing relocation of the table writes, if there was one.
/// Looks in this PT_LOAD first, and then in the index of all PT_LOADs.
#[tactic(auto, using(crate::proofs::Misplaced::of_one))]
fn is_misplaced(
    segments: &IndexedSegments<'_>,
    last: &mut Option<ProgramHeader>,
    relocation: Relocation,
) -> bool
    requires { IfSome last.old (IsLoadOf segments.now) }
    ensures ok { result ≡ is_misplaced segments.now relocation }
    ensures last { IfSome last.new (IsLoadOf segments.now) }
{
    if !is_writing(relocation.kind) {
        return false;
    }
    if let Some(load) = *last {
        if is_in_memory_part(relocation.offset, WRITTEN, load) {
            return false;
        }
    }
    match segments.load_at(relocation.offset, WRITTEN) {
        Some(load) => {
            *last = Some(load);
            false
        }
        None => true,
    }
}

/// Returns whether a relocation of a table writes bytes that don't lie in the memory of one
/// PT_LOAD.
#[tactic(auto, using(crate::proofs::Misplaced::of_a_table))]
pub(crate) fn has_misplaced_in(segments: &IndexedSegments<'_>, table: &[u8]) -> bool
    ensures { result ≡ list_any (is_misplaced segments.now) (relocations_in table.now) }
{
    let mut last = None;
    for i in 0..relocation_count(table) {
        if is_misplaced(segments, &mut last, nth_relocation(table, i)) {
            return true;
        }
    }
    false
}
