// An entry of the dynamic section.

ghost use Rattle.std.specs.Prelude.{◌≡◌, ◌≤◌, ◌<◌, ◌+◌, ◌*◌, ◌/◌, length};
ghost use Rattle.elf_file.specs.Dynamic.{entry};

use crate::number::u64_at;

/// An entry of the dynamic section (gABI chapter 5, `Elf64_Dyn`).
#[derive(Clone, Copy, PartialEq, Eq)]
pub struct Entry {
    /// `d_tag`: the number of the entry's tag.
    pub tag: u64,
    /// `d_val` or `d_ptr`: the value of the entry.
    pub value: u64,
}

/// The size of an entry, in bytes.
pub(crate) const DYNAMIC_ENTRY_SIZE: usize = 16;

/// Returns entry number `i` of `section`.
#[tactic(auto, unfolding(crate::specs::Dynamic::entry))]
pub(crate) fn nth_entry(section: &[u8], i: usize) -> Entry
    requires { i < length section.now / 16 }
    ensures { result ≡ entry section.now i }
{
    let at = DYNAMIC_ENTRY_SIZE * i;
    Entry {
        tag: u64_at(section, at),
        value: u64_at(section, at + 8),
    }
}
