// Finds and reads the SYSV hash table (gABI chapter 5, hash table).

ghost use Rattle.std.specs.Prelude.{◌≡◌, ◌+◌, ◌*◌, ◌≤◌, length, true, false, None, Some};
ghost use Rattle.std.specs.Prelude.{MatchOption};
ghost use Rattle.elf_dynamic.specs.HashTable.{word};
ghost use Rattle.elf_dynamic.specs.Table.{has_bad_hash};
ghost use Rattle.elf_dynamic.specs.inside.Tables.{IsHashTable};

use elf_file::{Dynamic, Tag, u32_at};

/// The size of a word of the table, in bytes.
const WORD_SIZE: u64 = 4;

/// A hash table: its bytes, the number of buckets, and the number of chain words.
#[derive(Clone, Copy)]
pub(crate) struct HashTable<'a> {
    pub(crate) bytes: &'a [u8],
    pub(crate) bucket_count: u32,
    pub(crate) chain_count: u32,
}

/// Returns word number `i` of `table`.
#[tactic(auto, unfolding(crate::specs::HashTable::word))]
pub(crate) fn word(table: &[u8], i: usize) -> u32
    requires { 4 * (i + 1) ≤ length table.now }
    ensures { result ≡ word table.now i }
{
    u32_at(table, WORD_SIZE as usize * i)
}

impl<'a> HashTable<'a> {
    /// Returns the hash table of a file, if it can be read.
    pub(crate) fn find(dynamic: &Dynamic<'a>) -> Option<HashTable<'a>>
        ensures { MatchOption result (has_bad_hash dynamic.now ≡ true)
            (λ table. (has_bad_hash dynamic.now ≡ false) × IsHashTable dynamic.now table) }
    {
        let at = dynamic.tag_value(Tag::Hash);
        let Some(head) = dynamic.segments().bytes_at(at, WORD_SIZE * 2) else {
            return None;
        };
        let bucket_count = word(head, 0);
        let chain_count = word(head, 1);
        let words = 2 + (u64::from(bucket_count) + u64::from(chain_count));
        match dynamic.segments().bytes_at(at, WORD_SIZE * words) {
            Some(bytes) => Some(HashTable {
                bytes,
                bucket_count,
                chain_count,
            }),
            None => None,
        }
    }
}
