// Hashes several names at a time.

ghost use Rattle.std.specs.Prelude.{ℕ, ◌≡◌, ◌<◌, ◌≤◌, ◌+◌, ◌*◌, length};
ghost use Rattle.std.specs.Prelude.{take, drop, slice_index, fold};
ghost use Rattle.hash_check.specs.Hash.{hash_step};

use crate::hash::hash_step;
use elf_file::u32_at;

/// The number of names that are hashed at a time. Each step of a hash has to wait for the previous
/// step of the same hash, but not for the steps of other hashes.
pub(crate) const LANES: usize = 8;

/// The number of bytes that are read at once.
const WORD: usize = 4;

/// Returns the hash of a name after one more byte, which is at `place` in the table.
fn hash_byte(table: &[u8], place: usize, hash: u32) -> u32
    requires { place < length table.now }
    ensures { result ≡ fold hash_step hash (take 1 (drop place table.now)) }
{
    hash_step(hash, table[place])
}

/// Returns the hash of a name after four more bytes, which are read as one number.
fn hash_word(table: &[u8], place: usize, hash: u32) -> u32
    requires { place + 4 ≤ length table.now }
    ensures { result ≡ fold hash_step hash (take 4 (drop place table.now)) }
{
    let word = u32_at(table, place);
    let first = hash_step(hash, (word % 256) as u8);
    let second = hash_step(first, (word / 256 % 256) as u8);
    let third = hash_step(second, (word / 65_536 % 256) as u8);
    hash_step(third, (word / 16_777_216) as u8)
}

/// Adds one more byte of each name to the name's hash: byte number `i` after the name's place in
/// the table.
fn add_byte(table: &[u8], places: &[usize; LANES], i: usize, hashes: &mut [u32; LANES])
    requires { (k : ℕ) → k < 8 → slice_index places.now k + i < length table.now }
    ensures { (k : ℕ) → k < 8 → slice_index hashes.new k
        ≡ fold hash_step (slice_index hashes.old k)
        (take 1 (drop (slice_index places.now k + i) table.now)) }
{
    for k in 0..LANES {
        hashes[k] = hash_byte(table, places[k] + i, hashes[k]);
    }
}

/// Adds four more bytes of each name to the name's hash, starting with byte number `i` after the
/// name's place in the table.
fn add_word(table: &[u8], places: &[usize; LANES], i: usize, hashes: &mut [u32; LANES])
    requires { (k : ℕ) → k < 8 → slice_index places.now k + i + 4 ≤ length table.now }
    ensures { (k : ℕ) → k < 8 → slice_index hashes.new k
        ≡ fold hash_step (slice_index hashes.old k)
        (take 4 (drop (slice_index places.now k + i) table.now)) }
{
    for k in 0..LANES {
        hashes[k] = hash_word(table, places[k] + i, hashes[k]);
    }
}

/// Adds `words` more words of each name to the name's hash, starting at the name's place in the
/// table.
fn add_words(table: &[u8], places: &[usize; LANES], words: usize, hashes: &mut [u32; LANES])
    requires { (k : ℕ) → k < 8 → slice_index places.now k + 4 * words ≤ length table.now }
    ensures { (k : ℕ) → k < 8 → slice_index hashes.new k
        ≡ fold hash_step (slice_index hashes.old k)
        (take (4 * words) (drop (slice_index places.now k) table.now)) }
{
    let mut made = *hashes;
    for i in 0..words {
        add_word(table, places, WORD * i, &mut made);
    }
    *hashes = made;
}

/// Adds `count` more bytes of each name to the name's hash, starting at the name's place in the
/// table. Makes one step for all names before the next step.
pub(crate) fn add_bytes(
    table: &[u8],
    places: &[usize; LANES],
    count: usize,
    hashes: &mut [u32; LANES],
)
    requires { (k : ℕ) → k < 8 → slice_index places.now k + count ≤ length table.now }
    ensures { (k : ℕ) → k < 8 → slice_index hashes.new k
        ≡ fold hash_step (slice_index hashes.old k)
        (take count (drop (slice_index places.now k) table.now)) }
{
    let words = count / WORD;
    add_words(table, places, words, hashes);
    for i in WORD * words..count {
        add_byte(table, places, i, hashes);
    }
}
