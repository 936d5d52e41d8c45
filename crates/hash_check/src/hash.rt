// Computes the hash of a name.

ghost use Rattle.std.specs.Prelude.{◌≡◌, fold};
ghost use Rattle.hash_check.specs.Hash.{hash_step, elf_hash};

/// Returns the hash of a name whose last byte is `byte`. `hash` is the hash of the bytes before it.
#[tactic(auto, unfolding(crate::specs::Hash::hash_step))]
pub(crate) fn hash_step(hash: u32, byte: u8) -> u32
    ensures { result ≡ hash_step hash byte }
{
    let sum = (hash << 4).wrapping_add(u32::from(byte));
    let high = sum & 0xf000_0000;
    (sum ^ (high >> 24)) & !high
}

/// Returns the hash of a name whose first bytes have the hash `hash` and whose other bytes are
/// `rest`.
pub(crate) fn hash_rest(hash: u32, rest: &[u8]) -> u32
    ensures { result ≡ fold hash_step hash rest.now }
{
    rest.iter().fold(hash, |hash, byte| hash_step(hash, *byte))
}

/// Returns the hash of a name (gABI chapter 5, "Hash Table"), which has 28 bits. Reads each byte
/// once.
#[tactic(auto, unfolding(crate::specs::Hash::elf_hash))]
pub fn elf_hash(name: &[u8]) -> u32
    ensures { result ≡ elf_hash name.now }
{
    hash_rest(0, name)
}
