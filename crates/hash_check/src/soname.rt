// Tests whether a name may be the name of a library.

ghost use Rattle.std.specs.Prelude.{◌≡◌};
ghost use Rattle.std.specs.List.{list_all};
ghost use Rattle.hash_check.specs.Soname.{is_name_byte, is_library_name};

/// The maximum length of a library's name, in bytes.
const NAME_LIMIT: usize = 240;

/// Returns whether a library's name may contain `byte`: a printable ASCII character, but no blank
/// and no slash.
fn is_name_byte(byte: u8) -> bool
    ensures { result ≡ is_name_byte byte }
{
    byte >= 0x21 && byte <= 0x7e && byte != b'/'
}

/// Returns whether a library's name may contain each byte of `name`.
fn are_name_bytes(name: &[u8]) -> bool
    ensures { result ≡ list_all is_name_byte name.now }
{
    name.iter().all(|byte| is_name_byte(*byte))
}

/// Returns whether `name` may be the name of a library: it has 1 to 240 bytes, and a library's name
/// may contain each of these bytes.
#[tactic(auto, unfolding(crate::specs::Soname::is_library_name))]
pub(crate) fn is_library_name(name: &[u8]) -> bool
    ensures { result ≡ is_library_name name.now }
{
    name.len() >= 1 && name.len() <= NAME_LIMIT && are_name_bytes(name)
}
