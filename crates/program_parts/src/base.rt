// Reads the argument BASE of a command line.

ghost use Rattle.std.specs.Prelude.{◌≡◌, true, false, drop, MatchOption};
ghost use Rattle.std.specs.List.{list_all};
ghost use Rattle.std.specs.Char.{is_ascii_hexdigit};
ghost use Rattle.program_parts.specs.Base.{is_base, base_of};

/// The maximum number of hexadecimal digits of a 64-bit number.
const MOST_DIGITS: usize = 16;

/// Returns whether all bytes are hexadecimal digits.
fn are_digits(bytes: &[u8]) -> bool
    ensures { result ≡ list_all is_ascii_hexdigit bytes.now }
{
    bytes.iter().all(|b| b.is_ascii_hexdigit())
}

/// Returns the digits of a base, or `None` if the word isn't a base.
fn digits_of(word: &str) -> Option<&str>
    ensures { MatchOption result (is_base word.now ≡ false)
        (λ digits. (is_base word.now ≡ true) × (digits.now ≡ drop 2 word.now)) }
{
    let digits = match word.strip_prefix("0x") {
        Some(digits) => digits,
        None => return None,
    };
    if digits.is_empty() || digits.len() > MOST_DIGITS {
        return None;
    }
    if are_digits(digits.as_bytes()) {
        Some(digits)
    } else {
        None
    }
}

/// Returns the number that a base encodes, or `None` if the word isn't a base. A base is `0x` and,
/// after it, 1 to 16 hexadecimal digits of either case.
pub fn parse_base(word: &str) -> Option<u64>
    ensures { result ≡ base_of word.now }
{
    match digits_of(word) {
        Some(digits) => u64::from_str_radix(digits, 16).ok(),
        None => None,
    }
}
