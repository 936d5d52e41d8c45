// The argument SECTORS of a command line.

ghost use Rattle.std.specs.Prelude.{◌≡◌, Some, None, if◌then◌else◌};
ghost use Rattle.std.specs.List.{list_all};
ghost use Rattle.std.specs.Char.{is_ascii_digit};
ghost use Rattle.std.specs.Str.Parse.{digits_value};
ghost use Rattle.commands.specs.Sectors.{is_decimal, sectors_of};

use states::is_geometry;

/// The maximum number of digits of the argument SECTORS.
const MOST_DIGITS: usize = 7;

/// Returns whether all bytes are decimal digits.
fn are_digits(bytes: &[u8]) -> bool
    ensures { result ≡ list_all is_ascii_digit bytes.now }
{
    bytes.iter().all(|b| b.is_ascii_digit())
}

/// Returns whether a word is 1 to 7 decimal digits.
fn is_decimal(word: &str) -> bool
    ensures { result ≡ is_decimal word.now }
{
    !word.is_empty() && word.len() <= MOST_DIGITS && are_digits(word.as_bytes())
}

/// Returns the number that 1 to 7 decimal digits encode, or `None` if the word has another form.
fn number_of(word: &str) -> Option<u32>
    ensures { result ≡ (if is_decimal word.now then Some (digits_value 10 word.now) else None) }
{
    if is_decimal(word) {
        u32::from_str_radix(word, 10).ok()
    } else {
        None
    }
}

/// Returns the number for SECTORS, or `None` unless SECTORS is 1 to 7 decimal digits with a value
/// from 8 to 4,194,304.
pub(crate) fn parse_sectors(word: &str) -> Option<u32>
    ensures { result ≡ sectors_of word.now }
{
    match number_of(word) {
        Some(sectors) if is_geometry(sectors) => Some(sectors),
        _ => None,
    }
}
