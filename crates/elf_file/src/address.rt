// Finds the bytes of the file that are loaded at an address (gABI chapter 5).

ghost use Rattle.std.specs.Prelude.{◌≡◌, ◌≤◌, ◌+◌, length, take, drop, None, Some, MatchOption};
ghost use Rattle.elf_file.specs.Address.{is_in_file_part, find_file_part, bytes_at};

use crate::headers::Headers;
use crate::load_segments::LoadSegments;
use crate::segment::ProgramHeader;
use crate::segments::Segments;

/// Returns `size` bytes of the file from offset `start`.
pub(crate) fn part(file: &[u8], start: usize, size: usize) -> &[u8]
    requires { start + size ≤ length file.now }
    ensures part { result.now ≡ take size (drop start file.now) }
    ensures size { length result.now ≡ size }
{
    &file[start..start + size]
}

/// Returns whether the file part of the PT_LOAD `h` has the `size` bytes at `address`.
fn is_in_file_part(address: u64, size: u64, h: ProgramHeader) -> bool
    ensures { result ≡ is_in_file_part address size h }
{
    h.address <= address
        && u128::from(address) + u128::from(size) <= u128::from(h.address) + u128::from(h.file_size)
}

impl Headers<'_> {
    /// Returns the first PT_LOAD whose file part has the `size` bytes at `address`. Makes one pass
    /// over the program headers.
    fn find_file_part(&self, address: u64, size: u64) -> Option<ProgramHeader>
        ensures { result ≡ find_file_part self.now address size }
    {
        LoadSegments::new(self).find(|h| is_in_file_part(address, size, *h))
    }
}

impl<'a> Segments<'a> {
    /// Returns the `size` bytes of the file that are loaded at `address`, or `None` if they can't
    /// be read. Makes one pass over the program headers.
    #[tactic(auto, unfolding(crate::specs::Address::bytes_at))]
    pub fn bytes_at(&self, address: u64, size: u64) -> Option<&'a [u8]>
        ensures { MatchOption result (bytes_at self.now address size ≡ None)
            (λ bytes. (bytes_at self.now address size ≡ Some bytes.now)
            × (length bytes.now ≡ size)) }
    {
        if size == 0 {
            return Some(&[]);
        }
        match self.headers().find_file_part(address, size) {
            Some(h) => {
                let start = (h.offset + (address - h.address)) as usize;
                Some(part(self.headers().file(), start, size as usize))
            }
            None => None,
        }
    }
}
