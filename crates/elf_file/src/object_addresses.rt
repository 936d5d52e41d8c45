// Finds the addresses of an object's program headers, of its dynamic section, and of its entry.

ghost use Rattle.std.specs.Prelude.{◌≡◌};
ghost use Rattle.std.specs.List.{find};
ghost use Rattle.elf_file.specs.Segment.{loads};
ghost use Rattle.elf_file.specs.ObjectAddresses.{has_file_bytes, address_of_bytes};
ghost use Rattle.elf_file.specs.ObjectAddresses.{headers_address, dynamic_address};
ghost use Rattle.elf_file.specs.ObjectAddresses.{addresses_of};

use crate::header::PROGRAM_HEADER_SIZE;
use crate::headers::Headers;
use crate::load_segments::LoadSegments;
use crate::segment::ProgramHeader;
use crate::segments::Segments;

/// Addresses within an object before its base is added (gABI chapters 4 and 5).
#[derive(Clone, Copy, PartialEq, Eq)]
pub struct ObjectAddresses {
    /// The address of the program headers, if one PT_LOAD has all of them.
    pub headers: Option<u64>,
    /// The number of program headers: `e_phnum`.
    pub header_count: u64,
    /// The address of the dynamic section, if one PT_LOAD has all of its bytes.
    pub dynamic: Option<u64>,
    /// `e_entry`: the address at which the object begins to run, or 0 if it has none.
    pub entry: u64,
}

/// Returns whether the PT_LOAD `h` has the `size` bytes of the file from `offset`.
fn has_file_bytes(offset: u64, size: u64, h: ProgramHeader) -> bool
    ensures { result ≡ has_file_bytes offset size h }
{
    h.offset <= offset
        && u128::from(offset) + u128::from(size) <= u128::from(h.offset) + u128::from(h.file_size)
}

impl Headers<'_> {
    /// Returns the first PT_LOAD that has the `size` bytes of the file from `offset`. Makes one
    /// pass over the program headers.
    fn find_file_bytes(&self, offset: u64, size: u64) -> Option<ProgramHeader>
        ensures { result ≡ find (has_file_bytes offset size) (loads self.now) }
    {
        LoadSegments::new(self).find(|h| has_file_bytes(offset, size, *h))
    }
}

impl Segments<'_> {
    /// Returns the address at which the `size` bytes of the file from `offset` are loaded by the
    /// first PT_LOAD that has them. Makes one pass over the program headers.
    #[tactic(auto, unfolding(crate::specs::ObjectAddresses::address_of_bytes))]
    fn address_of_bytes(&self, offset: u64, size: u64) -> Option<u64>
        ensures { result ≡ address_of_bytes self.now offset size }
    {
        match self.headers().find_file_bytes(offset, size) {
            Some(h) => Some(h.address + (offset - h.offset)),
            None => None,
        }
    }

    /// Returns the address of the program headers, if one PT_LOAD has all of them.
    #[tactic(auto, unfolding(crate::specs::ObjectAddresses::headers_address))]
    fn headers_address(&self) -> Option<u64>
        ensures { result ≡ headers_address self.now }
    {
        let offset = self.headers().offset();
        let size = u64::from(PROGRAM_HEADER_SIZE) * self.header_count() as u64;
        self.address_of_bytes(offset, size)
    }

    /// Returns the address of the dynamic section, if one PT_LOAD has all of its bytes.
    #[tactic(auto, unfolding(crate::specs::ObjectAddresses::dynamic_address))]
    fn dynamic_address(&self) -> Option<u64>
        ensures { result ≡ dynamic_address self.now }
    {
        match self.headers().find_dynamic() {
            Some(h) => self.address_of_bytes(h.offset, h.file_size),
            None => None,
        }
    }

    /// Returns the addresses of the object's own parts. Makes three passes over the program
    /// headers.
    pub fn addresses(&self) -> ObjectAddresses
        ensures { result ≡ addresses_of self.now }
    {
        ObjectAddresses {
            headers: self.headers_address(),
            header_count: self.header_count() as u64,
            dynamic: self.dynamic_address(),
            entry: self.headers().entry(),
        }
    }
}
