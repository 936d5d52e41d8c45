ghost use Rattle.std.specs.Prelude.{◌≡◌};
ghost use Rattle.states.specs.Cost.{catalogues_for};

/// The maximum number of libraries that a root of version 2 counts.
pub const MOST_LIBRARIES: usize = 2_048;

/// The maximum number of entries that a root of version 1 lists. This is also the maximum number of
/// libraries that it counts.
pub const MOST_ROOT_ENTRIES: usize = 100;

/// The maximum number of catalogues that a root of version 2 lists.
pub const MOST_CATALOGUES: usize = 32;

/// The maximum number of entries that a catalogue lists.
pub const MOST_CATALOGUE_ENTRIES: usize = 64;

/// The minimum length of a file in bytes.
pub const LEAST_FILE_BYTES: u32 = 64;

/// The maximum length of a file in bytes.
pub const MOST_FILE_BYTES: u32 = 16_777_216;

/// The maximum length of a name in bytes.
pub const MOST_NAME_BYTES: usize = 240;

/// Returns the number of catalogues that list `libraries` libraries.
pub fn catalogues_for(libraries: usize) -> usize
    ensures { result ≡ catalogues_for libraries }
{
    libraries.div_ceil(MOST_CATALOGUE_ENTRIES)
}
