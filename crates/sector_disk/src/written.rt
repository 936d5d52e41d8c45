// Writes to sectors, and the contents after them.
ghost use Rattle.std.specs.Prelude.{◌≡◌, ◌<◌, length, All};
ghost use Rattle.sector_disk.specs.Written.{contents};

use crate::disk::SECTOR_BYTES;

/// A write: its sector and its content.
#[derive(Clone, Copy)]
pub(crate) struct Written {
    pub at: u32,
    pub content: [u8; SECTOR_BYTES],
}

/// Applies all `writes` to `sectors`, in the order of the list.
pub(crate) fn apply(sectors: &mut [[u8; SECTOR_BYTES]], writes: &[Written])
    requires { All (λ write. write.at < length sectors.old) writes.now }
    ensures { sectors.new ≡ contents sectors.old writes.now }
{
    for write in writes {
        sectors[write.at as usize] = write.content;
    }
}
