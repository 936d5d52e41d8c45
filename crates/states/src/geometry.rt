ghost use Rattle.std.specs.Prelude.{◌≡◌};
ghost use Rattle.states.specs.Geometry.{is_geometry};

use crate::limits::LEAST_SECTORS;
use extents::MOST_SECTORS;

/// Returns whether a disk of `sectors` sectors can hold a registry: 8 to 4,194,304.
pub fn is_geometry(sectors: u32) -> bool
    ensures { result ≡ is_geometry sectors }
{
    LEAST_SECTORS <= sectors && sectors <= MOST_SECTORS
}
