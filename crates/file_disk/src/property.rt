// A property of lists of sectors, which laws use.
ghost use Rattle.std.specs.Prelude.{List};
ghost use Rattle.sector_disk.specs.Disk.{Sector};

use std::marker::Brand;

/// A property of a list of sectors. A law that is generic in the property holds for each property.
pub trait Property {
    /// The property holds of the list.
    ghost holds: { List Sector → Type 0 };
}

/// The property that the caller of a law chooses in a proof.
impl Property for Brand {
    ghost holds = { λ sectors. ⊥ };
}
