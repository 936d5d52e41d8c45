use crate::root::Root;

/// The contents of one of the two root sectors.
#[derive(Clone, Copy, PartialEq, Eq)]
pub enum Slot {
    /// No root was written to this sector: it has neither magic.
    Empty,
    /// The sector encodes this root.
    Good(Root),
    /// The sector has one of the magics, but it encodes no root.
    Bad,
}
