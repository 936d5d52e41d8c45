// The moments of a disk in memory, which only clauses read.

/// A past moment: the number of writes at that time, the number of these writes that were synced,
/// and whether the call that ended the moment failed.
#[derive(Clone, Copy)]
pub(crate) struct Moment {
    pub writes: usize,
    pub synced: usize,
    pub failed: bool,
}
