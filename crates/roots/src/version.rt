/// A version of the disk. Each version has its own magic and its own list in the roots.
#[derive(Clone, Copy, PartialEq, Eq)]
pub enum Version {
    /// Version 1: a root lists the entries of up to 100 libraries.
    One,
    /// Version 2: a root lists catalogues, which list the entries of up to 2,048 libraries.
    Two,
}
