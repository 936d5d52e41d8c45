// Tests of `sector_disk`, `file_disk` and `extents`.

mod alike;
mod files;
mod layouts;
mod random;
pub(crate) mod stops;
