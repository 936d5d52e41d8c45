// The failure of a writer.

use thiserror::Error;

/// The writer failed.
#[derive(Debug, Drop, Clone, Copy, PartialEq, Eq, Error)]
#[error("the writer failed")]
pub struct WriteFault;
