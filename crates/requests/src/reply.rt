// The answers to commands.

use crate::listing::Listing;
use crate::refusal::Refusal;
use image::Image;

/// The answer to a command.
#[derive(Drop)]
pub enum Reply {
    /// The change was accepted.
    Done,
    /// The libraries and the preloads.
    Listing(Listing),
    /// The image of the program.
    Bound(Image),
    /// The command was refused.
    Refused(Refusal),
}
