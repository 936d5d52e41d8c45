// Writes the text of an image to a writer whose memory grows.

use crate::asked::{Asked, give};
use crate::run::opened;
use crate::words::Words;
use requests::Reply;
use sector_disk::Memory;
use std::alloc::{AllocError, Global};

/// Writes the text of the image of the program that needs `a`. `write_text` allocates nothing: only
/// its writer does.
pub(crate) fn text(alloc: Global, disk: Memory) -> Result<Option<Words>, AllocError> {
    let mut registry = opened(alloc, disk)?;
    let reply = give(&mut registry, Asked::Bind(b'a'));
    let _ = registry.into_disk();
    let Reply::Bound(image) = reply else {
        return Err(AllocError);
    };
    let mut out = Vec::new(alloc);
    if image.write_text(&mut out).is_ok() {
        return Ok(None);
    }
    let mut words = Words::of("write_text: the writer's own growth, a fault; again:");
    let mut whole = Vec::new(alloc);
    let written = image.write_text(&mut whole).is_ok() && whole.starts_with(&out);
    words.push(if written { "ok" } else { "A FAULT" });
    Ok(Some(words))
}
