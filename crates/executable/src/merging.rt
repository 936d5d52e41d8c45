// Joins each piece to the next piece, if the piece continues in the next one.

ghost use Rattle.std.specs.Prelude.{◌≡◌, ◌≤◌, ◌++◌, IfOk, OnOk};
ghost use Rattle.image.specs.Constant.{MEMORY_LIMIT};
ghost use Rattle.image.specs.Image.{AreRising};
ghost use Rattle.executable.specs.Piece.{end_of, merging, merged, pieces_of};
ghost use Rattle.executable.specs.inside.Joining.{IsShort, AreInRow};

use crate::piece::Piece;
use crate::pieces::cut_pieces;
use image::Segment;
use std::alloc::{AllocError, Global};

/// If `piece` continues in `next`, returns both as one piece. Otherwise appends `piece` to `done`
/// and returns `next`.
fn merge(done: &mut Vec<Piece>, mut piece: Piece, next: Piece) -> Result<Piece, AllocError>
    requires short { IsShort piece }
    requires next_short { IsShort next }
    requires behind { end_of piece ≤ next.heading.address }
    requires limit { end_of next ≤ MEMORY_LIMIT }
    ensures done { OnOk result (done.new.items ≡ done.old.items ++ (merging piece next).done) }
    ensures last { IfOk result (λ last. last ≡ (merging piece next).last) }
    ensures short { IfOk result (λ last. IsShort last) }
    ensures ends { IfOk result (λ last. end_of last ≡ end_of next) }
{
    if piece.goes_on(&next) {
        piece.join(&next)?;
        return Ok(piece.finish());
    }
    done.push(piece)?;
    Ok(next)
}

/// Joins each piece that continues in the next piece to this next piece, and returns the resulting
/// pieces.
fn merged(alloc: Global, pieces: Vec<Piece>) -> Result<Vec<Piece>, AllocError>
    requires { AreInRow 0 pieces.items }
    ensures { IfOk result (λ all. all.items ≡ merged pieces.items) }
{
    let mut done = Vec::new(alloc);
    let mut rest = pieces.into_iter();
    let Some(mut last) = rest.next() else {
        return Ok(done);
    };
    for piece in rest {
        last = merge(&mut done, last, piece)?;
    }
    done.push(last)?;
    Ok(done)
}

/// Returns the pieces of `segments`, as the file has them.
pub(crate) fn pieces_of(alloc: Global, segments: &[Segment]) -> Result<Vec<Piece>, AllocError>
    requires { AreRising 0 segments.now }
    ensures { IfOk result (λ pieces. pieces.items ≡ pieces_of segments.now) }
{
    let pieces = cut_pieces(alloc, segments)?;
    merged(alloc, pieces)
}
