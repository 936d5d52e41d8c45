// Makes pieces of segments. After that, `merging` joins each piece that continues in the next one.

ghost use Rattle.std.specs.Prelude.{◌≡◌, ◌+◌, ◌<◌, ◌≤◌, ◌++◌, ◌∷◌, IfOk, OnOk, List};
ghost use Rattle.std.specs.Prelude.{length, map};
ghost use Rattle.image.specs.Constant.{MEMORY_LIMIT};
ghost use Rattle.image.specs.Image.{AreRising, ImageSegment};
ghost use Rattle.executable.specs.Piece.{page_of, end_of, piece_of, finished};
ghost use Rattle.executable.specs.Piece.{lower, upper, in_page, followed, pieces_from};
ghost use Rattle.executable.specs.Piece.{cut_pieces};
ghost use Rattle.executable.specs.inside.Joining.{pieces_after, IsFull, IsReady};

use crate::piece::{Piece, page_of};
use crate::place::PAGE;
use image::Segment;
use std::alloc::{AllocError, Global};

/// Appends the part of `piece` below `page` to `done`, if there is one, and returns the rest of
/// `piece`.
fn put_lower(done: &mut Vec<Piece>, mut piece: Piece, page: u64) -> Result<Piece, AllocError>
    requires full { IsFull piece }
    requires within { page < end_of piece }
    ensures done { OnOk result
        (done.new.items ≡ done.old.items ++ map finished (lower page piece)) }
    ensures upper { IfOk result (λ rest. rest ≡ upper page piece) }
    ensures full { IfOk result (λ rest. IsFull rest) }
    ensures ends { IfOk result (λ rest. end_of rest ≡ end_of piece) }
{
    if piece.address() >= page {
        return Ok(piece);
    }
    let rest = piece.split_off(page)?;
    done.push(piece.finish())?;
    Ok(rest)
}

/// Joins the part of `next` that lies in `page` to `piece`, which lies in `page`. If this part is
/// all of `next`, returns the joined piece. Otherwise appends the joined piece to `done`, and
/// returns the rest of `next`.
fn put_page(
    done: &mut Vec<Piece>,
    mut piece: Piece,
    mut next: Piece,
    page: u64,
) -> Result<Piece, AllocError>
    requires full { IsFull piece }
    requires next_full { IsFull next }
    requires behind { end_of piece ≤ next.heading.address }
    requires begins { page ≤ next.heading.address }
    requires within { next.heading.address < page + PAGE }
    requires limit { end_of next ≤ MEMORY_LIMIT }
    ensures done { OnOk result
        (done.new.items ≡ done.old.items ++ map finished (in_page page piece next).done) }
    ensures last { IfOk result (λ last. last ≡ (in_page page piece next).last) }
    ensures full { IfOk result (λ last. IsFull last) }
    ensures ends { IfOk result (λ last. end_of last ≡ end_of next) }
{
    if next.end() <= page + PAGE {
        piece.join(&next)?;
        return Ok(piece);
    }
    let rest = next.split_off(page + PAGE)?;
    piece.join(&next)?;
    done.push(piece.finish())?;
    Ok(rest)
}

/// Makes the pieces of `piece` and of `next`, which comes after it. Appends all these pieces except
/// the last one to `done`, and returns the last one.
fn put(done: &mut Vec<Piece>, piece: Piece, next: Piece) -> Result<Piece, AllocError>
    requires full { IsFull piece }
    requires next_full { IsFull next }
    requires behind { end_of piece ≤ next.heading.address }
    requires limit { end_of next ≤ MEMORY_LIMIT }
    ensures done { OnOk result
        (done.new.items ≡ done.old.items ++ map finished (followed piece next).done) }
    ensures last { IfOk result (λ last. last ≡ (followed piece next).last) }
    ensures full { IfOk result (λ last. IsFull last) }
    ensures ends { IfOk result (λ last. end_of last ≡ end_of next) }
{
    if !piece.shares_page(&next) {
        done.push(piece.finish())?;
        return Ok(next);
    }
    let page = page_of(next.address());
    let upper = put_lower(done, piece, page)?;
    put_page(done, upper, next, page)
}

/// Makes the piece of a segment that has bytes. If there is a piece `last`, makes the pieces of
/// `last` and of the new piece. Appends all these pieces except the last one to `done`, and returns
/// the last one.
fn add(
    alloc: Global,
    done: &mut Vec<Piece>,
    last: Option<Piece>,
    segment: &Segment,
) -> Result<Piece, AllocError>
    requires last { IsReady last segment.now.address }
    requires limit { segment.now.address + length segment.now.bytes ≤ MEMORY_LIMIT }
    requires some { 0 < length segment.now.bytes }
    ensures pieces { IfOk result (λ next. (rest : List ImageSegment) →
        done.new.items ++ map finished (pieces_from next rest)
        ≡ done.old.items ++ map finished (pieces_after last (segment.now ∷ rest))) }
    ensures full { IfOk result (λ next. IsFull next) }
    ensures ends { IfOk result (λ next.
        end_of next ≡ segment.now.address + length segment.now.bytes) }
{
    let next = Piece::of(alloc, segment)?;
    match last {
        None => Ok(next),
        Some(piece) => put(done, piece, next),
    }
}

/// Returns the finished pieces of segments. Makes one pass over the segments, and copies their
/// bytes.
pub(crate) fn cut_pieces(alloc: Global, segments: &[Segment]) -> Result<Vec<Piece>, AllocError>
    requires { AreRising 0 segments.now }
    ensures { IfOk result (λ pieces. pieces.items ≡ map finished (cut_pieces segments.now)) }
{
    let mut done = Vec::new(alloc);
    let mut last = None;
    for segment in segments {
        if segment.memory().len() != 0 {
            last = Some(add(alloc, &mut done, last, segment)?);
        }
    }
    if let Some(piece) = last {
        done.push(piece.finish())?;
    }
    Ok(done)
}
