// Plans new preloads.
ghost use Rattle.std.specs.Prelude.{◌≡◌, ◌==◌, ℕ, List, map, IfOk, MatchOption};
ghost use Rattle.std.specs.List.{slice_split};
ghost use Rattle.c_answers.specs.Answers.{IsLeft, IsPreloadAnswered};
ghost use Rattle.c_answers.specs.Names.{AreNames};

use crate::answer::Answer;
use crate::change::plan_change;
use crate::status::BAD_ARGUMENT;
use crate::text::tell_memory;
use requests::Command;
use std::alloc::{AllocError, Global};

/// Returns the parts of `row` between its bytes 0.
fn parts_of(alloc: Global, row: &[u8]) -> Result<Vec<&[u8]>, AllocError>
    ensures { IfOk result (λ parts. map (λ part. part.now) parts.items
        ≡ slice_split (λ byte. byte == 0) row.now) }
{
    row.split(|byte| *byte == 0).collect(alloc)
}

/// Returns the names in `bytes`. Each name is followed by a byte 0. Returns `None` if the last byte
/// isn't 0.
pub(crate) fn names_in(alloc: Global, bytes: &[u8]) -> Result<Option<Vec<&[u8]>>, AllocError>
    ensures { IfOk result (λ read. MatchOption read
        ((list : List (List ℕ)) → AreNames list bytes.now → ⊥)
        (λ names. AreNames (map (λ name. name.now) names.items) bytes.now)) }
{
    let Some((last, row)) = bytes.split_last() else {
        return Ok(Some(Vec::new(alloc)));
    };
    if *last != 0 {
        return Ok(None);
    }
    Ok(Some(parts_of(alloc, row)?))
}

/// Plans new preloads, whose names are in a row in `names`: puts the plan into the buffer, or
/// reports why the change is refused.
pub fn plan_preloads(
    alloc: Global,
    disk: &[u8],
    names: &[u8],
    plan: &mut [u8],
    text: &mut [u8],
) -> Answer
    ensures answered { IsPreloadAnswered disk.now names.now plan.new text.new result
        result.status }
    ensures left { IsLeft plan.old plan.new result.status }
{
    match names_in(alloc, names) {
        Ok(Some(names)) => {
            let command = Command::SetPreloads(&names);
            plan_change(alloc, disk, &command, plan, text)
        }
        Ok(None) => Answer::of(BAD_ARGUMENT),
        Err(_) => tell_memory(text),
    }
}
