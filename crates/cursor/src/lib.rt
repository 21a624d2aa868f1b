// A cursor that is lent to the trailer step and moved on in place.
#![tactic(auto)]

ghost use Rattle.std.specs.Prelude.{◌≡◌, length};
ghost use Rattle.rules.specs.Answers.{trailer_step_says};
ghost use Rattle.rules.specs.declared.Kind.{Kind};
ghost use Rattle.body.specs.Body.{step_answer, step_buffer};
ghost use Rattle.cursor.specs.InPlace.{cursor_left};

use body::next_trailer;
use rules::{Cursor, Refusal, TrailerStep};

// The next trailer from the cursor on; the cursor is moved on in place, and stays where the step is refused.
pub fn next_trailer_in_place(
    cursor: &mut Cursor,
    body: &[u8],
    out: &mut [u8],
) -> Result<TrailerStep, Refusal>
    ensures result_value { trailer_step_says result ≡ step_answer Kind.All body.now cursor.old (length out.old) }
    ensures cursor_after { cursor.new ≡ cursor_left body.now cursor.old (length out.old) }
    ensures out_after { out.new ≡ step_buffer Kind.All body.now cursor.old out.old }
{
    let step = next_trailer(body, *cursor, out)?;
    *cursor = step.next;
    Ok(step)
}
