// The calls on a body: trailers, blocks, attribution. The original's body.rs.
#![tactic(auto)]

ghost use Rattle.std.specs.Prelude.{◌≡◌, length};
ghost use Rattle.rules.specs.Answers.{block_step_says, start_says, trailer_found_says, trailer_step_says, walk_found_says, yes_no_says};
ghost use Rattle.rules.specs.declared.Kind.{Kind};
ghost use Rattle.body.specs.Body.{block_answer, cursor_answer, find_answer, find_buffer, question_answer, start_answer, step_answer, step_buffer, trailers_answer};

use block::next_block_from;
use filter::{find_named, next_of};
use numbering::{cursor_fits, move_on, move_over, right_cursor};
use paragraph::last_ending;
use record::read_trailer;
use rules::{
    BlockCursor, BlockStart, BlockStep, Cursor, Kind, Part, Refusal, TrailerRef, TrailerStep,
    within_limit,
};

// Where the trailer block of `body` starts, the body's length where it has none; and how the body's last non-blank line ended.
pub fn trailer_block_start(body: &[u8]) -> Result<BlockStart, Refusal>
    ensures { start_says result ≡ start_answer body.now }
{
    within_limit(body)?;
    let start = paragraph::trailer_block_start(body);
    let ending = last_ending(body);
    Ok(BlockStart { start, ending })
}

// The next trailer from the cursor on whose token is of the kind; the others are passed over, and write nothing.
pub fn next_trailer_of(
    body: &[u8],
    cursor: Cursor,
    kind: Kind,
    out: &mut [u8],
) -> Result<TrailerStep, Refusal>
    ensures result_value { trailer_step_says result ≡ step_answer kind body.now cursor (length out.old) }
    ensures out_after { out.new ≡ step_buffer kind body.now cursor out.old }
{
    within_limit(body)?;
    if !cursor_fits(cursor, body) {
        return Err(Refusal::BadPlace);
    }
    let Some(places) = next_of(body, cursor.at, kind) else {
        return Ok(TrailerStep {
            found: None,
            next: move_on(body, cursor, body.len()),
        });
    };
    let here = move_on(body, cursor, places.start);
    let next = move_over(body, here, places.first_end, places.end);
    let found = read_trailer(body, places, here.line, out)?;
    Ok(TrailerStep {
        found: Some(found),
        next,
    })
}

// The next trailer from the cursor on.
pub fn next_trailer(body: &[u8], cursor: Cursor, out: &mut [u8]) -> Result<TrailerStep, Refusal>
    ensures result_value { trailer_step_says result ≡ step_answer Kind.All body.now cursor (length out.old) }
    ensures out_after { out.new ≡ step_buffer Kind.All body.now cursor out.old }
{
    next_trailer_of(body, cursor, Kind::All, out)
}

// The cursor of a place of `input`, with the number of its line.
pub fn cursor_at(input: &[u8], at: usize) -> Result<Cursor, Refusal>
    ensures { walk_found_says result ≡ cursor_answer input.now at }
{
    within_limit(input)?;
    if input.len() < at {
        return Err(Refusal::BadPlace);
    }
    Ok(right_cursor(input, at))
}

// Where the walk of the body's trailers begins: at its trailer block, or at its end where it has none.
pub fn body_trailers(body: &[u8]) -> Result<Cursor, Refusal>
    ensures { walk_found_says result ≡ trailers_answer body.now }
{
    within_limit(body)?;
    let at = paragraph::trailer_block_start(body);
    Ok(right_cursor(body, at))
}

// The next block from the cursor on: a message, and the trailers following it.
pub fn next_block(body: &[u8], cursor: BlockCursor) -> Result<BlockStep, Refusal>
    ensures { block_step_says result ≡ block_answer body.now cursor.at cursor.start }
{
    within_limit(body)?;
    let len = body.len();
    if len < cursor.at {
        return Err(Refusal::BadPlace);
    }
    if len < cursor.start {
        return Err(Refusal::BadPlace);
    }
    let found = next_block_from(body, cursor.at, cursor.start);
    let end = match found {
        Some(block) => block.end,
        None => len,
    };
    Ok(BlockStep {
        found,
        next: BlockCursor {
            at: end,
            start: end,
        },
    })
}

// Whether the part `token` of `input` is a token of the kind.
pub fn is_of_kind(input: &[u8], token: Part, kind: Kind) -> Result<bool, Refusal>
    ensures { yes_no_says result ≡ question_answer kind input.now token.start token.end }
{
    within_limit(input)?;
    if token.end < token.start {
        return Err(Refusal::BadPlace);
    }
    if input.len() < token.end {
        return Err(Refusal::BadPlace);
    }
    Ok(filter::is_of(kind, &input[token.start..token.end]))
}

// Whether a token is `Signed-off-by`, ASCII case aside.
pub fn is_signed_off_by(input: &[u8], token: Part) -> Result<bool, Refusal>
    ensures { yes_no_says result ≡ question_answer Kind.SignedOffBy input.now token.start token.end }
{
    is_of_kind(input, token, Kind::SignedOffBy)
}

// Whether a token is `Co-authored-by`, ASCII case aside.
pub fn is_co_authored_by(input: &[u8], token: Part) -> Result<bool, Refusal>
    ensures { yes_no_says result ≡ question_answer Kind.CoAuthoredBy input.now token.start token.end }
{
    is_of_kind(input, token, Kind::CoAuthoredBy)
}

// Whether a token is `Assisted-by`, ASCII case aside.
pub fn is_assisted_by(input: &[u8], token: Part) -> Result<bool, Refusal>
    ensures { yes_no_says result ≡ question_answer Kind.AssistedBy input.now token.start token.end }
{
    is_of_kind(input, token, Kind::AssistedBy)
}

// Whether a token is `Acked-by`, ASCII case aside.
pub fn is_acked_by(input: &[u8], token: Part) -> Result<bool, Refusal>
    ensures { yes_no_says result ≡ question_answer Kind.AckedBy input.now token.start token.end }
{
    is_of_kind(input, token, Kind::AckedBy)
}

// Whether a token is `Reviewed-by`, ASCII case aside.
pub fn is_reviewed_by(input: &[u8], token: Part) -> Result<bool, Refusal>
    ensures { yes_no_says result ≡ question_answer Kind.ReviewedBy input.now token.start token.end }
{
    is_of_kind(input, token, Kind::ReviewedBy)
}

// Whether a token is `Tested-by`, ASCII case aside.
pub fn is_tested_by(input: &[u8], token: Part) -> Result<bool, Refusal>
    ensures { yes_no_says result ≡ question_answer Kind.TestedBy input.now token.start token.end }
{
    is_of_kind(input, token, Kind::TestedBy)
}

// Whether a token is any of the six attribution tokens, ASCII case aside.
pub fn is_attribution(input: &[u8], token: Part) -> Result<bool, Refusal>
    ensures { yes_no_says result ≡ question_answer Kind.Attribution input.now token.start token.end }
{
    is_of_kind(input, token, Kind::Attribution)
}

// The last trailer of the body that has the name, ASCII case aside.
pub fn find_trailer(body: &[u8], name: &[u8], out: &mut [u8]) -> Result<Option<TrailerRef>, Refusal>
    ensures result_value { trailer_found_says result ≡ find_answer body.now name.now (length out.old) }
    ensures out_after { out.new ≡ find_buffer body.now name.now out.old }
{
    within_limit(body)?;
    within_limit(name)?;
    let at = paragraph::trailer_block_start(body);
    let Some(places) = find_named(body, at, name) else {
        return Ok(None);
    };
    let line = right_cursor(body, places.start).line;
    let found = read_trailer(body, places, line, out)?;
    Ok(Some(found))
}
