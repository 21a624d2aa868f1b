// The port's answers about an input, each held to what the list has next. The input is taken as a message, as a body and as a token. Each
// function passes the answer in the list, if the two agree.
use body::{
    body_trailers, find_trailer, is_acked_by, is_assisted_by, is_attribution, is_co_authored_by,
    is_reviewed_by, is_signed_off_by, is_tested_by, next_block, next_trailer_of,
    trailer_block_start,
};
use message::decode::message_title_and_body;
use message::{message_summary, message_trailers, summary};
use recorded::Recorded;
use rules::{BlockCursor, Cursor, Kind, Part, Refusal, TrailerRef, Value};
use std::fmt;
use view::value_of;

// What an answer of the list is about, in the list's order.
#[derive(Clone, Copy, Debug, PartialEq, Eq)]
pub enum Subject {
    TitleAndBody,
    TitleSummary,
    MessageSummary,
    MessageTrailers,
    BlockStart,
    Trailers,
    FilteredTrailers,
    Blocks,
    Lookup,
    TokenQuestions,
}

impl fmt::Display for Subject {
    fn fmt<W: fmt::Write>(&self, f: &mut fmt::Formatter<W>) -> fmt::Result {
        f.write_str(match self {
            Subject::TitleAndBody => "title and body",
            Subject::TitleSummary => "title summary",
            Subject::MessageSummary => "message summary",
            Subject::MessageTrailers => "message trailers",
            Subject::BlockStart => "block start",
            Subject::Trailers => "trailers",
            Subject::FilteredTrailers => "filtered trailers",
            Subject::Blocks => "blocks",
            Subject::Lookup => "lookup",
            Subject::TokenQuestions => "token questions",
        })
    }
}

// What the list has where a walk or a lookup gives something, and where it gives nothing more.
const MORE: usize = 1;

const NO_MORE: usize = 0;

// Holds all answers about an input to the list; where they differ, what the first answer that does is about. No input of the list is over the
// limit, so a refusal is a difference.
pub fn answers_agree(list: &mut Recorded, input: &[u8], out: &mut [u8]) -> Result<(), Subject> {
    title_and_body_agree(list, input).ok_or(Subject::TitleAndBody)?;
    summary_agrees(list, input, out).ok_or(Subject::TitleSummary)?;
    message_summary_agrees(list, input, out).ok_or(Subject::MessageSummary)?;
    message_trailers_agree(list, input, out).ok_or(Subject::MessageTrailers)?;
    start_agrees(list, input).ok_or(Subject::BlockStart)?;
    trailers_agree(list, input, Kind::All, out).ok_or(Subject::Trailers)?;
    filters_agree(list, input, out).ok_or(Subject::FilteredTrailers)?;
    blocks_agree(list, input).ok_or(Subject::Blocks)?;
    lookup_agrees(list, input, out).ok_or(Subject::Lookup)?;
    token_agrees(list, input).ok_or(Subject::TokenQuestions)
}

// The title's end, and the body's start, 0 where there is no body.
fn title_and_body_agree(list: &mut Recorded, message: &[u8]) -> Option<()> {
    let places = message_title_and_body(message).ok()?;
    list.expect_two(places.title_end, places.body_start.unwrap_or(0))
}

// A value: 0 for an empty part, wherever it is; 1 and its place for another part; 2 and its bytes if it was written.
fn value_agrees(list: &mut Recorded, input: &[u8], out: &[u8], value: Value) -> Option<()> {
    match value {
        Value::InInput(part) if part.start == part.end => list.expect_number(0),
        Value::InInput(part) => {
            list.expect_number(1)?;
            list.expect_two(part.start, part.end)
        }
        Value::InBuffer(_) => {
            list.expect_number(2)?;
            list.expect_bytes(value_of(input, out, value))
        }
    }
}

// The summary of the title.
fn summary_agrees(list: &mut Recorded, message: &[u8], out: &mut [u8]) -> Option<()> {
    let title_end = message_title_and_body(message).ok()?.title_end;
    let title = message.get(..title_end)?;
    let value = summary(title, out).ok()?;
    value_agrees(list, title, out, value)
}

// The summary of the whole message.
fn message_summary_agrees(list: &mut Recorded, message: &[u8], out: &mut [u8]) -> Option<()> {
    let value = message_summary(message, out).ok()?;
    value_agrees(list, message, out, value)
}

// A bit where the answer is yes.
fn bit(answer: Result<bool, Refusal>, bit: u8) -> Option<u8> {
    Some(if answer.ok()? { bit } else { 0 })
}

// The seven questions about a token, one bit each.
fn questions(input: &[u8], token: Part) -> Option<usize> {
    let bits = bit(is_signed_off_by(input, token), 1)?
        | bit(is_co_authored_by(input, token), 2)?
        | bit(is_assisted_by(input, token), 4)?
        | bit(is_acked_by(input, token), 8)?
        | bit(is_reviewed_by(input, token), 16)?
        | bit(is_tested_by(input, token), 32)?
        | bit(is_attribution(input, token), 64)?;
    Some(usize::from(bits))
}

// A trailer: its token's place, its value, and the questions about its token.
fn trailer_agrees(list: &mut Recorded, input: &[u8], out: &[u8], found: TrailerRef) -> Option<()> {
    list.expect_two(found.token.start, found.token.end)?;
    value_agrees(list, input, out, found.value)?;
    list.expect_number(questions(input, found.token)?)
}

// The walk of the trailers of a kind: each trailer, and where the walk goes on. No walk has more steps than bytes, and one.
fn walk_agrees(
    list: &mut Recorded,
    input: &[u8],
    from: Cursor,
    kind: Kind,
    out: &mut [u8],
) -> Option<()> {
    let mut cursor = from;
    for _ in 0..=input.len() {
        let step = next_trailer_of(input, cursor, kind, out).ok()?;
        let Some(found) = step.found else {
            return list.expect_number(NO_MORE);
        };
        list.expect_number(MORE)?;
        trailer_agrees(list, input, out, found)?;
        cursor = step.next;
        list.expect_number(cursor.at)?;
    }
    None
}

// The walk of a message's trailers: where it begins, and its steps.
fn message_trailers_agree(list: &mut Recorded, message: &[u8], out: &mut [u8]) -> Option<()> {
    let cursor = message_trailers(message).ok()?;
    list.expect_number(cursor.at)?;
    walk_agrees(list, message, cursor, Kind::All, out)
}

// The walk of a body's trailers of a kind.
fn trailers_agree(list: &mut Recorded, body: &[u8], kind: Kind, out: &mut [u8]) -> Option<()> {
    let cursor = body_trailers(body).ok()?;
    walk_agrees(list, body, cursor, kind, out)
}

// Where the trailer block of a body starts.
fn start_agrees(list: &mut Recorded, body: &[u8]) -> Option<()> {
    list.expect_number(trailer_block_start(body).ok()?.start)
}

// The walk of a body's trailers through each of the five filters.
fn filters_agree(list: &mut Recorded, body: &[u8], out: &mut [u8]) -> Option<()> {
    for kind in [
        Kind::SignedOffBy,
        Kind::CoAuthoredBy,
        Kind::AssistedBy,
        Kind::Attribution,
        Kind::Author,
    ] {
        trailers_agree(list, body, kind, out)?;
    }
    Some(())
}

// The walk of a body's blocks: where each one's message ends, and where its trailers do.
fn blocks_agree(list: &mut Recorded, body: &[u8]) -> Option<()> {
    let start = trailer_block_start(body).ok()?.start;
    let mut cursor = BlockCursor { at: 0, start };
    for _ in 0..=body.len() {
        let step = next_block(body, cursor).ok()?;
        let Some(block) = step.found else {
            return list.expect_number(NO_MORE);
        };
        list.expect_number(MORE)?;
        list.expect_two(block.message_end, block.end)?;
        cursor = step.next;
    }
    None
}

// The lookup of a name, if the list has one.
fn lookup_agrees(list: &mut Recorded, body: &[u8], out: &mut [u8]) -> Option<()> {
    if list.number()? == NO_MORE {
        return Some(());
    }
    let name = list.bytes()?;
    let Some(found) = find_trailer(body, name, out).ok()? else {
        return list.expect_number(NO_MORE);
    };
    list.expect_number(MORE)?;
    trailer_agrees(list, body, out, found)
}

// The questions about the whole input as a token.
fn token_agrees(list: &mut Recorded, input: &[u8]) -> Option<()> {
    let token = Part {
        start: 0,
        end: input.len(),
    };
    list.expect_number(questions(input, token)?)
}
