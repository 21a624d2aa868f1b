// The parts of a listing that decide: where it begins, its refusals, and one record after another.
#![tactic(auto)]

ghost use Rattle.std.specs.Prelude.{true, map, ◌≡◌, ◌+◌, ◌-◌, ◌≤◌, ◌<◌, ◌^◌, Some, length, take};
ghost use Rattle.rules.specs.Number.{cursor_fits};
ghost use Rattle.rules.specs.Trailer.{walk_from};
ghost use Rattle.copy.specs.Onto.{onto};
ghost use Rattle.body.specs.Body.{first_writes};
ghost use Rattle.listing.specs.Listing.{distances, records_from, shifted, taken, tell, told_value, values_from};
ghost use Rattle.listing.specs.Turns.{Begun, Ready, left_at, standing, turn_of};
ghost use Rattle.planning.specs.declared.Scope.{Scope};
ghost use Rattle.planning.specs.Openings.{Opened};
ghost use Rattle.planning.specs.Scopes.{scope_answer, scope_records, scope_values};
ghost use Rattle.planning.specs.Planning.{Ample, beginning, counts_at, found, from, settled_says};

pub mod fill;

use divider::{Reading, end_in};
use find::count::count_lf;
use foot::find_foot;
use listing::{Beginning, Counts, FromEnd, ListingError, Spot, Step};
use message::message_trailers;
use numbering::{cursor_fits, move_on, move_over};
use record::read_trailer;
use rules::{Cursor, Part, Places, TrailerRef, Value, within_limit};
use trailer::walk::{Trailers, next_trailer_from};
use value::written_len;

// What is listed of an input: the trailers from a cursor on, those of a message in a reading, or those of a body's foot, by the last bytes
// of the body and whether they are all of it.
#[derive(Clone, Copy)]
pub enum Scope {
    From(Cursor),
    Message(Reading),
    Foot(bool),
}

// ---- one record after another

// A value, where its places in the buffer count from `by` bytes before.
fn shift(value: Value, by: usize) -> Value
    requires { (by + taken value < 2 ^ 64) × (from value ≤ taken value) }
    ensures { result ≡ shifted by value }
{
    match value {
        Value::InInput(_) => value,
        Value::InBuffer(part) => Value::InBuffer(Part {
            start: by + part.start,
            end: by + part.end,
        }),
    }
}

// How many bytes of the buffer a value takes that was written to its front.
fn bytes_taken(value: Value) -> usize
    ensures { result ≡ taken value }
{
    match value {
        Value::InInput(_) => 0,
        Value::InBuffer(part) => part.end,
    }
}

// Where a listing stands whose walk is at `cursor`: the next trailer is looked for.
fn stand(text: &[u8], cursor: Cursor, done: Counts) -> Spot
    requires { cursor.at ≤ length text.now }
    ensures { result ≡ standing cursor done (walk_from text.now cursor.at) }
{
    Spot {
        cursor,
        ahead: next_trailer_from(text, cursor.at),
        done,
    }
}

// A part of the input, by its distances from the end of `size` bytes.
fn measure(part: Part, size: usize) -> Part
    ensures { result ≡ distances size part }
{
    Part {
        start: size.saturating_sub(part.start),
        end: size.saturating_sub(part.end),
    }
}

// The same of a value that stands in the input.
fn measure_value(value: Value, size: usize) -> Value
    ensures { result ≡ told_value size value }
{
    match value {
        Value::InInput(part) => Value::InInput(measure(part, size)),
        Value::InBuffer(_) => value,
    }
}

// A record as it is told; its line was counted from 1 at the walk's start.
fn tell(plain: TrailerRef, told: Option<FromEnd>) -> TrailerRef
    requires { 1 ≤ plain.line }
    ensures { result ≡ tell told plain }
{
    let Some(end) = told else {
        return plain;
    };
    TrailerRef {
        token: measure(plain.token, end.size),
        value: measure_value(plain.value, end.size),
        ending: plain.ending,
        line: end.lines.saturating_sub(plain.line - 1),
    }
}

// The turn of a trailer that was read, where so much was written before.
fn turn(text: &[u8], done: Counts, told: Option<FromEnd>, read: TrailerRef, next: Cursor) -> Step
    requires value_bound { (done.bytes + taken read.value < 2 ^ 64) × (from read.value ≤ taken read.value) }
    requires records_bound { (done.records + 1 < 2 ^ 64) × (next.at ≤ length text.now) × (1 ≤ read.line) }
    ensures { result ≡ found done told text.now read next }
{
    let plain = TrailerRef {
        value: shift(read.value, done.bytes),
        ..read
    };
    let written = Counts {
        records: done.records + 1,
        bytes: done.bytes + bytes_taken(read.value),
    };
    Step {
        found: tell(plain, told),
        next: stand(text, next, written),
    }
}

// The record of the trailer ahead, which stands at the places `at`: its value is unfolded into the part of the buffer that is still free.
// It is the record that the single step gives.
pub fn list_step(text: &[u8], spot: Spot, at: Places, told: Option<FromEnd>, out: &mut [u8]) -> Step
    requires { Ready text.now spot at (length out.old) }
    ensures value { Some result ≡ turn_of spot told text.now (left_at spot text.now) }
    ensures out_after { out.new ≡ onto spot.done.bytes (first_writes (left_at spot text.now)) out.old }
{
    let here = move_on(text, spot.cursor, at.start);
    let next = move_over(text, here, at.first_end, at.end);
    let read = read_trailer(text, at, here.line, &mut out[spot.done.bytes..]).unwrap();
    turn(text, spot.done, told, read, next)
}

// ---- where a listing begins

// The records and the bytes that the walk from `at` on needs.
fn count(input: &[u8], at: usize) -> Counts
    requires { at ≤ length input.now }
    ensures { result ≡ counts_at input.now at }
{
    let mut records: usize = 0;
    let mut bytes: usize = 0;
    for places in (Trailers { body: input, at }) {
        bytes += written_len(&input[places.value_start..places.end]);
        records += 1;
    }
    Counts { records, bytes }
}

// Whether there is a room for each line and one for each byte from `at` on, so that nothing has to be counted.
fn is_ample(text: &[u8], at: usize, rooms: usize, room: usize) -> bool
    requires { at ≤ length text.now }
    ensures { Ample text.now at rooms room result }
{
    let end = text.len();
    if room < end - at {
        return false;
    }
    count_lf(text, at, end) < rooms
}

// What there is to list: the walk of the first `end` bytes from a cursor on; of a foot, how many lines were looked at; and how the records
// are told.
#[derive(Clone, Copy)]
struct Opening {
    end: usize,
    cursor: Cursor,
    looked: Option<usize>,
    told: Option<FromEnd>,
}

// Where the listing of a text begins that has room: nothing is written yet.
fn begin_at(text: &[u8], opening: Opening) -> Beginning
    requires { opening.cursor.at ≤ length text.now }
    ensures { result ≡ beginning text.now opening }
{
    let none = Counts {
        records: 0,
        bytes: 0,
    };
    Beginning {
        end: opening.end,
        spot: stand(text, opening.cursor, none),
        looked: opening.looked,
        told: opening.told,
    }
}

// Where the listing begins of what there is to list, with so many rooms for records and so much room for bytes; whether it is refused for
// them is settled there.
fn settle(
    input: &[u8],
    opening: Opening,
    rooms: usize,
    room: usize,
) -> Result<Beginning, ListingError>
    requires within { opening.end ≤ length input.now }
    requires fits { cursor_fits opening.cursor (take opening.end input.now) ≡ true }
    ensures { Begun input.now (settled_says (take opening.end input.now) opening rooms room) (map (tell opening.told) (records_from (take opening.end input.now) opening.cursor)) (values_from (take opening.end input.now) opening.cursor) rooms room result }
{
    let text = &input[..opening.end];
    let at = opening.cursor.at;
    if is_ample(text, at, rooms, room) {
        return Ok(begin_at(text, opening));
    }
    let needed = count(text, at);
    if rooms < needed.records {
        return Err(ListingError::ShortTable(needed));
    }
    if room < needed.bytes {
        return Err(ListingError::NoRoom(needed));
    }
    Ok(begin_at(text, opening))
}

// From a cursor on.
fn opening_from(input: &[u8], cursor: Cursor) -> Result<Opening, ListingError>
    ensures { Opened input.now (Scope.From cursor) result }
{
    within_limit(input)?;
    if !cursor_fits(cursor, input) {
        return Err(ListingError::BadPlace);
    }
    Ok(Opening {
        end: input.len(),
        cursor,
        looked: None,
        told: None,
    })
}

// Of a message in a reading. What is read of it is within the limit too, so its walk is not refused.
fn opening_message(message: &[u8], reading: Reading) -> Result<Opening, ListingError>
    ensures { Opened message.now (Scope.Message reading) result }
{
    within_limit(message)?;
    let end = end_in(message, reading);
    Ok(Opening {
        end,
        cursor: message_trailers(&message[..end]).unwrap(),
        looked: None,
        told: None,
    })
}

// Of a body's foot.
fn opening_foot(tail: &[u8], whole: bool) -> Result<Opening, ListingError>
    ensures { Opened tail.now (Scope.Foot whole) result }
{
    within_limit(tail)?;
    let foot = find_foot(tail, whole).ok_or(ListingError::MoreBytes)?;
    let end = tail.len();
    Ok(Opening {
        end,
        cursor: Cursor {
            at: foot.at,
            line: 1,
        },
        looked: Some(foot.looked),
        told: Some(FromEnd {
            size: end,
            lines: foot.lines,
        }),
    })
}

// What there is to list of an input; or a refusal, whatever room there is.
fn opening_of(input: &[u8], scope: Scope) -> Result<Opening, ListingError>
    ensures { Opened input.now scope result }
{
    match scope {
        Scope::From(cursor) => opening_from(input, cursor),
        Scope::Message(reading) => opening_message(input, reading),
        Scope::Foot(whole) => opening_foot(input, whole),
    }
}

// Where a listing begins, with so many rooms for records and so much room for bytes; or why it is refused.
pub fn begin(
    input: &[u8],
    scope: Scope,
    rooms: usize,
    room: usize,
) -> Result<Beginning, ListingError>
    ensures { Begun input.now (scope_answer input.now scope rooms room) (scope_records input.now scope) (scope_values input.now scope) rooms room result }
{
    let opening = opening_of(input, scope)?;
    settle(input, opening, rooms, room)
}
