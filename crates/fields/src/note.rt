// The closing note of a walk's trailers, or the first refusal.
ghost use Rattle.std.specs.Prelude.{◌≡◌, ◌≤◌, length};
ghost use Rattle.rules.specs.Trailer.{walk_from};
ghost use Rattle.closing.specs.Answers.{note_found_says, note_said};
ghost use Rattle.closing.specs.Closing.{answer};
ghost use Rattle.fields.specs.Note.{AloneOf, ContentOf, Inside, PresentOf};

use crate::sole::sole_line;
use crate::tally::{Found, tally_fields};
use closing::{Fault, Field, Note, NoteError};
use content::{is_complete, is_good, number_of};
use rules::Part;

// A field's trailers; refused where there is none.
fn present(found: Option<Found>, field: Field) -> Result<Found, NoteError>
    ensures { PresentOf found field result }
{
    found.ok_or(NoteError::Refused {
        fault: Fault::Missing,
        field,
    })
}

// Where the raw value of a field's one trailer stands; refused where there are more.
fn alone(found: Found, field: Field) -> Result<Part, NoteError>
    ensures { AloneOf found field result }
{
    match found {
        Found::Once(raw) => Ok(raw),
        Found::Repeated(_, _) => Err(NoteError::Refused {
            fault: Fault::Repeated,
            field,
        }),
    }
}

// Where the content of a raw value stands; refused where it is not good for the field.
fn content(message: &[u8], raw: Part, field: Field) -> Result<Part, NoteError>
    requires { Inside message.now raw }
    ensures { ContentOf field message.now raw result }
{
    let value = &message[raw.start..raw.end];
    match sole_line(value) {
        Some(part) if is_good(field, &value[part.start..part.end]) => {
            let start = raw.start + part.start;
            let end = raw.start + part.end;
            Ok(Part { start, end })
        }
        _ => Err(NoteError::Refused {
            fault: Fault::BadContent,
            field,
        }),
    }
}

// The closing note of the trailers of the walk from `at` on, or the first refusal: all three fields are looked for first, then
// repeats, then contents.
pub fn note_from(message: &[u8], at: usize) -> Result<Note, NoteError>
    requires { at ≤ length message.now }
    ensures { note_found_says result ≡ note_said (walk_from message.now at) (answer (walk_from message.now at)) }
{
    let tallies = tally_fields(message, at);
    let vehicle_found = present(tallies.vehicle, Field::Vehicle)?;
    let records_found = present(tallies.records, Field::Records)?;
    let state_found = present(tallies.state, Field::OffloadState)?;
    let vehicle_raw = alone(vehicle_found, Field::Vehicle)?;
    let records_raw = alone(records_found, Field::Records)?;
    let state_raw = alone(state_found, Field::OffloadState)?;
    let vehicle = content(message, vehicle_raw, Field::Vehicle)?;
    let records = content(message, records_raw, Field::Records)?;
    let state = content(message, state_raw, Field::OffloadState)?;
    let count = number_of(&message[records.start..records.end]);
    let complete = is_complete(&message[state.start..state.end]);
    Ok(Note {
        vehicle,
        records: count,
        complete,
    })
}
