// What the unit asks before it erases a bus's data: the closing note of an entry, and whether it lets the unit erase, in either
// reading of the message.
#![tactic(auto)]

ghost use Rattle.std.specs.Prelude.{◌≡◌};
ghost use Rattle.closing.specs.Answers.{erase_answer, erase_found_says, note_answer, note_found_says};
ghost use Rattle.divider.specs.Readings.{in_reading};

use closing::{Note, NoteError};
use divider::{Reading, end_in};
use fields::note::note_from;
use paragraph::trailer_block_start;
use rules::within_limit;
use title::title_and_body;

// The closing note of a message that is read whole.
fn note_of(message: &[u8]) -> Result<Note, NoteError>
    ensures { note_found_says result ≡ note_answer message.now }
{
    let body_start = title_and_body(message).body_start;
    let at = body_start + trailer_block_start(&message[body_start..]);
    note_from(message, at)
}

// The closing note of an entry, or why it is none.
pub fn closing_note(message: &[u8], reading: Reading) -> Result<Note, NoteError>
    ensures { note_found_says result ≡ in_reading reading note_answer message.now }
{
    within_limit(message)?;
    let end = end_in(message, reading);
    note_of(&message[..end])
}

// Whether the unit may erase, where the caller has received so many records: the entry is a closing note, its state is complete, and
// its count is that one.
pub fn may_erase(message: &[u8], reading: Reading, received: usize) -> Result<bool, NoteError>
    ensures { erase_found_says result ≡ in_reading reading (erase_answer received) message.now }
{
    let note = closing_note(message, reading)?;
    Ok(note.complete & (note.records == received))
}
