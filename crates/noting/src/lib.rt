// The closing note of an entry, printed, and whether the unit may erase: in the first reading of the message.
#![tactic(auto)]

use closing::{Fault, Field, Note, NoteError};
use console::write_all;
use content::{is_good, number_of};
use divider::Reading;
use erasing::{closing_note, may_erase};
use rules::Value;
use std::io::Write;
use view::value_of;

// Prints the note of a message and whether the unit may erase where it received as many records as `count` says; where that is no
// decimal from 0 to 1,000,000, only `no count`.
pub fn close<W: Write>(out: &mut W, message: &[u8], count: &[u8]) {
    if !is_good(Field::Records, count) {
        write_all(out, b"no count\n");
        return;
    }
    print_closing(out, message, number_of(count));
}

// Prints the note of a message, and whether the unit may erase where it received so many records; or why it is no closing note.
pub fn print_closing<W: Write>(out: &mut W, message: &[u8], received: usize) {
    match closing_note(message, Reading::Whole) {
        Ok(note) => print_note(out, message, note),
        Err(error) => print_refused(out, error),
    }
    if let Ok(erases) = may_erase(message, Reading::Whole, received) {
        let answer = if erases { "yes" } else { "no" };
        let _ = writeln!(out, "may erase: {answer}");
    }
}

// Prints the three fields of a note.
fn print_note<W: Write>(out: &mut W, message: &[u8], note: Note) {
    let state = if note.complete { "complete" } else { "partial" };
    write_all(out, b"vehicle ");
    write_all(
        out,
        value_of(message, message, Value::InInput(note.vehicle)),
    );
    let _ = writeln!(out, "\nrecords {}\nstate {state}", note.records);
}

// Prints a refusal: what is wrong, and with which field.
fn print_refused<W: Write>(out: &mut W, error: NoteError) {
    match error {
        NoteError::TooLong => {
            write_all(out, b"too long\n");
        }
        NoteError::Refused { fault, field } => {
            let _ = writeln!(
                out,
                "no closing note: {}: {}",
                word_of(fault),
                name_of(field)
            );
        }
    }
}

// What a refusal calls a fault.
fn word_of(fault: Fault) -> &'static str {
    match fault {
        Fault::Missing => "missing",
        Fault::Repeated => "repeated",
        Fault::BadContent => "bad content",
    }
}

// The token of a field.
fn name_of(field: Field) -> &'static str {
    match field {
        Field::Vehicle => "Vehicle",
        Field::Records => "Records",
        Field::OffloadState => "Offload-state",
    }
}
