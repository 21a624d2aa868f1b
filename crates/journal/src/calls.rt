// What the calls answer about an entry and no listing shows: the room that a value needs, where the walk of the trailers ends,
// and what the viewer shows of a range that does not fit.
use body::next_trailer;
use console::write_all;
use message::message_trailers;
use rules::{Cursor, Part, Refusal, Value};
use std::io::Write;
use view::value_of;

// Prints the answers about a message. The buffer has room for any of its values.
pub fn print_calls<W: Write>(out: &mut W, message: &[u8], buffer: &mut [u8]) {
    let Ok(start) = message_trailers(message) else {
        return;
    };
    print_walk(out, message, start, buffer);
    let past = Part {
        start: 0,
        end: 1_048_577,
    };
    let in_message = value_of(message, buffer, Value::InInput(past));
    let _ = writeln!(out, "past the message: {} bytes shown", in_message.len());
    let in_buffer = value_of(message, buffer, Value::InBuffer(past));
    let _ = writeln!(out, "past the buffer: {} bytes shown", in_buffer.len());
}

// Prints each value of the walk from a cursor on that has to be written, with the room that it needs, and where the walk ends.
// No walk has more steps than bytes, and one.
fn print_walk<W: Write>(out: &mut W, message: &[u8], from: Cursor, buffer: &mut [u8]) {
    let mut cursor = from;
    for _ in 0..=message.len() {
        let needed = needed_at(message, cursor);
        let Ok(step) = next_trailer(message, cursor, buffer) else {
            return;
        };
        let Some(found) = step.found else {
            let _ = writeln!(
                out,
                "the walk ends at {} of {}",
                step.next.at,
                message.len()
            );
            return;
        };
        if let Some(needed) = needed {
            print_needed(out, needed, value_of(message, buffer, found.value));
        }
        cursor = step.next;
    }
}

// The room that the step from a cursor on says it needs, where it is given none.
fn needed_at(message: &[u8], cursor: Cursor) -> Option<usize> {
    match next_trailer(message, cursor, &mut [0; 0]) {
        Err(Refusal::NoRoom(needed)) => Some(needed),
        _ => None,
    }
}

// Prints a value with the room that it needs.
fn print_needed<W: Write>(out: &mut W, needed: usize, value: &[u8]) {
    let _ = write!(out, "{needed} bytes for |");
    write_all(out, value);
    write_all(out, b"|\n");
}
