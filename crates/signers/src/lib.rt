// A message's trailers, printed: the line's number and the token of each, and under it who signed, where the trailer says it.
#![tactic(auto)]

ghost use Rattle.std.specs.Prelude.{◌≤◌, length};

use body::{is_of_kind, next_trailer};
use console::{large_buffer, print_decimal, write_all};
use mailbox::Mailbox;
use message::message_trailers;
use rules::{Kind, TrailerRef, Value};
use signer::mailbox;
use std::io::Write;
use view::value_of;

// Prints the trailers of a message. The buffer has room for any value of it, so no step is refused.
pub fn print_trailers<W: Write>(out: &mut W, message: &[u8])
    requires { length message.now ≤ 32768 }
{
    let Ok(mut cursor) = message_trailers(message) else {
        return;
    };
    let mut buffer = large_buffer();
    while let Ok(step) = next_trailer(message, cursor, &mut buffer) {
        let Some(found) = step.found else {
            return;
        };
        print_trailer(out, message, &buffer, found);
        cursor = step.next;
    }
}

// Prints the number of a trailer's line and its token; and, if it is an attribution and its value is a mailbox, the name and the
// address under it.
fn print_trailer<W: Write>(out: &mut W, message: &[u8], buffer: &[u8], trailer: TrailerRef) {
    let token = value_of(message, buffer, Value::InInput(trailer.token));
    write_all(out, b"line ");
    print_decimal(out, trailer.line as u64);
    print_part(out, b": ", token);
    write_all(out, b"\n");
    if let Ok(true) = is_of_kind(message, trailer.token, Kind::Attribution) {
        print_signer(out, value_of(message, buffer, trailer.value));
    }
}

// Prints the name and the address of a value that is a mailbox.
fn print_signer<W: Write>(out: &mut W, text: &[u8]) {
    let Ok(Mailbox { name, address }) = mailbox(text) else {
        return;
    };
    print_part(
        out,
        b"  name    |",
        value_of(text, text, Value::InInput(name)),
    );
    print_part(
        out,
        b"\n  address |",
        value_of(text, text, Value::InInput(address)),
    );
    write_all(out, b"\n");
}

// Prints bytes after what stands before them.
fn print_part<W: Write>(out: &mut W, before: &[u8], part: &[u8]) {
    write_all(out, before);
    write_all(out, part);
}
