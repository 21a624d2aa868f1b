// Adds a trailer to a message. Standard input has the token, a NUL, the value, a NUL, and the message; standard output gets the
// new message. A refusal writes nothing there, and a line that says why on standard error.
#![tactic(auto)]

use adding::{AddingError, add_trailer};
use console::{large_buffer, read_within, write_all};
use std::io::Write;

// Where there are more than 49,152 bytes, says only `too long`. A read that fails counts as the end.
fn main(rt: HostRuntime) {
    let mut space = large_buffer();
    let mut errors = rt.stderr();
    match read_within(&mut rt.stdin(), &mut space, 49_152) {
        Some(input) => add(&mut rt.stdout(), &mut errors, input),
        None => {
            write_all(&mut errors, b"too long\n");
        }
    }
}

// Adds the trailer that the input names to the message after it.
fn add<W: Write, E: Write>(out: &mut W, errors: &mut E, input: &[u8]) {
    let (token, rest) = split_at_nul(input);
    let (value, message) = split_at_nul(rest);
    print_added(out, errors, message, token, value);
}

// What stands before the first NUL, and what stands after it; all, and nothing, where there is none.
fn split_at_nul(input: &[u8]) -> (&[u8], &[u8]) {
    match input.iter().position(|byte| *byte == 0) {
        Some(nul) => (&input[..nul], &input[nul + 1..]),
        None => (input, &[]),
    }
}

// Prints the message with the trailer added, or why it is refused.
fn print_added<W: Write, E: Write>(
    out: &mut W,
    errors: &mut E,
    message: &[u8],
    token: &[u8],
    value: &[u8],
) {
    let mut new = large_buffer();
    match add_trailer(message, token, value, &mut new) {
        Ok(len) => {
            write_all(out, &new[..len]);
        }
        Err(error) => {
            write_all(errors, text_of(error));
        }
    }
}

// The line that says why a trailer is not added.
fn text_of(error: AddingError) -> &'static [u8] {
    match error {
        AddingError::TooLong | AddingError::NoRoom(_) => b"too long\n",
        AddingError::BadToken => b"the token is not letters, digits or hyphens\n",
        AddingError::BadValue => b"the value has a line feed, or white space at an end\n",
        AddingError::NothingToStandOn => b"the message has no line that is not blank\n",
    }
}
