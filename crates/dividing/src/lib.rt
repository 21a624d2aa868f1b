// A message with a patch below, printed: the listing of what stands above its first divider, and the divider.
#![tactic(auto)]

ghost use Rattle.std.specs.Prelude.{◌≤◌, length};

use console::{large_buffer, print_decimal, read_within, write_all};
use divider::{Reading, end_in};
use printing::print_listing;
use std::io::{Read, Write};
use text::line::{line_len, trim_line_ending};

// Reads a message from `from` and prints the listing of what stands above its first divider; where it has more than 32,768 bytes,
// the patch with it, only `too long`. A read that fails counts as the message's end.
pub fn list_above_divider<R: Read, W: Write>(from: &mut R, out: &mut W) {
    let mut space = large_buffer();
    match read_within(from, &mut space, 32_768) {
        Some(message) => print_above_divider(out, message),
        None => {
            write_all(out, b"too long\n");
        }
    }
}

// Prints the listing of what stands above a message's first divider.
fn print_above_divider<W: Write>(out: &mut W, message: &[u8])
    requires { length message.now ≤ 32768 }
{
    let end = end_in(message, Reading::AboveDivider);
    print_listing(out, &message[..end]);
}

// Prints where the first divider of a message starts, and its text; nothing where it has none.
pub fn print_divider<W: Write>(out: &mut W, message: &[u8]) {
    let start = end_in(message, Reading::AboveDivider);
    if start == message.len() {
        return;
    }
    write_all(out, b"divider: at byte ");
    print_decimal(out, start as u64);
    write_all(out, b", where the second reading ends: ");
    print_text(out, &message[start..]);
}

// Prints the text of the first line.
fn print_text<W: Write>(out: &mut W, lines: &[u8]) {
    let end = line_len(lines);
    let len = trim_line_ending(&lines[..end]).len;
    write_all(out, &lines[..len]);
    write_all(out, b"\n");
}
