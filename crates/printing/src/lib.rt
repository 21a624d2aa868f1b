// The listing of a message, printed.
#![tactic(auto)]

ghost use Rattle.std.specs.Prelude.{◌≡◌, ◌≤◌, length};
ghost use Rattle.screen.specs.Listing.{listing};

use console::{large_buffer, read_within, write_all};
use screen::listing_into;
use std::io::{Read, Write};

// Reads a message from `from` and prints its listing; where it has more than 32,768 bytes, only `too long`. A read that fails
// counts as the message's end.
pub fn list<R: Read, W: Write>(from: &mut R, out: &mut W) {
    let mut space = large_buffer();
    match read_within(from, &mut space, 32_768) {
        Some(message) => print_listing(out, message),
        None => {
            write_all(out, b"too long\n");
        }
    }
}

// Room for the listing of any message of 32,768 bytes: three times as many, and fifteen for its first line.
fn room() -> [u8; 98319]
    ensures { 98319 ≡ length result }
{
    [0; 98319]
}

// Writes the listing to the front of `out`, which has room for it.
fn listed<'a>(message: &[u8], out: &'a mut [u8]) -> &'a [u8]
    requires { (length message.now ≤ 32768) × (98319 ≤ length out.old) }
    ensures { result.now ≡ listing message.now }
{
    let len = listing_into(message, out).unwrap();
    &out[..len]
}

// Prints the listing of a message.
pub fn print_listing<W: Write>(out: &mut W, message: &[u8])
    requires { length message.now ≤ 32768 }
{
    write_all(out, listed(message, &mut room()));
}
