// Lists the trailers of the commit object on standard input, as `git cat-file commit` prints it: those of its message, as the
// lister prints them.
#![tactic(auto)]

ghost use Rattle.std.specs.Prelude.{◌≤◌, length};

use commit::CommitError;
use console::{large_buffer, print_decimal, read_within, write_all};
use object::commit_message;
use printing::print_listing;
use rules::Value;
use std::io::Write;
use view::value_of;

// Where there are more than 32,768 bytes, prints only `too long`. A read that fails counts as the end.
fn main(rt: HostRuntime) {
    let mut space = large_buffer();
    let mut out = rt.stdout();
    match read_within(&mut rt.stdin(), &mut space, 32_768) {
        Some(content) => list_commit(&mut out, content),
        None => {
            write_all(&mut out, b"too long\n");
        }
    }
}

// Prints the listing of the message, or the number of the line at which the header is refused.
fn list_commit<W: Write>(out: &mut W, content: &[u8])
    requires { length content.now ≤ 32768 }
{
    match commit_message(content) {
        Ok(message) => print_listing(out, value_of(content, content, Value::InInput(message))),
        Err(CommitError::BadHeader { line }) => {
            write_all(out, b"bad header, line ");
            print_decimal(out, line as u64);
            write_all(out, b"\n");
        }
        Err(CommitError::TooLong) => {}
    }
}
