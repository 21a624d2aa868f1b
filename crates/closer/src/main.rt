// Prints the closing note of the entry on standard input, and whether the unit may erase where it received as many records as the
// first argument says.
#![tactic(auto)]

use console::{arg, buffer, large_buffer, read_within, write_all};

// Where there are more than 32,768 bytes, prints only `too long`. A read that fails counts as the end.
fn main(rt: HostRuntime) {
    let mut word = buffer();
    let count = arg(&rt, 1, &mut word);
    let mut space = large_buffer();
    let mut out = rt.stdout();
    match read_within(&mut rt.stdin(), &mut space, 32_768) {
        Some(message) => noting::close(&mut out, message, count),
        None => {
            write_all(&mut out, b"too long\n");
        }
    }
}
