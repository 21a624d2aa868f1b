// Lists the entries of the journal: for each file that an argument names, its name, what the lister prints of it, its reading,
// what the calls answer that neither shows, and its closing note where 207 records were received.
#![tactic(auto)]

mod calls;

use calls::print_calls;
use console::{arg, arg_count, buffer, fail, large_buffer, open_read, read_full, write_all};
use std::io;
use std::io::Write;
use std::rt::{Env, Files};

fn main(rt: HostRuntime) {
    for i in 1..arg_count(&rt) {
        list_entry(&rt, &mut rt.stdout(), &mut rt.stderr(), i);
    }
}

// Lists and explains the entry in the file that argument `i` names, or says why it cannot be opened.
fn list_entry<R: Env + Files, W: Write, E: Write>(rt: &R, out: &mut W, errors: &mut E, i: usize) {
    let mut space = buffer();
    let name = arg(rt, i, &mut space);
    match open_read(rt, name) {
        Ok(mut file) => {
            write_all(out, b"== ");
            write_all(out, name);
            write_all(out, b"\n");
            printing::list(&mut file, out);
        }
        Err(error) => {
            fail(errors, name, error);
            return;
        }
    }
    write_all(out, b"= reading\n");
    explain_entry(rt, out, name);
    write_all(out, b"= calls\n");
    ask_entry(rt, out, name);
}

// Explains the entry in a file; one that can no longer be opened reads as an empty one.
fn explain_entry<R: Files, W: Write>(rt: &R, out: &mut W, name: &[u8]) {
    match open_read(rt, name) {
        Ok(mut file) => explaining::explain(&mut file, out),
        Err(_) => explaining::explain(&mut io::empty(), out),
    }
}

// Puts the entry in a file to the calls; one that can no longer be opened as an empty one.
fn ask_entry<R: Files, W: Write>(rt: &R, out: &mut W, name: &[u8]) {
    let mut space = large_buffer();
    let len = match open_read(rt, name) {
        Ok(mut file) => read_full(&mut file, &mut space),
        Err(_) => 0,
    };
    let message = &space[..len];
    print_calls(out, message, &mut large_buffer());
    write_all(out, b"= closing\n");
    noting::print_closing(out, message, 207);
}
