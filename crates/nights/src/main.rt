// Reports the bundles of some nights: for each file that an argument names, its name and its report.
#![tactic(auto)]

use console::{arg, arg_count, buffer, fail, open_read, write_all};
use std::io::Write;
use std::rt::{Env, Files};

fn main(rt: HostRuntime) {
    for i in 1..arg_count(&rt) {
        report_night(&rt, &mut rt.stdout(), &mut rt.stderr(), i);
    }
}

// Reports the bundle in the file that argument `i` names, or says why it cannot be opened.
fn report_night<R: Env + Files, W: Write, E: Write>(rt: &R, out: &mut W, errors: &mut E, i: usize) {
    let mut space = buffer();
    let name = arg(rt, i, &mut space);
    match open_read(rt, name) {
        Ok(mut file) => {
            write_all(out, b"== ");
            write_all(out, name);
            write_all(out, b"\n");
            reporting::report(&mut file, out);
        }
        Err(error) => fail(errors, name, error),
    }
}
