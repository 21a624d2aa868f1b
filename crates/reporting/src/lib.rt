// The report as a page: the eight numbers, each on a line.
#![tactic(auto)]

use bundle::BundleError;
use console::{large_buffer, print_decimal, read_within, write_all};
use counting::{Report, bundle_report};
use std::io::{Read, Write};

// Reads a bundle from `from` and prints its report; where it has more than 49,152 bytes, only `too long`, and where it is no bundle,
// only `not a bundle`. A read that fails counts as the bundle's end.
pub fn report<R: Read, W: Write>(from: &mut R, out: &mut W) {
    let mut space = large_buffer();
    match read_within(from, &mut space, 49_152) {
        Some(bundle) => print_report(out, bundle),
        None => {
            write_all(out, b"too long\n");
        }
    }
}

// Prints the report of a bundle.
fn print_report<W: Write>(out: &mut W, bundle: &[u8]) {
    match bundle_report(bundle) {
        Ok(report) => print_counts(out, report),
        Err(BundleError::TooLong) => {
            write_all(out, b"too long\n");
        }
        Err(BundleError::NotABundle) => {
            write_all(out, b"not a bundle\n");
        }
    }
}

// Prints each number on a line.
fn print_counts<W: Write>(out: &mut W, report: Report) {
    for count in [
        report.signed_off_by,
        report.co_authored_by,
        report.assisted_by,
        report.acked_by,
        report.reviewed_by,
        report.tested_by,
        report.rest,
        report.without,
    ] {
        print_decimal(out, count as u64);
        write_all(out, b"\n");
    }
}
