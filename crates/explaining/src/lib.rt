// The reading of one message, printed: where a divider stands, title, body, each line of the last paragraph with its kind, what is
// counted, the block start and the blocks, and the trailers with the numbers of their lines and who signed. Places below the body's
// are counted in it, lines in the message.
#![tactic(auto)]

ghost use Rattle.std.specs.Prelude.{◌≡◌, ◌+◌, ◌*◌, ◌^◌, ◌<◌, ◌≤◌, length};
ghost use Rattle.explaining.specs.Kinds.{forgives, kind_of};
ghost use Rattle.explaining.specs.Verdicts.{verdict_of};

use block::next_block_from;
use console::{large_buffer, read_within, write_all};
use dividing::print_divider;
use paragraph::{
    Scan, accepts_as_trailer_block, is_recognized_prefix, last_paragraph, trailer_block_start,
};
use rules::Ending;
use signers::print_trailers;
use std::fmt;
use std::io::{Read, Write};
use text::line::{is_blank_line, is_indented, line_len, trim_line_ending};
use title::title_and_body;
use trailer::line::parse_trailer_line;

// What a line of the last paragraph is.
#[derive(Clone, Copy, Debug, PartialEq, Eq)]
pub enum LineKind {
    Recognised,
    Trailer,
    Forgiven,
    NotForgiven,
    Other,
}

// What is printed before a line of the kind, in one piece: each piece is a write of its own.
impl fmt::Display for LineKind {
    fn fmt<W: fmt::Write>(&self, f: &mut fmt::Formatter<W>) -> fmt::Result {
        f.write_str(match self {
            LineKind::Recognised => "  recognised   |",
            LineKind::Trailer => "  trailer line |",
            LineKind::Forgiven => "  forgiven     |",
            LineKind::NotForgiven => "  not forgiven |",
            LineKind::Other => "  other        |",
        })
    }
}

// By which rule a paragraph is a block, or why it is none.
#[derive(Clone, Copy, Debug, PartialEq, Eq)]
pub enum Verdict {
    AllTrailers,
    EnoughTrailers,
    TooManyOthers,
    NoneRecognised,
    NoLine,
}

impl fmt::Display for Verdict {
    fn fmt<W: fmt::Write>(&self, f: &mut fmt::Formatter<W>) -> fmt::Result {
        f.write_str(match self {
            Verdict::AllTrailers => "a block: t > 0 and n = 0",
            Verdict::EnoughTrailers => "a block: one is recognised and 3t >= n",
            Verdict::TooManyOthers => "no block: one is recognised, but 3t < n",
            Verdict::NoneRecognised => "no block: n > 0, and none is recognised",
            Verdict::NoLine => "no block: there is no line",
        })
    }
}

// Reads a message from `from` and prints its reading; where it has more than 32,768 bytes, only `too long`.
pub fn explain<R: Read, W: Write>(from: &mut R, out: &mut W) {
    let mut space = large_buffer();
    match read_within(from, &mut space, 32_768) {
        Some(message) => print_reading(out, message),
        None => {
            write_all(out, b"too long\n");
        }
    }
}

// The kind of a line that is not blank; `below` says whether it stands under a line that forgives it if it is indented.
#[tactic(auto, using(trailer::proofs::Parsed::parsed_told))]
fn kind_of(line: &[u8], below: bool) -> LineKind
    ensures { result ≡ kind_of line.now below }
{
    if is_recognized_prefix(line) {
        return LineKind::Recognised;
    }
    if parse_trailer_line(line).is_some() {
        return LineKind::Trailer;
    }
    if !is_indented(line) {
        return LineKind::Other;
    }
    if !below {
        return LineKind::NotForgiven;
    }
    LineKind::Forgiven
}

// Whether an indented line directly under a line of this kind is forgiven.
fn is_forgiving(kind: LineKind) -> bool
    ensures { result ≡ forgives kind }
{
    matches!(
        kind,
        LineKind::Recognised | LineKind::Trailer | LineKind::Forgiven
    )
}

// Prints the reading of a message.
fn print_reading<W: Write>(out: &mut W, message: &[u8])
    requires { length message.now ≤ 32768 }
{
    print_divider(out, message);
    let places = title_and_body(message);
    let body_start = places.body_start;
    let _ = writeln!(out, "title: bytes 0 to {}", places.title_end);
    let _ = writeln!(
        out,
        "body: bytes {body_start} to {}, counted anew from here",
        message.len()
    );
    print_body(out, &message[body_start..]);
    print_trailers(out, message);
}

// Prints the reading of a body.
fn print_body<W: Write>(out: &mut W, body: &[u8])
    requires { length body.now ≤ 32768 }
{
    let paragraph = last_paragraph(body);
    let _ = writeln!(out, "last paragraph: from byte {} on", paragraph.start);
    print_paragraph(out, &body[paragraph.start..]);
    print_counts(out, paragraph.scan);
    let start = trailer_block_start(body);
    let _ = writeln!(out, "start: {start}");
    print_blocks(out, body, start);
}

// Prints the lines of the paragraph at the front, each after its kind.
#[tactic(auto, using(text::proofs::Lines::first_some, text::proofs::Lines::first_within))]
fn print_paragraph<W: Write>(out: &mut W, lines: &[u8]) {
    let mut ahead = lines;
    let mut below = false;
    while !ahead.is_empty() {
        let (line, rest) = ahead.split_at(line_len(ahead));
        if is_blank_line(line) {
            return;
        }
        let kind = kind_of(line, below);
        print_line(out, kind, line);
        below = is_forgiving(kind);
        ahead = rest;
    }
}

// Prints a line's text after its kind, and how it ended where that is not LF.
fn print_line<W: Write>(out: &mut W, kind: LineKind, line: &[u8]) {
    let text = trim_line_ending(line);
    let _ = write!(out, "{kind}");
    write_all(out, &line[..text.len]);
    write_all(out, shown(text.ending));
}

// What ends the printed line of one that ended so.
fn shown(ending: Ending) -> &'static [u8] {
    match ending {
        Ending::Lf => b"\n",
        Ending::CrLf => b"  (CR LF)\n",
        Ending::Cr => b"  (CR)\n",
        Ending::None => b"  (no line end)\n",
    }
}

// Prints t, n, whether a line is recognised, and which rule accepts the paragraph as a block, or why none does.
fn print_counts<W: Write>(out: &mut W, scan: Scan)
    requires { (3 * scan.trailer_lines < 2 ^ 64) × (scan.non_trailer_lines + scan.possible_continuation_lines < 2 ^ 64) }
{
    let t = scan.trailer_lines;
    let n = scan.non_trailer_lines + scan.possible_continuation_lines;
    let recognised = scan.recognized_prefix;
    let has = if recognised { "with a" } else { "no" };
    let _ = writeln!(out, "t = {t}, n = {n}, {has} sign-off or cherry-pick line");
    let verdict = verdict_of(t, n, recognised);
    let _ = writeln!(out, "{verdict}");
}

// By which rule a paragraph is a block, or why it is none. Without a recognised line, only the first rule can accept it.
fn verdict_of(t: usize, n: usize, recognised: bool) -> Verdict
    requires { 3 * t < 2 ^ 64 }
    ensures { result ≡ verdict_of t n recognised }
{
    if accepts_as_trailer_block(false, t, n) {
        return Verdict::AllTrailers;
    }
    if accepts_as_trailer_block(recognised, t, n) {
        return Verdict::EnoughTrailers;
    }
    if recognised {
        return Verdict::TooManyOthers;
    }
    if n > 0 {
        return Verdict::NoneRecognised;
    }
    Verdict::NoLine
}

// Prints the blocks of a body whose trailer block starts at `start`: where each starts, where its message ends and where its trailers do.
fn print_blocks<W: Write>(out: &mut W, body: &[u8], start: usize)
    requires { start ≤ length body.now }
{
    let mut at = 0;
    let mut from = start;
    while let Some(block) = next_block_from(body, at, from) {
        let _ = writeln!(
            out,
            "block: message {at} to {}, trailers to {}",
            block.message_end, block.end
        );
        at = block.end;
        from = block.end;
    }
}
