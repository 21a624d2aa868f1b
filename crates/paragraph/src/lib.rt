// The last paragraph of a body, and where its trailer block starts.
#![tactic(auto)]

ghost use Rattle.std.specs.Prelude.{◌≡◌, ◌+◌, ◌*◌, ◌^◌, ◌<◌, ◌≤◌, length, take};
ghost use Rattle.rules.specs.Lines.{lines};
ghost use Rattle.rules.specs.Lists.{starts};
ghost use Rattle.rules.specs.Paragraph.{accepts, block_start, cherry_picked, ending_below, parse, recognised, signed_off};
ghost use Rattle.paragraph.specs.Scan.{end_above, is_block, last_paragraph, scanned};
ghost use Rattle.paragraph.specs.Solid.{BlankFrom, SolidLen};

use rules::Ending;
use text::fixed::same_word;
use text::line::{
    before_blanks, is_ascii_whitespace, is_blank_line, is_indented, line_len, line_start,
    trim_line_ending,
};
use trailer::line::parse_trailer_line;

// What is counted of the last paragraph, from the body's end upwards.
#[derive(Clone, Copy, Default)]
pub struct Scan {
    pub saw_non_blank_line: bool,
    pub recognized_prefix: bool,
    pub trailer_lines: usize,
    pub non_trailer_lines: usize,
    pub possible_continuation_lines: usize,
}

impl Scan {
    // What one more line above, which is not blank, adds. An indented line is neither recognised nor a trailer line: that is asked first,
    // unlike in the original, since its first byte shows it.
    fn add(&mut self, line: &[u8])
        requires { self.old.trailer_lines + self.old.non_trailer_lines + self.old.possible_continuation_lines < 2 ^ 63 }
        ensures { self.new ≡ scanned line.now self.old }
    {
        self.saw_non_blank_line = true;
        if is_indented(line) {
            self.possible_continuation_lines += 1;
            return;
        }
        if is_recognized_prefix(line) {
            self.trailer_lines += 1;
            self.possible_continuation_lines = 0;
            self.recognized_prefix = true;
            return;
        }
        if parse_trailer_line(line).is_some() {
            self.trailer_lines += 1;
            self.possible_continuation_lines = 0;
            return;
        }
        self.non_trailer_lines += 1 + self.possible_continuation_lines;
        self.possible_continuation_lines = 0;
    }

    // Whether the paragraph so counted is a trailer block. Above the indented lines at its top stands no other of its lines: they count as
    // lines that are no trailers.
    pub fn is_block(self) -> bool
        requires { (3 * self.trailer_lines < 2 ^ 64) × (self.non_trailer_lines + self.possible_continuation_lines < 2 ^ 64) }
        ensures { result ≡ is_block self }
    {
        accepts_as_trailer_block(
            self.recognized_prefix,
            self.trailer_lines,
            self.non_trailer_lines + self.possible_continuation_lines,
        )
    }
}

// The last paragraph: where it starts, and its counts.
#[derive(Clone, Copy)]
pub struct Paragraph {
    pub start: usize,
    pub scan: Scan,
}

// Whether a line starts with `Signed-off-by: `: its first eight bytes and its last.
fn is_signed_off(line: &[u8]) -> bool
    ensures { result ≡ starts signed_off line.now }
{
    if line.len() < 15 {
        return false;
    }
    same_word(&line[..8], b"Signed-o") & same_word(&line[7..15], b"off-by: ")
}

// Whether a line starts with `(cherry picked from commit `, in the same way.
fn is_cherry_picked(line: &[u8]) -> bool
    ensures { result ≡ starts cherry_picked line.now }
{
    if line.len() < 27 {
        return false;
    }
    if !same_word(&line[..8], b"(cherry ") {
        return false;
    }
    same_word(&line[8..16], b"picked f")
        & same_word(&line[16..24], b"rom comm")
        & same_word(&line[19..27], b" commit ")
}

// Whether a line starts with one of the prefixes that Git writes itself.
pub fn is_recognized_prefix(line: &[u8]) -> bool
    ensures { result ≡ recognised line.now }
{
    is_signed_off(line) || is_cherry_picked(line)
}

// Where the scan begins: at the body's end, or above the blank lines that a body ends with, which count for nothing. Most bodies have none, which
// the last byte but one tells.
fn scan_end(body: &[u8]) -> usize
    ensures { BlankFrom body.now result }
{
    let end = body.len();
    if end < 2 || !is_ascii_whitespace(body[end - 2]) {
        return end;
    }
    let solid = solid_len(body);
    if solid == 0 {
        return 0;
    }
    solid + line_len(&body[solid..])
}

// The last paragraph: from the body's end upwards, line by line, to the blank line above it.
pub fn last_paragraph(body: &[u8]) -> Paragraph
    ensures { result ≡ last_paragraph (parse (lines body.now)) }
{
    let mut scan = Scan::default();
    let mut end = scan_end(body);
    while end > 0 {
        let start = line_start(&body[..end], end);
        let line = &body[start..end];
        if is_blank_line(line) {
            if scan.saw_non_blank_line {
                return Paragraph { start: end, scan };
            }
        } else {
            scan.add(line);
        }
        end = start;
    }
    Paragraph { start: 0, scan }
}

// Git accepts the last paragraph if it is made entirely of trailers, or if it contains at least one recognized prefix and at
// least 25% of it consists of trailer lines.
pub fn accepts_as_trailer_block(
    recognized_prefix: bool,
    trailer_lines: usize,
    non_trailer_lines: usize,
) -> bool
    requires { 3 * trailer_lines < 2 ^ 64 }
    ensures { result ≡ accepts trailer_lines non_trailer_lines recognized_prefix }
{
    (trailer_lines > 0 && non_trailer_lines == 0)
        || (recognized_prefix && trailer_lines * 3 >= non_trailer_lines)
}

// Where the text of the last line but one before `end` ends: `end` is the end of the blank line above the paragraph. Where that line
// starts does not matter: what stands above it ends in LF.
fn end_above(body: &[u8], end: usize) -> usize
    requires { end ≤ length body.now }
    ensures { result ≡ end_above (lines (take end body.now)) }
{
    let blank = line_start(body, end);
    trim_line_ending(&body[..blank]).len
}

// Where the trailer block of `body` starts; the body's length where its last paragraph is none.
pub fn trailer_block_start(body: &[u8]) -> usize
    ensures { result ≡ block_start body.now }
{
    let paragraph = last_paragraph(body);
    if !paragraph.scan.is_block() {
        return body.len();
    }
    end_above(body, paragraph.start)
}

// How many blank bytes at a body's end are passed one by one, before whole runs of them are.
const NEAR: usize = 16;

// How long `body` is without the blank bytes at its end.
fn solid_len(body: &[u8]) -> usize
    ensures { SolidLen body.now result }
{
    let mut len: usize = body.len();
    while len > 0 {
        if !is_ascii_whitespace(body[len - 1]) {
            return len;
        }
        len -= 1;
        if body.len() - len == NEAR {
            len = before_blanks(&body[..len]);
        }
    }
    len
}

// How the last non-blank line of `body` ended; with none of the endings where there is no such line. It holds the last byte that is
// not blank, and where it starts does not matter.
pub fn last_ending(body: &[u8]) -> Ending
    ensures { result ≡ ending_below body.now }
{
    let len = solid_len(body);
    if len == 0 {
        return Ending::None;
    }
    let start = len - 1;
    let end = start + line_len(&body[start..]);
    trim_line_ending(&body[start..end]).ending
}
