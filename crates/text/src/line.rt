// Lines: where they end and start, their text, and the tests on them.
ghost use Rattle.std.specs.Prelude.{true, false, ◌≡◌, ◌-◌, ◌≤◌, ltb, length, drop};
ghost use Rattle.rules.specs.Bytes.{blank_byte};
ghost use Rattle.rules.specs.Lines.{ending, indented, lines, text};
ghost use Rattle.rules.specs.Lists.{all};
ghost use Rattle.text.specs.Lines.{first_length, line_start};

use find::{behind_lf, find_lf, holds_lf};
use rules::Ending;

// How many bytes are asked at once whether they are blank.
const BLANK_RUN: usize = 64;

// The length of the first line, its ending with it; 0 of an empty input.
pub fn line_len(s: &[u8]) -> usize
    ensures { result ≡ first_length (lines s.now) }
{
    let end = find_lf(s, 0);
    if end == s.len() {
        return end;
    }
    end + 1
}

// Whether there is more than one line: whether an LF stands before the last byte.
pub fn has_more_lines(s: &[u8]) -> bool
    ensures { result ≡ ltb 1 (length (lines s.now)) }
{
    s.split_last().is_some_and(|(_, before)| holds_lf(before))
}

// Where the line that ends at `at` starts: the byte before `at` may be that line's own LF.
pub fn line_start(s: &[u8], at: usize) -> usize
    requires { at ≤ length s.now }
    ensures { result ≡ line_start s.now at }
{
    behind_lf(s, at.saturating_sub(1))
}

// Of `trim_line_ending`: the length of a line's text, and the ending after it.
#[derive(Clone, Copy)]
pub struct LineText {
    pub len: usize,
    pub ending: Ending,
}

// A line's text, and which ending it drops: Windows or linux line endings, or a single CR at the end.
pub fn trim_line_ending(line: &[u8]) -> LineText
    ensures { (result.len ≡ length (text line.now)) × (result.ending ≡ ending line.now) }
{
    let len = line.len();
    match line {
        [.., b'\r', b'\n'] => LineText {
            len: len - 2,
            ending: Ending::CrLf,
        },
        [.., b'\n'] => LineText {
            len: len - 1,
            ending: Ending::Lf,
        },
        [.., b'\r'] => LineText {
            len: len - 1,
            ending: Ending::Cr,
        },
        _ => LineText {
            len,
            ending: Ending::None,
        },
    }
}

// ASCII blank: space, tab, LF, form feed, CR.
pub fn is_ascii_whitespace(byte: u8) -> bool
    ensures { result ≡ blank_byte byte }
{
    byte.is_ascii_whitespace()
}

// Whether a line, or its text, is all ASCII blank.
pub fn is_blank_line(line: &[u8]) -> bool
    ensures { result ≡ all blank_byte line.now }
{
    line.iter().all(|byte| is_ascii_whitespace(*byte))
}

// Whether a run is all ASCII blank. It is read to its end, so that the compiler reads all of it at once.
fn is_blank_run(run: &[u8]) -> bool
    ensures { result ≡ all blank_byte run.now }
{
    let mut blank = true;
    for byte in run {
        blank &= is_ascii_whitespace(*byte);
    }
    blank
}

// Where the blank runs at the end start.
pub fn before_blanks(s: &[u8]) -> usize
    ensures blank_after { (result ≤ length s.now) × (all blank_byte (drop result s.now) ≡ true) }
    ensures stops_at_text { 64 ≤ result → all blank_byte (drop (result - 64) s.now) ≡ false }
{
    let mut start = s.len();
    for run in s.rchunks_exact(BLANK_RUN) {
        if !is_blank_run(run) {
            return start;
        }
        start -= BLANK_RUN;
    }
    start
}

// Whether a line begins with an ASCII blank.
pub fn is_indented(line: &[u8]) -> bool
    ensures { result ≡ indented line.now }
{
    line.first().is_some_and(|byte| is_ascii_whitespace(*byte))
}
