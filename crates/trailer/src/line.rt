// A trailer line, and the trailer that begins at a line's start.
ghost use Rattle.std.specs.Prelude.{List, ◌≡◌, ℕ, length};
ghost use Rattle.std.specs.List.{prefix_len};
ghost use Rattle.rules.specs.Bytes.{gap_byte, token_byte};
ghost use Rattle.rules.specs.Lines.{folds, lines};
ghost use Rattle.rules.specs.Lists.{join, run};
ghost use Rattle.rules.specs.Trailer.{token_in};
ghost use Rattle.word.specs.Word.{Bytes, each, flag, packed};
ghost use Rattle.trailer.specs.Line.{at_start, parsed};

use text::line::{is_blank_line, is_indented, line_len};
use word::{before_flag, word};

// How many bytes a word has.
const WORD: usize = 8;

// A trailer line: where its token ends, and where its value starts, right after the colon.
#[derive(Clone, Copy)]
pub struct TrailerLine {
    pub token_end: usize,
    pub value_start: usize,
}

// The trailer at a line's start: the same of its first line, that line's length, and the trailer's.
#[derive(Clone, Copy)]
pub struct TrailerAtStart {
    pub token_end: usize,
    pub value_start: usize,
    pub first: usize,
    pub len: usize,
}

// Whether a byte may stand in a token: an ASCII letter, a digit or a hyphen.
#[tactic(auto, unfolding(rules::specs::Bytes::token_byte))]
fn is_token_byte(byte: u8) -> bool
    ensures { result ≡ token_byte byte }
{
    byte.is_ascii_alphanumeric() || byte == b'-'
}

// Whether a byte may stand between the token and the colon: a space or a tab.
#[tactic(auto, unfolding(rules::specs::Bytes::gap_byte))]
fn is_gap_byte(byte: u8) -> bool
    ensures { result ≡ gap_byte byte }
{
    byte == b' ' || byte == b'\t'
}

// How many bytes at the front stand in a token, byte by byte.
fn short_token_len(part: &[u8]) -> usize
    ensures { result ≡ prefix_len token_byte part.now }
{
    part.iter().take_while(|byte| is_token_byte(**byte)).count()
}

// The flags of a word's bytes that stand in no token. Each byte, without its highest bit, carries into it in two sums: in one from the first byte
// of a range on, in the other from the one after its last. In the range only one of them carries.
fn token_flags(word: u64) -> u64
    ensures { (s : List ℕ) → length s ≡ 8 → Bytes s → word ≡ packed s → result ≡ each (flag token_byte) s }
{
    let low = word & 0x7f7f_7f7f_7f7f_7f7f;
    let small = low | 0x2020_2020_2020_2020;
    let letter = (small + 0x1f1f_1f1f_1f1f_1f1f) ^ (small + 0x0505_0505_0505_0505);
    let digit = (low + 0x5050_5050_5050_5050) ^ (low + 0x4646_4646_4646_4646);
    let no_hyphen = (low ^ 0x2d2d_2d2d_2d2d_2d2d) + 0x7f7f_7f7f_7f7f_7f7f;
    ((((letter | digit) ^ 0x8080_8080_8080_8080) & no_hyphen) | word) & 0x8080_8080_8080_8080
}

// How many of a word's bytes stand in a token at the front.
fn token_len_of_word(run: &[u8]) -> usize
    requires { length run.now ≡ 8 }
    ensures { result ≡ length (token_in run.now) }
{
    before_flag(token_flags(word(run)))
}

// Where the token at the front ends.
pub fn token_end(line: &[u8]) -> usize
    ensures { result ≡ length (token_in line.now) }
{
    let mut i = 0;
    while line.len() - i >= WORD {
        let passed = token_len_of_word(&line[i..i + WORD]);
        if passed < WORD {
            return i + passed;
        }
        i += WORD;
    }
    i + short_token_len(&line[i..])
}

// How many spaces and tabs stand at the front: after its token and these a trailer line has its colon.
fn gap_len(part: &[u8]) -> usize
    ensures { result ≡ prefix_len gap_byte part.now }
{
    part.iter().take_while(|byte| is_gap_byte(**byte)).count()
}

// Where the token of a trailer line ends, and where its value starts.
pub fn parse_trailer_line(line: &[u8]) -> Option<TrailerLine>
    ensures { result ≡ parsed line.now }
{
    let token_end = token_end(line);
    if token_end == 0 {
        return None;
    }
    let separator = token_end + gap_len(&line[token_end..]);
    if separator == line.len() || line[separator] != b':' {
        return None;
    }
    Some(TrailerLine {
        token_end,
        value_start: separator + 1,
    })
}

// The length of the indented, non-blank lines at the front of `rest`.
fn folds_len(rest: &[u8]) -> usize
    ensures { result ≡ length (join (run folds (lines rest.now))) }
{
    let mut len = 0;
    while is_indented(&rest[len..]) {
        let end = len + line_len(&rest[len..]);
        if is_blank_line(&rest[len..end]) {
            return len;
        }
        len = end;
    }
    len
}

// The trailer whose first line is the first of `cursor`: that line with every indented, non-blank line directly after it. `&cursor[0..]` is all of
// it, as a slice of this function's own: one handed on as it came would be copied, which waits for where it was stored.
pub fn trailer_at_start(cursor: &[u8]) -> Option<TrailerAtStart>
    ensures { result ≡ at_start (lines cursor.now) }
{
    let line = parse_trailer_line(&cursor[0..])?;
    let first = line_len(cursor);
    let len = first + folds_len(&cursor[first..]);
    Some(TrailerAtStart {
        token_end: line.token_end,
        value_start: line.value_start,
        first,
        len,
    })
}
