// A commit object's header, judged line by line in one scan.
#![tactic(auto)]

ghost use Rattle.std.specs.Prelude.{ℕ, ◌≡◌, ◌+◌, suc, ◌<◌, eqb, length, Some, if◌then◌else◌};
ghost use Rattle.rules.specs.Lists.{filled};
ghost use Rattle.commit.specs.Reader.{named_line, spaced_line};
ghost use Rattle.commit.specs.declared.CommitError.{CommitError};
ghost use Rattle.commit.specs.declared.Turn.{Turn};
ghost use Rattle.judge.specs.Scan.{Judges, LineTurn, begun, turned};

use commit::{CommitError, Phase, Turn};
use find::find_lf;
use header::{empty_turn, is_parent_front, name_end, named_turn, spaced_turn};
use rules::Part;

// What a line does, and where it ends.
#[derive(Clone, Copy)]
pub struct Turned {
    pub turn: Turn,
    pub end: usize,
}

// A good header: how many lines it has, where the line asked for starts and where the one below it does, and where the message starts.
#[derive(Clone, Copy)]
pub struct Header {
    pub lines: usize,
    pub line: Part,
    pub message: usize,
}

// The number of the first line after which no good header is possible.
#[derive(Clone, Copy, Debug, PartialEq, Eq)]
pub struct BadLine(pub usize);

impl From<BadLine> for CommitError {
    ghost from_gives = { λ bad e. e ≡ CommitError.BadHeader bad.0 };

    fn from(bad: BadLine) -> CommitError {
        CommitError::BadHeader { line: bad.0 }
    }
}

// Where a parent's line at `at` ends, if one may come and stands there.
fn parent_end(content: &[u8], at: usize, phase: Phase) -> Option<usize>
    requires { at < length content.now }
    ensures { (end : ℕ) → result ≡ Some end → LineTurn content.now at phase (turned end (Some (Turn.To phase))) }
{
    match phase {
        Phase::Parents(size) if is_parent_front(&content[at..], phase) => Some(at + size + 8),
        _ => None,
    }
}

// What a line with a content does: one of no name starts with a space, and continues the one above.
fn content_turn(phase: Phase, name: &[u8], content: &[u8]) -> Option<Turn>
    ensures { result ≡ (if filled name.now then named_line phase name.now content.now else spaced_line phase) }
{
    if name.is_empty() {
        spaced_turn(phase)
    } else {
        named_turn(phase, name, content)
    }
}

// What the line at `at` does, and where it ends; none where no good header goes on. The LF is searched for from the line's start on,
// as by one who looks for lines alone.
fn line_turn(content: &[u8], at: usize, phase: Phase) -> Option<Turned>
    requires { at < length content.now }
    ensures { LineTurn content.now at phase result }
{
    if let Some(end) = parent_end(content, at, phase) {
        return Some(Turned {
            turn: Turn::To(phase),
            end,
        });
    }
    let name = name_end(content, at);
    if name == content.len() {
        return None;
    }
    if content[name] == b'\n' {
        if name > at {
            return None;
        }
        let turn = empty_turn(phase)?;
        return Some(Turned {
            turn,
            end: name + 1,
        });
    }
    let end = find_lf(content, at);
    if end == content.len() {
        return None;
    }
    let turn = content_turn(phase, &content[at..name], &content[name + 1..end])?;
    Some(Turned { turn, end: end + 1 })
}

// The lines counted with one more, which starts with this byte: a line that starts with a space is one with the line above.
fn count_line(first: u8, n: usize) -> usize
    requires { n < 9223372036854775807 }
    ensures { result ≡ (if eqb first 32 then n else n + 1) }
{
    if first == b' ' { n } else { n + 1 }
}

// Where line `number` and the line below it start, as far as it is seen: at `at` a line starts, n lines being before it.
fn follow(seen: Part, at: usize, n: usize, number: usize) -> Part
    ensures { (result.start ≡ begun number n at seen.start) × (result.end ≡ begun (suc number) n at seen.end) }
{
    if n <= number {
        Part { start: at, end: at }
    } else if n - 1 == number {
        Part { end: at, ..seen }
    } else {
        seen
    }
}

// Judges the header of a commit object's content whole, and says where one of its lines stands.
pub fn judge_header(content: &[u8], number: usize) -> Result<Header, BadLine>
    ensures { Judges content.now number result }
{
    let mut at = 0;
    let mut lines = 0;
    let mut phase = Phase::Tree;
    let mut line = Part { start: 0, end: 0 };
    while at < content.len() {
        let counted = count_line(content[at], lines);
        let Some(turned) = line_turn(content, at, phase) else {
            return Err(BadLine(counted.saturating_sub(1)));
        };
        line = follow(line, at, lines, number);
        phase = match turned.turn {
            Turn::To(next) => next,
            Turn::End => {
                return Ok(Header {
                    lines,
                    line,
                    message: turned.end,
                });
            }
        };
        lines = counted;
        at = turned.end;
    }
    Err(BadLine(lines))
}
