// Where the title of a message ends and its body starts: what the loop of the original's decode.rs finds, by lines. After a line, whole
// runs in which no LF is followed by the first byte of a line end are passed over, however many lines they hold.
#![tactic(auto)]

ghost use Rattle.std.specs.Prelude.{◌≡◌};
ghost use Rattle.rules.specs.Title.{body_start, line_end, title_end};
ghost use Rattle.title.specs.Runs.{InTitle, any_meets};

use text::line::{line_len, trim_line_ending};

// Where the title ends and where the body starts; both at the end of the message where all is title.
#[derive(Clone, Copy)]
pub struct Places {
    pub title_end: usize,
    pub body_start: usize,
}

// How many bytes are read as one run.
const READ: usize = 17;

// How many bytes of a run without two line ends are passed: not its last two, which may be a CR LF with the second line end after the run.
const PASSED: usize = 15;

// The title ends at the first place where two line ends follow each other; the body is what comes after them. The second
// stands where a line starts, and the first ends the line before it.
pub fn title_and_body(message: &[u8]) -> Places
    ensures { (result.title_end ≡ title_end message.now) × (result.body_start ≡ body_start message.now) }
{
    let mut at = 0;
    while at < message.len() {
        let end = at + line_len(&message[at..]);
        let second_len = newline_len(&message[end..]);
        if second_len != 0 {
            let text_len = trim_line_ending(&message[at..end]).len;
            return Places {
                title_end: at + text_len,
                body_start: end + second_len,
            };
        }
        at = end + past_lines(&message[end..]);
    }
    Places {
        title_end: at,
        body_start: at,
    }
}

// The length of the line end at the front; 0 where none is there.
fn newline_len(input: &[u8]) -> usize
    ensures { result ≡ line_end input.now }
{
    if input.starts_with(b"\r\n") {
        return 2;
    }
    if input.starts_with(b"\n") {
        return 1;
    }
    0
}

// Whether an LF of `run` is followed there by LF or CR, with which every line end begins. The run is read to its end, so that the compiler
// reads all of it at once.
fn has_two_ends(run: &[u8]) -> bool
    ensures { result ≡ any_meets run.now }
{
    let mut found = false;
    for pair in run.windows(2) {
        found |= (pair[0] == b'\n') & ((pair[1] == b'\n') | (pair[1] == b'\r'));
    }
    found
}

// How many bytes from the front on are passed over, by runs in which no two line ends are found: the title does not end among them.
fn past_lines(message: &[u8]) -> usize
    ensures { InTitle message.now result }
{
    let mut i = 0;
    while message.len() - i >= READ {
        if has_two_ends(&message[i..i + READ]) {
            return i;
        }
        i += PASSED;
    }
    i
}
