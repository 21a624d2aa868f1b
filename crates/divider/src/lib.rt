// The two readings of a message (document 02, K7): whole, or up to its first divider; and where the message ends in each.
#![tactic(auto)]

ghost use Rattle.std.specs.Prelude.{◌≡◌, length};
ghost use Rattle.divider.specs.Divider.{cut, divider};
ghost use Rattle.divider.specs.Readings.{end_answer, end_found_says, read, reading_of};

use rules::{TooLong, within_limit};
use text::fixed::starts_with;
use text::line::{line_len, trim_line_ending};

// How a message is read: whole, as the original reads it, or up to its first divider.
#[derive(Clone, Copy, Debug, PartialEq, Eq)]
pub enum Reading {
    Whole,
    AboveDivider,
}

// A number that is no reading's.
#[derive(Clone, Copy, Debug, PartialEq, Eq)]
pub struct NoReading;

// A reading by its number.
impl TryFrom<u32> for Reading {
    type Error = NoReading;

    ghost try_from_gives = { λ number r. r ≡ reading_of number };

    fn try_from(number: u32) -> Result<Reading, NoReading> {
        match number {
            0 => Ok(Reading::Whole),
            1 => Ok(Reading::AboveDivider),
            _ => Err(NoReading),
        }
    }
}

// Whether a line is a divider: its text is three hyphens, or they and a space begin it. Few lines begin with them, and only
// those are looked at further.
pub fn is_divider(line: &[u8]) -> bool
    ensures { result ≡ divider line.now }
{
    starts_with(line, b"---") && (trim_line_ending(line).len == 3 || line[3] == b' ')
}

// Where the first divider of a message starts; its length where it has none.
fn divider_start(message: &[u8]) -> usize
    ensures { result ≡ length (cut message.now) }
{
    let mut at = 0;
    while at < message.len() {
        let end = at + line_len(&message[at..]);
        if is_divider(&message[at..end]) {
            return at;
        }
        at = end;
    }
    at
}

// How long a message is in a reading: `&message[..end_in(message, reading)]` is the message so read.
pub fn end_in(message: &[u8], reading: Reading) -> usize
    ensures { result ≡ length (read reading message.now) }
{
    match reading {
        Reading::Whole => message.len(),
        Reading::AboveDivider => divider_start(message),
    }
}

// Where a message ends. Whoever walks its trailers by steps hands on the message up to there.
pub fn message_end(message: &[u8], reading: Reading) -> Result<usize, TooLong>
    ensures { end_found_says result ≡ end_answer reading message.now }
{
    within_limit(message)?;
    Ok(end_in(message, reading))
}
