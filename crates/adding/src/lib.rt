// A trailer added to a message.
#![tactic(auto)]

ghost use Rattle.std.specs.Prelude.{None, Some, map, sum_by, ◌≡◌, ◌<◌, ◌≤◌, ◌^◌, length, if◌then◌else◌};
ghost use Rattle.rules.specs.Answers.{limit};
ghost use Rattle.rules.specs.Lists.{join};
ghost use Rattle.copy.specs.Onto.{onto};
ghost use Rattle.appending.specs.Added.{added, empty_line, good_token, good_value, has_block, has_line, kept, lacking, new_end};
ghost use Rattle.adding.specs.Answers.{add_answer, add_buffer, added_says, new_answer, new_buffer};
ghost use Rattle.adding.specs.declared.AddingError.{AddingError};

use copy::copy_at;
use find::find_lf;
use paragraph::{last_ending, trailer_block_start};
use rules::{Ending, LIMIT, TooLong, within_limit};
use text::line::{is_blank_line, line_start};
use title::title_and_body;
use trailer::line::token_end;
use white::trim;

// Why `add_trailer` wrote nothing; `NoRoom` has the exact length needed.
#[derive(Clone, Copy, Debug, PartialEq, Eq)]
pub enum AddingError {
    TooLong,
    BadToken,
    BadValue,
    NothingToStandOn,
    NoRoom(usize),
}

impl From<TooLong> for AddingError {
    ghost from_gives = { λ _ e. e ≡ AddingError.TooLong };

    fn from(_over: TooLong) -> AddingError {
        AddingError::TooLong
    }
}

// Whether `token` is letters, digits or hyphens, at least one.
fn is_token(token: &[u8]) -> bool
    ensures { result ≡ good_token token.now }
{
    !token.is_empty() && token_end(token) == token.len()
}

// Whether `value` has no LF and is its own trim.
fn is_value(value: &[u8]) -> bool
    ensures { result ≡ good_value value.now }
{
    if find_lf(value, 0) != value.len() {
        return false;
    }
    let part = trim(value);
    part.end - part.start == value.len()
}

// Where the last non-blank line ends; none where there is no such line.
fn kept_len(message: &[u8]) -> Option<usize>
    ensures { result ≡ (if has_line message.now then Some (length (kept message.now)) else None) }
{
    let mut end = message.len();
    while end > 0 {
        let start = line_start(message, end);
        if !is_blank_line(&message[start..end]) {
            return Some(end);
        }
        end = start;
    }
    None
}

// Whether the body has an accepted block.
fn has_block(message: &[u8]) -> bool
    ensures { result ≡ has_block message.now }
{
    let start = title_and_body(message).body_start;
    trailer_block_start(&message[start..]) < message.len() - start
}

// The LF that the last line lacks; a CR alone is none. It is the end of a longer string: to copy one whose bytes are all alike, the compiler calls
// memset, which a unit without the C library does not have.
fn lacking<'a>(ending: Ending) -> &'a [u8]
    ensures { result.now ≡ lacking ending }
{
    let line_end = b"\r\n".as_slice();
    match ending {
        Ending::Lf | Ending::CrLf => b"",
        Ending::Cr | Ending::None => &line_end[1..],
    }
}

// The end of a new line: CR LF below a line that ended so, and LF below every other.
fn new_end<'a>(ending: Ending) -> &'a [u8]
    ensures { result.now ≡ new_end ending }
{
    let line_end = b"\r\n".as_slice();
    match ending {
        Ending::CrLf => b"\r\n",
        Ending::Lf | Ending::Cr | Ending::None => &line_end[1..],
    }
}

// The empty line that stands above the new one unless the body has a block.
fn empty_line<'a>(block: bool, ending: Ending) -> &'a [u8]
    ensures { result.now ≡ empty_line block ending }
{
    if block { b"" } else { new_end(ending) }
}

// How long the pieces are together.
fn total_len(pieces: &[&[u8]]) -> usize
    requires { sum_by (λ piece. length piece.now) pieces.now < 2 ^ 64 }
    ensures { result ≡ sum_by (λ piece. length piece.now) pieces.now }
{
    pieces.iter().map(|piece| piece.len()).sum()
}

// Writes the pieces to the front of `out`, one after another.
fn put_pieces(pieces: &[&[u8]], out: &mut [u8])
    requires { length (join (map (λ piece. piece.now) pieces.now)) ≤ length out.old }
    ensures { out.new ≡ onto 0 (join (map (λ piece. piece.now) pieces.now)) out.old }
{
    let mut at = 0;
    for piece in pieces {
        copy_at(piece, out, at);
        at += piece.len();
    }
}

// Writes the new message piece by piece, where there is room for it; the first `len` bytes of the message are kept.
fn put_new<'a>(
    message: &'a [u8],
    len: usize,
    token: &'a [u8],
    value: &'a [u8],
    out: &mut [u8],
) -> Result<usize, AddingError>
    requires len { len ≡ length (kept message.now) }
    requires short { (length message.now ≤ limit) × (length token.now ≤ limit) × (length value.now ≤ limit) }
    ensures result_value { added_says result ≡ new_answer (added message.now token.now value.now) (length out.old) }
    ensures out_after { out.new ≡ new_buffer (added message.now token.now value.now) out.old }
{
    let kept = &message[..len];
    let ending = last_ending(kept);
    let end = new_end(ending);
    let empty = empty_line(has_block(message), ending);
    let pieces = [kept, lacking(ending), empty, token, b": ", value, end];
    let needed = total_len(&pieces);
    if needed > LIMIT {
        return Err(AddingError::TooLong);
    }
    if out.len() < needed {
        return Err(AddingError::NoRoom(needed));
    }
    put_pieces(&pieces, out);
    Ok(needed)
}

// Writes the message with one trailer more to the front of `out`, and answers its length.
pub fn add_trailer(
    message: &[u8],
    token: &[u8],
    value: &[u8],
    out: &mut [u8],
) -> Result<usize, AddingError>
    ensures result_value { added_says result ≡ add_answer message.now token.now value.now (length out.old) }
    ensures out_after { out.new ≡ add_buffer message.now token.now value.now out.old }
{
    within_limit(message)?;
    within_limit(token)?;
    within_limit(value)?;
    if !is_token(token) {
        return Err(AddingError::BadToken);
    }
    if !is_value(value) {
        return Err(AddingError::BadValue);
    }
    let len = kept_len(message).ok_or(AddingError::NothingToStandOn)?;
    put_new(message, len, token, value, out)
}
