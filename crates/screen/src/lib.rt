// The listing of a message as text: what the lister prints, written to a lent buffer.
#![tactic(auto)]

ghost use Rattle.std.specs.Prelude.{◌≡◌, ◌+◌, ◌≤◌, length};
ghost use Rattle.rules.specs.Answers.{limit};
ghost use Rattle.copy.specs.Onto.{onto};
ghost use Rattle.screen.specs.Answers.{listing_answer, listing_buffer, written_says};
ghost use Rattle.screen.specs.Listing.{first_line};
ghost use Rattle.screen.specs.Parts.{Fits, line_at, lines_from, name_of, sizes_from, value_line};

use copy::copy_at;
use message::message_trailers;
use rules::{Places, Refusal};
use trailer::walk::Trailers;
use value::{unfold_into, unfolded_len};

// How many trailers there are, and how long their lines are together.
#[derive(Drop)]
struct Sizes {
    trailers: u64,
    bytes: usize,
}

// The length of a trailer's line.
fn line_len(message: &[u8], at: Places) -> usize
    requires { Fits message.now at }
    ensures { result ≡ length (line_at message.now at) }
{
    let value = unfolded_len(&message[at.value_start..at.end]);
    at.token_end - at.start + 2 + value + 1
}

// What the lines of the walk from `at` on need.
fn measure(message: &[u8], at: usize) -> Sizes
    requires { (at ≤ length message.now) × (length message.now ≤ limit) }
    ensures { result ≡ sizes_from message.now at }
{
    let mut sizes = Sizes {
        trailers: 0,
        bytes: 0,
    };
    for places in (Trailers { body: message, at }) {
        sizes.trailers += 1;
        sizes.bytes += line_len(message, places);
    }
    sizes
}

// Writes the first line, with the digits of the number of trailers.
fn put_first(digits: &[u8], out: &mut [u8])
    requires { length (first_line digits.now) ≤ length out.old }
    ensures { out.new ≡ onto 0 (first_line digits.now) out.old }
{
    copy_at(b"trailers ", out, 0);
    copy_at(digits, out, 9);
    copy_at(b"\n", out, 9 + digits.len());
}

// Writes a token, the colon and the space behind it, from `place` on, and answers where they end.
fn put_name(token: &[u8], out: &mut [u8], place: usize) -> usize
    requires { place + length (name_of token.now) ≤ length out.old }
    ensures value { result ≡ place + length (name_of token.now) }
    ensures out_after { out.new ≡ onto place (name_of token.now) out.old }
{
    let colon = place + token.len();
    copy_at(token, out, place);
    copy_at(b": ", out, colon);
    colon + 2
}

// Unfolds a raw value into `out` from `place` on, writes the line's LF behind it, and answers where the line ends.
fn put_value(raw: &[u8], out: &mut [u8], place: usize) -> usize
    requires { place + length (value_line raw.now) ≤ length out.old }
    ensures value { result ≡ place + length (value_line raw.now) }
    ensures out_after { out.new ≡ onto place (value_line raw.now) out.old }
{
    let len = unfold_into(raw, &mut out[place..]);
    let end = place + len;
    copy_at(b"\n", out, end);
    end + 1
}

// Writes a trailer's line from `place` on, and answers where it ends.
fn put_line(message: &[u8], at: Places, out: &mut [u8], place: usize) -> usize
    requires fits { Fits message.now at }
    requires at_in_bounds { place + length (line_at message.now at) ≤ length out.old }
    ensures value { result ≡ place + length (line_at message.now at) }
    ensures out_after { out.new ≡ onto place (line_at message.now at) out.old }
{
    let value = put_name(&message[at.start..at.token_end], out, place);
    put_value(&message[at.value_start..at.end], out, value)
}

// Writes the lines of the walk from `at` on, one behind another from `place` on.
fn put_lines(message: &[u8], at: usize, out: &mut [u8], place: usize)
    requires { (at ≤ length message.now) × (place + length (lines_from message.now at) ≤ length out.old) }
    ensures { out.new ≡ onto place (lines_from message.now at) out.old }
{
    let mut to = place;
    for places in (Trailers { body: message, at }) {
        to = put_line(message, places, out, to);
    }
}

// Writes the listing of a message to the front of `out`, and answers its length.
pub fn listing_into(message: &[u8], out: &mut [u8]) -> Result<usize, Refusal>
    ensures result_value { written_says result ≡ listing_answer message.now (length out.old) }
    ensures out_after { out.new ≡ listing_buffer message.now out.old }
{
    let start = message_trailers(message)?;
    let sizes = measure(message, start.at);
    let mut text = [0u8; 20];
    let digits = io::decimal(sizes.trailers, &mut text);
    let first = 10 + digits;
    let needed = first + sizes.bytes;
    if out.len() < needed {
        return Err(Refusal::NoRoom(needed));
    }
    put_first(&text[..digits], out);
    put_lines(message, start.at, out, first);
    Ok(needed)
}
