// A trailer's value: the original's `unfold_value`, with its length found before it is written, and the value's place.
#![tactic(auto)]

ghost use Rattle.std.specs.Iterator.{at_most};
ghost use Rattle.std.specs.Prelude.{MatchOption, [], ◌∷◌, ◌++◌, ◌≡◌, ◌+◌, ◌-◌, ◌≤◌, ◌<◌, ◌^◌, ltb, length, take, drop};
ghost use Rattle.rules.specs.Record.{fitted, written_found, written_of};
ghost use Rattle.rules.specs.Trailer.{by_spaces, unfolded, value_is_written};
ghost use Rattle.rules.specs.White.{trim};
ghost use Rattle.value.specs.Joined.{joined_length};
ghost use Rattle.value.specs.Value.{NextLine, value_found};

use copy::copy_at;
use rules::{Part, Refusal, Value};
use text::line::{has_more_lines, line_len};
use white::trim_value;

// Whether a raw value has more than one line, so that its unfolded value is written.
fn is_folded(value: &[u8]) -> bool
    ensures { result ≡ value_is_written value.now }
{
    has_more_lines(value)
}

// A line without the white space at its ends.
fn trim_line<'a>(line: &'a [u8]) -> &'a [u8]
    ensures { result.now ≡ trim line.now }
{
    let kept = trim_value(line);
    &line[kept.start..kept.end]
}

// The lines of a raw value, each without the white space at its ends: those of what is left.
#[derive(Drop)]
struct TrimmedLines<'a> {
    rest: &'a [u8],
}

impl<'a> Iterator for TrimmedLines<'a> {
    type Item = &'a [u8];

    ghost next_gives = { λ before line after. MatchOption line (before.rest.now ≡ []) (λ l. NextLine before.rest.now l.now after.rest.now) };

    ghost remaining = { λ lines. at_most (length lines.rest.now) };

    fn next(&mut self) -> Option<&'a [u8]> {
        if self.rest.is_empty() {
            return None;
        }
        let (line, below) = self.rest.split_at(line_len(self.rest));
        self.rest = below;
        Some(trim_line(line))
    }
}

// The length of two pieces joined by one space, an empty one dropped.
fn joined_len(len: usize, more: usize) -> usize
    requires { joined_length len more < 2 ^ 64 }
    ensures { result ≡ joined_length len more }
{
    if more == 0 {
        return len;
    }
    if len == 0 {
        return more;
    }
    len + 1 + more
}

// The length of the unfolded value.
pub fn unfolded_len(value: &[u8]) -> usize
    ensures { result ≡ length (unfolded value.now) }
{
    let mut len = 0;
    for line in (TrimmedLines { rest: value }) {
        len = joined_len(len, line.len());
    }
    len
}

// How many bytes are written of a raw value.
pub fn written_len(value: &[u8]) -> usize
    ensures { result ≡ length (written_of value.now) }
{
    if is_folded(value) {
        return unfolded_len(value);
    }
    0
}

// Joins `line` by one space to the first `len` bytes of `out`, where neither is empty, and answers the length.
fn push_line(line: &[u8], out: &mut [u8], len: usize) -> usize
    requires len_in_bounds { len ≤ length out.old }
    requires line_in_bounds { joined_length len (length line.now) ≤ length out.old }
    ensures value { result ≡ joined_length len (length line.now) }
    ensures out_after { out.new ≡ by_spaces (take len out.old ∷ line.now ∷ []) ++ drop result out.old }
{
    let end = joined_len(len, line.len());
    if line.is_empty() {
        return end;
    }
    if len == 0 {
        copy_at(line, out, 0);
        return end;
    }
    out[len] = b' ';
    copy_at(line, out, len + 1);
    end
}

// Writes the unfolded value to the front of `out`, keeps every byte after it, and answers its length.
pub fn unfold_into(value: &[u8], out: &mut [u8]) -> usize
    requires { length (unfolded value.now) ≤ length out.old }
    ensures value { result ≡ length (unfolded value.now) }
    ensures out_after { out.new ≡ unfolded value.now ++ drop (length (unfolded value.now)) out.old }
{
    let mut len = 0;
    for line in (TrimmedLines { rest: value }) {
        len = push_line(line, out, len);
    }
    len
}

// The unfolded value, written to the front of `out`, where it fits.
fn unfold_fitting(value: &[u8], out: &mut [u8]) -> Result<Value, Refusal>
    requires { length (unfolded value.now) ≤ length out.old }
    ensures value { result ≡ written_found (unfolded value.now) (length out.old) }
    ensures out_after { out.new ≡ fitted (unfolded value.now) out.old }
{
    let end = unfold_into(value, out);
    Ok(Value::InBuffer(Part { start: 0, end }))
}

// The unfolded value of a raw value that has several lines: written to the front of `out`, where there is room. It is never longer
// than the raw value, so its length is found only where that does not fit.
fn unfold_value(value: &[u8], out: &mut [u8]) -> Result<Value, Refusal>
    ensures value { result ≡ written_found (unfolded value.now) (length out.old) }
    ensures out_after { out.new ≡ fitted (unfolded value.now) out.old }
{
    if value.len() <= out.len() {
        return unfold_fitting(value, out);
    }
    let needed = unfolded_len(value);
    if out.len() < needed {
        return Err(Refusal::NoRoom(needed));
    }
    unfold_fitting(value, out)
}

// The value of the raw value from `from` up to `to`, whose first line ends at `first`: a part of the body, or, unfolded, the front of
// `out`.
pub fn read_value(
    body: &[u8],
    from: usize,
    first: usize,
    to: usize,
    out: &mut [u8],
) -> Result<Value, Refusal>
    requires from_le_to { (from ≤ to) × (to ≤ length body.now) }
    requires body_value { value_is_written (take (to - from) (drop from body.now)) ≡ ltb first to }
    ensures value { result ≡ value_found from (take (to - from) (drop from body.now)) (length out.old) }
    ensures out_after { out.new ≡ fitted (written_of (take (to - from) (drop from body.now))) out.old }
{
    let raw = &body[from..to];
    if first < to {
        return unfold_value(raw, out);
    }
    let part = trim_value(raw);
    Ok(Value::InInput(Part {
        start: from + part.start,
        end: from + part.end,
    }))
}
