// Summaries: the loops of the original's `summary`, for a message that is trimmed. There is no heap: where the summary stops and whether blanks
// go is found first, then the answer is written to the buffer's front.
#![tactic(auto)]

ghost use Rattle.std.specs.Prelude.{false, not, ◌++◌, ◌≡◌, ◌+◌, ◌≤◌, ◌<◌, ltb, length, take, drop};
ghost use Rattle.copy.specs.Onto.{onto};
ghost use Rattle.rules.specs.Record.{fitted, written_found};
ghost use Rattle.rules.specs.Summary.{added, folded, pieces, spaced, many};
ghost use Rattle.rules.specs.White.{trim};
ghost use Rattle.find.specs.Find.{until_lf};
ghost use Rattle.summary.specs.Followed.{any_followed, followed, until_followed};
ghost use Rattle.summary.specs.Spaces.{space_for_lf, with_spaces};

use copy::copy_at;
use find::find_lf;
use rules::{Part, Refusal, Value};
use white::trim_end;

// ---- bytes that an LF follows

// How many bytes of a run are looked at: an LF may stand after each.
const RUN: usize = 16;

// How many bytes of a block are looked at.
const BLOCK: usize = 96;

// Whether a byte is from `low` to `high`, and the next one an LF.
fn is_followed(byte: u8, next: u8, low: u8, high: u8) -> bool
    ensures { result ≡ followed low high byte next }
{
    (low <= byte) & (byte <= high) & (next == b'\n')
}

// Whether an LF directly follows a byte from `low` to `high`. All bytes are read, so that the compiler reads many at once.
fn has_followed(run: &[u8], low: u8, high: u8) -> bool
    ensures { result ≡ any_followed low high run.now }
{
    let mut found = false;
    for pair in run.windows(2) {
        found |= is_followed(pair[0], pair[1], low, high);
    }
    found
}

// Where the parts of `N` bytes from `at` on end that have no such byte, as far as there are whole ones and a byte more before `end`: an LF may
// stand after the last byte of each. Most messages are short, so a call would take longer than the look.
#[inline(always)]
fn past_parts<const N: usize>(s: &[u8], at: usize, end: usize, low: u8, high: u8) -> usize
    requires some { 0 < N }
    requires in_bounds { (at ≤ end) × (end ≤ length s.now) }
    ensures within { (at ≤ result) × (result ≤ end) }
    ensures same { result + until_followed low high (drop result s.now) ≡ at + until_followed low high (drop at s.now) }
{
    let mut i = at;
    while end - i > N {
        if has_followed(&s[i..i + N + 1], low, high) {
            return i;
        }
        i += N;
    }
    i
}

// Where the runs and blocks from `at` on end that have no such byte. The bytes of the first block are looked at by runs.
fn past_runs(s: &[u8], at: usize, low: u8, high: u8) -> usize
    requires { at ≤ length s.now }
    ensures within { result ≤ length s.now }
    ensures same { result + until_followed low high (drop result s.now) ≡ at + until_followed low high (drop at s.now) }
{
    if s.len() - at <= BLOCK {
        return past_parts::<RUN>(s, at, s.len(), low, high);
    }
    let near = past_parts::<RUN>(s, at, at + BLOCK + 1, low, high);
    if near < at + BLOCK {
        return near;
    }
    let far = past_parts::<BLOCK>(s, near, s.len(), low, high);
    past_parts::<RUN>(s, far, s.len(), low, high)
}

// The place of the first byte from `at` on that is from `low` to `high` and directly followed by an LF; the end where there is none. The byte at
// `at` is looked at first: after the first LF of most messages stands another.
fn find_followed(s: &[u8], at: usize, low: u8, high: u8) -> usize
    requires { at ≤ length s.now }
    ensures { result ≡ at + until_followed low high (drop at s.now) }
{
    if s.len() - at > 1 && is_followed(s[at], s[at + 1], low, high) {
        return at;
    }
    for i in past_runs(s, at, low, high)..s.len().saturating_sub(1) {
        if is_followed(s[i], s[i + 1], low, high) {
            return i;
        }
    }
    s.len()
}

// ---- a text without blanks before its LFs

// Whether no blank stands directly before an LF among the first `kept` bytes of a message: no byte up to the space does. The first LF is at `first`,
// or there is none, and from there on the first such byte is at `blank`.
#[tactic(auto, using(crate::proofs::Plain::blank_first))]
fn is_plain(message: &[u8], kept: usize, first: usize, blank: usize) -> bool
    requires kept_in_bounds { kept ≤ length message.now }
    requires first_value { (first ≡ until_lf message.now) × (blank ≡ first + until_followed 0 32 (drop first message.now)) }
    ensures { result ≡ not (any_followed 0 32 (take kept message.now)) }
{
    if kept <= first {
        return true;
    }
    if first > 0 && message[first - 1] <= b' ' {
        return false;
    }
    kept - 1 <= blank
}

// An LF as a space, every other byte as it is.
fn space_for_lf(byte: u8) -> u8
    ensures { result ≡ space_for_lf byte }
{
    if byte == b'\n' { b' ' } else { byte }
}

// Writes a message to the front of `out`, with a space for each LF.
fn copy_with_spaces(message: &[u8], out: &mut [u8])
    requires { length message.now ≤ length out.old }
    ensures { out.new ≡ with_spaces message.now ++ drop (length message.now) out.old }
{
    for (i, byte) in message.iter().enumerate() {
        out[i] = space_for_lf(*byte);
    }
}

// The pieces of such a text, written to the front of `out` where there is room: a space for each LF, and nothing goes.
fn write_plain(text: &[u8], out: &mut [u8]) -> Result<Value, Refusal>
    requires { any_followed 0 32 text.now ≡ false }
    ensures value { result ≡ written_found (added (pieces text.now)) (length out.old) }
    ensures out_after { out.new ≡ fitted (added (pieces text.now)) out.old }
{
    let needed = text.len();
    if out.len() < needed {
        return Err(Refusal::NoRoom(needed));
    }
    copy_with_spaces(text, out);
    Ok(Value::InBuffer(Part {
        start: 0,
        end: needed,
    }))
}

// ---- any other text, piece by piece

// The length of a text's pieces, folded and added.
fn folded_len(text: &[u8]) -> usize
    ensures { result ≡ length (added (pieces text.now)) }
{
    let mut len = 0;
    let mut at = 0;
    let mut pos = find_lf(text, 0);
    while pos < text.len() {
        len += text[at..pos].trim_ascii_end().len() + 1;
        at = pos + 1;
        pos = find_lf(text, at);
    }
    len + (pos - at)
}

// Writes `piece` folded to `out` from `at` on; gives where that ends.
fn fold_to(piece: &[u8], out: &mut [u8], at: usize) -> usize
    requires { at + length (folded piece.now) ≤ length out.old }
    ensures value { result ≡ at + length (folded piece.now) }
    ensures out_after { out.new ≡ onto at (folded piece.now) out.old }
{
    let kept = piece.trim_ascii_end();
    copy_at(kept, out, at);
    let end = at + kept.len();
    out[end] = b' ';
    end + 1
}

// Writes a text's pieces, folded and added, to the front of `out`; gives their length.
fn fold_into(text: &[u8], out: &mut [u8]) -> usize
    requires { length (added (pieces text.now)) ≤ length out.old }
    ensures value { result ≡ length (added (pieces text.now)) }
    ensures out_after { out.new ≡ added (pieces text.now) ++ drop (length (added (pieces text.now))) out.old }
{
    let mut len = 0;
    let mut at = 0;
    let mut pos = find_lf(text, 0);
    while pos < text.len() {
        len = fold_to(&text[at..pos], out, len);
        at = pos + 1;
        pos = find_lf(text, at);
    }
    copy_at(&text[at..], out, len);
    len + (pos - at)
}

// The pieces of a text, folded and added, written to the front of `out` where there is room. They are never longer than the text, so their
// length is found only where that does not fit.
fn write_folded(text: &[u8], out: &mut [u8]) -> Result<Value, Refusal>
    ensures value { result ≡ written_found (added (pieces text.now)) (length out.old) }
    ensures out_after { out.new ≡ fitted (added (pieces text.now)) out.old }
{
    if out.len() < text.len() {
        let needed = folded_len(text);
        if out.len() < needed {
            return Err(Refusal::NoRoom(needed));
        }
    }
    let end = fold_into(text, out);
    Ok(Value::InBuffer(Part { start: 0, end }))
}

// ---- the summary

// The place of the first LF of a message that is trimmed; its summary is written where there is one.
pub fn first_lf(message: &[u8]) -> usize
    ensures { (result ≡ until_lf message.now) × (ltb result (length message.now) ≡ many (pieces message.now)) }
{
    find_lf(message, 0)
}

// Where an LF directly follows an LF, from `blank` on; the end where none does. At `blank` stands a byte up to the space that an LF follows, most often
// an LF, or there is none.
fn find_stop(message: &[u8], blank: usize) -> usize
    requires { (blank ≤ length message.now) × (until_followed 0 32 (drop blank message.now) ≡ 0) }
    ensures { result ≡ blank + until_followed 10 10 (drop blank message.now) }
{
    if blank < message.len() && message[blank] == b'\n' {
        return blank;
    }
    find_followed(message, blank, b'\n', b'\n')
}

// The summary of a message that is trimmed and has its first LF at `first`: written to the front of `out`, where there is room. What is
// folded ends where an LF directly follows an LF, and is trimmed there. One search says both whether blanks go and where that may be.
pub fn summarise(message: &[u8], first: usize, out: &mut [u8]) -> Result<Value, Refusal>
    requires { (trim message.now ≡ message.now) × (first ≡ until_lf message.now) }
    ensures value { result ≡ written_found (spaced (pieces message.now)) (length out.old) }
    ensures out_after { out.new ≡ fitted (spaced (pieces message.now)) out.old }
{
    let blank = find_followed(message, first, 0, b' ');
    let end = find_stop(message, blank);
    let kept = trim_end(&message[..end]);
    let text = &message[..kept];
    if is_plain(message, kept, first, blank) {
        return write_plain(text, out);
    }
    write_folded(text, out)
}
