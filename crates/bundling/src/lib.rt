// Writing a bundle of messages that are lent as ranges of one input.
#![tactic(auto)]

ghost use Rattle.std.specs.Prelude.{true, None, Some, map, ◌≡◌, ◌+◌, ◌*◌, ◌<◌, ◌≤◌, ◌^◌, List, ℕ, length, if◌then◌else◌};
ghost use Rattle.rules.specs.Answers.{limit};
ghost use Rattle.rules.specs.Lists.{join};
ghost use Rattle.copy.specs.Onto.{onto};
ghost use Rattle.bundle.specs.Bundle.{bundle_of, ends, header_length, u32_top, u32le};
ghost use Rattle.bundling.specs.Answers.{write_answer, write_buffer, written_says};
ghost use Rattle.bundling.specs.Pairs.{all_fit, parts_of};
ghost use Rattle.bundling.specs.Writing.{lent, ranges_fit};
ghost use Rattle.bundling.specs.declared.BundlingError.{BundlingError};

use bundle::MOST;
use copy::copy_at;
use rules::{LIMIT, TooLong, within_limit};
use std::marker::Model;

// Why `write_bundle` wrote nothing; `NoRoom` has the exact length needed.
#[derive(Clone, Copy, Debug, PartialEq, Eq)]
pub enum BundlingError {
    TooLong,
    BadPlace,
    NotABundle,
    NoRoom(usize),
}

impl From<TooLong> for BundlingError {
    ghost from_gives = { λ _ e. e ≡ BundlingError.TooLong };

    fn from(_over: TooLong) -> BundlingError {
        BundlingError::TooLong
    }
}

// The messages to write: the parts of an input from a start up to an end each, all of which fit.
#[derive(Drop)]
struct Lent<'a> {
    input: &'a [u8],
    ranges: &'a [[usize; 2]],
}

impl<'a> Model for Lent<'a> {
    ghost Value = { List (List ℕ) };

    ghost view = { λ m. parts_of m.input.now m.ranges.now };

    ghost invariant = { λ m. all_fit m.input.now m.ranges.now ≡ true };
}

impl<'a> Lent<'a> {
    // The messages that the ranges lend, start and end in turn, where all of them fit.
    fn of(input: &'a [u8], ranges: &'a [usize]) -> Option<Lent<'a>>
        ensures { result ≡ (if ranges_fit input.now ranges.now then Some (lent input.now ranges.now) else None) }
    {
        let (ranges, rest) = ranges.as_chunks::<2>();
        if rest.is_empty() && all_fit(input, ranges) {
            Some(Lent { input, ranges })
        } else {
            None
        }
    }

    // How many they are.
    fn count(&self) -> usize
        ensures { result ≡ length self.now }
    {
        self.ranges.len()
    }

    // How long they are together.
    fn len(&self) -> usize
        requires { length (join self.now) < 2 ^ 64 }
        ensures { result ≡ length (join self.now) }
    {
        let mut len = 0;
        for [start, end] in self.ranges {
            len += end - start;
        }
        len
    }

    // Writes where each of them ends, as u32s from place 8 on; the first one starts at `header`.
    fn put_ends(&self, header: usize, out: &mut [u8])
        requires { (8 + 4 * length self.now ≤ length out.old) × (header + length (join self.now) < u32_top) }
        ensures { out.new ≡ onto 8 (join (map u32le (ends header self.now))) out.old }
    {
        let mut ends_at = header;
        let mut place = 8;
        for [start, end] in self.ranges {
            ends_at += end - start;
            put_u32(ends_at, out, place);
            place += 4;
        }
    }

    // Writes them, one after another from `header` on.
    fn put_messages(&self, header: usize, out: &mut [u8])
        requires { header + length (join self.now) ≤ length out.old }
        ensures { out.new ≡ onto header (join self.now) out.old }
    {
        let mut at = header;
        for [start, end] in self.ranges {
            copy_at(&self.input[*start..*end], out, at);
            at += end - start;
        }
    }

    // Writes their bundle, where there is room for it.
    #[tactic(auto, using(bundle::proofs::Bundle::length_bundle))]
    fn put_bundle(&self, out: &mut [u8])
        requires { (length (bundle_of self.now) ≤ limit) × (length (bundle_of self.now) ≤ length out.old) }
        ensures { out.new ≡ onto 0 (bundle_of self.now) out.old }
    {
        let header = header_len(self.count());
        put_u32(self.count(), out, 0);
        put_u32(header, out, 4);
        self.put_ends(header, out);
        self.put_messages(header, out);
    }
}

// Whether every range fits.
fn all_fit(input: &[u8], ranges: &[[usize; 2]]) -> bool
    ensures { result ≡ all_fit input.now ranges.now }
{
    ranges
        .iter()
        .all(|[start, end]| start <= end && *end <= input.len())
}

// How long the count and the offsets of a bundle are.
fn header_len(count: usize) -> usize
    requires { header_length count < 2 ^ 64 }
    ensures { result ≡ header_length count }
{
    8 + 4 * count
}

// Writes a number as a u32, little endian.
fn put_u32(n: usize, out: &mut [u8], at: usize)
    requires { (n < u32_top) × (at + 4 ≤ length out.old) }
    ensures { out.new ≡ onto at (u32le n) out.old }
{
    copy_at(&(n as u32).to_le_bytes(), out, at);
}

// Writes the bundle of the messages that the ranges lend, start and end in turn, to the front of `out`, and answers its length.
#[tactic(auto, using(bundle::proofs::Bundle::length_bundle))]
pub fn write_bundle(input: &[u8], ranges: &[usize], out: &mut [u8]) -> Result<usize, BundlingError>
    ensures result_value { written_says result ≡ write_answer input.now ranges.now (length out.old) }
    ensures out_after { out.new ≡ write_buffer input.now ranges.now out.old }
{
    within_limit(input)?;
    let messages = Lent::of(input, ranges).ok_or(BundlingError::BadPlace)?;
    if messages.count() > MOST {
        return Err(BundlingError::NotABundle);
    }
    let header = header_len(messages.count());
    let needed = header + messages.len();
    if needed > LIMIT {
        return Err(BundlingError::TooLong);
    }
    if out.len() < needed {
        return Err(BundlingError::NoRoom(needed));
    }
    messages.put_bundle(out);
    Ok(needed)
}
