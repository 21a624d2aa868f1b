// The bundle, many messages in one file: whether bytes are one, and its messages.
#![tactic(auto)]

ghost use Rattle.std.specs.Prelude.{true, ◌≡◌, ◌+◌, ◌<◌, ◌≤◌, suc, length};
ghost use Rattle.bundle.specs.Answers.{count_answer, counted_says, message_answer, message_says};
ghost use Rattle.bundle.specs.Bundle.{count_of, is_bundle, offset, u32_at};
ghost use Rattle.bundle.specs.declared.BundleError.{BundleError};

use rules::{Part, TooLong, within_limit};

// The most messages of one bundle.
pub const MOST: usize = 4096;

// Why a call on a bundle refuses.
#[derive(Clone, Copy, Debug, PartialEq, Eq)]
pub enum BundleError {
    TooLong,
    NotABundle,
}

impl From<TooLong> for BundleError {
    ghost from_gives = { λ _ e. e ≡ BundleError.TooLong };

    fn from(_over: TooLong) -> BundleError {
        BundleError::TooLong
    }
}

// The u32 at `at`, little endian.
pub fn read_u32(s: &[u8], at: usize) -> usize
    requires { at + 4 ≤ length s.now }
    ensures { result ≡ u32_at s.now at }
{
    u32::from_le_bytes([s[at], s[at + 1], s[at + 2], s[at + 3]]) as usize
}

// Whether bytes are a bundle. The count is judged before it is multiplied, the length before the offsets are read.
#[tactic(auto, unfolding(crate::specs::Bundle::is_bundle))]
pub fn is_bundle(bundle: &[u8]) -> bool
    ensures { result ≡ is_bundle bundle.now }
{
    if bundle.len() < 8 {
        return false;
    }
    let count = read_u32(bundle, 0);
    if count > MOST {
        return false;
    }
    let header = 8 + 4 * count;
    if bundle.len() < header {
        return false;
    }
    let mut at = read_u32(bundle, 4);
    if at != header {
        return false;
    }
    for k in 0..count {
        let next = read_u32(bundle, 8 + 4 * k);
        if next < at {
            return false;
        }
        at = next;
    }
    at == bundle.len()
}

// Where message k of a bundle stands in it.
#[tactic(auto, using(crate::proofs::Judged::part_there, crate::proofs::Judged::offset_behind))]
pub fn message_part(bundle: &[u8], k: usize) -> Part
    requires { (is_bundle bundle.now ≡ true) × (k < count_of bundle.now) }
    ensures start_value { (result.start ≡ offset bundle.now k) × (result.end ≡ offset bundle.now (suc k)) }
    ensures start_le_end { (result.start ≤ result.end) × (result.end ≤ length bundle.now) }
{
    Part {
        start: read_u32(bundle, 4 + 4 * k),
        end: read_u32(bundle, 8 + 4 * k),
    }
}

// The number of messages of a bundle.
pub fn bundle_count(bundle: &[u8]) -> Result<usize, BundleError>
    ensures { counted_says result ≡ count_answer bundle.now }
{
    within_limit(bundle)?;
    if !is_bundle(bundle) {
        return Err(BundleError::NotABundle);
    }
    Ok(read_u32(bundle, 0))
}

// Where message k of a bundle stands in it, counted from 0; none is there from the count on.
pub fn bundle_message(bundle: &[u8], k: usize) -> Result<Option<Part>, BundleError>
    ensures { message_says result ≡ message_answer bundle.now k }
{
    if k >= bundle_count(bundle)? {
        return Ok(None);
    }
    Ok(Some(message_part(bundle, k)))
}
