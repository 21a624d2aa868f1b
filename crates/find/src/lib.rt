// The search for an LF, forward and backward. An LF among the next two bytes is found at once. Then whole runs without one are passed over: a
// run is read to its end, LF or not, so that the compiler reads all of it at once. Where the first 256 bytes have none, the blocks of 256 after
// them that have none are passed over in the same way, and the runs go on from there. The run's two words show where in it the LF stands. Less than
// a run is left at the end: the last 16 bytes are read as one run once more, which shows whether an LF is left.
#![tactic(auto)]

pub mod count;

ghost use Rattle.std.specs.Prelude.{true, not, List, ◌≡◌, ℕ, ◌+◌, ◌-◌, ◌≤◌, ◌<◌, length, take, drop};
ghost use Rattle.rules.specs.Lists.{any};
ghost use Rattle.word.specs.Word.{Bytes, each, flag, packed};
ghost use Rattle.find.specs.Find.{behind_lf, is_lf, other, until_lf};

use word::{WORD, before_flag, behind_flag, word};

// How long a run is.
const RUN: usize = 16;

// How many bytes a block has.
const BLOCK: usize = 256;

// Whether an LF is in a run, or in a block.
fn has_lf(run: &[u8]) -> bool
    ensures { result ≡ any is_lf run.now }
{
    let mut found = false;
    for byte in run {
        found |= *byte == b'\n';
    }
    found
}

// How many bytes of a short part stand before its first LF.
fn until_lf(part: &[u8]) -> usize
    ensures { result ≡ until_lf part.now }
{
    part.iter()
        .position(|byte| *byte == b'\n')
        .unwrap_or(part.len())
}

// The flags of a word's LFs. A byte less LF is 0 for an LF alone, and only then has no bit set: neither its highest, nor the one that its
// other bits carry into where 0x7f is added.
fn lf_flags(word: u64) -> u64
    ensures { (s : List ℕ) → length s ≡ 8 → Bytes s → word ≡ packed s → result ≡ each (flag other) s }
{
    let differs = word ^ 0x0a0a_0a0a_0a0a_0a0a;
    let carried = (differs & 0x7f7f_7f7f_7f7f_7f7f) + 0x7f7f_7f7f_7f7f_7f7f;
    ((carried | differs) & 0x8080_8080_8080_8080) ^ 0x8080_8080_8080_8080
}

// How many of a word's bytes stand before its first LF.
fn until_lf_of_word(run: &[u8]) -> usize
    requires { length run.now ≡ 8 }
    ensures { result ≡ until_lf run.now }
{
    before_flag(lf_flags(word(run)))
}

// How many bytes of a part that is at most two words long stand before its first LF. The last eight bytes are read as its second word.
fn until_lf_of_part(part: &[u8]) -> usize
    requires { length part.now ≤ 16 }
    ensures { result ≡ until_lf part.now }
{
    let len = part.len();
    if len < WORD {
        return until_lf(part);
    }
    let first = until_lf_of_word(&part[..WORD]);
    if first < WORD {
        return first;
    }
    len - WORD + until_lf_of_word(&part[len - WORD..])
}

// Where the blocks without an LF at the front end: an LF is in the next one, or no whole block is left.
fn past_blocks(s: &[u8]) -> usize
    ensures stops_at_lf { result + 256 ≤ length s.now → any is_lf (take 256 (drop result s.now)) ≡ true }
    ensures passes_no_lf { (result ≤ length s.now) × (result + until_lf (drop result s.now) ≡ until_lf s.now) }
{
    let mut end = 0;
    for block in s.chunks_exact(BLOCK) {
        if has_lf(block) {
            return end;
        }
        end += BLOCK;
    }
    end
}

// The place of the first LF from `at` on; the end where there is none.
pub fn find_lf(s: &[u8], at: usize) -> usize
    requires { at ≤ length s.now }
    ensures { result ≡ at + until_lf (drop at s.now) }
{
    let len = s.len();
    if len - at > 1 {
        if s[at] == b'\n' {
            return at;
        }
        if s[at + 1] == b'\n' {
            return at + 1;
        }
    }
    let mut i = at;
    while len - i >= RUN {
        if has_lf(&s[i..i + RUN]) {
            return i + until_lf_of_part(&s[i..i + RUN]);
        }
        i += RUN;
        if i - at == BLOCK {
            i += past_blocks(&s[i..]);
        }
    }
    if len - at >= RUN {
        if !has_lf(&s[len - RUN..]) {
            return len;
        }
    }
    i + until_lf_of_part(&s[i..])
}

// Whether there is an LF.
pub fn holds_lf(s: &[u8]) -> bool
    ensures { result ≡ any is_lf s.now }
{
    find_lf(s, 0) < s.len()
}

// Where the blocks without an LF at the end start: an LF is in the one before, or no whole block is left.
fn before_blocks(s: &[u8]) -> usize
    ensures stops_at_lf { 256 ≤ result → any is_lf (take 256 (drop (result - 256) s.now)) ≡ true }
    ensures passes_no_lf { (result ≤ length s.now) × (behind_lf s.now result ≡ behind_lf s.now (length s.now)) }
{
    let mut start = s.len();
    for block in s.rchunks_exact(BLOCK) {
        if has_lf(block) {
            return start;
        }
        start -= BLOCK;
    }
    start
}

// Where the runs without an LF that end at `end` and before each other start: an LF is in the run there, or no whole run is left.
fn before_runs(s: &[u8], end: usize) -> usize
    requires { end ≤ length s.now }
    ensures stops_at_lf { 16 ≤ result → any is_lf (take 16 (drop (result - 16) s.now)) ≡ true }
    ensures passes_no_lf { (result ≤ end) × (behind_lf s.now result ≡ behind_lf s.now end) }
{
    let mut i = end;
    while i >= RUN {
        if has_lf(&s[i - RUN..i]) {
            return i;
        }
        i -= RUN;
        if end - i == BLOCK {
            i = before_blocks(&s[..i]);
        }
    }
    i
}

// The place after the last LF of a word; 0 where it has none.
fn behind_lf_of_word(run: &[u8]) -> usize
    requires { length run.now ≡ 8 }
    ensures { result ≡ behind_lf run.now 8 }
{
    behind_flag(lf_flags(word(run)))
}

// The place after the last LF of a run; 0 where it has none.
fn behind_lf_of_run(run: &[u8]) -> usize
    requires { length run.now ≡ 16 }
    ensures { result ≡ behind_lf run.now 16 }
{
    let second = behind_lf_of_word(&run[WORD..]);
    if second > 0 {
        return WORD + second;
    }
    behind_lf_of_word(&run[..WORD])
}

// The place after the last LF before `end`, byte by byte.
fn behind_lf_near(s: &[u8], end: usize) -> usize
    requires { end ≤ length s.now }
    ensures { result ≡ behind_lf s.now end }
{
    for i in (0..end).rev() {
        if s[i] == b'\n' {
            return i + 1;
        }
    }
    0
}

// The place after the last LF before `end`, by runs.
fn behind_lf_far(s: &[u8], end: usize) -> usize
    requires { end ≤ length s.now }
    ensures { result ≡ behind_lf s.now end }
{
    let i = before_runs(s, end);
    if i >= RUN {
        return i - RUN + behind_lf_of_run(&s[i - RUN..i]);
    }
    behind_lf_near(s, i)
}

// The place after the last LF before `end`; 0 where there is none.
pub fn behind_lf(s: &[u8], end: usize) -> usize
    requires { end ≤ length s.now }
    ensures { result ≡ behind_lf s.now end }
{
    if end > 1 {
        if s[end - 1] == b'\n' {
            return end;
        }
        if s[end - 2] == b'\n' {
            return end - 1;
        }
    }
    behind_lf_far(s, end)
}
