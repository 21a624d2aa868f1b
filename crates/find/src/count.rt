// LFs, counted in runs: a run is short enough for a byte to count its LFs, so that the compiler reads all of it at once.
ghost use Rattle.std.specs.Prelude.{◌≡◌, ◌-◌, ◌≤◌, length, take, drop};
ghost use Rattle.rules.specs.Number.{line_feeds};

// How long a run is.
const RUN: usize = 128;

// How many LFs are in a run.
fn count_run(run: &[u8]) -> u8
    requires { length run.now ≤ 128 }
    ensures { result ≡ line_feeds run.now }
{
    let mut count = 0;
    for byte in run {
        count += u8::from(*byte == b'\n');
    }
    count
}

// How many LFs stand from `start` up to `end`.
pub fn count_lf(s: &[u8], start: usize, end: usize) -> usize
    requires { (start ≤ end) × (end ≤ length s.now) }
    ensures { result ≡ line_feeds (take (end - start) (drop start s.now)) }
{
    let mut left = &s[start..end];
    let mut count = 0;
    while let Some((run, rest)) = left.split_first_chunk::<RUN>() {
        count += usize::from(count_run(run));
        left = rest;
    }
    count + usize::from(count_run(left))
}
