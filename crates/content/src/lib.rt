// The good contents of the three fields.
#![tactic(auto)]

ghost use Rattle.std.specs.Prelude.{true, ◌≡◌, ◌≤◌, length};
ghost use Rattle.rules.specs.Bytes.{bytes};
ghost use Rattle.rules.specs.Lists.{all, equal};
ghost use Rattle.closing.specs.Contents.{digit, number_of, good_vehicle, good_records, good_state, good};

use closing::Field;

// The highest count that a note may state.
const MOST_RECORDS: usize = 1_000_000;

// Whether all bytes are digits.
fn all_digits(v: &[u8]) -> bool
    ensures { result ≡ all digit v.now }
{
    v.iter().all(|byte| byte.is_ascii_digit())
}

// The number that at most 7 digits write.
pub fn number_of(v: &[u8]) -> usize
    requires few { length v.now ≤ 7 }
    requires digits { all digit v.now ≡ true }
    ensures { result ≡ number_of v.now }
{
    let mut number = 0;
    for byte in v {
        number = number * 10 + (*byte - b'0') as usize;
    }
    number
}

// A vehicle: 1 to 6 digits.
#[tactic(auto, using(crate::proofs::Tests::vehicle_tests))]
fn is_vehicle(v: &[u8]) -> bool
    ensures { result ≡ good_vehicle v.now }
{
    match v.len() {
        1..=6 => all_digits(v),
        _ => false,
    }
}

// A count: a decimal up to 1,000,000 without needless zeros. Its length is judged first: a long value is not read, and the number of a
// short one does not overflow.
#[tactic(auto, using(crate::proofs::Tests::records_tests))]
fn is_records(v: &[u8]) -> bool
    ensures { result ≡ good_records v.now }
{
    match v.len() {
        1 => all_digits(v),
        2..=7 => all_digits(v) && v[0] != b'0' && number_of(v) <= MOST_RECORDS,
        _ => false,
    }
}

// Whether the state is complete.
#[tactic(auto, using(crate::proofs::Std::bytes_equal))]
pub fn is_complete(v: &[u8]) -> bool
    ensures { result ≡ equal v.now (bytes "complete") }
{
    v == b"complete".as_slice()
}

// A state: `complete` or `partial`.
#[tactic(auto, using(crate::proofs::Std::bytes_equal), unfolding(closing::specs::Contents::good_state))]
fn is_state(v: &[u8]) -> bool
    ensures { result ≡ good_state v.now }
{
    is_complete(v) || v == b"partial".as_slice()
}

// Whether a content is good for the field.
pub fn is_good(field: Field, v: &[u8]) -> bool
    ensures { result ≡ good field v.now }
{
    match field {
        Field::Vehicle => is_vehicle(v),
        Field::Records => is_records(v),
        Field::OffloadState => is_state(v),
    }
}
