// Eight bytes as one word: what is asked of each is computed for all of them at once, and its answers are flags.
#![tactic(auto)]

ghost use Rattle.std.specs.Prelude.{◌≡◌, ◌-◌, ◌/◌, ◌<◌, length};
ghost use Rattle.std.specs.Int.Count.{count_leading_zeros, count_trailing_zeros};
ghost use Rattle.word.specs.Word.{Bytes, packed};

// How many bytes a word has.
pub const WORD: usize = 8;

// Eight bytes as a word, the first of them lowest. The compiler reads all of them at once.
pub fn word(run: &[u8]) -> u64
    requires { length run.now ≡ 8 }
    ensures { (result ≡ packed run.now) × Bytes run.now }
{
    let Some(bytes) = run.as_array::<WORD>() else {
        unreachable!()
    };
    u64::from_le_bytes(*bytes)
}

// How many bytes have no flag before the first that has one.
pub fn before_flag(flags: u64) -> usize
    ensures { result ≡ count_trailing_zeros 64 flags / 8 }
{
    (flags.trailing_zeros() / 8) as usize
}

// The place after the last byte that has a flag; 0 where none has one.
pub fn behind_flag(flags: u64) -> usize
    ensures { result ≡ 8 - count_leading_zeros 64 flags / 8 }
{
    8 - (flags.leading_zeros() / 8) as usize
}
