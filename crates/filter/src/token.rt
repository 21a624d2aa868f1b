// The six attribution tokens, ASCII case aside. Each has eight to sixteen bytes, and is known by its first eight and its last eight. Of those that are
// written out here the compiler makes numbers.
ghost use Rattle.std.specs.Prelude.{List, ◌≡◌, ℕ, ◌-◌, ◌≤◌, length, take, drop};
ghost use Rattle.rules.specs.Bytes.{lower};
ghost use Rattle.rules.specs.Trailer.{acked_by, assisted_by, co_authored_by, reviewed_by, same, signed_off_by, tested_by};
ghost use Rattle.word.specs.Word.{Bytes, each, packed};

use word::word;

// How many bytes a word has.
const WORD: usize = 8;

// A word with its ASCII capitals as small letters. Each byte, without its highest bit, carries into it in two sums: in one from `A` on, in the
// other from the byte after `Z` on. For a capital only one of them carries, and a small letter has a quarter of that bit more.
fn lowered(word: u64) -> u64
    ensures { (s : List ℕ) → length s ≡ 8 → Bytes s → word ≡ packed s → result ≡ each lower s }
{
    let low = word & 0x7f7f_7f7f_7f7f_7f7f;
    let capital = (low + 0x3f3f_3f3f_3f3f_3f3f) ^ (low + 0x2525_2525_2525_2525);
    let flags = capital & (word ^ 0x8080_8080_8080_8080) & 0x8080_8080_8080_8080;
    word | (flags >> 2)
}

// Whether a token is that of `len` bytes which has these first and last eight.
fn is_token(token: &[u8], len: usize, first: u64, last: u64) -> bool
    requires { (8 ≤ len) × (len ≤ 16) }
    ensures { (name : List ℕ) → length name ≡ len → (first ≡ packed (take 8 name)) × Bytes (take 8 name) → (last ≡ packed (drop (len - 8) name)) × Bytes (drop (len - 8) name) → result ≡ same token.now name }
{
    if token.len() != len {
        return false;
    }
    (lowered(word(&token[..WORD])) == lowered(first))
        & (lowered(word(&token[len - WORD..])) == lowered(last))
}

pub fn is_signed_off_by(token: &[u8]) -> bool
    ensures { result ≡ same token.now signed_off_by }
{
    is_token(token, 13, word(b"Signed-o"), word(b"d-off-by"))
}

pub fn is_co_authored_by(token: &[u8]) -> bool
    ensures { result ≡ same token.now co_authored_by }
{
    is_token(token, 14, word(b"Co-autho"), word(b"hored-by"))
}

pub fn is_assisted_by(token: &[u8]) -> bool
    ensures { result ≡ same token.now assisted_by }
{
    is_token(token, 11, word(b"Assisted"), word(b"isted-by"))
}

pub fn is_acked_by(token: &[u8]) -> bool
    ensures { result ≡ same token.now acked_by }
{
    is_token(token, 8, word(b"Acked-by"), word(b"Acked-by"))
}

pub fn is_reviewed_by(token: &[u8]) -> bool
    ensures { result ≡ same token.now reviewed_by }
{
    is_token(token, 11, word(b"Reviewed"), word(b"iewed-by"))
}

pub fn is_tested_by(token: &[u8]) -> bool
    ensures { result ≡ same token.now tested_by }
{
    is_token(token, 9, word(b"Tested-b"), word(b"ested-by"))
}
