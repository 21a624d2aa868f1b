// Fixed byte strings: compared with a line's front, and without regard to ASCII case.
ghost use Rattle.std.specs.Prelude.{◌≡◌, length};
ghost use Rattle.rules.specs.Bytes.{lower};
ghost use Rattle.rules.specs.Lists.{equal, starts};
ghost use Rattle.rules.specs.Trailer.{same};

use word::word;

// Whether two words have the same bytes. Of a word that is written out, the compiler makes a number.
pub fn same_word(a: &[u8], b: &[u8]) -> bool
    requires { (length a.now ≡ 8) × (length b.now ≡ 8) }
    ensures { result ≡ equal a.now b.now }
{
    word(a) == word(b)
}

// Whether `s` starts with `p`.
pub fn starts_with(s: &[u8], p: &[u8]) -> bool
    ensures { result ≡ starts p.now s.now }
{
    s.starts_with(p)
}

// Whether two byte strings are the same. Where one of them is written out, the compiler compares its bytes in place, with no call.
pub fn equals(a: &[u8], b: &[u8]) -> bool
    ensures { result ≡ equal a.now b.now }
{
    a.len() == b.len() && a.starts_with(b)
}

// An ASCII capital as its small letter, every other byte as it is.
pub fn to_ascii_lowercase(byte: u8) -> u8
    ensures { result ≡ lower byte }
{
    byte.to_ascii_lowercase()
}

// Whether two byte strings are the same, ASCII case aside. Strings of one length are read to their end, so that the compiler
// compares many bytes at once.
pub fn eq_ignore_ascii_case(a: &[u8], b: &[u8]) -> bool
    ensures { result ≡ same a.now b.now }
{
    if a.len() != b.len() {
        return false;
    }
    let mut alike = true;
    for (x, y) in a.iter().zip(b) {
        alike &= to_ascii_lowercase(*x) == to_ascii_lowercase(*y);
    }
    alike
}
