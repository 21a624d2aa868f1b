// The pieces of a mailbox: how far a word and a dot-atom reach from a place in a value.
#![tactic(auto)]

ghost use Rattle.std.specs.Prelude.{◌≡◌, ◌<◌, ◌≤◌, eqb, length};
ghost use Rattle.std.specs.List.{prefix_len};
ghost use Rattle.rules.specs.Bytes.{bytes};
ghost use Rattle.rules.specs.Lists.{any};
ghost use Rattle.mailbox.specs.Grammar.{atext};
ghost use Rattle.pieces.specs.Ends.{DotEnd, QuoteEnd, WordEnd, atom_end};

use comment::{is_quote_text, text_end};
use mailbox::MailboxError;

// The signs of RFC 5322's atext.
fn is_sign(c: u8) -> bool
    ensures { result ≡ any (eqb c) (bytes "!#$%&'*+-/=?^_`{|}~") }
{
    b"!#$%&'*+-/=?^_`{|}~".contains(&c)
}

// RFC 5322, atext, and the bytes from 128 up.
#[tactic(auto, unfolding(mailbox::specs::Grammar::atext))]
fn is_atext(c: u8) -> bool
    ensures { result ≡ atext c }
{
    c.is_ascii_alphanumeric() || is_sign(c) || !c.is_ascii()
}

// How many bytes from the front are those of an atom.
fn run_length(bytes: &[u8]) -> usize
    ensures value { result ≡ prefix_len atext bytes.now }
    ensures within { result ≤ length bytes.now }
{
    bytes.iter().take_while(|c| is_atext(**c)).count()
}

// Over the bytes of an atom.
fn run_end(s: &[u8], at: usize) -> usize
    requires { at ≤ length s.now }
    ensures { result ≡ atom_end s.now at }
{
    at + run_length(&s[at..])
}

// Over a dot-atom: atoms with a dot between each two.
pub fn dot_atom_end(s: &[u8], at: usize) -> Result<usize, MailboxError>
    requires { at ≤ length s.now }
    ensures { DotEnd s.now at result }
{
    let mut i = at;
    while i < s.len() {
        if !is_atext(s[i]) {
            return Err(MailboxError::NotAMailbox { at: i });
        }
        let j = run_end(s, i + 1);
        if j == s.len() {
            return Ok(j);
        }
        if s[j] != b'.' {
            return Ok(j);
        }
        i = j + 1;
    }
    Err(MailboxError::NotAMailbox { at: i })
}

// Over the quoted string that the quote at `at` opens.
fn quote_end(s: &[u8], at: usize) -> Result<usize, MailboxError>
    requires { at < length s.now }
    ensures { QuoteEnd s.now at result }
{
    let p = text_end(s, at + 1, is_quote_text)?;
    if p == s.len() {
        return Err(MailboxError::NotAMailbox { at: s.len() });
    }
    if s[p] != b'"' {
        return Err(MailboxError::NotAMailbox { at: p });
    }
    Ok(p + 1)
}

// Over a word, an atom or a quoted string; the same place where there is none.
pub fn word_end(s: &[u8], at: usize) -> Result<usize, MailboxError>
    requires { at < length s.now }
    ensures { WordEnd s.now at result }
{
    if s[at] == b'"' {
        return quote_end(s, at);
    }
    Ok(run_end(s, at))
}
