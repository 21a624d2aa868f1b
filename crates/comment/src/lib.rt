// White space and comments, and the text in quotes and comments: how far they reach from a place in a value. Above all the comment
// reader, which calls itself for an inner comment with the allowed depth falling.
#![tactic(auto)]

ghost use Rattle.std.specs.Prelude.{Bool, ◌≡◌, ℕ, ◌+◌, ◌<◌, ◌≤◌, length, drop, IfSome};
ghost use Rattle.mailbox.specs.Grammar.{comment_text, quote_text, takes, white_byte};
ghost use Rattle.comment.specs.Ends.{CommentEnd, Computes, GapEnd, GapStep, TextEnd, width};

use mailbox::MailboxError;

// Eight deep at most: how many comments may be opened in one that stands in none.
const IN_COMMENT: usize = 7;

// White space is space and tab.
#[tactic(auto, unfolding(mailbox::specs::Grammar::white_byte))]
fn is_white(c: u8) -> bool
    ensures { result ≡ white_byte c }
{
    (c == b' ') | (c == b'\t')
}

// Whether a backslash takes the byte.
#[tactic(auto, unfolding(mailbox::specs::Grammar::takes))]
fn is_taken(c: u8) -> bool
    ensures { result ≡ takes c }
{
    (c == b'\t') | (b' '..=b'~').contains(&c) | !c.is_ascii()
}

#[tactic(auto, unfolding(mailbox::specs::Grammar::comment_text))]
pub fn is_comment_text(c: u8) -> bool
    ensures { result ≡ comment_text c }
{
    (b'!'..=b'\'').contains(&c)
        | (b'*'..=b'[').contains(&c)
        | (b']'..=b'~').contains(&c)
        | !c.is_ascii()
        | is_white(c)
}

#[tactic(auto, unfolding(mailbox::specs::Grammar::quote_text))]
pub fn is_quote_text(c: u8) -> bool
    ensures { result ≡ quote_text c }
{
    (c == b'!')
        | (b'#'..=b'[').contains(&c)
        | (b']'..=b'~').contains(&c)
        | !c.is_ascii()
        | is_white(c)
}

// How many bytes at `at` are text: 1, or 2 with a backslash, or none; nothing where a backslash takes nothing.
fn text_width<F: Fn(u8) -> bool>(s: &[u8], at: usize, is_text: &F) -> Option<usize>
    requires callable { F.IsAlwaysCallable is_text.now }
    requires inside { at < length s.now }
    ensures value { (p : ℕ → Bool) → Computes (F.post is_text.now) p → result ≡ width p (drop at s.now) }
    ensures within { IfSome result (λ n. at + n ≤ length s.now) }
{
    if is_text(s[at]) {
        return Some(1);
    }
    if s[at] != b'\\' {
        return Some(0);
    }
    if at + 1 == s.len() {
        return None;
    }
    if is_taken(s[at + 1]) {
        return Some(2);
    }
    None
}

// Over the text in quotes or in a comment, up to a byte that is none, or the value's end; `is_text` says which bytes are text there.
pub fn text_end<F: Fn(u8) -> bool>(s: &[u8], at: usize, is_text: F) -> Result<usize, MailboxError>
    requires callable { F.IsAlwaysCallable is_text }
    requires inside { at ≤ length s.now }
    ensures { (p : ℕ → Bool) → Computes (F.post is_text) p → TextEnd p s.now at result }
{
    let mut i = at;
    while i < s.len() {
        let Some(w) = text_width(s, i, &is_text) else {
            return Err(MailboxError::NotAMailbox { at: i + 1 });
        };
        if w == 0 {
            return Ok(i);
        }
        i += w;
    }
    Ok(i)
}

// From after the bracket that opens a comment to after the one that closes it; `allowed` more may be opened inside.
fn comment_end(s: &[u8], at: usize, allowed: usize) -> Result<usize, MailboxError>
    requires { (allowed ≤ 8) × (at ≤ length s.now) }
    ensures { CommentEnd s.now at allowed result }
{
    let mut i = at;
    while i < s.len() {
        let p = text_end(s, i, is_comment_text)?;
        if p == s.len() {
            return Err(MailboxError::NotAMailbox { at: p });
        }
        if s[p] == b')' {
            return Ok(p + 1);
        }
        if s[p] != b'(' {
            return Err(MailboxError::NotAMailbox { at: p });
        }
        if allowed == 0 {
            return Err(MailboxError::NinthComment { at: p });
        }
        i = comment_end(s, p + 1, allowed - 1)?;
    }
    Err(MailboxError::NotAMailbox { at: i })
}

// Over a byte of white space or a comment; the same place where there is neither.
fn gap_step(s: &[u8], at: usize) -> Result<usize, MailboxError>
    requires { at < length s.now }
    ensures { GapStep s.now at result }
{
    if s[at] == b'(' {
        return comment_end(s, at + 1, IN_COMMENT);
    }
    if is_white(s[at]) {
        return Ok(at + 1);
    }
    Ok(at)
}

// Over white space and comments, up to a byte that is neither, or the value's end.
pub fn gap_end(s: &[u8], at: usize) -> Result<usize, MailboxError>
    requires { at ≤ length s.now }
    ensures { GapEnd s.now at result }
{
    let mut i = at;
    while i < s.len() {
        let next = gap_step(s, i)?;
        if next == i {
            return Ok(i);
        }
        i = next;
    }
    Ok(i)
}
