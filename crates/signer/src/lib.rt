// Who signed: the name and the address of a mailbox.
#![tactic(auto)]

ghost use Rattle.std.specs.Prelude.{◌≡◌, ◌≤◌, length};
ghost use Rattle.mailbox.specs.Answers.{answer_says, mailbox_answer, mailbox_says};
ghost use Rattle.mailbox.specs.Reader.{mailbox as answer_of};
ghost use Rattle.signer.specs.Ends.{HalfEnd, NamesEnd};

use comment::gap_end;
use mailbox::{Mailbox, MailboxError};
use pieces::{dot_atom_end, word_end};
use rules::{Part, within_limit};

// What has been read up to `at`: the words, or a dot-atom, stand in `part`.
#[derive(Clone, Copy)]
struct Passed {
    at: usize,
    part: Part,
}

// From the front up to after the `<`.
fn names_end(s: &[u8]) -> Result<Passed, MailboxError>
    ensures { NamesEnd s.now result }
{
    let start = gap_end(s, 0)?;
    let mut i = start;
    let mut end = start;
    while i < s.len() {
        let w = word_end(s, i)?;
        if w == i {
            if s[i] != b'<' {
                return Err(MailboxError::NotAMailbox { at: i });
            }
            return Ok(Passed {
                at: i + 1,
                part: Part { start, end },
            });
        }
        i = gap_end(s, w)?;
        end = w;
    }
    Err(MailboxError::NotAMailbox { at: i })
}

// From after the `<` or the `@` up to after the sign that follows the dot-atom.
fn half_end(s: &[u8], at: usize, sign: u8) -> Result<Passed, MailboxError>
    requires { at ≤ length s.now }
    ensures { HalfEnd s.now at sign result }
{
    let start = gap_end(s, at)?;
    let end = dot_atom_end(s, start)?;
    let p = gap_end(s, end)?;
    if p == s.len() {
        return Err(MailboxError::NotAMailbox { at: p });
    }
    if s[p] != sign {
        return Err(MailboxError::NotAMailbox { at: p });
    }
    Ok(Passed {
        at: p + 1,
        part: Part { start, end },
    })
}

// The name and the address of a value that is not too long.
fn read_mailbox(value: &[u8]) -> Result<Mailbox, MailboxError>
    ensures { mailbox_says result ≡ answer_says (answer_of value.now) }
{
    let names = names_end(value)?;
    let local = half_end(value, names.at, b'@')?;
    let domain = half_end(value, local.at, b'>')?;
    let end = gap_end(value, domain.at)?;
    if end < value.len() {
        return Err(MailboxError::NotAMailbox { at: end });
    }
    Ok(Mailbox {
        name: names.part,
        address: Part {
            start: local.part.start,
            end: domain.part.end,
        },
    })
}

// The name and the address of an unfolded value that is an RFC 5322 mailbox with angle brackets.
pub fn mailbox(value: &[u8]) -> Result<Mailbox, MailboxError>
    ensures { mailbox_says result ≡ mailbox_answer value.now }
{
    within_limit(value)?;
    read_mailbox(value)
}
