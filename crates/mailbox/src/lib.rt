// The answer of `mailbox`; the definitions beside it say which answer a value has, and the theorems that it is the only one.
#![tactic(auto)]

ghost use Rattle.std.specs.Prelude.{◌≡◌};
ghost use Rattle.mailbox.specs.declared.MailboxError.{MailboxError};

use rules::{Part, TooLong};

// The parts of the value that hold the name and the address.
#[derive(Clone, Copy)]
pub struct Mailbox {
    pub name: Part,
    pub address: Part,
}

// Why a value is no mailbox: it is over the limit, or no mailbox goes on at a place, where a ninth comment inside eight may be opened.
#[derive(Clone, Copy, Debug, PartialEq, Eq)]
pub enum MailboxError {
    TooLong,
    NotAMailbox { at: usize },
    NinthComment { at: usize },
}

impl From<TooLong> for MailboxError {
    ghost from_gives = { λ _ e. e ≡ MailboxError.TooLong };

    fn from(_over: TooLong) -> MailboxError {
        MailboxError::TooLong
    }
}
