// Of the mailbox call: document 02, K14.
ghost use Rattle.mailbox.specs.Answers.{mailbox_error_says, mailbox_values};
ghost use Rattle.rules.specs.Answers.{says};

use crate::Answer;
use mailbox::{Mailbox, MailboxError};
use numbers::put;

impl Answer for Mailbox {
    ghost said = { λ m. says 0 (mailbox_values m) };

    fn put(self, res: &mut [usize]) -> u32 {
        let values = [
            self.name.start,
            self.name.end,
            self.address.start,
            self.address.end,
        ];
        put(0, &values, res)
    }
}

impl Answer for MailboxError {
    ghost said = { mailbox_error_says };

    fn put(self, res: &mut [usize]) -> u32 {
        match self {
            MailboxError::TooLong => put(1, &[], res),
            MailboxError::NotAMailbox { at } => put(14, &[at], res),
            MailboxError::NinthComment { at } => put(15, &[at], res),
        }
    }
}
