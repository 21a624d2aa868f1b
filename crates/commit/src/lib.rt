// The plain types that the definitions of specs/ speak of: what may come next in a header, and the answers of the calls on a commit
// object's content.
#![tactic(auto)]

ghost use Rattle.std.specs.Prelude.{◌≡◌};
ghost use Rattle.commit.specs.declared.CommitError.{CommitError};

use rules::{Part, TooLong};

// What may come next in a header: the tree; a parent or the author, identifiers being so long; the committer; another line or the
// empty one; or a line that continues too.
#[derive(Clone, Copy, Debug, PartialEq, Eq)]
pub enum Phase {
    Tree,
    Parents(usize),
    Committer,
    Others,
    Under,
}

// What a line of a good header does: the header goes on with a phase, or ends with this line, the empty one.
#[derive(Clone, Copy, Debug, PartialEq, Eq)]
pub enum Turn {
    To(Phase),
    End,
}

// The name and the content of a header line, parts of the commit object's content.
#[derive(Clone, Copy)]
pub struct HeaderLine {
    pub name: Part,
    pub content: Part,
}

// Why a commit object's content is refused; `BadHeader` has the number of the first line after which no good header is possible.
#[derive(Clone, Copy, Debug, PartialEq, Eq)]
pub enum CommitError {
    TooLong,
    BadHeader { line: usize },
}

impl From<TooLong> for CommitError {
    ghost from_gives = { λ _ e. e ≡ CommitError.TooLong };

    fn from(_over: TooLong) -> CommitError {
        CommitError::TooLong
    }
}
