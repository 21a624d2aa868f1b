// Of the calls on a commit object's content: document 02, K13.
ghost use Rattle.commit.specs.Answers.{commit_refused, line_values};
ghost use Rattle.rules.specs.Answers.{says};

use crate::Answer;
use commit::{CommitError, HeaderLine};
use numbers::put;

// Of `header_line`: no values past the last line.
impl Answer for Option<HeaderLine> {
    ghost said = { λ line. says 0 (line_values line) };

    fn put(self, res: &mut [usize]) -> u32 {
        match self {
            Some(HeaderLine { name, content }) => put(
                0,
                &[name.start, name.end, content.start, content.end],
                res,
            ),
            None => put(0, &[], res),
        }
    }
}

impl Answer for CommitError {
    ghost said = { commit_refused };

    fn put(self, res: &mut [usize]) -> u32 {
        match self {
            CommitError::TooLong => put(1, &[], res),
            CommitError::BadHeader { line } => put(13, &[line], res),
        }
    }
}
