// The public calls on a commit object's content: a line of its header by number, and its message.
#![tactic(auto)]

ghost use Rattle.std.specs.Prelude.{◌≡◌};
ghost use Rattle.commit.specs.Answers.{line_answer, line_in, line_says, line_values, message_answer, message_says};
ghost use Rattle.commit.specs.Reader.{commit};
ghost use Rattle.judge.specs.Scan.{GoodHeader};

use commit::{CommitError, HeaderLine};
use header::name_end;
use judge::{Header, judge_header};
use rules::{Part, within_limit};

// Line `number` of a good header, whose place is known.
fn line_at(content: &[u8], number: usize, header: Header) -> Option<HeaderLine>
    requires { GoodHeader content.now number header }
    ensures { line_values result ≡ line_in number (commit content.now) }
{
    if header.lines <= number {
        return None;
    }
    let name_end = name_end(content, header.line.start);
    Some(HeaderLine {
        name: Part {
            start: header.line.start,
            end: name_end,
        },
        content: Part {
            start: name_end + 1,
            end: header.line.end - 1,
        },
    })
}

// Line `number` of a commit object's header, counted from 0, a line with those that continue it being one; none past the last.
pub fn header_line(content: &[u8], number: usize) -> Result<Option<HeaderLine>, CommitError>
    ensures { line_says result ≡ line_answer content.now number }
{
    within_limit(content)?;
    let header = judge_header(content, number)?;
    Ok(line_at(content, number, header))
}

// The message of a commit object: what comes after its header's empty line.
pub fn commit_message(content: &[u8]) -> Result<Part, CommitError>
    ensures { message_says result ≡ message_answer content.now }
{
    within_limit(content)?;
    let header = judge_header(content, 0)?;
    Ok(Part {
        start: header.message,
        end: content.len(),
    })
}
