// The calls on a commit object's content.
ghost use Rattle.std.specs.Prelude.{◌≡◌};
ghost use Rattle.commit.specs.Answers.{line_answer, message_answer};
ghost use Rattle.numbers.specs.Numbers.{code_of, result_of};

use crate::SHORT_RESULT;
use answers::Answer;
use numbers::RESULT_LEN;
use object::{commit_message, header_line};

// Line `number` of a commit object's header.
#[unsafe(no_mangle)]
pub extern "C" fn sluicepod_header_line(content: &[u8], number: usize, res: &mut [usize]) -> u32
    ensures value { result ≡ code_of (line_answer content.now number) res.old }
    ensures res_after { res.new ≡ result_of (line_answer content.now number) res.old }
{
    if res.len() < RESULT_LEN {
        return SHORT_RESULT;
    }
    header_line(content, number).put(res)
}

// Where the message of a commit object stands.
#[unsafe(no_mangle)]
pub extern "C" fn sluicepod_commit_message(content: &[u8], res: &mut [usize]) -> u32
    ensures value { result ≡ code_of (message_answer content.now) res.old }
    ensures res_after { res.new ≡ result_of (message_answer content.now) res.old }
{
    if res.len() < RESULT_LEN {
        return SHORT_RESULT;
    }
    commit_message(content).put(res)
}
