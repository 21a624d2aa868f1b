// Who signed: the mailbox call for C and Rust.
ghost use Rattle.std.specs.Prelude.{◌≡◌};
ghost use Rattle.mailbox.specs.Answers.{mailbox_answer};
ghost use Rattle.numbers.specs.Numbers.{code_of, result_of};

use crate::SHORT_RESULT;
use answers::Answer;
use numbers::RESULT_LEN;
use signer::mailbox;

// The name and the address of a value that is a mailbox.
#[unsafe(no_mangle)]
pub extern "C" fn sluicepod_mailbox(value: &[u8], res: &mut [usize]) -> u32
    ensures value { result ≡ code_of (mailbox_answer value.now) res.old }
    ensures res_after { res.new ≡ result_of (mailbox_answer value.now) res.old }
{
    if res.len() < RESULT_LEN {
        return SHORT_RESULT;
    }
    mailbox(value).put(res)
}
