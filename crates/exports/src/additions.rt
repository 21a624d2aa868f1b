// The call that adds a trailer: document 02, K3.
ghost use Rattle.std.specs.Prelude.{◌≡◌, length};
ghost use Rattle.adding.specs.Answers.{add_answer, add_buffer};
ghost use Rattle.numbers.specs.Numbers.{buffer_of, code_of, result_of};

use crate::SHORT_RESULT;
use adding::add_trailer;
use answers::Answer;
use numbers::RESULT_LEN;

// Writes the message with one trailer more.
#[unsafe(no_mangle)]
pub extern "C" fn sluicepod_add_trailer(
    message: &[u8],
    token: &[u8],
    value: &[u8],
    out: &mut [u8],
    res: &mut [usize],
) -> u32
    ensures value { result ≡ code_of (add_answer message.now token.now value.now (length out.old)) res.old }
    ensures res_after { res.new ≡ result_of (add_answer message.now token.now value.now (length out.old)) res.old }
    ensures out_after { out.new ≡ buffer_of (add_buffer message.now token.now value.now out.old) out.old res.old }
{
    if res.len() < RESULT_LEN {
        return SHORT_RESULT;
    }
    add_trailer(message, token, value, out).put(res)
}
