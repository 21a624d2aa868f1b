// The calls on a whole message in either reading: whole, or up to its first divider.
ghost use Rattle.std.specs.Prelude.{◌≡◌, length};
ghost use Rattle.divider.specs.Readings.{end_says, reading_of};
ghost use Rattle.message.specs.Decode.{title_answer};
ghost use Rattle.message.specs.Message.{summary_buffer, walk_answer};
ghost use Rattle.numbers.specs.Numbers.{buffer_of, code_of, result_of};
ghost use Rattle.reading.specs.Reading.{summary_with};
ghost use Rattle.exports.specs.ByReading.{asked_in, left_asked};

use crate::SHORT_RESULT;
use answers::Answer;
use divider::{NoReading, Reading, message_end};
use numbers::RESULT_LEN;
use reading::{message_summary_in, message_title_and_body_in, message_trailers_in};

// Where a message ends.
#[unsafe(no_mangle)]
pub extern "C" fn sluicepod_message_end(message: &[u8], reading: u32, res: &mut [usize]) -> u32
    ensures value { result ≡ code_of (asked_in (reading_of reading) end_says message.now) res.old }
    ensures res_after { res.new ≡ result_of (asked_in (reading_of reading) end_says message.now) res.old }
{
    if res.len() < RESULT_LEN {
        return SHORT_RESULT;
    }
    let Ok(reading) = Reading::try_from(reading) else {
        return NoReading.put(res);
    };
    message_end(message, reading).put(res)
}

// Where the title ends and where the body starts.
#[unsafe(no_mangle)]
pub extern "C" fn sluicepod_title_and_body_in(
    message: &[u8],
    reading: u32,
    res: &mut [usize],
) -> u32
    ensures value { result ≡ code_of (asked_in (reading_of reading) title_answer message.now) res.old }
    ensures res_after { res.new ≡ result_of (asked_in (reading_of reading) title_answer message.now) res.old }
{
    if res.len() < RESULT_LEN {
        return SHORT_RESULT;
    }
    let Ok(reading) = Reading::try_from(reading) else {
        return NoReading.put(res);
    };
    message_title_and_body_in(message, reading).put(res)
}

// The summary of a whole message: where it stands.
#[unsafe(no_mangle)]
pub extern "C" fn sluicepod_message_summary_in(
    message: &[u8],
    reading: u32,
    out: &mut [u8],
    res: &mut [usize],
) -> u32
    ensures value { result ≡ code_of (asked_in (reading_of reading) (summary_with (length out.old)) message.now) res.old }
    ensures res_after { res.new ≡ result_of (asked_in (reading_of reading) (summary_with (length out.old)) message.now) res.old }
    ensures out_after { out.new ≡ buffer_of (left_asked (reading_of reading) summary_buffer message.now out.old) out.old res.old }
{
    if res.len() < RESULT_LEN {
        return SHORT_RESULT;
    }
    let Ok(reading) = Reading::try_from(reading) else {
        return NoReading.put(res);
    };
    message_summary_in(message, reading, out).put(res)
}

// Where the walk of a message's trailers begins.
#[unsafe(no_mangle)]
pub extern "C" fn sluicepod_message_trailers_in(
    message: &[u8],
    reading: u32,
    res: &mut [usize],
) -> u32
    ensures value { result ≡ code_of (asked_in (reading_of reading) walk_answer message.now) res.old }
    ensures res_after { res.new ≡ result_of (asked_in (reading_of reading) walk_answer message.now) res.old }
{
    if res.len() < RESULT_LEN {
        return SHORT_RESULT;
    }
    let Ok(reading) = Reading::try_from(reading) else {
        return NoReading.put(res);
    };
    message_trailers_in(message, reading).put(res)
}
