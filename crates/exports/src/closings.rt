// What the unit asks before it erases: the closing note of an entry, in either reading.
ghost use Rattle.std.specs.Prelude.{◌≡◌};
ghost use Rattle.closing.specs.Answers.{erase_answer, note_answer};
ghost use Rattle.numbers.specs.Numbers.{code_of, result_of};
ghost use Rattle.divider.specs.Readings.{reading_of};
ghost use Rattle.exports.specs.ByReading.{asked_in};

use crate::SHORT_RESULT;
use answers::Answer;
use divider::{NoReading, Reading};
use erasing::{closing_note, may_erase};
use numbers::RESULT_LEN;

// The closing note of an entry.
#[unsafe(no_mangle)]
pub extern "C" fn sluicepod_closing_note(message: &[u8], reading: u32, res: &mut [usize]) -> u32
    ensures value { result ≡ code_of (asked_in (reading_of reading) note_answer message.now) res.old }
    ensures res_after { res.new ≡ result_of (asked_in (reading_of reading) note_answer message.now) res.old }
{
    if res.len() < RESULT_LEN {
        return SHORT_RESULT;
    }
    let Ok(reading) = Reading::try_from(reading) else {
        return NoReading.put(res);
    };
    closing_note(message, reading).put(res)
}

// Whether the unit may erase, where so many records were received.
#[unsafe(no_mangle)]
pub extern "C" fn sluicepod_may_erase(
    message: &[u8],
    reading: u32,
    received: usize,
    res: &mut [usize],
) -> u32
    ensures value { result ≡ code_of (asked_in (reading_of reading) (erase_answer received) message.now) res.old }
    ensures res_after { res.new ≡ result_of (asked_in (reading_of reading) (erase_answer received) message.now) res.old }
{
    if res.len() < RESULT_LEN {
        return SHORT_RESULT;
    }
    let Ok(reading) = Reading::try_from(reading) else {
        return NoReading.put(res);
    };
    may_erase(message, reading, received).put(res)
}
