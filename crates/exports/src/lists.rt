// The calls that list all trailers at once: document 02, K1.
ghost use Rattle.std.specs.Prelude.{◌≡◌, ◌/◌, length};
ghost use Rattle.flat.specs.Flat.{flat_table, message_table, width};
ghost use Rattle.foot.specs.Foot.{foot_answer};
ghost use Rattle.planning.specs.Scopes.{message_buffer, message_listing, scope_answer, scope_buffer};
ghost use Rattle.planning.specs.declared.Scope.{Scope};
ghost use Rattle.numbers.specs.Numbers.{buffer_of, code_of, result_of};
ghost use Rattle.exports.specs.ByKind.{cursor};
ghost use Rattle.divider.specs.Readings.{reading_of};
ghost use Rattle.exports.specs.ByReading.{asked_in, is_whole, left_asked};

use crate::SHORT_RESULT;
use answers::Answer;
use divider::{NoReading, Reading};
use flat::{list_foot, list_from, list_trailers};
use numbers::RESULT_LEN;
use rules::Cursor;

// All trailers from `at`, on the line with the number `line`, on.
#[unsafe(no_mangle)]
pub extern "C" fn sluicepod_list_from(
    input: &[u8],
    at: usize,
    line: usize,
    table: &mut [usize],
    out: &mut [u8],
    res: &mut [usize],
) -> u32
    ensures value { result ≡ code_of (scope_answer input.now (Scope.From (cursor at line)) (length table.old / width) (length out.old)) res.old }
    ensures res_after { res.new ≡ result_of (scope_answer input.now (Scope.From (cursor at line)) (length table.old / width) (length out.old)) res.old }
    ensures table_after { table.new ≡ buffer_of (flat_table input.now (Scope.From (cursor at line)) (length out.old) table.old) table.old res.old }
    ensures out_after { out.new ≡ buffer_of (scope_buffer input.now (Scope.From (cursor at line)) (length table.old / width) out.old) out.old res.old }
{
    if res.len() < RESULT_LEN {
        return SHORT_RESULT;
    }
    list_from(input, Cursor { at, line }, table, out).put(res)
}

// All trailers of a message in a reading.
#[unsafe(no_mangle)]
pub extern "C" fn sluicepod_list_trailers(
    message: &[u8],
    reading: u32,
    table: &mut [usize],
    out: &mut [u8],
    res: &mut [usize],
) -> u32
    ensures value { result ≡ code_of (asked_in (reading_of reading) (message_listing (length table.old / width) (length out.old)) message.now) res.old }
    ensures res_after { res.new ≡ result_of (asked_in (reading_of reading) (message_listing (length table.old / width) (length out.old)) message.now) res.old }
    ensures table_after { table.new ≡ buffer_of (left_asked (reading_of reading) (message_table (length out.old)) message.now table.old) table.old res.old }
    ensures out_after { out.new ≡ buffer_of (left_asked (reading_of reading) (message_buffer (length table.old / width)) message.now out.old) out.old res.old }
{
    if res.len() < RESULT_LEN {
        return SHORT_RESULT;
    }
    let Ok(reading) = Reading::try_from(reading) else {
        return NoReading.put(res);
    };
    list_trailers(message, reading, table, out).put(res)
}

// The trailers of a body's foot, by the last bytes of the body; `whole` is 0 where they are not all of it.
#[unsafe(no_mangle)]
pub extern "C" fn sluicepod_list_foot(
    tail: &[u8],
    whole: u32,
    table: &mut [usize],
    out: &mut [u8],
    res: &mut [usize],
) -> u32
    ensures value { result ≡ code_of (foot_answer tail.now (is_whole whole) (length table.old / width) (length out.old)) res.old }
    ensures res_after { res.new ≡ result_of (foot_answer tail.now (is_whole whole) (length table.old / width) (length out.old)) res.old }
    ensures table_after { table.new ≡ buffer_of (flat_table tail.now (Scope.Foot (is_whole whole)) (length out.old) table.old) table.old res.old }
    ensures out_after { out.new ≡ buffer_of (scope_buffer tail.now (Scope.Foot (is_whole whole)) (length table.old / width) out.old) out.old res.old }
{
    if res.len() < RESULT_LEN {
        return SHORT_RESULT;
    }
    let all = whole != 0;
    list_foot(tail, all, table, out).put(res)
}
