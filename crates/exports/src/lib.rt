// The public calls for C and Rust, as numbers and slices: include/sluicepod.h says how they are called there. Each makes one
// call of crates/body or crates/message, or of what its module names, and puts the numbers of its answer into `res`.
#![tactic(auto)]

pub mod additions;
pub mod bundles;
pub mod closings;
pub mod commits;
pub mod lists;
pub mod readings;
pub mod who;

ghost use Rattle.std.specs.Prelude.{◌≡◌, length};
ghost use Rattle.body.specs.Body.{block_answer, cursor_answer, find_answer, find_buffer, start_answer, trailers_answer};
ghost use Rattle.message.specs.Decode.{title_answer};
ghost use Rattle.message.specs.Message.{summary_answer, summary_buffer, walk_answer};
ghost use Rattle.rules.specs.Answers.{kind_of};
ghost use Rattle.numbers.specs.Numbers.{buffer_of, code_of, result_of};
ghost use Rattle.exports.specs.ByKind.{cursor, question_of, step_leaves, step_of};

use answers::Answer;
use body::{
    body_trailers, cursor_at, find_trailer, is_of_kind, next_block, next_trailer_of,
    trailer_block_start,
};
use message::decode::message_title_and_body;
use message::{message_summary, message_trailers, summary};
use numbers::RESULT_LEN;
use rules::{BlockCursor, Cursor, Kind, NoKind, Part};

// The code where `res` is too short.
pub const SHORT_RESULT: u32 = 255;

// Where the title ends and where the body starts.
#[unsafe(no_mangle)]
pub extern "C" fn sluicepod_title_and_body(message: &[u8], res: &mut [usize]) -> u32
    ensures value { result ≡ code_of (title_answer message.now) res.old }
    ensures res_after { res.new ≡ result_of (title_answer message.now) res.old }
{
    if res.len() < RESULT_LEN {
        return SHORT_RESULT;
    }
    message_title_and_body(message).put(res)
}

// The summary of a title: where it stands.
#[unsafe(no_mangle)]
pub extern "C" fn sluicepod_summary(title: &[u8], out: &mut [u8], res: &mut [usize]) -> u32
    ensures value { result ≡ code_of (summary_answer title.now (length out.old)) res.old }
    ensures res_after { res.new ≡ result_of (summary_answer title.now (length out.old)) res.old }
    ensures out_after { out.new ≡ buffer_of (summary_buffer title.now out.old) out.old res.old }
{
    if res.len() < RESULT_LEN {
        return SHORT_RESULT;
    }
    summary(title, out).put(res)
}

// The summary of a whole message: where it stands.
#[unsafe(no_mangle)]
pub extern "C" fn sluicepod_message_summary(
    message: &[u8],
    out: &mut [u8],
    res: &mut [usize],
) -> u32
    ensures value { result ≡ code_of (summary_answer message.now (length out.old)) res.old }
    ensures res_after { res.new ≡ result_of (summary_answer message.now (length out.old)) res.old }
    ensures out_after { out.new ≡ buffer_of (summary_buffer message.now out.old) out.old res.old }
{
    if res.len() < RESULT_LEN {
        return SHORT_RESULT;
    }
    message_summary(message, out).put(res)
}

// Where the trailer block of a body starts.
#[unsafe(no_mangle)]
pub extern "C" fn sluicepod_block_start(body: &[u8], res: &mut [usize]) -> u32
    ensures value { result ≡ code_of (start_answer body.now) res.old }
    ensures res_after { res.new ≡ result_of (start_answer body.now) res.old }
{
    if res.len() < RESULT_LEN {
        return SHORT_RESULT;
    }
    trailer_block_start(body).put(res)
}

// Where the walk of a message's trailers begins.
#[unsafe(no_mangle)]
pub extern "C" fn sluicepod_message_trailers(message: &[u8], res: &mut [usize]) -> u32
    ensures value { result ≡ code_of (walk_answer message.now) res.old }
    ensures res_after { res.new ≡ result_of (walk_answer message.now) res.old }
{
    if res.len() < RESULT_LEN {
        return SHORT_RESULT;
    }
    message_trailers(message).put(res)
}

// Where the walk of a body's trailers begins.
#[unsafe(no_mangle)]
pub extern "C" fn sluicepod_body_trailers(body: &[u8], res: &mut [usize]) -> u32
    ensures value { result ≡ code_of (trailers_answer body.now) res.old }
    ensures res_after { res.new ≡ result_of (trailers_answer body.now) res.old }
{
    if res.len() < RESULT_LEN {
        return SHORT_RESULT;
    }
    body_trailers(body).put(res)
}

// The cursor of the place `at`, with the number of its line.
#[unsafe(no_mangle)]
pub extern "C" fn sluicepod_cursor_at(input: &[u8], at: usize, res: &mut [usize]) -> u32
    ensures value { result ≡ code_of (cursor_answer input.now at) res.old }
    ensures res_after { res.new ≡ result_of (cursor_answer input.now at) res.old }
{
    if res.len() < RESULT_LEN {
        return SHORT_RESULT;
    }
    cursor_at(input, at).put(res)
}

// The next trailer from `at`, on the line with the number `line`, on whose token is of the kind.
#[unsafe(no_mangle)]
pub extern "C" fn sluicepod_next_trailer(
    body: &[u8],
    at: usize,
    line: usize,
    kind: u32,
    out: &mut [u8],
    res: &mut [usize],
) -> u32
    ensures value { result ≡ code_of (step_of (kind_of kind) body.now (cursor at line) (length out.old)) res.old }
    ensures res_after { res.new ≡ result_of (step_of (kind_of kind) body.now (cursor at line) (length out.old)) res.old }
    ensures out_after { out.new ≡ buffer_of (step_leaves (kind_of kind) body.now (cursor at line) out.old) out.old res.old }
{
    if res.len() < RESULT_LEN {
        return SHORT_RESULT;
    }
    let Ok(kind) = Kind::try_from(kind) else {
        return NoKind.put(res);
    };
    next_trailer_of(body, Cursor { at, line }, kind, out).put(res)
}

// The last trailer of a body that has the name.
#[unsafe(no_mangle)]
pub extern "C" fn sluicepod_find_trailer(
    body: &[u8],
    name: &[u8],
    out: &mut [u8],
    res: &mut [usize],
) -> u32
    ensures value { result ≡ code_of (find_answer body.now name.now (length out.old)) res.old }
    ensures res_after { res.new ≡ result_of (find_answer body.now name.now (length out.old)) res.old }
    ensures out_after { out.new ≡ buffer_of (find_buffer body.now name.now out.old) out.old res.old }
{
    if res.len() < RESULT_LEN {
        return SHORT_RESULT;
    }
    find_trailer(body, name, out).put(res)
}

// The next block from `at` on, where the trailer block starts at `start`.
#[unsafe(no_mangle)]
pub extern "C" fn sluicepod_next_block(
    body: &[u8],
    at: usize,
    start: usize,
    res: &mut [usize],
) -> u32
    ensures value { result ≡ code_of (block_answer body.now at start) res.old }
    ensures res_after { res.new ≡ result_of (block_answer body.now at start) res.old }
{
    if res.len() < RESULT_LEN {
        return SHORT_RESULT;
    }
    next_block(body, BlockCursor { at, start }).put(res)
}

// Whether the part of `input` from `start` up to `end` is a token of the kind.
#[unsafe(no_mangle)]
pub extern "C" fn sluicepod_is_of_kind(
    input: &[u8],
    start: usize,
    end: usize,
    kind: u32,
    res: &mut [usize],
) -> u32
    ensures value { result ≡ code_of (question_of (kind_of kind) input.now start end) res.old }
    ensures res_after { res.new ≡ result_of (question_of (kind_of kind) input.now start end) res.old }
{
    if res.len() < RESULT_LEN {
        return SHORT_RESULT;
    }
    let Ok(kind) = Kind::try_from(kind) else {
        return NoKind.put(res);
    };
    is_of_kind(input, Part { start, end }, kind).put(res)
}
