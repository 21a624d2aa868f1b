// The calls on a whole message, in the original's files: decode.rs, and mod.rs, which is this one.
#![tactic(auto)]

pub mod decode;

ghost use Rattle.std.specs.Prelude.{◌≡◌, length};
ghost use Rattle.rules.specs.Answers.{value_found_says, walk_found_says};
ghost use Rattle.message.specs.Message.{summary_answer, summary_buffer, walk_answer};

use numbering::right_cursor;
use paragraph::trailer_block_start;
use rules::{Cursor, Refusal, Value, within_limit};
use summary::{first_lf, summarise};
use title::title_and_body;
use white::trim_text;

// The summary of a whole message, by the rule for a title. It is not always that of its title, since the body is read too.
pub fn message_summary(message: &[u8], out: &mut [u8]) -> Result<Value, Refusal>
    ensures result_value { value_found_says result ≡ summary_answer message.now (length out.old) }
    ensures out_after { out.new ≡ summary_buffer message.now out.old }
{
    summary(message, out)
}

// Where the walk of the message's trailers begins: at the trailer block of its body, or at its end where it has none.
pub fn message_trailers(message: &[u8]) -> Result<Cursor, Refusal>
    ensures { walk_found_says result ≡ walk_answer message.now }
{
    within_limit(message)?;
    let body_start = title_and_body(message).body_start;
    let at = body_start + trailer_block_start(&message[body_start..]);
    Ok(right_cursor(message, at))
}

// The summary of a title: with no LF left in it once it is trimmed, that part of it; otherwise, folded, the front of `out`.
pub fn summary(title: &[u8], out: &mut [u8]) -> Result<Value, Refusal>
    ensures result_value { value_found_says result ≡ summary_answer title.now (length out.old) }
    ensures out_after { out.new ≡ summary_buffer title.now out.old }
{
    within_limit(title)?;
    let part = trim_text(title);
    let message = &title[part.start..part.end];
    let first = first_lf(message);
    if first < message.len() {
        return summarise(message, first, out);
    }
    Ok(Value::InInput(part))
}
