// The calls on a whole message, in either reading (document 02, K7): each hands the message up to its end in that reading to the call
// of crates/message. The limit is asked of the message uncut.
#![tactic(auto)]

ghost use Rattle.std.specs.Prelude.{◌≡◌, length};
ghost use Rattle.rules.specs.Answers.{title_says, value_found_says, walk_found_says};
ghost use Rattle.divider.specs.Readings.{in_reading, left_in};
ghost use Rattle.message.specs.Decode.{title_answer};
ghost use Rattle.message.specs.Message.{summary_buffer, walk_answer};
ghost use Rattle.reading.specs.Reading.{summary_with};

use divider::{Reading, end_in};
use message::decode::message_title_and_body;
use message::{message_summary, message_trailers};
use rules::{Cursor, Refusal, TitleAndBody, Value, within_limit};

// Where the title ends and where the body starts.
pub fn message_title_and_body_in(message: &[u8], reading: Reading) -> Result<TitleAndBody, Refusal>
    ensures { title_says result ≡ in_reading reading title_answer message.now }
{
    within_limit(message)?;
    let end = end_in(message, reading);
    message_title_and_body(&message[..end])
}

// The summary of the message.
pub fn message_summary_in(
    message: &[u8],
    reading: Reading,
    out: &mut [u8],
) -> Result<Value, Refusal>
    ensures result_value { value_found_says result ≡ in_reading reading (summary_with (length out.old)) message.now }
    ensures out_after { out.new ≡ left_in reading summary_buffer message.now out.old }
{
    within_limit(message)?;
    let end = end_in(message, reading);
    message_summary(&message[..end], out)
}

// Where the walk of the message's trailers begins: at its end in that reading where it has none.
pub fn message_trailers_in(message: &[u8], reading: Reading) -> Result<Cursor, Refusal>
    ensures { walk_found_says result ≡ in_reading reading walk_answer message.now }
{
    within_limit(message)?;
    let end = end_in(message, reading);
    message_trailers(&message[..end])
}
