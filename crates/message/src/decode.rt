// Title and body: the original's decode.rs.
ghost use Rattle.std.specs.Prelude.{◌≡◌};
ghost use Rattle.rules.specs.Answers.{title_says};
ghost use Rattle.message.specs.Decode.{title_answer};

use rules::{Refusal, TitleAndBody, within_limit};
use title::title_and_body;

// Where the title ends and where the body starts, without what separates them.
pub fn message_title_and_body(message: &[u8]) -> Result<TitleAndBody, Refusal>
    ensures { title_says result ≡ title_answer message.now }
{
    within_limit(message)?;
    let places = title_and_body(message);
    let title_end = places.title_end;
    let body_start = if places.body_start < message.len() {
        Some(places.body_start)
    } else {
        None
    };
    Ok(TitleAndBody {
        title_end,
        body_start,
    })
}
