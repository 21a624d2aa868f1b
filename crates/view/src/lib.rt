// The view of a value, which stands in the message or in the buffer.
#![tactic(auto)]

ghost use Rattle.std.specs.Prelude.{◌≡◌};
ghost use Rattle.rules.specs.Answers.{part_of, view_of};

use rules::{Part, Value};

// The bytes of a part of `s`; none where the part does not fit.
fn part_or_empty(s: &[u8], part: Part) -> &[u8]
    ensures { result.now ≡ part_of s.now part.start part.end }
{
    s.get(part.start..part.end).unwrap_or(&[])
}

// What a value shows: the part of the message, or of the buffer, in which it stands. A range that does not fit shows nothing.
pub fn value_of<'a>(message: &'a [u8], buffer: &'a [u8], value: Value) -> &'a [u8]
    ensures { result.now ≡ view_of message.now buffer.now value }
{
    match value {
        Value::InInput(part) => part_or_empty(message, part),
        Value::InBuffer(part) => part_or_empty(buffer, part),
    }
}
