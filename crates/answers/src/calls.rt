// Of the calls of crates/body, crates/message and crates/divider.
ghost use Rattle.std.specs.Prelude.{[], ◌∷◌, ◌≡◌};
ghost use Rattle.rules.specs.Answers.{block_step_values, cursor_values, found_values, over, refused, says, start_values, title_values, trailer_step_values, value_says};

use crate::Answer;
use divider::NoReading;
use numbers::put;
use rules::{
    BlockStart, BlockStep, Cursor, NoKind, Part, Refusal, TitleAndBody, TooLong, TrailerRef,
    TrailerStep, Value,
};

// A number that is no kind's, and one that is no reading's: not document 01's numbers, but beside them.
impl Answer for NoKind {
    ghost said = { λ _. says 254 [] };

    fn put(self, res: &mut [usize]) -> u32 {
        put(254, &[], res)
    }
}

impl Answer for NoReading {
    ghost said = { λ _. says 253 [] };

    fn put(self, res: &mut [usize]) -> u32 {
        put(253, &[], res)
    }
}

impl Answer for TooLong {
    ghost said = { over };

    fn put(self, res: &mut [usize]) -> u32 {
        put(1, &[], res)
    }
}

impl Answer for Refusal {
    ghost said = { refused };

    fn put(self, res: &mut [usize]) -> u32 {
        match self {
            Refusal::TooLong => put(1, &[], res),
            Refusal::BadPlace => put(2, &[], res),
            Refusal::NoRoom(needed) => put(3, &[needed], res),
        }
    }
}

// Where a message stands in what was lent.
impl Answer for Part {
    ghost said = { λ p. says 0 (p.start ∷ p.end ∷ []) };

    fn put(self, res: &mut [usize]) -> u32 {
        put(0, &[self.start, self.end], res)
    }
}

impl Answer for TitleAndBody {
    ghost said = { λ t. says 0 (title_values t) };

    fn put(self, res: &mut [usize]) -> u32 {
        match self.body_start {
            Some(body_start) => put(0, &[self.title_end, body_start], res),
            None => put(0, &[self.title_end], res),
        }
    }
}

// Where a value stands, as numbers: 0 for the input or 1 for the buffer, its start and its end.
fn place_of(value: Value) -> [usize; 3]
    ensures { result ≡ value_says value }
{
    match value {
        Value::InInput(part) => [0, part.start, part.end],
        Value::InBuffer(part) => [1, part.start, part.end],
    }
}

impl Answer for Value {
    ghost said = { λ v. says 0 (value_says v) };

    fn put(self, res: &mut [usize]) -> u32 {
        put(0, &place_of(self), res)
    }
}

impl Answer for BlockStart {
    ghost said = { λ b. says 0 (start_values b) };

    fn put(self, res: &mut [usize]) -> u32 {
        put(0, &[self.start, usize::from(self.ending)], res)
    }
}

impl Answer for Cursor {
    ghost said = { λ c. says 0 (cursor_values c) };

    fn put(self, res: &mut [usize]) -> u32 {
        put(0, &[self.at, self.line], res)
    }
}

impl Answer for TrailerStep {
    ghost said = { λ s. says 0 (trailer_step_values s) };

    fn put(self, res: &mut [usize]) -> u32 {
        let next = self.next;
        let Some(found) = self.found else {
            return next.put(res);
        };
        let [held, start, end] = place_of(found.value);
        let values = [
            found.token.start,
            found.token.end,
            held,
            start,
            end,
            next.at,
            usize::from(found.ending),
            found.line,
            next.line,
        ];
        put(0, &values, res)
    }
}

// Of a lookup: no values where no such trailer is there.
impl Answer for Option<TrailerRef> {
    ghost said = { λ found. says 0 (found_values found) };

    fn put(self, res: &mut [usize]) -> u32 {
        let Some(found) = self else {
            return put(0, &[], res);
        };
        let [held, start, end] = place_of(found.value);
        let values = [
            found.token.start,
            found.token.end,
            held,
            start,
            end,
            usize::from(found.ending),
            found.line,
        ];
        put(0, &values, res)
    }
}

impl Answer for BlockStep {
    ghost said = { λ s. says 0 (block_step_values s) };

    fn put(self, res: &mut [usize]) -> u32 {
        let next = self.next;
        match self.found {
            Some(block) => put(0, &[block.message_end, block.end, next.at, next.start], res),
            None => put(0, &[next.at, next.start], res),
        }
    }
}
