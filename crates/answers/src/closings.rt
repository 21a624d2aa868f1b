// Of what the unit asks before it erases: document 02, K10.
ghost use Rattle.closing.specs.Answers.{error_says, note_shows};
ghost use Rattle.rules.specs.Answers.{says};

use crate::Answer;
use closing::{Note, NoteError};
use numbers::put;

impl Answer for Note {
    ghost said = { λ note. says 0 (note_shows note) };

    fn put(self, res: &mut [usize]) -> u32 {
        let values = [
            self.vehicle.start,
            self.vehicle.end,
            self.records,
            usize::from(self.complete),
        ];
        put(0, &values, res)
    }
}

impl Answer for NoteError {
    ghost said = { error_says };

    fn put(self, res: &mut [usize]) -> u32 {
        match self {
            NoteError::TooLong => put(1, &[], res),
            NoteError::Refused { fault, field } => {
                put(u32::from(fault), &[usize::from(field)], res)
            }
        }
    }
}
