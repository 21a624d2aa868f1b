// Of the call that adds a trailer: document 02, K3.
ghost use Rattle.adding.specs.Answers.{adding_refused};

use crate::Answer;
use adding::AddingError;
use numbers::put;

impl Answer for AddingError {
    ghost said = { adding_refused };

    fn put(self, res: &mut [usize]) -> u32 {
        match self {
            AddingError::TooLong => put(1, &[], res),
            AddingError::BadToken => put(5, &[], res),
            AddingError::BadValue => put(6, &[], res),
            AddingError::NothingToStandOn => put(7, &[], res),
            AddingError::NoRoom(needed) => put(3, &[needed], res),
        }
    }
}
