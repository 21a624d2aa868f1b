// Of the calls that list all trailers at once: document 02, K1 and K6.
ghost use Rattle.listing.specs.Answers.{listed_values, listing_refused};
ghost use Rattle.rules.specs.Answers.{says};

use crate::Answer;
use listing::{Listed, ListingError};
use numbers::put;

// Of a foot, the lines that were looked at too.
impl Answer for Listed {
    ghost said = { λ listed. says 0 (listed_values listed) };

    fn put(self, res: &mut [usize]) -> u32 {
        let counts = self.counts;
        match self.looked {
            Some(looked) => put(0, &[counts.records, counts.bytes, looked], res),
            None => put(0, &[counts.records, counts.bytes], res),
        }
    }
}

impl Answer for ListingError {
    ghost said = { listing_refused };

    fn put(self, res: &mut [usize]) -> u32 {
        match self {
            ListingError::TooLong => put(1, &[], res),
            ListingError::BadPlace => put(2, &[], res),
            ListingError::MoreBytes => put(8, &[], res),
            ListingError::ShortTable(counts) => put(4, &[counts.records, counts.bytes], res),
            ListingError::NoRoom(counts) => put(3, &[counts.records, counts.bytes], res),
        }
    }
}
