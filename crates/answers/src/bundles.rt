// Of the calls on bundles: document 02, K11.
ghost use Rattle.bundle.specs.Answers.{bundle_refused, message_values};
ghost use Rattle.bundling.specs.Answers.{bundling_refused};
ghost use Rattle.counting.specs.Answers.{report_values};
ghost use Rattle.rules.specs.Answers.{says};

use crate::Answer;
use bundle::BundleError;
use bundling::BundlingError;
use counting::Report;
use numbers::put;
use rules::Part;

// Of `bundle_message`: no values past the last message.
impl Answer for Option<Part> {
    ghost said = { λ message. says 0 (message_values message) };

    fn put(self, res: &mut [usize]) -> u32 {
        match self {
            Some(message) => message.put(res),
            None => put(0, &[], res),
        }
    }
}

// Of the calls that read a bundle.
impl Answer for BundleError {
    ghost said = { bundle_refused };

    fn put(self, res: &mut [usize]) -> u32 {
        match self {
            BundleError::TooLong => put(1, &[], res),
            BundleError::NotABundle => put(12, &[], res),
        }
    }
}

// Of the call that writes one.
impl Answer for BundlingError {
    ghost said = { bundling_refused };

    fn put(self, res: &mut [usize]) -> u32 {
        match self {
            BundlingError::TooLong => put(1, &[], res),
            BundlingError::BadPlace => put(2, &[], res),
            BundlingError::NotABundle => put(12, &[], res),
            BundlingError::NoRoom(needed) => put(3, &[needed], res),
        }
    }
}

impl Answer for Report {
    ghost said = { λ report. says 0 (report_values report) };

    fn put(self, res: &mut [usize]) -> u32 {
        let values = [
            self.signed_off_by,
            self.co_authored_by,
            self.assisted_by,
            self.acked_by,
            self.reviewed_by,
            self.tested_by,
            self.rest,
            self.without,
        ];
        put(0, &values, res)
    }
}
