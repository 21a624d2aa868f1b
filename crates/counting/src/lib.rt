// The report of a bundle: seven counts of trailers, and the number of messages without any.
#![tactic(auto)]

ghost use Rattle.std.specs.Prelude.{◌≡◌, ◌+◌, ◌<◌, ◌≤◌, ◌^◌, length, get_or, set};
ghost use Rattle.rules.specs.Lists.{filled};
ghost use Rattle.rules.specs.Paragraph.{message_trailers};
ghost use Rattle.rules.specs.Trailer.{walk_from};
ghost use Rattle.counting.specs.Answers.{report_answer, report_says, seven};
ghost use Rattle.counting.specs.Report.{figure_of, plus, seven_of, sum, without};

use bundle::{BundleError, bundle_count, message_part};
use filter::is_of;
use paragraph::trailer_block_start;
use rules::Kind;
use title::title_and_body;
use trailer::walk::Trailers;

// The counts by token, the six attribution tokens as document 01 lists them and then the rest, and the number of messages without
// trailers.
#[derive(Clone, Copy)]
pub struct Report {
    pub signed_off_by: usize,
    pub co_authored_by: usize,
    pub assisted_by: usize,
    pub acked_by: usize,
    pub reviewed_by: usize,
    pub tested_by: usize,
    pub rest: usize,
    pub without: usize,
}

impl Report {
    // Counts a trailer by its token.
    #[tactic(auto, using(crate::proofs::Figures::figure_is))]
    fn add_token(&mut self, token: &[u8])
        requires { sum (seven self.old) + 1 < 2 ^ 64 }
        ensures counts { seven self.new ≡ set (seven self.old) (figure_of token.now) (get_or (seven self.old) (figure_of token.now) 0 + 1) }
        ensures without { self.new.without ≡ self.old.without }
    {
        if is_of(Kind::SignedOffBy, token) {
            self.signed_off_by += 1;
        } else if is_of(Kind::CoAuthoredBy, token) {
            self.co_authored_by += 1;
        } else if is_of(Kind::AssistedBy, token) {
            self.assisted_by += 1;
        } else if is_of(Kind::AckedBy, token) {
            self.acked_by += 1;
        } else if is_of(Kind::ReviewedBy, token) {
            self.reviewed_by += 1;
        } else if is_of(Kind::TestedBy, token) {
            self.tested_by += 1;
        } else {
            self.rest += 1;
        }
    }

    // Counts the trailers of the walk from `at` on, and answers whether there is one.
    fn add_trailers(&mut self, message: &[u8], at: usize) -> bool
        requires { (at ≤ length message.now) × (sum (seven self.old) + length message.now < 2 ^ 64) }
        ensures counts { seven self.new ≡ plus (seven self.old) (seven_of (walk_from message.now at)) }
        ensures without { self.new.without ≡ self.old.without }
        ensures found { result ≡ filled (walk_from message.now at) }
    {
        let mut found = false;
        for places in (Trailers { body: message, at }) {
            self.add_token(&message[places.start..places.token_end]);
            found = true;
        }
        found
    }

    // Counts one more message.
    fn add_message(&mut self, message: &[u8])
        requires { (sum (seven self.old) + length message.now < 2 ^ 64) × (self.old.without + 1 < 2 ^ 64) }
        ensures counts { seven self.new ≡ plus (seven self.old) (seven_of (message_trailers message.now)) }
        ensures without { self.new.without ≡ self.old.without + without message.now }
    {
        let body_start = title_and_body(message).body_start;
        let at = body_start + trailer_block_start(&message[body_start..]);
        if !self.add_trailers(message, at) {
            self.without += 1;
        }
    }
}

// The report of a bundle, message by message.
pub fn bundle_report(bundle: &[u8]) -> Result<Report, BundleError>
    ensures { report_says result ≡ report_answer bundle.now }
{
    let count = bundle_count(bundle)?;
    let mut report = Report {
        signed_off_by: 0,
        co_authored_by: 0,
        assisted_by: 0,
        acked_by: 0,
        reviewed_by: 0,
        tested_by: 0,
        rest: 0,
        without: 0,
    };
    for k in 0..count {
        let part = message_part(bundle, k);
        report.add_message(&bundle[part.start..part.end]);
    }
    Ok(report)
}
