// The closing note of a walk's trailers: what the three fields hold, found in one pass, judged in the message with no buffer.
#![tactic(auto)]

pub mod note;
pub mod sole;
pub mod tally;
