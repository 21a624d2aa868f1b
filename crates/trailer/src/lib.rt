// A trailer line, the trailer at a line's start, and the trailer walk: the first half of the original's body.rs.
#![tactic(auto)]

pub mod line;
pub mod walk;
