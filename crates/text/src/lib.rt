// What the original takes from std and bstr: lines and fixed byte strings.
#![tactic(auto)]

pub mod fixed;
pub mod line;
