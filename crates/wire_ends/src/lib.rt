// The range of a clock in a model file.
#![tactic(auto)]

pub mod ends;
pub mod read;
