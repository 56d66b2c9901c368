// A cell in a model file.
#![tactic(auto)]

pub mod cell;
pub mod letter;
pub mod read;
