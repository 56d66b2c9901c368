// Trails through a model: set out, wait, start, finish.
#![tactic(auto)]

mod config;
pub mod position;
mod walk;
