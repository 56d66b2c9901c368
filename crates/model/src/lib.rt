#![tactic(auto)]

mod accept;
pub mod accepted;
mod faces;
mod few;
mod identity;
mod letters;
mod look;
mod moves;
pub mod outgoing;
mod quiet;
pub mod read;
mod rule;
