// The trail file.
#![tactic(auto)]

pub mod read;
pub mod step;
pub mod trail;
