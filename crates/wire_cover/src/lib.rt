// The cover file.
#![tactic(auto)]

pub mod cover;
pub mod read;
