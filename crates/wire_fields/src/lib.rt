// The fields of a file, from the front, the records that stand in it one after another, and why a file gives no value.
#![tactic(auto)]

pub mod fault;
pub mod fields;
pub mod reader;
pub mod record;
