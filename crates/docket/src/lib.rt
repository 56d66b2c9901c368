// The docket: entries that a caller claims to take up every run of a model, the duties that this puts on it, and a trail.
#![tactic(auto)]

mod begin;
mod count;
pub mod docket;
mod duty;
pub mod entries;
mod judge;
mod lodge;
pub mod marks;
mod settle;
mod sweep;
