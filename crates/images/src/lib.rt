// Images: what the steps out of a cell make of a set of clock readings.
#![tactic(auto)]

pub mod departure;
mod gap_list;
mod gaps;
mod images;

pub use images::{closed_opening_image, depart, image_of, opening_image, target_of};
