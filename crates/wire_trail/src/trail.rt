// A trail as its file gives it.
use crate::step::Step;

// The scale, which may be any, and the steps.
#[derive(Drop)]
pub struct TrailFile {
    pub scale: u16,
    pub steps: Vec<Step>,
}
