// A cover as its file gives it.
use clocks::Gap;

// A cell and the gaps of a clock set on it, which may be any.
#[derive(Drop)]
pub struct CoverEntry {
    pub cell: u16,
    pub gaps: Vec<Gap>,
}

#[derive(Drop)]
pub struct CoverFile {
    pub entries: Vec<CoverEntry>,
}
