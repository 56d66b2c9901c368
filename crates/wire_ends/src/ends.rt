// The range that a clock may have in a cell, as the file gives it.

// One end of the range that a clock may have in a cell, in units; an open end is not part of the range.
#[derive(Clone, Copy, PartialEq, Eq, Debug)]
pub struct End {
    pub units: u16,
    pub open: bool,
}

// The range of one clock; an end that is missing does not bound it.
#[derive(Clone, Copy, PartialEq, Eq, Debug, Default)]
pub struct Ends {
    pub low: Option<End>,
    pub high: Option<End>,
}
