// Where a trail stands.

// The cell, the counts of clocks 1 to 6 in ticks, how many ticks a unit has, and how many ticks were waited since setting out.
#[derive(Clone, Copy)]
pub struct Position {
    pub cell: usize,
    pub counts: [u32; 6],
    pub scale: u16,
    pub elapsed: u32,
}

// A trail: nowhere until it has been set out.
#[derive(Clone, Copy)]
pub struct Trail {
    pub position: Option<Position>,
}
