// A cell of a plan as its file gives it.
ghost use Rattle.std.specs.Prelude.{◌≤◌};

use wire_ends::ends::Ends;

// What an event works on.
#[derive(Clone, Copy, PartialEq, Eq, Debug)]
pub enum Letter {
    Barrier,
    Display,
    Read,
    Write,
    Sensor,
}

// An event of a cell: the lower face is the cell before it starts, the upper face the cell after it finishes.
#[derive(Clone, Copy, PartialEq, Eq, Debug)]
pub struct Event {
    pub letter: Letter,
    pub lower: u16,
    pub upper: u16,
}

// A cell: its events in order, of which the first `dim` count, whether it is final, the clocks that are reset on leaving it
// (bit 0 is clock 1), and the ranges of clocks 1 to 6, which are its invariant.
// Slots with the number that counts, not a `Vec`: a cell is `Copy`, and the format's definitions build cells from lists.
#[derive(Clone, Copy)]
pub struct Cell {
    pub events: [Event; 4],
    pub dim: usize,
    pub last: bool,
    pub exits: u8,
    pub ends: [Ends; 6],
    ghost few: { dim ≤ 4 },
}
