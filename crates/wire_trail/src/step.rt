// A step of a trail as its file gives it.

use std::fmt;

// Wait a number of ticks; start event `event` (counted from 1) of cell `cell`, from its lower face; finish that event of the present cell.
#[derive(Clone, Copy, PartialEq, Eq, Debug)]
pub enum Step {
    Wait(u32),
    Start { cell: u16, event: u8 },
    Finish(u8),
}

// The step in words, as reports and listings show it.
impl fmt::Display for Step {
    ghost use Rattle.std.specs.Prelude.{Some};
    ghost use Rattle.wire_trail.specs.Words.{step_words};

    ghost output = { λ x. Some (step_words x) };

    fn fmt<W: fmt::Write>(&self, f: &mut fmt::Formatter<W>) -> fmt::Result {
        match self {
            Step::Wait(ticks) => write!(f, "wait {ticks}"),
            Step::Start { cell, event } => write!(f, "start cell {cell} event {event}"),
            Step::Finish(event) => write!(f, "finish event {event}"),
        }
    }
}
