// Looking up cells and steps of a model.
ghost use Rattle.std.specs.Prelude.{◌≡◌, length, if◌then◌else◌, Some, None, nat_lt};
ghost use Rattle.std.specs.Option.{option_map};
ghost use Rattle.model.specs.Cells.{blank_cell, cell_at};
ghost use Rattle.model.specs.Outgoing.{moves_out};
ghost use Rattle.model.specs.Taken.{taken};
ghost use Rattle.model.specs.Whole.{plan_of};

use crate::accepted::Model;
use crate::faces::Linked;
use crate::outgoing::Moves;
use wire::cell::{Cell, Ends, Event, Letter};

// A cell with no events, no exits and no ends, that is not final: what a number beyond the model reads as.
fn blank_cell() -> Cell
    ensures { result ≡ blank_cell }
{
    let event = Event {
        letter: Letter::Barrier,
        lower: 0,
        upper: 0,
    };
    Cell {
        events: [event; 4],
        dim: 0,
        last: false,
        exits: 0,
        ends: [Ends::default(); 6],
    }
}

impl Model {
    // The cell of that number, or a blank one if there is none.
    pub fn cell(&self, i: usize) -> Cell
        ensures { result ≡ cell_at (plan_of self.now).cells i }
    {
        self.cells.get(i).copied().unwrap_or_else(blank_cell)
    }

    // The steps out of a cell, in the order of their numbers, if there is such a cell.
    pub fn moves(&self, i: usize) -> Option<Moves>
        ensures { option_map taken result ≡ (if nat_lt i (length (plan_of self.now).cells) then Some (moves_out (plan_of self.now).cells i) else None) }
    {
        if i < self.cells.len() {
            let linked = Linked { cells: &self.cells };
            Some(linked.moves_out(i))
        } else {
            None
        }
    }
}
