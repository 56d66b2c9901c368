// At most sixteen steps leave a cell.
ghost use Rattle.std.specs.Prelude.{◌≡◌, ◌<◌, ◌≤◌, length};
ghost use Rattle.model.specs.Cells.{cell_at};
ghost use Rattle.model.specs.Outgoing.{starts_into, starts_below};
ghost use Rattle.model.specs.Rules.{few_ok};

use crate::faces::{Linked, cell_at, events_of};
use crate::rule::Rule;
use wire::cell::Cell;

// How many events of cell d have cell c as their lower face.
fn count_starts_into(cells: &[Cell], c: usize, d: usize) -> usize
    requires { d < length cells.now }
    ensures is { result ≡ length (starts_into cells.now c d (cell_at cells.now d).dim) }
    ensures most { result ≤ 4 }
{
    events_of(cell_at(cells, d))
        .iter()
        .filter(|event| event.lower as usize == c)
        .count()
}

impl Linked<'_> {
    fn count_starts(&self, c: usize) -> usize
        ensures is { result ≡ length (starts_below self.now.cells.now c (length self.now.cells.now)) }
        ensures most { result ≤ 800 }
    {
        let cells = self.cells;
        (0..cells.len())
            .map(|d| count_starts_into(cells, c, d))
            .sum()
    }
}

#[derive(Clone, Copy)]
pub(crate) struct Few<'a>(pub(crate) Linked<'a>);

impl Rule for Few<'_> {
    ghost count = { λ r. length r.0.cells.now };

    ghost test = { λ r i. few_ok r.0.cells.now i };

    fn count(&self) -> usize {
        self.0.cells.len()
    }

    fn keeps(&self, i: usize) -> bool {
        1 + cell_at(self.0.cells, i).dim + self.0.count_starts(i) <= 16
    }
}
