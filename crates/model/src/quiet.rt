// The first cell and the final cells have no event.
ghost use Rattle.std.specs.Prelude.{◌≡◌, length};
ghost use Rattle.model.specs.Rules.{quiet_ok};

use crate::faces::cell_at;
use crate::rule::Rule;
use wire::cell::Cell;

#[derive(Clone, Copy)]
pub(crate) struct Quiet<'a> {
    pub(crate) first: usize,
    pub(crate) cells: &'a [Cell],
}

impl Rule for Quiet<'_> {
    ghost count = { λ q. length q.cells.now };

    ghost test = { λ q i. quiet_ok q.first q.cells.now i };

    fn count(&self) -> usize {
        self.cells.len()
    }

    fn keeps(&self, i: usize) -> bool {
        let cell = cell_at(self.cells, i);
        cell.dim == 0 || !(i == self.first || cell.last)
    }
}
