// The letters of faces: face k carries the cell's letters without the k-th.
ghost use Rattle.std.specs.Prelude.{◌≡◌, ◌+◌, ◌<◌, ◌≤◌, length};
ghost use Rattle.model.specs.Below.{all_below};
ghost use Rattle.model.specs.Cells.{cell_at};
ghost use Rattle.model.specs.Rules.{every_cell, past, lacks, letters_ok, same_at, lacks_both};

use crate::faces::{EventOf, Linked, cell_at, event_at};
use crate::rule::Rule;
use wire::cell::Cell;

// The index, in a cell, of event j of its face k.
fn past_event(k: usize, j: usize) -> usize
    requires { j < 4 }
    ensures { result ≡ past k j }
{
    if j < k { j } else { j + 1 }
}

fn same_at(face: &Cell, cell: &Cell, k: usize, j: usize) -> bool
    requires inside { j < face.now.dim }
    requires fewer { face.now.dim + 1 ≤ cell.now.dim }
    ensures { result ≡ same_at face.now cell.now k j }
{
    event_at(face, j).letter == event_at(cell, past_event(k, j)).letter
}

fn letters_match(face: &Cell, cell: &Cell, k: usize) -> bool
    requires { face.now.dim + 1 ≡ cell.now.dim }
    ensures { result ≡ all_below face.now.dim (same_at face.now cell.now k) }
{
    (0..face.dim).all(|j| same_at(face, cell, k, j))
}

fn cell_lacks(face: &Cell, cell: &Cell, k: usize) -> bool
    ensures { result ≡ lacks face.now cell.now k }
{
    face.dim + 1 == cell.dim && letters_match(face, cell, k)
}

impl EventOf<'_> {
    fn faces_lack(&self) -> bool
        ensures { result ≡ lacks_both self.now.linked.cells.now self.now.i self.now.k }
    {
        let cells = self.linked.cells;
        let cell = cell_at(cells, self.i);
        let lower = cell_at(cells, self.face(false));
        let upper = cell_at(cells, self.face(true));
        cell_lacks(lower, cell, self.k) && cell_lacks(upper, cell, self.k)
    }
}

#[derive(Clone, Copy)]
pub(crate) struct Letters<'a>(pub(crate) Linked<'a>);

impl Rule for Letters<'_> {
    ghost count = { λ r. length r.0.cells.now };

    ghost test = { λ r i. letters_ok r.0.cells.now i };

    fn count(&self) -> usize {
        self.0.cells.len()
    }

    fn keeps(&self, i: usize) -> bool {
        let linked = self.0;
        (0..cell_at(linked.cells, i).dim).all(|k| linked.event(i, k).faces_lack())
    }
}

// Linked cells whose faces carry the letters that they should.
#[derive(Clone, Copy)]
pub(crate) struct Lettered<'a> {
    pub(crate) linked: Linked<'a>,
    ghost lettered: { every_cell letters_ok linked.cells.now },
}
