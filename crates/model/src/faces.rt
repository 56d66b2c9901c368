// Cells and their faces by number.
ghost use Rattle.std.specs.Prelude.{◌≡◌, ◌<◌, ◌≤◌, length, take};
ghost use Rattle.model.specs.Below.{all_below};
ghost use Rattle.model.specs.Cells.{cell_at, event_at, face, face_of};
ghost use Rattle.model.specs.Rules.{faces_in, every_cell, inside_of};

use crate::rule::Rule;
use wire::cell::{Cell, Event};

pub(crate) fn cell_at(cells: &[Cell], i: usize) -> &Cell
    requires { i < length cells.now }
    ensures { result.now ≡ cell_at cells.now i }
{
    &cells[i]
}

// The events of a cell, in order.
pub(crate) fn events_of(cell: &Cell) -> &[Event]
    ensures is { result.now ≡ take cell.now.dim cell.now.events }
    ensures long { cell.now.dim ≤ length cell.now.events }
{
    &cell.events[..cell.dim]
}

pub(crate) fn event_at(cell: &Cell, k: usize) -> Event
    requires { k < cell.now.dim }
    ensures { result ≡ event_at cell.now k }
{
    cell.events[k]
}

// The face of an event, lower or upper: a flag and no enum, as in the definition, which is by cases of a truth value too.
pub(crate) fn face_of(event: Event, upper: bool) -> usize
    ensures { result ≡ face_of upper event }
{
    if upper {
        event.upper as usize
    } else {
        event.lower as usize
    }
}

fn event_below(event: &Event, n: usize) -> bool
    ensures { result ≡ inside_of n event.now }
{
    (event.lower as usize) < n && (event.upper as usize) < n
}

// Whether every face of the cell is below n.
fn faces_below(cell: &Cell, n: usize) -> bool
    ensures { result ≡ all_below cell.now.dim (λ k. inside_of n (event_at cell.now k)) }
{
    events_of(cell).iter().all(|event| event_below(event, n))
}

// Every face is a cell.
#[derive(Clone, Copy)]
pub(crate) struct Faces<'a>(pub(crate) &'a [Cell]);

impl Rule for Faces<'_> {
    ghost count = { λ r. length r.0.now };

    ghost test = { λ r i. faces_in r.0.now i };

    fn count(&self) -> usize {
        self.0.len()
    }

    fn keeps(&self, i: usize) -> bool {
        faces_below(cell_at(self.0, i), self.0.len())
    }
}

// Cells that are linked: each of their faces is one of them.
#[derive(Clone, Copy)]
pub(crate) struct Linked<'a> {
    pub(crate) cells: &'a [Cell],
    ghost small: { length cells.now ≤ 200 },
    ghost linked: { every_cell faces_in cells.now },
}

impl<'a> Linked<'a> {
    // Event k of cell i.
    pub(crate) fn event(&self, i: usize, k: usize) -> EventOf<'a>
        requires here { i < length self.now.cells.now }
        requires event { k < (cell_at self.now.cells.now i).dim }
        ensures among { result.linked ≡ self.now }
        ensures of_cell { result.i ≡ i }
        ensures at { result.k ≡ k }
    {
        EventOf {
            linked: *self,
            i,
            k,
        }
    }
}

// An event of a cell, both by number.
#[derive(Clone, Copy)]
pub(crate) struct EventOf<'a> {
    pub(crate) linked: Linked<'a>,
    pub(crate) i: usize,
    pub(crate) k: usize,
    ghost here: { i < length linked.cells.now },
    ghost event: { k < (cell_at linked.cells.now i).dim },
}

impl EventOf<'_> {
    // The number of its lower or upper face: a cell again.
    pub(crate) fn face(&self, upper: bool) -> usize
        ensures is { result ≡ face self.now.linked.cells.now upper self.now.i self.now.k }
        ensures within { result < length self.now.linked.cells.now }
    {
        face_of(event_at(cell_at(self.linked.cells, self.i), self.k), upper)
    }
}
