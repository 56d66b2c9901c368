// The face identity: for k below m, face k of face m is face m - 1 of face k, whichever of the two are lower or upper.
ghost use Rattle.std.specs.Prelude.{◌≡◌, ◌<◌, length};
ghost use Rattle.model.specs.Below.{all_below};
ghost use Rattle.model.specs.Cells.{cell_at};
ghost use Rattle.model.specs.Rules.{every_cell, letters_ok, commutes, commutes_all, identity_ok};

use crate::faces::{EventOf, cell_at};
use crate::letters::Lettered;
use crate::rule::Rule;

// Event m of a lettered cell, whose faces meet those of each event before it.
#[derive(Clone, Copy)]
struct Corner<'a> {
    event: EventOf<'a>,
    ghost lettered: { every_cell letters_ok event.linked.cells.now },
}

impl<'a> Lettered<'a> {
    fn corner(&self, i: usize, m: usize) -> Corner<'a>
        requires here { i < length self.now.linked.cells.now }
        requires event { m < (cell_at self.now.linked.cells.now i).dim }
        ensures among { result.event.linked ≡ self.now.linked }
        ensures of_cell { result.event.i ≡ i }
        ensures at { result.event.k ≡ m }
    {
        let event = self.linked.event(i, m);
        Corner { event }
    }
}

impl Corner<'_> {
    // The flags say of the faces k and m whether each is the upper one.
    fn commutes(&self, k: usize, a: bool, b: bool) -> bool
        requires { k < self.now.event.k }
        ensures { result ≡ commutes self.now.event.linked.cells.now self.now.event.i k self.now.event.k a b }
    {
        let EventOf { linked, i, k: m } = self.event;
        let outer = self.event.face(b);
        let inner = linked.event(i, k).face(a);
        linked.event(outer, k).face(a) == linked.event(inner, m - 1).face(b)
    }

    fn commutes_all(&self, k: usize) -> bool
        requires { k < self.now.event.k }
        ensures { result ≡ commutes_all self.now.event.linked.cells.now self.now.event.i self.now.event.k k }
    {
        self.commutes(k, false, false)
            && self.commutes(k, false, true)
            && self.commutes(k, true, false)
            && self.commutes(k, true, true)
    }

    fn commutes_below(&self) -> bool
        ensures { result ≡ all_below self.now.event.k (commutes_all self.now.event.linked.cells.now self.now.event.i self.now.event.k) }
    {
        (0..self.event.k).all(|k| self.commutes_all(k))
    }
}

#[derive(Clone, Copy)]
pub(crate) struct Identity<'a>(pub(crate) Lettered<'a>);

impl Rule for Identity<'_> {
    ghost count = { λ r. length r.0.linked.cells.now };

    ghost test = { λ r i. identity_ok r.0.linked.cells.now i };

    fn count(&self) -> usize {
        self.0.linked.cells.len()
    }

    fn keeps(&self, i: usize) -> bool {
        let cells = self.0;
        (0..cell_at(cells.linked.cells, i).dim).all(|m| cells.corner(i, m).commutes_below())
    }
}
