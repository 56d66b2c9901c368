// The steps out of a cell, found in the order of their numbers: wait, the finishes by event, the starts by cell and then by event.
ghost use Rattle.std.specs.Prelude.{◌≡◌, ◌+◌, ◌*◌, ◌<◌, ◌≤◌, cond, [], ◌∷◌, ◌++◌, length};
ghost use Rattle.std.specs.List.{slice_get};
ghost use Rattle.model.specs.Cells.{cell_at, face};
ghost use Rattle.model.specs.Outgoing.{finishes, starts_into, starts_below, start_at, moves_out};
ghost use Rattle.model.specs.Rules.{few_ok};
ghost use Rattle.model.specs.Taken.{taken, capped};

use crate::faces::{EventOf, Linked, cell_at};
use crate::outgoing::{Move, Moves};

impl Moves {
    // One step alone.
    pub fn only(step: Move) -> Moves
        ensures { taken result ≡ step ∷ [] }
    {
        Moves {
            list: [step; 16],
            count: 1,
        }
    }

    // The steps, in the order of their numbers.
    pub fn steps(&self) -> &[Move]
        ensures { result.now ≡ taken self.now }
    {
        &self.list[..self.count]
    }

    // One more step; those past the sixteenth are left out, and an accepted model has none.
    fn push(&mut self, step: Move)
        ensures { taken self.new ≡ capped (taken self.old ++ step ∷ []) }
    {
        let n = self.count;
        if n < 16 {
            self.list[n] = step;
            self.count = n + 1;
        }
    }

    // The step of that number.
    pub fn get(&self, number: usize) -> Option<Move>
        ensures { result ≡ slice_get (taken self.now) number }
    {
        self.steps().get(number).copied()
    }
}

// The range's numbers make the steps; there is nothing to go over.
fn push_finishes(moves: &mut Moves, dim: usize)
    requires { dim ≤ 4 }
    ensures { taken moves.new ≡ capped (taken moves.old ++ finishes dim) }
{
    for k in 0..dim {
        moves.push(Move::Finish((k + 1) as u8));
    }
}

impl EventOf<'_> {
    // The start by this event, if c is its lower face.
    fn push_start(&self, moves: &mut Moves, c: usize)
        ensures { taken moves.new ≡ capped (taken moves.old ++ start_at self.now.linked.cells.now c self.now.i self.now.k) }
    {
        if self.face(false) == c {
            moves.push(Move::Start(self.i as u16, (self.k + 1) as u8));
        }
    }
}

// By number, since the step names the cell and the event.
impl Linked<'_> {
    fn push_starts_into(&self, moves: &mut Moves, c: usize, d: usize)
        requires { d < length self.now.cells.now }
        ensures { taken moves.new ≡ capped (taken moves.old ++ starts_into self.now.cells.now c d (cell_at self.now.cells.now d).dim) }
    {
        for k in 0..cell_at(self.cells, d).dim {
            self.event(d, k).push_start(moves, c);
        }
    }

    fn push_starts(&self, moves: &mut Moves, c: usize)
        ensures { taken moves.new ≡ capped (taken moves.old ++ starts_below self.now.cells.now c (length self.now.cells.now)) }
    {
        for d in 0..self.cells.len() {
            self.push_starts_into(moves, c, d);
        }
    }

    // As many steps out of cell c as a table has places for: all of them in an accepted model.
    pub(crate) fn moves_out(&self, c: usize) -> Moves
        requires { c < length self.now.cells.now }
        ensures { taken result ≡ capped (moves_out self.now.cells.now c) }
    {
        let mut moves = Moves::only(Move::Wait);
        push_finishes(&mut moves, cell_at(self.cells, c).dim);
        self.push_starts(&mut moves, c);
        moves
    }
}
