// What a step makes of the readings of a set.
ghost use Rattle.std.specs.Prelude.{◌≡◌, ◌-◌, true};
ghost use Rattle.clockset.specs.Calls.{◌⨾◌};
ghost use Rattle.model.specs.Cells.{face};
ghost use Rattle.model.specs.Whole.{plan_of};
ghost use Rattle.docket_theory.specs.Images.{cut_by, target, image, opening_image};
ghost use Rattle.images.specs.Departures.{departure, onward, image_from, closed_form};

use crate::departure::Departure;
use crate::gaps::gaps_of;
use clockset::{ClockSet, ClosedForms};
use docket_theory::Entry;
use model::accepted::Model;
use model::outgoing::Move;
use slip::Slip;
use wire::cell::Cell;

// The readings that meet the cell's invariant.
fn cut_by<S: ClockSet>(a: &S, cell: &Cell) -> Result<S, Slip>
    ensures { result ≡ cut_by S.calls cell.now a.now }
{
    let gaps = gaps_of(cell);
    a.cut(gaps.gaps())
}

// The closed form of these readings.
fn cut_closed_by<S: ClosedForms>(a: &S, cell: &Cell) -> Result<S, Slip>
    ensures { result ≡ closed_form S.closings (cut_by S.calls cell.now a.now) }
{
    let gaps = gaps_of(cell);
    a.cut_closed(gaps.gaps())
}

// The upper face by event k, counted from 1, of cell c.
fn upper_face(model: &Model, c: usize, k: u8) -> usize
    ensures { result ≡ face (plan_of model.now).cells true c (k - 1) }
{
    let cell = model.cell(c);
    let event = cell.events.get(k.saturating_sub(1) as usize);
    event.map_or(0, |event| event.upper as usize)
}

// The cell that a step out of cell c leads to.
pub fn target_of(model: &Model, c: usize, step: Move) -> usize
    ensures { result ≡ target (plan_of model.now) c step }
{
    match step {
        Move::Wait => c,
        Move::Finish(k) => upper_face(model, c, k),
        Move::Start(d, _) => d as usize,
    }
}

fn leave<S: ClockSet>(inside: Result<S, Slip>, exits: u8) -> Result<S, Slip>
    ensures { result ≡ (inside ⨾ λ a. S.calls.reset a exits) }
{
    inside?.reset(exits)
}

// What the steps out of the entry's cell go on from.
pub fn depart<S: ClockSet>(model: &Model, from: &Entry<S>) -> Departure<S>
    ensures { result ≡ departure S.calls (plan_of model.now) from.now }
{
    let cell = model.cell(from.cell as usize);
    let inside = cut_by(&from.set, &cell);
    Departure {
        inside,
        left: leave(inside, cell.exits),
    }
}

impl<S: ClockSet> Departure<S> {
    // Time passes inside the cell, or the cell is left.
    fn onward(&self, step: Move) -> Result<S, Slip>
        ensures { result ≡ onward S.calls self.now step }
    {
        match step {
            Move::Wait => self.inside?.delay(),
            Move::Finish(_) => self.left,
            Move::Start(_, _) => self.left,
        }
    }

    // What a step out of cell c makes of the set.
    fn image(&self, model: &Model, c: usize, step: Move) -> Result<S, Slip>
        ensures { result ≡ image_from S.calls (plan_of model.now) c self.now step }
    {
        let a = self.onward(step)?;
        cut_by(&a, &model.cell(target_of(model, c, step)))
    }
}

impl<S: ClosedForms> Departure<S> {
    // The closed form of what a step out of cell c makes of the set.
    pub fn closed_image(&self, model: &Model, c: usize, step: Move) -> Result<S, Slip>
        ensures { result ≡ closed_form S.closings (image_from S.calls (plan_of model.now) c self.now step) }
    {
        let a = self.onward(step)?;
        cut_closed_by(&a, &model.cell(target_of(model, c, step)))
    }
}

// What a step out of the entry's cell makes of its set.
pub fn image_of<S: ClockSet>(model: &Model, from: &Entry<S>, step: Move) -> Result<S, Slip>
    ensures { result ≡ image S.calls (plan_of model.now) from.now.cell from.now.set step }
{
    depart(model, from).image(model, from.cell as usize, step)
}

// The opening of every run.
pub fn opening_image<S: ClockSet>(model: &Model) -> Result<S, Slip>
    ensures { result ≡ opening_image S.calls (plan_of model.now) }
{
    cut_by(&S::zero(), &model.cell(model.first))
}

// The closed form of this.
pub fn closed_opening_image<S: ClosedForms>(model: &Model) -> Result<S, Slip>
    ensures { result ≡ closed_form S.closings (opening_image S.calls (plan_of model.now)) }
{
    cut_closed_by(&S::zero(), &model.cell(model.first))
}
