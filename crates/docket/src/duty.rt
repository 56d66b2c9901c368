// What a docket owes: its duties, their images, and the cells that they lead to.
ghost use Rattle.std.specs.Prelude.{◌≡◌};
ghost use Rattle.model.specs.Outgoing.{moves_out};
ghost use Rattle.model.specs.Taken.{taken};
ghost use Rattle.model.specs.Whole.{plan_of};
ghost use Rattle.docket_theory.specs.Docket.{duty_of, duty_at};
ghost use Rattle.docket_theory.specs.Images.{duty_image, duty_target};
ghost use Rattle.docket.specs.World.{entries_world};

use crate::entries::Entries;
use crate::marks::OPEN;
use clockset::ClockSet;
use docket_theory::{Duty, Entry};
use images::{image_of, opening_image, target_of};
use model::accepted::Model;
use model::outgoing::{Move, Moves};
use slip::Slip;

// The steps out of a cell. One that the model does not have is left by waiting only, as no event starts from it.
pub(crate) fn steps_from(model: &Model, cell: u16) -> Moves
    ensures { taken result ≡ moves_out (plan_of model.now).cells cell }
{
    model
        .moves(cell as usize)
        .unwrap_or(Moves::only(Move::Wait))
}

fn duty_of<S: Copy>(model: &Model, from: Option<Entry<S>>, step: u16) -> Option<Duty<S>>
    ensures { result ≡ duty_of (plan_of model.now) from step }
{
    let from = from?;
    let way = steps_from(model, from.cell).get(step as usize)?;
    Some(Duty::Leave(from, way))
}

// The duty of that number: the opening duty for an open mark and step 0, else a step out of an entry's cell.
pub(crate) fn duty_at<S: Copy>(
    model: &Model,
    entries: &Entries<S>,
    i: u16,
    step: u16,
) -> Option<Duty<S>>
    ensures { result ≡ duty_at (plan_of model.now) (entries_world entries.now) i step }
{
    if i != OPEN {
        return duty_of(model, entries.row(i as usize), step);
    }
    if step == 0 { Some(Duty::Opening) } else { None }
}

pub(crate) fn duty_image<S: ClockSet>(model: &Model, duty: &Duty<S>) -> Result<S, Slip>
    ensures { result ≡ duty_image S.calls (plan_of model.now) duty.now }
{
    match duty {
        Duty::Opening => opening_image(model),
        Duty::Leave(from, step) => image_of(model, from, *step),
    }
}

pub(crate) fn duty_target<S: Copy>(model: &Model, duty: &Duty<S>) -> usize
    ensures { result ≡ duty_target (plan_of model.now) duty.now }
{
    match duty {
        Duty::Opening => model.first,
        Duty::Leave(from, step) => target_of(model, from.cell as usize, *step),
    }
}
