// The calls on a trail.
ghost use Rattle.std.specs.Prelude.{◌≡◌, ◌-◌, ◌&&◌, if◌then◌else◌, Some, None, Ok, length, nat_lt, nat_le};
ghost use Rattle.wire.specs.declared.step.Step.TheVariants.{Wait, Start, Finish};
ghost use Rattle.model.specs.Cells.{cell_at, event_at};
ghost use Rattle.model.specs.Whole.{plan_of};
ghost use Rattle.trail.specs.Calls.{slip_at, landing, opening_at, on_trail, wait_from, start_at, finish_from, outcome, setting_out, waited, started, finished, stepped, into, has_event, room_for};
ghost use Rattle.trail.specs.Walks.{SetsOut, Walks};

use crate::config::{LIMIT, cleared_counts, fit, later_counts, meets_cell};
use crate::position::{Position, Trail};
use model::accepted::Model;
use slip::{Refusal, Slip};
use wire::cell::{Cell, Event};
use wire::step::Step;

// Event k of the cell, counted from 1, if it has one.
fn event_of(cell: &Cell, k: u8) -> Option<Event>
    ensures { result ≡ (if nat_le 1 k && nat_le k cell.now.dim then Some (event_at cell.now (k - 1)) else None) }
{
    if 1 <= k && k as usize <= cell.dim {
        Some(cell.events[k as usize - 1])
    } else {
        None
    }
}

fn room_for(p: &Position, ticks: u32) -> bool
    ensures { result ≡ room_for ticks p.now }
{
    fit(&p.counts, ticks) && p.elapsed as u64 + ticks as u64 <= LIMIT as u64
}

// A trail in its model: where a call would lead it.
#[derive(Clone, Copy)]
struct Walk<'a> {
    model: &'a Model,
    trail: &'a Trail,
}

impl Walk<'_> {
    fn slip(&self, refusal: Refusal) -> Slip
        ensures { result ≡ slip_at refusal self.now.trail.now }
    {
        refusal.at(self.trail.position.map_or(0, |p| p.cell))
    }

    // Where the trail stands.
    fn position(&self) -> Result<Position, Slip>
        ensures { result ≡ on_trail self.now.trail.now Ok }
    {
        self.trail.position.ok_or(self.slip(Refusal::NoTrail))
    }

    // The position, if it is a configuration.
    fn landing(&self, p: Position) -> Result<Position, Slip>
        ensures { result ≡ landing (plan_of self.now.model.now) p self.now.trail.now }
    {
        if meets_cell(&self.model.cell(p.cell), p.scale, &p.counts) {
            Ok(p)
        } else {
            Err(self.slip(Refusal::NoConfiguration))
        }
    }

    // The position after going into cell d: the exit set of the cell left is reset.
    fn going_into(&self, d: usize, p: &Position) -> Position
        ensures { result ≡ into (plan_of self.now.model.now) d p.now }
    {
        let left = self.model.cell(p.cell);
        Position {
            cell: d,
            counts: cleared_counts(left.exits, &p.counts),
            ..*p
        }
    }

    fn opening(&self, scale: u16) -> Result<Position, Slip>
        ensures { result ≡ opening_at (plan_of self.now.model.now) scale self.now.trail.now }
    {
        if !(1..=1000).contains(&scale) {
            return Err(self.slip(Refusal::BadScale));
        }
        self.landing(Position {
            cell: self.model.first,
            counts: [0; 6],
            scale,
            elapsed: 0,
        })
    }

    fn wait(&self, ticks: u32) -> Result<Position, Slip>
        ensures { result ≡ on_trail self.now.trail.now (wait_from (plan_of self.now.model.now) ticks self.now.trail.now) }
    {
        let p = self.position()?;
        if !room_for(&p, ticks) {
            return Err(self.slip(Refusal::CountTooLarge));
        }
        self.landing(Position {
            counts: later_counts(&p.counts, ticks),
            elapsed: p.elapsed + ticks,
            ..p
        })
    }

    // Event k of that cell, if the model has it.
    fn event(&self, cell: usize, k: u8) -> Option<Event>
        ensures { result ≡ (if nat_lt cell (length (plan_of self.now.model.now).cells) && has_event (plan_of self.now.model.now) cell k then Some (event_at (cell_at (plan_of self.now.model.now).cells cell) (k - 1)) else None) }
    {
        self.model
            .cells
            .get(cell)
            .and_then(|entered| event_of(entered, k))
    }

    fn start(&self, cell: usize, k: u8) -> Result<Position, Slip>
        ensures { result ≡ start_at (plan_of self.now.model.now) cell k self.now.trail.now }
    {
        let event = self.event(cell, k).ok_or(self.slip(Refusal::Unknown))?;
        let p = self.position()?;
        if event.lower as usize != p.cell {
            return Err(self.slip(Refusal::NotThere));
        }
        self.landing(self.going_into(cell, &p))
    }

    fn finish(&self, k: u8) -> Result<Position, Slip>
        ensures { result ≡ on_trail self.now.trail.now (finish_from (plan_of self.now.model.now) k self.now.trail.now) }
    {
        let p = self.position()?;
        let here = self.model.cell(p.cell);
        let event = event_of(&here, k).ok_or(self.slip(Refusal::NotThere))?;
        self.landing(self.going_into(event.upper as usize, &p))
    }
}

impl Trail {
    pub fn none() -> Trail
        ensures { result.position ≡ None }
    {
        Trail { position: None }
    }

    // Goes where a call leads, or stays where it is refused.
    fn go(&mut self, target: Result<Position, Slip>) -> Result<(), Slip>
        ensures { (result, self.new) ≡ outcome target self.old }
    {
        self.position = Some(target?);
        Ok(())
    }

    // Puts the trail at the opening of a run: the first cell with six zeros.
    pub fn set_out(&mut self, model: &Model, scale: u16) -> Result<(), Slip>
        ensures is { (result, self.new) ≡ setting_out (plan_of model.now) scale self.old }
        ensures opens { SetsOut (plan_of model.now) scale self.old result self.new }
    {
        let target = Walk { model, trail: self }.opening(scale);
        self.go(target)
    }

    // Lets that many ticks pass.
    pub fn wait(&mut self, model: &Model, ticks: u32) -> Result<(), Slip>
        ensures is { (result, self.new) ≡ waited (plan_of model.now) ticks self.old }
        ensures walks { Walks (plan_of model.now) (Wait ticks) self.old result self.new }
    {
        let target = Walk { model, trail: self }.wait(ticks);
        self.go(target)
    }

    // Starts event k of a cell from its lower face, where the trail has to be.
    pub fn start(&mut self, model: &Model, cell: u16, k: u8) -> Result<(), Slip>
        ensures is { (result, self.new) ≡ started (plan_of model.now) cell k self.old }
        ensures walks { Walks (plan_of model.now) (Start cell k) self.old result self.new }
    {
        let target = Walk { model, trail: self }.start(cell as usize, k);
        self.go(target)
    }

    // Finishes event k of the cell where the trail is.
    pub fn finish(&mut self, model: &Model, k: u8) -> Result<(), Slip>
        ensures is { (result, self.new) ≡ finished (plan_of model.now) k self.old }
        ensures walks { Walks (plan_of model.now) (Finish k) self.old result self.new }
    {
        let target = Walk { model, trail: self }.finish(k);
        self.go(target)
    }

    // Takes one step, of any kind.
    pub fn step(&mut self, model: &Model, step: Step) -> Result<(), Slip>
        ensures is { (result, self.new) ≡ stepped (plan_of model.now) step self.old }
        ensures walks { Walks (plan_of model.now) step self.old result self.new }
    {
        match step {
            Step::Wait(ticks) => self.wait(model, ticks),
            Step::Start { cell, event } => self.start(model, cell, event),
            Step::Finish(event) => self.finish(model, event),
        }
    }
}
