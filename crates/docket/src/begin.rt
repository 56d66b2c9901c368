// A fresh docket, and the calls on its trail.
ghost use Rattle.std.specs.Prelude.{◌≡◌};
ghost use Rattle.wire.specs.declared.step.Step.TheVariants.{Wait, Start, Finish};
ghost use Rattle.model.specs.Whole.{plan_of};
ghost use Rattle.trail.specs.Calls.{setting_out, stepped};
ghost use Rattle.docket.specs.World.{fresh_docket, trailed};

use crate::docket::Docket;
use crate::marks::OPEN;
use model::accepted::Model;
use slip::Slip;
use trail::position::Trail;
use wire::step::Step;

impl Docket {
    // An open opening duty, and no trail.
    pub fn new() -> Docket
        ensures { result ≡ fresh_docket }
    {
        Docket {
            opening: OPEN,
            trail: Trail::none(),
        }
    }

    // Puts the trail at the opening of a run.
    pub fn set_out(&mut self, model: &Model, scale: u16) -> Result<(), Slip>
        ensures { (result, self.new) ≡ trailed (setting_out (plan_of model.now) scale self.old.trail) self.old }
    {
        self.trail.set_out(model, scale)
    }

    // Lets that many ticks pass on the trail.
    pub fn wait(&mut self, model: &Model, ticks: u32) -> Result<(), Slip>
        ensures { (result, self.new) ≡ trailed (stepped (plan_of model.now) (Wait ticks) self.old.trail) self.old }
    {
        self.trail.wait(model, ticks)
    }

    // Starts event k of a cell on the trail.
    pub fn start(&mut self, model: &Model, cell: u16, k: u8) -> Result<(), Slip>
        ensures { (result, self.new) ≡ trailed (stepped (plan_of model.now) (Start cell k) self.old.trail) self.old }
    {
        self.trail.start(model, cell, k)
    }

    // Finishes event k of the trail's cell.
    pub fn finish(&mut self, model: &Model, k: u8) -> Result<(), Slip>
        ensures { (result, self.new) ≡ trailed (stepped (plan_of model.now) (Finish k) self.old.trail) self.old }
    {
        self.trail.finish(model, k)
    }

    // Makes a step of a trail file on the trail, by the call that is its own.
    pub fn step(&mut self, model: &Model, step: Step) -> Result<(), Slip>
        ensures { (result, self.new) ≡ trailed (stepped (plan_of model.now) step self.old.trail) self.old }
    {
        match step {
            Step::Wait(ticks) => self.wait(model, ticks),
            Step::Start { cell, event } => self.start(model, cell, event),
            Step::Finish(event) => self.finish(model, event),
        }
    }
}
