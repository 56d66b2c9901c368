// What a docket says of its model.
ghost use Rattle.std.specs.Prelude.{◌≡◌};
ghost use Rattle.model.specs.Whole.{plan_of};
ghost use Rattle.docket_theory.specs.Docket.{final_position, final_row, none_final, verdict_of};
ghost use Rattle.docket_theory.specs.Log.{Log, Logged};
ghost use Rattle.docket_theory.specs.Promise.{Promise};
ghost use Rattle.docket_theory.specs.Worlds.{row_in};
ghost use Rattle.docket.specs.World.{world, entries_world};

use crate::docket::Docket;
use crate::entries::Entries;
use clockset::ClockSet;
use docket_theory::Verdict;
use model::accepted::Model;
use trail::position::Position;

fn final_position(model: &Model, position: Option<Position>) -> bool
    ensures { result ≡ final_position (plan_of model.now) position }
{
    position.is_some_and(|p| model.cell(p.cell).last)
}

impl<'a, S: Copy> Entries<'a, S> {
    fn final_row(&self, model: &Model, i: u16) -> bool
        ensures { result ≡ final_row (plan_of model.now) (row_in self.now.rows.now self.now.live i) }
    {
        self.row(i as usize)
            .is_some_and(|e| model.cell(e.cell as usize).last)
    }

    fn none_final(&self, model: &Model) -> bool
        ensures { result ≡ none_final (plan_of model.now) (entries_world self.now) }
    {
        (0..self.live).all(|i| !self.final_row(model, i))
    }
}

impl Docket {
    // Reached: the trail stands in a final cell. Shut: every duty is settled, and no entry's cell is final.
    fn judged<S: ClockSet>(&self, model: &Model, entries: &Entries<S>, marks: &[u16]) -> Verdict
        ensures { result ≡ verdict_of (plan_of model.now) (world entries.now marks.now self.now) }
    {
        if final_position(model, self.trail.position) {
            return Verdict::Reached;
        }
        if self.open_duties(model, entries, marks) == 0 && entries.none_final(model) {
            Verdict::Shut
        } else {
            Verdict::Undecided
        }
    }

    // What the docket says of the model. Whatever calls led here, the docket keeps its promise.
    pub fn verdict<S: ClockSet>(
        &self,
        model: &Model,
        entries: &Entries<S>,
        marks: &[u16],
    ) -> Verdict
        ensures is { result ≡ verdict_of (plan_of model.now) (world entries.now marks.now self.now) }
        ensures promise { (log : Log S) → Logged S.calls (plan_of model.now) log (world entries.now marks.now self.now) → Promise S.holds S.calls (plan_of model.now) (world entries.now marks.now self.now) log }
    {
        self.judged(model, entries, marks)
    }
}
