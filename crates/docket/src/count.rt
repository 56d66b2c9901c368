// Counting duties, and those that are open.
ghost use Rattle.std.specs.Prelude.{◌≡◌, ℕ, ◌*◌, ◌≤◌, List};
ghost use Rattle.model.specs.Whole.{plan_of};
ghost use Rattle.docket_theory.specs.Docket.{steps_out, open_one, open_steps, open_entries, open_duties, entry_duties, duty_count};
ghost use Rattle.docket_theory.specs.Worlds.{row_in, steps_per_entry};
ghost use Rattle.docket.specs.declared.docket.Docket.{Docket};
ghost use Rattle.docket.specs.World.{world};

use crate::docket::Docket;
use crate::duty::steps_from;
use crate::entries::Entries;
use crate::marks::{OPEN, STEPS_PER_ENTRY, mark_at};
use clockset::ClockSet;
use model::accepted::Model;

fn open_one(mark: u16) -> u32
    ensures is { result ≡ open_one mark }
    ensures few { result ≤ 1 }
{
    if mark == OPEN { 1 } else { 0 }
}

impl<'a, S: Copy> Entries<'a, S> {
    // How many steps leave the cell of entry i.
    fn steps_out(&self, model: &Model, i: u16) -> u32
        ensures is { result ≡ steps_out (plan_of model.now) (row_in self.now.rows.now self.now.live i) }
        ensures few { result ≤ steps_per_entry }
    {
        self.row(i as usize)
            .map_or(0, |e| steps_from(model, e.cell).count as u32)
    }

    // How many duties the entries have.
    fn entry_duties(&self, model: &Model) -> u32
        ensures is { (marks : List ℕ) (d : Docket) → result ≡ entry_duties (plan_of model.now) (world self.now marks d) self.now.live }
        ensures few { result ≤ steps_per_entry * 65535 }
    {
        (0..self.live).map(|i| self.steps_out(model, i)).sum()
    }

    // How many of entry i's duties are open.
    fn open_steps(&self, model: &Model, marks: &[u16], i: u16) -> u32
        ensures is { (d : Docket) → result ≡ open_steps (world self.now marks.now d) i (steps_out (plan_of model.now) (row_in self.now.rows.now self.now.live i)) }
        ensures few { result ≤ steps_per_entry }
    {
        let first = i as usize * STEPS_PER_ENTRY;
        (0..self.steps_out(model, i))
            .map(|j| open_one(mark_at(marks, first + j as usize)))
            .sum()
    }

    // How many duties of entries are open.
    fn open_entries(&self, model: &Model, marks: &[u16]) -> u32
        ensures is { (d : Docket) → result ≡ open_entries (plan_of model.now) (world self.now marks.now d) self.now.live }
        ensures few { result ≤ steps_per_entry * 65535 }
    {
        (0..self.live)
            .map(|i| self.open_steps(model, marks, i))
            .sum()
    }
}

impl Docket {
    // How many duties are open.
    pub(crate) fn open_duties<S: Copy>(
        &self,
        model: &Model,
        entries: &Entries<S>,
        marks: &[u16],
    ) -> u32
        ensures { result ≡ open_duties (plan_of model.now) (world entries.now marks.now self.now) }
    {
        open_one(self.opening) + entries.open_entries(model, marks)
    }
}

impl<'a, S: ClockSet> Entries<'a, S> {
    // How many duties there are, the opening duty among them.
    pub fn duties(&self, model: &Model) -> u32
        ensures { (marks : List ℕ) (d : Docket) → result ≡ duty_count (plan_of model.now) (world self.now marks d) }
    {
        1 + self.entry_duties(model)
    }
}
