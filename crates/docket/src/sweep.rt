// Settling every open duty that some entry holds, or that has no reading.
ghost use Rattle.std.specs.Prelude.{◌≡◌, set, Some, slice_index_or, slice_set};
ghost use Rattle.model.specs.Whole.{plan_of};
ghost use Rattle.docket_theory.specs.declared.Duty.TheVariants.{Opening, Leave};
ghost use Rattle.docket_theory.specs.Docket.{can_hold, lowest_holder, found_mark, swept_mark, steps_out, steps_swept, entries_swept, swept};
ghost use Rattle.docket_theory.specs.Worlds.{open_mark, row_in};
ghost use Rattle.docket.specs.declared.docket.Docket.{Docket};
ghost use Rattle.docket.specs.World.{world, entries_world};

use crate::docket::Docket;
use crate::duty::steps_from;
use crate::entries::Entries;
use crate::marks::{EMPTY, OPEN, STEPS_PER_ENTRY, mark_at, put_mark};
use clockset::ClockSet;
use docket_theory::Entry;
use images::{image_of, opening_image, target_of};
use model::accepted::Model;
use model::outgoing::Move;
use slip::Slip;

// Whether the entry holds the set on the cell. Its cell is looked at first, as sets are dear to compare.
fn holds_on<S: ClockSet>(holder: &Entry<S>, a: &S, goal: usize) -> bool
    ensures { result ≡ can_hold S.calls a.now goal (Some holder.now) }
{
    holder.cell as usize == goal && a.within(&holder.set)
}

impl<'a, S: ClockSet> Entries<'a, S> {
    // Not by `row`, which copies the entry.
    fn can_hold(&self, h: usize, a: &S, goal: usize) -> bool
        ensures { result ≡ can_hold S.calls a.now goal (row_in self.now.rows.now self.now.live h) }
    {
        let rows = &*self.rows;
        h < self.live as usize && rows.get(h).is_some_and(|e| holds_on(e, a, goal))
    }

    // A `for` over the live entries with their index, as docs/forms.md lists it: it stops at the lowest that holds the set.
    fn lowest_holder(&self, a: &S, goal: usize) -> Option<u16>
        ensures { result ≡ lowest_holder S.calls (entries_world self.now) a.now goal }
    {
        for h in 0..self.live {
            if self.can_hold(h as usize, a, goal) {
                return Some(h);
            }
        }
        None
    }

    // The mark by which a duty with this image and target can be settled.
    fn found_mark(&self, goal: usize, found: Result<S, Slip>) -> u16
        ensures { result ≡ found_mark S.calls (entries_world self.now) goal found }
    {
        match found {
            Ok(a) => if a.is_empty() {
                EMPTY
            } else {
                self.lowest_holder(&a, goal).unwrap_or(OPEN)
            },
            Err(_) => OPEN,
        }
    }

    // Settles a step out of an entry's cell, if it is open and can be settled.
    fn sweep_step(
        &self,
        model: &Model,
        marks: &mut [u16],
        place: usize,
        from: &Entry<S>,
        step: Move,
    )
        ensures { marks.new ≡ slice_set marks.old place (swept_mark S.calls (plan_of model.now) (entries_world self.now) (Some (Leave from.now step)) (slice_index_or marks.old place open_mark)) }
    {
        if mark_at(marks, place) == OPEN {
            let goal = target_of(model, from.cell as usize, step);
            let mark = self.found_mark(goal, image_of(model, from, step));
            put_mark(marks, place, mark);
        }
    }

    // Sweeps the steps out of entry i's cell.
    fn sweep_entry(&self, model: &Model, marks: &mut [u16], i: u16)
        ensures { (d : Docket) → world self.now marks.new d ≡ steps_swept S.calls (plan_of model.now) i (steps_out (plan_of model.now) (row_in self.now.rows.now self.now.live i)) (world self.now marks.old d) }
    {
        if let Some(from) = self.row(i as usize) {
            let moves = steps_from(model, from.cell);
            let first = i as usize * STEPS_PER_ENTRY;
            for (j, step) in moves.steps().iter().enumerate() {
                self.sweep_step(model, marks, first + j, &from, *step);
            }
        }
    }

    // A `for` over the live entries with their index, as docs/forms.md lists it.
    fn sweep_entries(&self, model: &Model, marks: &mut [u16])
        ensures { (d : Docket) → world self.now marks.new d ≡ entries_swept S.calls (plan_of model.now) self.now.live (world self.now marks.old d) }
    {
        for i in 0..self.live {
            self.sweep_entry(model, marks, i);
        }
    }
}

impl Docket {
    fn sweep_opening<S: ClockSet>(&mut self, model: &Model, entries: &Entries<S>)
        ensures { self.new ≡ record { opening = swept_mark S.calls (plan_of model.now) (entries_world entries.now) (Some Opening) self.old.opening; trail = self.old.trail } }
    {
        if self.opening == OPEN {
            self.opening = entries.found_mark(model.first, opening_image::<S>(model));
        }
    }

    // Settles the duties that can be, the opening duty first and then entry by entry, and says how many stay open.
    pub fn sweep<S: ClockSet>(
        &mut self,
        model: &Model,
        entries: &Entries<S>,
        marks: &mut [u16],
    ) -> u32
        ensures { (result, world entries.now marks.new self.new) ≡ swept S.calls (plan_of model.now) (world entries.now marks.old self.old) }
    {
        self.sweep_opening(model, entries);
        entries.sweep_entries(model, marks);
        self.open_duties(model, entries, marks)
    }
}
