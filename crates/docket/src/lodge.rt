// Lodging an entry, and striking the last one.
ghost use Rattle.std.specs.Prelude.{◌≡◌, nat_le};
ghost use Rattle.model.specs.Whole.{plan_of};
ghost use Rattle.docket_theory.specs.Docket.{lodge_fault, lodged, struck};
ghost use Rattle.docket_theory.specs.Worlds.{capacity};
ghost use Rattle.model.specs.Accept.{unless as passes};
ghost use Rattle.docket.specs.World.{world, fresh_docket};

use crate::docket::Docket;
use crate::entries::{Entries, MOST_ENTRIES, put_row};
use crate::marks::{STEPS_PER_ENTRY, forget_entry, forgotten, open_entry};
use clockset::ClockSet;
use docket_theory::Entry;
use model::accepted::Model;
use slip::{Refusal, Slip};

impl<'a, S: ClockSet> Entries<'a, S> {
    fn is_full(&self, marks: &[u16]) -> bool
        ensures { result ≡ nat_le (capacity (world self.now marks.now fresh_docket)) self.now.live }
    {
        let live = self.live as usize;
        MOST_ENTRIES <= live || self.rows.len() <= live || marks.len() / STEPS_PER_ENTRY <= live
    }

    fn check_lodge(&self, model: &Model, marks: &[u16], cell: u16, set: &S) -> Result<(), Slip>
        ensures { result ≡ passes (lodge_fault S.calls (plan_of model.now) cell set.now (world self.now marks.now fresh_docket)) }
    {
        let live = self.live as usize;
        if self.is_full(marks) {
            return Err(Refusal::DocketFull.at(live));
        }
        if cell as usize >= model.cells.len() {
            return Err(Refusal::Unknown.at(live));
        }
        if set.is_empty() {
            return Err(Refusal::EmptySet.at(live));
        }
        Ok(())
    }
}

impl Docket {
    // Adds an entry whose duties are all open.
    pub fn lodge<S: ClockSet>(
        &self,
        model: &Model,
        entries: &mut Entries<S>,
        marks: &mut [u16],
        cell: u16,
        set: &S,
    ) -> Result<u16, Slip>
        ensures { (result, world entries.new marks.new self.now) ≡ lodged S.calls (plan_of model.now) cell set.now (world entries.old marks.old self.now) }
    {
        entries.check_lodge(model, marks, cell, set)?;
        let live = entries.live;
        put_row(entries.rows, live as usize, Entry { cell, set: *set });
        open_entry(marks, live);
        entries.live = live + 1;
        Ok(live)
    }

    // Takes the last entry off, and opens every duty that it held.
    pub fn strike<S: ClockSet>(
        &mut self,
        entries: &mut Entries<S>,
        marks: &mut [u16],
    ) -> Result<(), Slip>
        ensures { (result, world entries.new marks.new self.new) ≡ struck (world entries.old marks.old self.old) }
    {
        if entries.live == 0 {
            return Err(Refusal::Unknown.at(0));
        }
        let last = entries.live - 1;
        open_entry(marks, last);
        forget_entry(marks, last);
        self.opening = forgotten(self.opening, last);
        entries.live = last;
        Ok(())
    }
}
