// The judge: a model, a cover and a trail, as a report. It is written for every kind of clock set.
#![tactic(auto)]

ghost use Rattle.std.specs.Prelude.{◌≡◌, ◌≢◌, ℕ, [], ◌∷◌, ◌++◌, map, IfOk, Some, Ok, Err, string_bytes, OnOk};
ghost use Rattle.std.specs.List.{slice_get};
ghost use Rattle.std.specs.Option.{option_map};
ghost use Rattle.wire.specs.declared.fault.Fault.TheVariants.{Memory};
ghost use Rattle.wire.specs.Faults.{Gives};
ghost use Rattle.wire.specs.Files.{entry_seen, trail_seen};
ghost use Rattle.model.specs.Plans.{Plan, Accepted};
ghost use Rattle.model.specs.Read.{read_plan};
ghost use Rattle.model.specs.Whole.{plan_of};
ghost use Rattle.clockset.specs.Calls.{◌⨾◌, cut_all};
ghost use Rattle.docket_theory.specs.Docket.{lodged, swept};
ghost use Rattle.docket_theory.specs.Promise.{Unreachable};
ghost use Rattle.docket_theory.specs.declared.Verdict.TheVariants.{Shut};
ghost use Rattle.lines.specs.declared.Line.TheVariants.{Verdict};
ghost use Rattle.lines.specs.Lines.{lines_text};
ghost use Rattle.lines.specs.Notes.{Notes};
ghost use Rattle.judging.specs.Cases.{case_plan, case_world, Turns};
ghost use Rattle.judging.specs.Judge.{lodge_all, unless_refused, step_all, walk_all, verdict_lines, walked_lines, trail_lines, swept_line, lodged_lines, cover_entries, begun, judge_lines};

use clockset::ClockSet;
use docket::docket::Docket;
use docket::entries::{Entries, MOST_ENTRIES};
use docket::marks::{OPEN, STEPS_PER_ENTRY};
use docket_theory::Entry;
use lines::report::Report;
use lines::{Line, text_of_all};
use model::accepted::Model;
use model::read::read_model;
use slip::Slip;
use std::alloc::{AllocError, Global};
use wire::cover::CoverEntry;
use wire::fault::Fault;
use wire::files::{cover_file, trail_file};
use wire::step::Step;
use wire::trail::TrailFile;

// A model before the judge: what its docket says, over tables that are lent to it.
#[derive(Drop)]
struct Case<'m, 't, S> {
    model: &'m Model,
    docket: Docket,
    entries: Entries<'t, S>,
    marks: &'t mut [u16],
}

impl<'m, 't, S: ClockSet> Case<'m, 't, S> {
    // Lodges an entry of a cover: its set is all readings, cut by the entry's gaps in their order.
    fn lodge(&mut self, entry: &CoverEntry) -> Result<(), Slip>
        ensures { Turns (λ m w. cut_all S.calls (entry_seen entry.now).1 S.calls.all ⨾ λ a. unless_refused S.calls (lodged S.calls m (entry_seen entry.now).0 a w)) self.old self.new result }
    {
        let set = S::all().cut(&entry.gaps)?;
        self.docket.lodge(self.model, &mut self.entries, self.marks, entry.cell, &set)?;
        Ok(())
    }

    fn lodge_all(&mut self, cover: &[CoverEntry]) -> Result<(), Slip>
        ensures { Turns (λ m w. lodge_all S.calls m (map entry_seen cover.now) w) self.old self.new result }
    {
        for entry in cover {
            self.lodge(entry)?;
        }
        Ok(())
    }

    // Sweeps what is lodged, and notes how many duties that leaves open.
    fn sweep(&mut self, report: &mut Report) -> Result<(), AllocError>
        ensures same { self.new.model ≡ self.old.model }
        ensures swept { case_world self.new ≡ (swept S.calls (case_plan self.old) (case_world self.old)).1 }
        ensures noted { OnOk result (report.new.lines.items ≡ report.old.lines.items ++ swept_line S.calls (case_plan self.old) (case_world self.old) ∷ []) }
    {
        let duties = self.entries.duties(self.model);
        let open = self.docket.sweep(self.model, &self.entries, self.marks);
        report.note(Line::Entries {
            entries: self.entries.live,
            duties,
            open,
        })
    }

    fn take_steps(&mut self, steps: &[Step]) -> Result<(), Slip>
        ensures { Turns (λ m w. step_all S.calls m steps.now w) self.old self.new result }
    {
        for step in steps {
            self.docket.step(self.model, *step)?;
        }
        Ok(())
    }

    // The trail of a file, from its setting out on.
    fn walk(&mut self, file: &TrailFile) -> Result<(), Slip>
        ensures { Turns (λ m w. walk_all S.calls m (trail_seen file.now) w) self.old self.new result }
    {
        self.docket.set_out(self.model, file.scale)?;
        self.take_steps(&file.steps)
    }

    fn note_verdict(&self, report: &mut Report) -> Result<(), AllocError>
        ensures { OnOk result (report.new.lines.items ≡ report.old.lines.items ++ verdict_lines S.calls (case_plan self.now) (case_world self.now)) }
    {
        let marks = &*self.marks;
        let verdict = self.docket.verdict(self.model, &self.entries, marks);
        report.note(Line::Verdict(verdict))
    }

    // Walks the trail of the bytes and notes where it ended, and then the verdict.
    fn note_walk(&mut self, heap: Global, report: &mut Report, bytes: &[u8]) -> Result<(), Fault>
        ensures { Notes report.old.lines.items result report.new.lines.items (trail_lines S.calls (case_plan self.old) (Some bytes.now) (case_world self.old)) }
    {
        let file = trail_file(heap, bytes)?;
        self.walk(&file)?;
        report.note_end(self.docket.trail.position)?;
        self.note_verdict(report)?;
        Ok(())
    }

    fn note_trail(
        &mut self,
        heap: Global,
        report: &mut Report,
        trail: Option<&[u8]>,
    ) -> Result<(), Fault>
        ensures { Notes report.old.lines.items result report.new.lines.items (trail_lines S.calls (case_plan self.old) (option_map (λ b. b.now) trail.entry) (case_world self.old)) }
    {
        match trail {
            Some(bytes) => self.note_walk(heap, report, bytes),
            None => {
                report.note(Line::NoTrail)?;
                self.note_verdict(report)?;
                Ok(())
            }
        }
    }

    // Lodges a cover, sweeps, and goes on with the trail.
    fn note_cover(
        &mut self,
        heap: Global,
        report: &mut Report,
        cover: &[CoverEntry],
        trail: Option<&[u8]>,
    ) -> Result<(), Fault>
        ensures { Notes report.old.lines.items result report.new.lines.items (lodged_lines S.calls (case_plan self.old) (option_map (λ b. b.now) trail.entry) (lodge_all S.calls (case_plan self.old) (map entry_seen cover.now) (case_world self.old))) }
    {
        self.lodge_all(cover)?;
        self.sweep(report)?;
        self.note_trail(heap, report, trail)
    }
}

// The same over tables of its own.
fn note_case<S: ClockSet>(
    heap: Global,
    report: &mut Report,
    model: &Model,
    cover: &[CoverEntry],
    trail: Option<&[u8]>,
) -> Result<(), Fault>
    ensures { Notes report.old.lines.items result report.new.lines.items (lodged_lines S.calls (plan_of model.now) (option_map (λ b. b.now) trail.entry) (lodge_all S.calls (plan_of model.now) (map entry_seen cover.now) (begun S.calls))) }
{
    let entry = Entry {
        cell: 0,
        set: S::all(),
    };
    let mut rows = Vec::new(heap);
    // `vec!` would clone, and of a kind's clone nothing is known
    rows.resize(MOST_ENTRIES, entry)?;
    let mut marks = vec![in heap; OPEN; MOST_ENTRIES * STEPS_PER_ENTRY]?;
    let mut case = Case {
        model,
        docket: Docket::new(),
        entries: Entries::new(&mut rows),
        marks: &mut marks,
    };
    case.note_cover(heap, report, cover, trail)
}

// The entries of a cover's file; no cover has none.
fn entries_of(heap: Global, cover: Option<&[u8]>) -> Result<Vec<CoverEntry>, Fault>
    ensures { Gives (λ v. map entry_seen v.items) result (cover_entries (option_map (λ b. b.now) cover.entry)) }
{
    match cover {
        Some(bytes) => {
            let file = cover_file(heap, bytes)?;
            Ok(file.entries)
        }
        None => Ok(Vec::new(heap)),
    }
}

// Reads a model and judges it.
fn note_judgement<S: ClockSet>(
    heap: Global,
    report: &mut Report,
    model: &[u8],
    cover: Option<&[u8]>,
    trail: Option<&[u8]>,
) -> Result<(), Fault>
    ensures accepted { result ≢ Err Memory → (m : Plan) → read_plan model.now ≡ Ok m → Accepted m }
    ensures noted { Notes report.old.lines.items result report.new.lines.items (judge_lines S.calls model.now (option_map (λ b. b.now) cover.entry) (option_map (λ b. b.now) trail.entry)) }
{
    let model = read_model(heap, model)?;
    report.note(Line::Cells(model.cells.len()))?;
    let cover = entries_of(heap, cover)?;
    note_case::<S>(heap, report, &model, &cover, trail)
}

// The lines of the report, over sets of the kind S. Where one of them says shut, no run of the model has a final cell in it.
pub fn judge<S: ClockSet>(
    heap: Global,
    model: &[u8],
    cover: Option<&[u8]>,
    trail: Option<&[u8]>,
) -> Result<Vec<Line>, AllocError>
    ensures shut { IfOk result (λ v. (m : Plan) → read_plan model.now ≡ Ok m → (i : ℕ) → slice_get v.items i ≡ Some (Verdict Shut) → Unreachable m) }
    ensures lines { IfOk result (λ v. v.items ≡ judge_lines S.calls model.now (option_map (λ b. b.now) cover.entry) (option_map (λ b. b.now) trail.entry)) }
{
    let mut report = Report::new(heap);
    let outcome = note_judgement::<S>(heap, &mut report, model, cover, trail);
    report.ended(outcome)
}

// The same as text.
pub fn judge_text<S: ClockSet>(
    heap: Global,
    model: &[u8],
    cover: Option<&[u8]>,
    trail: Option<&[u8]>,
) -> Result<String, AllocError>
    ensures { IfOk result (λ t. string_bytes t ≡ lines_text (judge_lines S.calls model.now (option_map (λ b. b.now) cover.entry) (option_map (λ b. b.now) trail.entry))) }
{
    let lines = judge::<S>(heap, model, cover, trail)?;
    text_of_all(heap, &lines)
}
