// A walk: a model and a trail through it, as lines of text.
#![tactic(auto)]

ghost use Rattle.std.specs.Prelude.{◌≡◌, IfOk, Ok, string_bytes};
ghost use Rattle.std.specs.Option.{option_map};
ghost use Rattle.wire.specs.Files.{trail_file, trail_seen};
ghost use Rattle.model.specs.Whole.{plan_of};
ghost use Rattle.lines.specs.Lines.{lines_text};
ghost use Rattle.lines.specs.Notes.{Notes};
ghost use Rattle.walking.specs.Walk.{step_lines, file_lines, walk_lines};

use lines::report::Report;
use lines::{Line, text_of_all};
use model::accepted::Model;
use model::read::read_model;
use std::alloc::{AllocError, Global};
use trail::position::Trail;
use wire::fault::Fault;
use wire::files::trail_file;
use wire::step::Step;
use wire::trail::TrailFile;

// Walks the steps from where the trail stands, and notes each line.
fn note_steps(report: &mut Report, model: &Model, start: Trail, steps: &[Step]) -> Result<(), Fault>
    ensures { Notes report.old.lines.items result report.new.lines.items (step_lines (plan_of model.now) steps.now start) }
{
    let mut trail = start;
    for step in steps {
        trail.step(model, *step)?;
        report.note_step(*step, trail.position)?;
    }
    report.note_end(trail.position)?;
    Ok(())
}

fn note_file(report: &mut Report, model: &Model, file: &TrailFile) -> Result<(), Fault>
    ensures { Notes report.old.lines.items result report.new.lines.items (file_lines (plan_of model.now) (Ok (trail_seen file.now))) }
{
    let mut trail = Trail::none();
    trail.set_out(model, file.scale)?;
    note_steps(report, model, trail, &file.steps)
}

fn note_trail(heap: Global, report: &mut Report, model: &Model, bytes: &[u8]) -> Result<(), Fault>
    ensures { Notes report.old.lines.items result report.new.lines.items (file_lines (plan_of model.now) (trail_file bytes.now)) }
{
    let file = trail_file(heap, bytes)?;
    note_file(report, model, &file)
}

fn note_walk(
    heap: Global,
    report: &mut Report,
    model: &[u8],
    trail: Option<&[u8]>,
) -> Result<(), Fault>
    ensures { Notes report.old.lines.items result report.new.lines.items (walk_lines model.now (option_map (λ b. b.now) trail.entry)) }
{
    let model = read_model(heap, model)?;
    report.note(Line::Cells(model.cells.len()))?;
    match trail {
        Some(bytes) => note_trail(heap, report, &model, bytes)?,
        None => report.note(Line::NoTrail)?,
    }
    Ok(())
}

// The lines of a walk through the model that the first bytes hold, by the trail that the second ones hold.
pub fn walk(heap: Global, model: &[u8], trail: Option<&[u8]>) -> Result<Vec<Line>, AllocError>
    ensures { IfOk result (λ v. v.items ≡ walk_lines model.now (option_map (λ b. b.now) trail.entry)) }
{
    let mut report = Report::new(heap);
    let outcome = note_walk(heap, &mut report, model, trail);
    report.ended(outcome)
}

// The same as text.
pub fn walk_text(heap: Global, model: &[u8], trail: Option<&[u8]>) -> Result<String, AllocError>
    ensures { IfOk result (λ t. string_bytes t ≡ lines_text (walk_lines model.now (option_map (λ b. b.now) trail.entry))) }
{
    let lines = walk(heap, model, trail)?;
    text_of_all(heap, &lines)
}
