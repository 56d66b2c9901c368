// A report in the making.

ghost use Rattle.std.specs.Prelude.{◌≡◌, ◌≢◌, List, [], ◌∷◌, ◌++◌, Err, IfOk, IsOk, OnOk};
ghost use Rattle.wire.specs.declared.fault.Fault.TheVariants.{Memory};
ghost use Rattle.lines.specs.declared.Line.{Line as LineT};
ghost use Rattle.lines.specs.declared.Line.TheVariants.{Took, Trail};
ghost use Rattle.lines.specs.Lines.{at_position};
ghost use Rattle.lines.specs.Notes.{Notes};

use crate::Line;
use std::alloc::{AllocError, Global};
use trail::position::Position;
use wire::fault::Fault;
use wire::step::Step;

// The lines noted so far. What notes them passes a refusal on by `?`; the report ends with it, in one place.
// The memory stands beside a report where files are read, since a report that is done reading needs none of its own.
#[derive(Drop)]
pub struct Report {
    pub lines: Vec<Line>,
}

impl Report {
    pub fn new(heap: Global) -> Report
        ensures { result.lines.items ≡ [] }
    {
        Report {
            lines: Vec::new(heap),
        }
    }

    pub fn note(&mut self, line: Line) -> Result<(), AllocError>
        ensures { OnOk result (self.new.lines.items ≡ self.old.lines.items ++ line ∷ []) }
    {
        self.lines.push(line)?;
        Ok(())
    }

    // A step that was taken, with the trail's position after it.
    pub fn note_step(&mut self, step: Step, position: Option<Position>) -> Result<(), AllocError>
        ensures { OnOk result (self.new.lines.items ≡ self.old.lines.items ++ at_position position (Took step)) }
    {
        if let Some(position) = position {
            self.note(Line::Took(step, position))?;
        }
        Ok(())
    }

    // Where the trail ended, if it was set out.
    pub fn note_end(&mut self, position: Option<Position>) -> Result<(), AllocError>
        ensures { OnOk result (self.new.lines.items ≡ self.old.lines.items ++ at_position position Trail) }
    {
        if let Some(position) = position {
            self.note(Line::Trail(position))?;
        }
        Ok(())
    }

    // All lines, once everything is noted or something was refused, which the last line then says.
    pub fn ended(mut self, outcome: Result<(), Fault>) -> Result<Vec<Line>, AllocError>
        ensures memory { IsOk result → outcome ≢ Err Memory }
        ensures lines { IfOk result (λ v. (all : List LineT) → Notes [] outcome self.lines.items all → v.items ≡ all) }
    {
        match outcome {
            Ok(()) => {}
            Err(Fault::Refused(slip)) => self.note(Line::Refused(slip))?,
            Err(Fault::Memory) => return Err(AllocError),
        }
        Ok(self.lines)
    }
}
