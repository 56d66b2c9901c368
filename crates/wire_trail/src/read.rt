// The steps of a trail, one after another, and the whole file.
ghost use Rattle.wire_fields.specs.Faults.{Gives, Heeds};
ghost use Rattle.wire_fields.specs.Readers.{Takes, Gathers};
ghost use Rattle.wire_trail.specs.StepFormat.{step_at};
ghost use Rattle.wire_trail.specs.Trails.{all_steps_at, trail_file, trail_head, trail_seen};

use crate::step::Step;
use crate::trail::TrailFile;
use slip::{Refusal, Slip};
use std::alloc::Global;
use wire_fields::fault::Fault;
use wire_fields::reader::{Reader, fits};

fn read_step(reader: &mut Reader<'_>) -> Result<Step, Slip>
    ensures { Takes step_at reader.old reader.new result }
{
    let place = reader.at;
    let b = reader.byte()?;
    match b as char {
        'w' => {
            let ticks = reader.long()?;
            Ok(Step::Wait(ticks))
        }
        's' => {
            let cell = reader.word()?;
            let event = reader.byte()?;
            Ok(Step::Start { cell, event })
        }
        'f' => {
            let event = reader.byte()?;
            Ok(Step::Finish(event))
        }
        _ => Err(Refusal::OutOfRange.at(place)),
    }
}

// The steps up to the end of the file.
#[tactic(auto, using(crate::proofs::Steps::walked_none, crate::proofs::Steps::walked_all))]
fn steps_of(reader: &mut Reader<'_>, heap: Global) -> Result<Vec<Step>, Fault>
    ensures { Gathers (λ v. v.items) all_steps_at reader.old reader.new result }
{
    let mut steps = Vec::new(heap);
    while reader.at < reader.bytes.len() {
        let step = read_step(reader)?;
        steps.push(step)?;
    }
    Ok(steps)
}

pub fn trail_file(heap: Global, bytes: &[u8]) -> Result<TrailFile, Fault>
    ensures reads { Gives trail_seen result (trail_file bytes.now) }
    ensures heeds { Heeds result (trail_head bytes.now) }
{
    fits(bytes)?;
    let mut reader = Reader { bytes, at: 0 };
    let scale = reader.word()?;
    let steps = steps_of(&mut reader, heap)?;
    Ok(TrailFile { scale, steps })
}
