// Settling a duty by a claim.
ghost use Rattle.std.specs.Prelude.{◌≡◌, if◌then◌else◌, Ok, Err};
ghost use Rattle.slip.specs.declared.Refusal.TheVariants.{NotHeld as Unheld};
ghost use Rattle.model.specs.Whole.{plan_of};
ghost use Rattle.docket_theory.specs.Docket.{slip, holder_fault, claim_fault, settle_fault, settled};
ghost use Rattle.model.specs.Accept.{unless as passes};
ghost use Rattle.docket.specs.World.{world, entries_world};

use crate::docket::Docket;
use crate::duty::{duty_at, duty_image, duty_target};
use crate::entries::Entries;
use crate::marks::{EMPTY, OPEN, STEPS_PER_ENTRY, put_mark};
use clockset::ClockSet;
use docket_theory::{Duty, Entry};
use model::accepted::Model;
use slip::{Refusal, Slip};

// That the claim holds, of the entry of that number.
fn check_held(i: u16, held: bool) -> Result<(), Slip>
    ensures { result ≡ (if held then Ok tt else Err (slip Unheld i)) }
{
    if !held {
        return Err(Refusal::NotHeld.at(i as usize));
    }
    Ok(())
}

fn check_holder<S: ClockSet>(
    model: &Model,
    i: u16,
    duty: &Duty<S>,
    holder: Option<Entry<S>>,
) -> Result<(), Slip>
    ensures { result ≡ passes (holder_fault S.calls (plan_of model.now) i duty.now holder) }
{
    let holder = holder.ok_or(Refusal::Unknown.at(i as usize))?;
    if holder.cell as usize != duty_target(model, duty) {
        return Err(Refusal::OtherCell.at(i as usize));
    }
    check_held(i, duty_image(model, duty)?.within(&holder.set))
}

// No holder claims that the image is empty.
fn check_claim<S: ClockSet>(
    model: &Model,
    entries: &Entries<S>,
    i: u16,
    duty: &Duty<S>,
    claim: Option<u16>,
) -> Result<(), Slip>
    ensures { result ≡ passes (claim_fault S.calls (plan_of model.now) (entries_world entries.now) i duty.now claim) }
{
    match claim {
        Some(h) => check_holder(model, i, duty, entries.row(h as usize)),
        None => check_held(i, duty_image(model, duty)?.is_empty()),
    }
}

fn check_settle<S: ClockSet>(
    model: &Model,
    entries: &Entries<S>,
    i: u16,
    step: u16,
    claim: Option<u16>,
) -> Result<(), Slip>
    ensures { result ≡ passes (settle_fault S.calls (plan_of model.now) i step claim (entries_world entries.now)) }
{
    let duty = duty_at(model, entries, i, step).ok_or(Refusal::Unknown.at(i as usize))?;
    check_claim(model, entries, i, &duty, claim)
}

impl Docket {
    // Settles a duty by the entry that holds its image, or as empty.
    pub fn settle<S: ClockSet>(
        &mut self,
        model: &Model,
        entries: &Entries<S>,
        marks: &mut [u16],
        i: u16,
        step: u16,
        claim: Option<u16>,
    ) -> Result<(), Slip>
        ensures { (result, world entries.now marks.new self.new) ≡ settled S.calls (plan_of model.now) i step claim (world entries.now marks.old self.old) }
    {
        check_settle(model, entries, i, step, claim)?;
        let mark = claim.unwrap_or(EMPTY);
        if i == OPEN {
            self.opening = mark;
        } else {
            put_mark(marks, i as usize * STEPS_PER_ENTRY + step as usize, mark);
        }
        Ok(())
    }
}
