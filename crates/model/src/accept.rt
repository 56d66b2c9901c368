// Accepting a model: each rule over all cells upwards before the next.
ghost use Rattle.std.specs.Prelude.{◌≡◌};
ghost use Rattle.model.specs.Accept.{broken_by, link_fault, rule_fault, unless};
ghost use Rattle.model.specs.Below.{first_bad};
ghost use Rattle.model.specs.Whole.{Accepts};

use crate::accepted::Model;
use crate::faces::{Faces, Linked};
use crate::few::Few;
use crate::identity::Identity;
use crate::letters::{Lettered, Letters};
use crate::quiet::Quiet;
use crate::rule::{Rule, lowest};
use slip::{Refusal, Slip};
use wire::cell::Cell;
use wire::model::ModelFile;

// Turns away cells that break the rule, with the lowest that does.
fn check<R: Rule>(rule: &R, refusal: Refusal) -> Result<(), Slip>
    ensures { result ≡ unless (broken_by refusal (first_bad (R.count rule.now) (R.test rule.now))) }
{
    match lowest(rule) {
        Some(place) => Err(refusal.at(place)),
        None => Ok(()),
    }
}

fn check_links(first: usize, cells: &[Cell]) -> Result<(), Slip>
    ensures { result ≡ unless (link_fault first cells.now) }
{
    if first >= cells.len() {
        return Err(Refusal::NoSuchCell.at(first));
    }
    check(&Faces(cells), Refusal::NoSuchCell)
}

fn check_rules(first: usize, linked: &Linked) -> Result<(), Slip>
    ensures { result ≡ unless (rule_fault first linked.now.cells.now) }
{
    let linked = *linked;
    check(&Letters(linked), Refusal::WrongLetters)?;
    let lettered = Lettered { linked };
    check(&Identity(lettered), Refusal::BrokenIdentity)?;
    let cells = linked.cells;
    check(&Quiet { first, cells }, Refusal::BusyCell)?;
    check(&Few(linked), Refusal::TooManySteps)
}

// The model of a file, or the first broken rule with its cell.
impl TryFrom<ModelFile> for Model {
    type Error = Slip;

    ghost try_from_gives = { λ file. Accepts file.first file.cells };

    fn try_from(file: ModelFile) -> Result<Model, Slip> {
        let ModelFile { first, cells } = file;
        let first = first as usize;
        check_links(first, &cells)?;
        check_rules(first, &Linked { cells: &cells })?;
        Ok(Model { cells, first })
    }
}
