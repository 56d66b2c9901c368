// Reading a model from the bytes of its file.
ghost use Rattle.std.specs.Prelude.{IfOk};
ghost use Rattle.wire.specs.Faults.{Gives, Heeds};
ghost use Rattle.wire.specs.Files.{model_head};
ghost use Rattle.model.specs.Laws.{Lawful};
ghost use Rattle.model.specs.Read.{read_plan};
ghost use Rattle.model.specs.Whole.{plan_of};

use crate::accepted::Model;
use std::alloc::Global;
use wire::fault::Fault;
use wire::files::model_file;

// The model that the bytes hold: size and fields first, from the front, then the rules, each over all cells.
pub fn read_model(heap: Global, bytes: &[u8]) -> Result<Model, Fault>
    ensures reads { Gives plan_of result (read_plan bytes.now) }
    ensures heeds { Heeds result (model_head bytes.now) }
    ensures lawful { IfOk result (λ m. Lawful (plan_of m)) }
{
    let file = model_file(heap, bytes)?;
    let model = Model::try_from(file)?;
    Ok(model)
}
