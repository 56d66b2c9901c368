// The model file, and beside it the trail file and the cover file.
ghost use Rattle.std.specs.Prelude.{◌≡◌, IfOk, vec_len};
ghost use Rattle.wire_fields.specs.Faults.{Gives, Heeds};
ghost use Rattle.wire_fields.specs.Readers.{Gathers};
ghost use Rattle.wire_cells.specs.CellFormat.{cell_at};
ghost use Rattle.wire_cells.specs.declared.cell.Cell.{Cell};
ghost use Rattle.wire.specs.Files.{cells_at, model_file, model_head, model_seen};

use crate::model::ModelFile;
use std::alloc::Global;
use wire_cells::cell::Cell;
use wire_cells::read::read_cell;
pub use wire_cover::read::cover_file;
use wire_fields::fault::Fault;
use wire_fields::reader::{Reader, fits};
use wire_fields::record::{Record, read_many};
pub use wire_trail::read::trail_file;

// A model holds many.
impl Record<ModelFile> for Cell {
    ghost Seen = { Cell };

    ghost seen = { λ cell. cell };

    ghost stands = { cell_at };

    fn read(reader: &mut Reader<'_>, _heap: Global) -> Result<Cell, Fault> {
        let cell = read_cell(reader)?;
        Ok(cell)
    }
}

fn read_cells(reader: &mut Reader<'_>, heap: Global, count: u16) -> Result<Vec<Cell>, Fault>
    ensures reads { Gathers (λ v. v.items) (cells_at count) reader.old reader.new result }
    ensures counted { IfOk result (λ v. vec_len v ≡ count) }
{
    read_many::<ModelFile, _>(reader, heap, usize::from(count))
}

pub fn model_file(heap: Global, bytes: &[u8]) -> Result<ModelFile, Fault>
    ensures reads { Gives model_seen result (model_file bytes.now) }
    ensures heeds { Heeds result (model_head bytes.now) }
{
    fits(bytes)?;
    let mut reader = Reader { bytes, at: 0 };
    let count = reader.count(1, 200)?;
    let first = reader.word()?;
    let cells = read_cells(&mut reader, heap, count)?;
    reader.close()?;
    Ok(ModelFile { first, cells })
}
