// A model as its file gives it.
ghost use Rattle.std.specs.Prelude.{◌≤◌, vec_len};

use wire_cells::cell::Cell;

// The number of the first cell, which may be any, and the cells.
#[derive(Drop)]
pub struct ModelFile {
    pub first: u16,
    pub cells: Vec<Cell>,
    ghost some: { 1 ≤ vec_len cells },
    ghost small: { vec_len cells ≤ 200 },
}
