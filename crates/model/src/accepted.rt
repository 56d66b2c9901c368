// A model that has been accepted: its type carries the rules, so nothing that holds one tests them again.
ghost use Rattle.std.specs.Prelude.{◌<◌, ◌≤◌, vec_len};
ghost use Rattle.model.specs.Rules.{every_cell, faces_in, letters_ok, identity_ok, quiet_ok, few_ok};

use wire::cell::Cell;

#[derive(Drop)]
pub struct Model {
    pub cells: Vec<Cell>,
    pub first: usize,
    ghost small: { vec_len cells ≤ 200 },
    ghost begins: { first < vec_len cells },
    ghost linked: { every_cell faces_in cells.items },
    ghost lettered: { every_cell letters_ok cells.items },
    ghost commuting: { every_cell identity_ok cells.items },
    ghost quiet: { every_cell (quiet_ok first) cells.items },
    ghost few: { every_cell few_ok cells.items },
}
