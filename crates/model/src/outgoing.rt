// The steps out of a cell, whatever the clocks read.
ghost use Rattle.std.specs.Prelude.{◌≡◌, ◌≤◌, length};

// Wait some time; finish event k of the cell; start event k of another cell from this one, its lower face. Events count from 1.
#[derive(Clone, Copy, PartialEq, Eq, Debug)]
pub enum Move {
    Wait,
    Finish(u8),
    Start(u16, u8),
}

// The steps out of one cell: the first `count` of the list, in the order of their numbers.
// An array beside its count, since this is copied freely and a vector of fixed capacity is not. Not one type with the list of gaps of images: a
// struct may hold no array of a type parameter.
#[derive(Clone, Copy)]
pub struct Moves {
    pub list: [Move; 16],
    pub count: usize,
    ghost long: { length list ≡ 16 },
    ghost most: { count ≤ 16 },
}
