// A short list of gaps.
ghost use Rattle.std.specs.Prelude.{◌≡◌, ◌≤◌, length};

use clocks::Gap;

// The first `count` gaps of the list. Six clocks have two ends each.
// An array beside its count, since a vector of fixed capacity begins with default elements, and no gap is the default one. Not one type with the
// table of steps: a struct may hold no array of a type parameter.
#[derive(Clone, Copy)]
pub(crate) struct GapList {
    pub list: [Gap; 12],
    pub count: usize,
    ghost long: { length list ≡ 12 },
    ghost most: { count ≤ 12 },
}
