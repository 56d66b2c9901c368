// What a set is on leaving its cell.
use slip::Slip;

// Inside the cell's invariant, and the same with the cell's exit set reset. All steps out of the cell go on from one of the two.
#[derive(Clone, Copy)]
pub struct Departure<S> {
    pub inside: Result<S, Slip>,
    pub left: Result<S, Slip>,
}
