// A docket beside the tables of its caller.
use trail::position::Trail;

// The mark of the opening duty, and the trail. Entries and marks are lent to each call.
#[derive(Clone, Copy)]
pub struct Docket {
    pub opening: u16,
    pub trail: Trail,
}
