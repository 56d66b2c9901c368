// The files of a plan, byte by byte: the model file, and what the crates of its parts, of the trail file and of the cover file have.
#![tactic(auto)]

pub mod files;
pub mod model;

pub mod cell {
    pub use wire_cells::cell::{Cell, Event, Letter};
    pub use wire_ends::ends::{End, Ends};
}

pub mod cover {
    pub use wire_cover::cover::{CoverEntry, CoverFile};
}

pub mod fault {
    pub use wire_fields::fault::Fault;
}

pub mod step {
    pub use wire_trail::step::Step;
}

pub mod trail {
    pub use wire_trail::trail::TrailFile;
}
