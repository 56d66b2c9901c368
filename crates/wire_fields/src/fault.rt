// Why a file gives no value.
ghost use Rattle.std.specs.Prelude.{◌≡◌};
ghost use Rattle.wire_fields.specs.declared.fault.Fault.TheVariants.{Refused as Turned, Memory};

use slip::Slip;
use std::alloc::{AllocError, AllocFailed};

// The file is refused, or there is no memory for what it holds, which says nothing of the file.
#[derive(Clone, Copy, PartialEq, Eq, Debug)]
pub enum Fault {
    Refused(Slip),
    Memory,
}

// These are written out, since clauses name the fault that a `?` makes.
impl From<Slip> for Fault {
    ghost from_gives = { λ s f. f ≡ Turned s };

    fn from(s: Slip) -> Fault {
        Fault::Refused(s)
    }
}

impl From<AllocError> for Fault {
    ghost from_gives = { λ _ f. f ≡ Memory };

    fn from(_e: AllocError) -> Fault {
        Fault::Memory
    }
}

impl<T: Drop> From<AllocFailed<T>> for Fault {
    ghost from_gives = { λ _ f. f ≡ Memory };

    fn from(_e: AllocFailed<T>) -> Fault {
        Fault::Memory
    }
}
