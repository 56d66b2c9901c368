// The refusals. Whatever any layer turns away, it says by one of these cases, with the place where it found the fault.
#![tactic(auto)]

ghost use Rattle.std.specs.Prelude.{◌≡◌, ℕ, Some};
ghost use Rattle.slip.specs.Refusals.{number, layer};
ghost use Rattle.slip.specs.Line.{slip_line};

use std::fmt;

// Who refuses, lowest first.
#[derive(Clone, Copy)]
enum Layer {
    Bytes = 1,
    Model = 2,
    ClockSet = 3,
    Docket = 4,
}

// One case for each reason to refuse, with the number that reports and listings know it by.
#[derive(Clone, Copy, PartialEq, Eq, Debug)]
pub enum Refusal {
    // bytes
    Truncated = 1,
    BadCount = 2,
    BadBits = 3,
    OutOfRange = 4,
    Surplus = 5,
    // model
    NoSuchCell = 6,
    WrongLetters = 7,
    BrokenIdentity = 8,
    BusyCell = 9,
    TooManySteps = 10,
    // sets and docket
    BadArgument = 11,
    DocketFull = 12,
    Unknown = 13,
    EmptySet = 14,
    OtherCell = 15,
    BoundTooLarge = 16,
    NotHeld = 17,
    BadScale = 18,
    NoTrail = 19,
    NotThere = 20,
    CountTooLarge = 21,
    NoConfiguration = 22,
}

impl Refusal {
    // The refusal with the place of the fault.
    pub fn at(self, place: usize) -> Slip
        ensures { result ≡ record { refusal = self; place = place } }
    {
        Slip {
            refusal: self,
            place,
        }
    }

    // The number that reports print for the case: a number, since a report's line has it.
    pub fn number(self) -> u8
        ensures { result ≡ number self }
    {
        self as u8
    }

    // The number that reports print for the layer that refused, likewise.
    pub fn layer(self) -> u8
        ensures { result ≡ layer self }
    {
        let layer = match self {
            Refusal::Truncated
            | Refusal::BadCount
            | Refusal::BadBits
            | Refusal::OutOfRange
            | Refusal::Surplus => Layer::Bytes,
            Refusal::NoSuchCell
            | Refusal::WrongLetters
            | Refusal::BrokenIdentity
            | Refusal::BusyCell
            | Refusal::TooManySteps => Layer::Model,
            Refusal::BadArgument | Refusal::BoundTooLarge => Layer::ClockSet,
            _ => Layer::Docket,
        };
        layer as u8
    }
}

// A refusal and its place: a byte of a file, a cell, or an entry, as each call says.
#[derive(Clone, Copy, PartialEq, Eq, Debug)]
pub struct Slip {
    pub refusal: Refusal,
    pub place: usize,
}

impl fmt::Display for Slip {
    ghost output = { λ s. Some (slip_line s) };

    fn fmt<W: fmt::Write>(&self, f: &mut fmt::Formatter<W>) -> fmt::Result {
        let number = self.refusal.number();
        let layer = self.refusal.layer();
        let place = self.place;
        write!(f, "refused {number} layer {layer} place {place}")
    }
}
