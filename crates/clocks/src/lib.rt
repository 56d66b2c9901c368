// What every layer knows of clocks: clocks 1 to 6 of a reading, and clock 0, which always reads zero.

#![tactic(auto)]

ghost use Rattle.std.specs.Prelude.{◌≡◌, if◌then◌else◌};
ghost use Rattle.clocks.specs.Readings.{in_mask};
ghost use Rattle.clocks.specs.declared.Sign.TheVariants.{Below as Under, AtMost as UpTo};

// Whether a difference has to lie below a constant, or may also equal it.
#[derive(Clone, Copy, PartialEq, Eq, Debug)]
pub enum Sign {
    Below,
    AtMost,
}

impl Sign {
    // The sign of a limit that is strict or not, as files and C code say it by a flag: a strict one does not belong to what it limits.
    pub fn strict(strict: bool) -> Sign
        ensures { result ≡ (if strict then Under else UpTo) }
    {
        if strict { Sign::Below } else { Sign::AtMost }
    }
}

// A bound on the first clock's count less the second's, in units.
#[derive(Clone, Copy, PartialEq, Eq, Debug)]
pub struct Gap {
    pub first: u8,
    pub second: u8,
    pub sign: Sign,
    pub constant: i32,
}

// Whether the clock stands in a set of clocks, whose lowest bit names clock 1.
pub fn stands_in(mask: u8, clock: usize) -> bool
    ensures { result ≡ in_mask mask clock }
{
    let place = clock.saturating_sub(1);
    place < 8 && (mask >> place) & 1 == 1
}
