// Sets of clock readings. A kind of set is known by its readings at each scale and by what its calls make of them, and by
// nothing else: whatever is built on this trait holds of every kind.
#![tactic(auto)]

ghost use Rattle.std.specs.Prelude.{◌≡◌, ℕ, Bool, List, Ok};
ghost use Rattle.clockset.specs.Calls.{Calls, Closings, ◌⨾◌, cut_all};
ghost use Rattle.clockset.specs.Laws.{Sound, Sure, Forms};

use clocks::Gap;
use slip::Slip;

pub trait ClockSet: Copy {
    // the readings that belong to a set, at each scale
    ghost holds: { Self → ℕ → List ℕ → Type 0 };

    // what each call answers
    ghost calls: { Calls Self };

    // every reading
    fn all() -> Self
        ensures { result ≡ calls.all };

    // the six zeros
    fn zero() -> Self
        ensures { result ≡ calls.zero };

    // the readings that obey the gap
    fn gap(&self, gap: Gap) -> Result<Self, Slip>
        ensures { result ≡ calls.gap self.now gap };

    // the readings with the named clocks at zero; bit 0 names clock 1
    fn reset(&self, mask: u8) -> Result<Self, Slip>
        ensures { result ≡ calls.reset self.now mask };

    // the readings with any time added
    fn delay(&self) -> Result<Self, Slip>
        ensures { result ≡ calls.delay self.now };

    // whether every reading of this set, at every scale, belongs to the other
    fn within(&self, other: &Self) -> bool
        ensures { result ≡ calls.within self.now other.now };

    // whether no reading belongs at any scale
    fn is_empty(&self) -> bool
        ensures { result ≡ calls.empty self.now };

    // the set cut by gaps, in their order
    fn cut(&self, gaps: &[Gap]) -> Result<Self, Slip>
        ensures { result ≡ cut_all calls gaps.now self.now }
    {
        gaps.iter().try_fold(*self, |set, gap| set.gap(*gap))
    }

    // what the calls keep, and that a yes is true
    ghost sound: { Sound holds calls };

    // no yes is missed, and sets with equal readings fare alike
    ghost sure: { Sure holds calls };
}

// Kinds that have a form of a set that is quick to ask, for a set that is asked many times.
pub trait ClosedForms: ClockSet {
    // what a closed form answers
    ghost closings: { Closings Self };

    // the set in that form
    fn closed(&self) -> Self
        ensures { result ≡ closings.closed self.now };

    // `within`, asked of a closed form
    fn closed_within(&self, other: &Self) -> bool
        ensures { result ≡ closings.closed_within self.now other.now };

    // `is_empty`, asked of a closed form
    fn closed_is_empty(&self) -> bool
        ensures { result ≡ closings.closed_empty self.now };

    // the closed form of the set cut by gaps
    fn cut_closed(&self, gaps: &[Gap]) -> Result<Self, Slip>
        ensures { result ≡ (cut_all Self.calls gaps.now self.now ⨾ λ a. Ok (closings.closed a)) }
    {
        Ok(self.cut(gaps)?.closed())
    }

    // a closed form answers as its set does
    ghost forms: { Forms Self.calls closings };
}
