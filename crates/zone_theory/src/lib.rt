// Theorems about readings of matrices of limits. The functions carry them: each contract is the theorem, and nothing is computed.
#![tactic(auto)]

ghost use Rattle.zone_theory.specs.Exact.{ClosingExact, WithinExact, Canonical, GapExact, ResetExact, DelayExact, ZeroExact, AllExact, EmptyExact, ScaleFree, LevelsStay};

// Closing keeps the readings of any matrix, and tells whether it has one.
pub fn closing_exact_stands()
    ensures { ClosingExact }
{}

// Comparing limits compares sets of readings.
pub fn within_exact_stands()
    ensures { WithinExact }
{}

// The closed form is the only one of its readings.
pub fn canonical_stands()
    ensures { Canonical }
{}

// One more limit.
pub fn gap_exact_stands()
    ensures { GapExact }
{}

// Clocks put to 0.
pub fn reset_exact_stands()
    ensures { ResetExact }
{}

// Time going on.
pub fn delay_exact_stands()
    ensures { DelayExact }
{}

// All clocks at 0.
pub fn zero_exact_stands()
    ensures { ZeroExact }
{}

// Every reading.
pub fn all_exact_stands()
    ensures { AllExact }
{}

// No reading.
pub fn empty_exact_stands()
    ensures { EmptyExact }
{}

// No unit of time is the smallest.
pub fn scale_free_stands()
    ensures { ScaleFree }
{}

// Orders of clocks stay orders of clocks.
pub fn levels_stay_stands()
    ensures { LevelsStay }
{}
