//! A clock set as 49 weights, row by row: what the calls of every kind do to them.

#![tactic(auto)]

ghost use Rattle.std.specs.Prelude.{◌≡◌, ℕ, ◌/◌, ◌%◌, ◌^◌, ◌<◌, ◌≤◌, true, false, not, ◌&&◌, map, length, if◌then◌else◌, Some, None, ◌==◌};
ghost use Rattle.clocks.specs.Gaps.{good_gap};
ghost use Rattle.clocks.specs.Readings.{in_mask};
ghost use Rattle.weight.specs.Closing.{cell, empty_form, Within};
ghost use Rattle.zone_theory.specs.Matrices.{home as home_of};
ghost use Rattle.zone_theory.specs.Sets.{tabled, tight, canonical_form, or_empty, cut_weights, cut_form, reset_form, delay_form, beneath_all, within_form};

use clocks::Gap;
use std::array;
use weight::{Weight, close};

// Each call says the length of its matrix, for the reason given in weight's `closing`; `room`, which is no invariant of a type,
// since a closed form may pass 2^22; and `start`, a fact of the weight's type, since a bound would ask an impl of callers.

// Two different clocks from 0 to 6, and a constant from -9,999 to 9,999.
pub fn is_good_gap(gap: Gap) -> bool
    ensures { result ≡ good_gap gap }
{
    gap.first <= 6
        && gap.second <= 6
        && gap.first != gap.second
        && gap.constant <= 9_999
        && -9_999 <= gap.constant
}

// One more weight, from i to j.
pub fn cut<W: Weight>(m: &mut [W], i: usize, j: usize, weight: W)
    requires long { length m.old ≡ 49 }
    requires row { i < 7 }
    requires column { j < 7 }
    ensures { (x y : ℕ) → x < 7 → y < 7 → cell W.unbounded (map W.value m.new) x y ≡ cut_weights W.leb W.plus W.neutral W.unbounded W.hopeless (cell W.unbounded (map W.value m.old)) i j (W.value weight) x y }
{
    m[7 * i + j] = m[7 * i + j].lesser_of(weight);
}

// Row 0 and the diagonal to at most neutral: no count is below zero, and no clock differs from itself.
pub fn tighten<W: Weight>(m: &mut [W])
    requires { length m.old ≡ 49 }
    ensures { map W.value m.new ≡ tabled (tight W.leb W.plus W.neutral W.unbounded W.hopeless (cell W.unbounded (map W.value m.old))) }
{
    // An index, since it names the clock.
    for k in 0..7 {
        cut(m, 0, k, W::neutral_weight());
        cut(m, k, k, W::neutral_weight());
    }
}

// Brings a set to its closed form; false where it has no reading, and the set is then the one empty form. (A `bool`, as the set is
// written either way.)
pub fn canonicalize<W: Weight>(m: &mut [W]) -> bool
    requires long { length m.old ≡ 49 }
    requires room { Within W.size W.unbounded (2 ^ 22) (map W.value m.old) }
    requires start { W.size W.neutral ≤ 2 ^ 22 }
    ensures computed { canonical_form W.leb W.plus W.neutral W.unbounded W.hopeless (map W.value m.old) ≡ (if result then Some (map W.value m.new) else None) }
    ensures emptied { result ≡ false → map W.value m.new ≡ empty_form W.hopeless }
{
    tighten(m);
    close(m)
}

// Not `clocks::stands_in`, which answers for any clock: asked at each of 49 places, it makes a reset a fifth slower.
fn bit(mask: u8, k: usize) -> bool
    requires { k < 8 }
    ensures { result ≡ (mask / 2 ^ k % 2 == 1) }
{
    (mask >> k) & 1 == 1
}

// Where the count of clock i comes from when the clocks of a mask are put to zero: bit 0 names clock 1.
fn home(mask: u8, i: usize) -> usize
    requires { i < 7 }
    ensures same { result ≡ home_of (in_mask mask) i }
    ensures inside { result < 7 }
{
    if i == 0 || bit(mask, i - 1) { 0 } else { i }
}

// The clocks of a mask are put to zero in a closed form.
fn reset<W: Weight>(from: &[W], mask: u8) -> [W; 49]
    requires { length from.now ≡ 49 }
    ensures { map W.value result ≡ tabled (λ i j. cell W.unbounded (map W.value from.now) (home_of (in_mask mask) i) (home_of (in_mask mask) j)) }
{
    array::from_fn(|p| from[7 * home(mask, p / 7) + home(mask, p % 7)])
}

// Time goes on from a closed form: the clocks lose their upper bounds.
fn delay<W: Weight>(m: &mut [W], free: W)
    requires long { length m.old ≡ 49 }
    requires lets { W.value free ≡ W.unbounded }
    ensures { map W.value m.new ≡ tabled (λ i j. (if not (i == 0) && j == 0 then W.unbounded else cell W.unbounded (map W.value m.old) i j)) }
{
    // An index, since it names the row.
    for i in 1..7 {
        m[7 * i] = free;
    }
}

// Whether no weight exceeds the other's.
fn is_beneath<W: Weight>(low: &[W], high: &[W]) -> bool
    requires low { length low.now ≡ 49 }
    requires high { length high.now ≡ 49 }
    ensures { result ≡ beneath_all W.leb W.plus W.neutral W.unbounded W.hopeless (map W.value low.now) (map W.value high.now) }
{
    low.iter().zip(high).all(|(x, y)| x.at_most(*y))
}

// What is left of a set after one more weight, in closed form.
pub fn cut_form<W: Weight>(m: &mut [W], i: usize, j: usize, weight: W)
    requires long { length m.old ≡ 49 }
    requires row { i < 7 }
    requires column { j < 7 }
    requires room { Within W.size W.unbounded (2 ^ 22) (map W.value m.old) }
    requires small { W.size (W.value weight) ≤ 2 ^ 22 }
    requires start { W.size W.neutral ≤ 2 ^ 22 }
    ensures { map W.value m.new ≡ cut_form W.leb W.plus W.neutral W.unbounded W.hopeless (map W.value m.old) i j (W.value weight) }
{
    cut(m, i, j, weight);
    canonicalize(m);
}

// Brings a set to closed form, where it stands, and gives it with the clocks of a mask put to zero. The empty form stays as it is.
pub fn reset_form<W: Weight>(from: &mut [W], mask: u8) -> [W; 49]
    requires source { length from.old ≡ 49 }
    requires room { Within W.size W.unbounded (2 ^ 22) (map W.value from.old) }
    requires start { W.size W.neutral ≤ 2 ^ 22 }
    ensures made { map W.value result ≡ reset_form W.leb W.plus W.neutral W.unbounded W.hopeless (in_mask mask) (map W.value from.old) }
    ensures closed { map W.value from.new ≡ or_empty W.leb W.plus W.neutral W.unbounded W.hopeless (canonical_form W.leb W.plus W.neutral W.unbounded W.hopeless (map W.value from.old)) }
{
    canonicalize(from);
    reset(from, mask)
}

// Time goes on. The weight that lets all through comes from the caller, since a weight need not store one.
pub fn delay_form<W: Weight>(m: &mut [W], free: W)
    requires long { length m.old ≡ 49 }
    requires room { Within W.size W.unbounded (2 ^ 22) (map W.value m.old) }
    requires start { W.size W.neutral ≤ 2 ^ 22 }
    requires lets { W.value free ≡ W.unbounded }
    ensures { map W.value m.new ≡ delay_form W.leb W.plus W.neutral W.unbounded W.hopeless (map W.value m.old) }
{
    if canonicalize(m) {
        delay(m, free);
    }
}

// Whether every reading of a set, which is brought to closed form, belongs to the other.
pub fn within_form<W: Weight>(low: &mut [W], high: &[W]) -> bool
    requires low { length low.old ≡ 49 }
    requires high { length high.now ≡ 49 }
    requires room { Within W.size W.unbounded (2 ^ 22) (map W.value low.old) }
    requires start { W.size W.neutral ≤ 2 ^ 22 }
    ensures says { result ≡ within_form W.leb W.plus W.neutral W.unbounded W.hopeless (map W.value low.old) (map W.value high.now) }
    ensures closed { map W.value low.new ≡ or_empty W.leb W.plus W.neutral W.unbounded W.hopeless (canonical_form W.leb W.plus W.neutral W.unbounded W.hopeless (map W.value low.old)) }
{
    if canonicalize(low) {
        is_beneath(low, high)
    } else {
        true
    }
}
