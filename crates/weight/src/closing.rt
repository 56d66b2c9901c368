ghost use Rattle.std.specs.Prelude.{◌≡◌, ℕ, ◌+◌, ◌^◌, ◌<◌, ◌≤◌, true, false, map, length, get_or, if◌then◌else◌, Some, None, MatchBool, nat_eq, slice_index_or};
ghost use Rattle.weight.specs.Weights.{ClosedForm, Falling};
ghost use Rattle.weight.specs.Closing.{cell, relaxed, one_pass, sound_below, closing, empty_form, Within};

use crate::Weight;
use std::array;

// A matrix is a lent slice, and each contract says its length: in its place an array of a weight that is not yet known would
// owe, at each call, that it fits in memory.

// Row k, copied, so that a pass reads it as it was and need not reload it after each write.
fn row_of<W: Weight>(m: &[W], k: usize) -> [W; 7]
    requires long { length m.now ≡ 49 }
    requires place { k < 7 }
    ensures { (j : ℕ) → j < 7 → slice_index_or (map W.value result) j W.unbounded ≡ cell W.unbounded (map W.value m.now) k j }
{
    array::from_fn(|j| m[7 * k + j])
}

// Row i by way of the place k, whose row is given.
fn relax_row<W: Weight>(m: &mut [W], row: &[W; 7], k: usize, i: usize)
    requires long { length m.old ≡ 49 }
    requires place { i < 7 }
    requires via { k < 7 }
    requires room { (j : ℕ) → j < 7 → W.size (cell W.unbounded (map W.value m.old) i k) + W.size (slice_index_or (map W.value row.now) j W.unbounded) ≤ 2 ^ 29 }
    ensures { (x y : ℕ) → x < 7 → y < 7 → cell W.unbounded (map W.value m.new) x y ≡ (if nat_eq x i then relaxed W.leb W.plus (cell W.unbounded (map W.value m.old)) (λ j. get_or (map W.value row.now) j W.unbounded) k x y else cell W.unbounded (map W.value m.old) x y) }
{
    let via = m[7 * i + k];
    // An index: nothing is known of what a chain over `iter_mut` has written.
    for j in 0..7 {
        m[7 * i + j] = m[7 * i + j].lesser_of(via.sum(row[j]));
    }
}

// Every row by way of k.
fn pass<W: Weight>(m: &mut [W], k: usize)
    requires long { length m.old ≡ 49 }
    requires via { k < 7 }
    requires room { Within W.size W.unbounded (2 ^ 28) (map W.value m.old) }
    ensures { map W.value m.new ≡ one_pass W.leb W.plus W.unbounded k (map W.value m.old) }
{
    let row = row_of(m, k);
    // An index, since it names the row.
    for i in 0..7 {
        relax_row(m, &row, k, i);
    }
}

fn is_sound_at<W: Weight>(m: &[W], k: usize) -> bool
    requires long { length m.now ≡ 49 }
    requires place { k < 7 }
    ensures { result ≡ W.leb W.neutral (cell W.unbounded (map W.value m.now) k k) }
{
    W::neutral_weight().at_most(m[7 * k + k])
}

fn is_sound<W: Weight>(m: &[W]) -> bool
    requires { length m.now ≡ 49 }
    ensures { result ≡ sound_below W.leb W.neutral (cell W.unbounded (map W.value m.now)) 7 }
{
    (0..7).all(|k| is_sound_at(m, k))
}

// The seven passes, in order, up to the first place that is below neutral against itself.
fn run_passes<W: Weight>(m: &mut [W]) -> bool
    requires long { length m.old ≡ 49 }
    requires room { Within W.size W.unbounded (2 ^ 22) (map W.value m.old) }
    ensures { closing W.leb W.plus W.neutral W.unbounded (map W.value m.old) ≡ (if result then Some (map W.value m.new) else None) }
{
    // An index, since it names the place.
    for k in 0..7 {
        if !is_sound_at(m, k) {
            return false;
        }
        pass(m, k);
    }
    is_sound(m)
}

// A loop, since `fill` clones, and a weight's own clone may be another weight.
fn wipe<W: Weight>(m: &mut [W], weight: W)
    requires { length m.old ≡ 49 }
    ensures { map W.value m.new ≡ empty_form (W.value weight) }
{
    for x in m.iter_mut() {
        *x = weight;
    }
}

// Brings a matrix of 49 weights, row by row, to closed form. False where there is none: some way from a place to itself
// sums below neutral, and every weight is then hopeless, so that all such matrices have one form. (A `bool`, as the matrix is
// written, and lent on, either way.)
pub fn close<W: Weight>(m: &mut [W]) -> bool
    requires long { length m.old ≡ 49 }
    requires room { Within W.size W.unbounded (2 ^ 22) (map W.value m.old) }
    ensures computed { closing W.leb W.plus W.neutral W.unbounded (map W.value m.old) ≡ (if result then Some (map W.value m.new) else None) }
    ensures closed { MatchBool result (ClosedForm W.leb W.plus W.neutral (cell W.unbounded (map W.value m.old)) (cell W.unbounded (map W.value m.new))) (Falling W.leb W.plus W.neutral (cell W.unbounded (map W.value m.old))) }
    ensures sizes { result ≡ true → Within W.size W.unbounded (2 ^ 29) (map W.value m.new) }
    ensures emptied { result ≡ false → map W.value m.new ≡ empty_form W.hopeless }
{
    if run_passes(m) {
        true
    } else {
        wipe(m, W::hopeless_weight());
        false
    }
}
