// Configurations: whether counts meet a cell's invariant, and what a step makes of the counts.
ghost use Rattle.std.specs.Prelude.{◌≡◌, ◌+◌, ◌<◌, true, if◌then◌else◌, nat_le, nat_lt, slice_index, slice_index_or};
ghost use Rattle.model.specs.Below.{all_below};
ghost use Rattle.model.specs.Cells.{unbounded};
ghost use Rattle.clocks.specs.Readings.{later, cleared, in_mask};
ghost use Rattle.trail.specs.Tests.{end_ticks, above_low, below_high, allowed, meets, fits};

use clocks::stands_in;
use std::array;
use wire::cell::{Cell, End, Ends};

// The greatest count, and the greatest elapsed time.
pub const LIMIT: u32 = 1_000_000_000;

fn ticks(end: End, scale: u16) -> u64
    ensures { result ≡ end_ticks end scale }
{
    end.units as u64 * scale as u64
}

// Whether the end lets the two stand in this order: they may be equal unless it is open.
fn in_order(end: End, first: u64, second: u64) -> bool
    ensures { result ≡ (if end.open then nat_lt first second else nat_le first second) }
{
    if end.open {
        first < second
    } else {
        first <= second
    }
}

fn above_low(low: Option<End>, scale: u16, count: u32) -> bool
    ensures { result ≡ above_low low scale count }
{
    low.is_none_or(|end| in_order(end, ticks(end, scale), count as u64))
}

fn below_high(high: Option<End>, scale: u16, count: u32) -> bool
    ensures { result ≡ below_high high scale count }
{
    high.is_none_or(|end| in_order(end, count as u64, ticks(end, scale)))
}

fn allows(ends: Ends, scale: u16, count: u32) -> bool
    ensures { result ≡ allowed ends scale count }
{
    above_low(ends.low, scale, count) && below_high(ends.high, scale, count)
}

// Whether each count lies within its ends.
fn all_allow(ends: &[Ends; 6], scale: u16, counts: &[u32; 6]) -> bool
    ensures { result ≡ all_below 6 (λ i. allowed (slice_index_or ends.now i unbounded) scale (slice_index counts.now i)) }
{
    ends.iter()
        .zip(counts)
        .all(|(ends, count)| allows(*ends, scale, *count))
}

// Whether the counts meet the cell's invariant.
pub(crate) fn meets_cell(cell: &Cell, scale: u16, counts: &[u32; 6]) -> bool
    ensures { result ≡ meets cell.now scale counts.now }
{
    all_allow(&cell.ends, scale, counts)
}

// Whether no count passes the limit when n ticks are added.
pub(crate) fn fit(counts: &[u32; 6], n: u32) -> bool
    ensures { result ≡ fits n counts.now }
{
    counts
        .iter()
        .all(|count| *count as u64 + n as u64 <= LIMIT as u64)
}

// The counts n ticks later.
pub(crate) fn later_counts(counts: &[u32; 6], n: u32) -> [u32; 6]
    requires { fits n counts.now ≡ true }
    ensures { result ≡ later n counts.now }
{
    counts.map(|count| count + n)
}

// The counts with the clocks of the set at zero.
pub(crate) fn cleared_counts(set: u8, counts: &[u32; 6]) -> [u32; 6]
    ensures { result ≡ cleared (in_mask set) counts.now }
{
    array::from_fn(|i| if stands_in(set, i + 1) { 0 } else { counts[i] })
}
