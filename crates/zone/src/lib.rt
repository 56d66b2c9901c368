//! Zones: sets of clock readings given by a bound on the difference of every two clocks.

#![tactic(auto)]

ghost use Rattle.std.specs.Prelude.{◌≡◌, ◌^◌, ◌≤◌, map, length, pos, if◌then◌else◌, Ok, Err, unsigned_abs, refl};
ghost use Rattle.std.proofs.Common.{sym, ◌∙◌};
ghost use Rattle.clockset.specs.Calls.{◌⨾◌, cut_all};
ghost use Rattle.clockset.specs.Laws.{bad_argument};
ghost use Rattle.weight.specs.Bounds.{limit_of, limit_size};
ghost use Rattle.weight.specs.Closing.{Within};
ghost use Rattle.weight.specs.Limits.{under, up_to, free, limit_leb, limit_plus};
ghost use Rattle.zone_theory.specs.Gaps.{gap_limit};
ghost use Rattle.zone_theory.specs.Sets.{beneath_all};
ghost use Rattle.zone.specs.Cases.{CasesStand, Canonical};
ghost use Rattle.zone.specs.Exact.{GapStands, ResetStands, DelayStands, ZeroExact, WithinExact, EmptyExact};
ghost use Rattle.zone.specs.Zones.{read_limit, limit_list, kept_zone, raw_cut, raw_cuts, zone_calls, zone_closings, zone_holds, limits, zone_gap, zone_reset, zone_delay};
ghost use Rattle.std.proofs.lemmas.Bool.{cond-true};
ghost use Rattle.clocks.specs.Gaps.{good_gap, good_mask};
ghost use Rattle.clocks.specs.Readings.{in_mask, count_at, cleared, later, zero_reading};
ghost use Rattle.zone_theory.proofs.Counts.{length_listed, length_later};
ghost use Rattle.zone_theory.proofs.Exact.{reset_now, delay_now};
ghost use Rattle.zone.specs.Facts.{all_in, zero_exact, gap_exact, gap_bad, cut_list, kept_slip, reset_exactly, reset_bad, reset_list, delay_exactly, delay_list, within_exactly, empty_exactly, gap_same, reset_same, delay_same};
ghost use Rattle.clockset.proofs.Fares.{fare_same};
ghost use Rattle.zone.specs.Forms.{closed_within_is, closed_empty_is};

use clocks::{Gap, Sign};
use clockset::{ClockSet, ClosedForms};
use matrix::{canonicalize, cut, cut_form, delay_form, is_good_gap, reset_form, tighten};
use slip::{Refusal, Slip};
use std::array;
use weight::{Bound, Weight, all_small, all_within};

// From constants up to this size on, and any gaps, no closed bound passes the largest: each of the seven passes of a closing doubles
// a constant at most.
const MODEST_CONSTANT: u32 = 31_250;

// The bound on the count of clock i less that of clock j stands at 7 * i + j; clock 0 always reads zero. Every array is a
// zone: the calls bring it to closed form first.
#[derive(Clone, Copy)]
#[repr(C)]
pub struct Zone {
    bounds: [Bound; 49],
}

// A number whose constant passes 4,000,000 either way is no bound, so that no sum can overflow.
fn read(b: Bound) -> Bound
    ensures { limit_of result ≡ read_limit b }
{
    if b.is_small() { b } else { Bound::free() }
}

fn load(zone: &Zone) -> [Bound; 49]
    ensures long { length result ≡ 49 }
    ensures same { map limit_of result ≡ limit_list zone.now }
    ensures room { Within limit_size free (2 ^ 22) (map limit_of result) }
{
    array::from_fn(|p| read(zone.bounds[p]))
}

// Whether a bound is at most what a stored one reads as. Most are at most the stored number itself.
fn is_under(b: Bound, stored: Bound) -> bool
    ensures { result ≡ limit_leb (limit_of b) (read_limit stored) }
{
    b.at_most(stored) || !stored.is_small()
}

// Whether no bound exceeds that of the zone. Not `matrix`'s: the other side is read as it is compared, which saves a copy.
fn is_beneath(m: &[Bound; 49], zone: &Zone) -> bool
    ensures { result ≡ beneath_all limit_leb limit_plus (up_to (pos 0)) free (under (pos 0)) (map limit_of m.now) (limit_list zone.now) }
{
    m.iter()
        .zip(&zone.bounds)
        .all(|(b, stored)| is_under(*b, *stored))
}

fn keep(bounds: [Bound; 49]) -> Result<Zone, Slip>
    ensures { result ≡ kept_zone (map limit_of bounds) }
{
    if !all_small(&bounds) {
        return Err(Refusal::BoundTooLarge.at(0));
    }
    Ok(Zone { bounds })
}

// A function and no `From`: neither type is of this crate, and the constant has to be small.
fn bound_of(gap: Gap) -> Bound
    requires { unsigned_abs gap.constant ≤ 9999 }
    ensures { limit_of result ≡ gap_limit gap }
{
    match gap.sign {
        Sign::Below => Bound::under(gap.constant),
        Sign::AtMost => Bound::up_to(gap.constant),
    }
}

// One more bound by a gap, and nothing closed yet.
fn cut_raw(m: &mut [Bound; 49], gap: Gap) -> Result<(), Slip>
    ensures { raw_cut gap (map limit_of m.old) ≡ (result ⨾ λ _. Ok (map limit_of m.new)) }
{
    if !is_good_gap(gap) {
        return Err(Refusal::BadArgument.at(0));
    }
    cut(m, gap.first as usize, gap.second as usize, bound_of(gap));
    Ok(())
}

fn cut_all_raw(m: &mut [Bound; 49], gaps: &[Gap]) -> Result<(), Slip>
    ensures { raw_cuts gaps.now (map limit_of m.old) ≡ (result ⨾ λ _. Ok (map limit_of m.new)) }
{
    for gap in gaps {
        cut_raw(m, *gap)?;
    }
    Ok(())
}

// A zone and an order set call the same functions of `matrix`. What is left differs: a zone reads each bound anew, refuses a large
// one, and closes once for many gaps.
impl ClockSet for Zone {
    ghost holds = { zone_holds };

    ghost calls = { zone_calls };

    ghost sound = { record {
      all_in = λ s v p six. all_in s v;
      zero_in = λ s p. (zero_exact s zero_reading p refl).1 refl;
      gap_in = λ a b g e s v p six h o. (gap_exact a g b e s v p six).1 (h, o);
      gap_bad = λ a g e. (gap_bad a g).1 e;
      gap_good = λ a g e good is. (kept_slip (cut_list a g) e (sym (cond-true (good_gap g) (kept_zone (cut_list a g)) (Err bad_argument) good) ∙ is)).1;
      reset_in = λ a b mask e s v p six h. (reset_exactly a mask b e s (cleared (in_mask mask) v) p (length_listed (λ i. (if in_mask mask i then 0 else count_at v i)))).1 (reset_now (in_mask mask) (limits a) s v six h);
      reset_bad = λ a mask e. (reset_bad a mask).1 e;
      reset_good = λ a mask e good is. (kept_slip (reset_list a mask) e (sym (cond-true (good_mask mask) (kept_zone (reset_list a mask)) (Err bad_argument) good) ∙ is)).1;
      delay_in = λ a b e s n v p six h. (delay_exactly a b e s (later n v) p (length_later n v ∙ six)).1 (delay_now (limits a) s n v six h);
      delay_good = λ a e is. (kept_slip (delay_list a) e is).1;
      within_true = λ a b. (within_exactly a b).0;
      empty_true = λ a. (empty_exactly a).0;
    } };

    ghost sure = { record {
      within_all = λ a b. (within_exactly a b).1;
      empty_all = λ a. (empty_exactly a).1;
      gap_alike = λ a b g same. fare_same zone_holds (zone_gap a g) (zone_gap b g) (gap_same a b same g);
      reset_alike = λ a b mask same. fare_same zone_holds (zone_reset a mask) (zone_reset b mask) (reset_same a b same mask);
      delay_alike = λ a b same. fare_same zone_holds (zone_delay a) (zone_delay b) (delay_same a b same);
    } };

    fn all() -> Zone {
        let mut bounds = [Bound::free(); 49];
        tighten(&mut bounds);
        Zone { bounds }
    }

    fn zero() -> Zone
        ensures same { result ≡ zone_calls.zero }
        ensures exact { ZeroExact result }
    {
        Zone {
            bounds: [Bound::up_to(0); 49],
        }
    }

    fn gap(&self, gap: Gap) -> Result<Zone, Slip>
        ensures same { result ≡ zone_calls.gap self.now gap }
        ensures exact { GapStands self.now gap result }
    {
        if !is_good_gap(gap) {
            return Err(Refusal::BadArgument.at(0));
        }
        let mut m = load(self);
        cut_form(
            &mut m,
            gap.first as usize,
            gap.second as usize,
            bound_of(gap),
        );
        keep(m)
    }

    fn reset(&self, mask: u8) -> Result<Zone, Slip>
        ensures same { result ≡ zone_calls.reset self.now mask }
        ensures exact { ResetStands self.now mask result }
    {
        if mask >= 64 {
            return Err(Refusal::BadArgument.at(0));
        }
        let mut m = load(self);
        keep(reset_form(&mut m, mask))
    }

    fn delay(&self) -> Result<Zone, Slip>
        ensures same { result ≡ zone_calls.delay self.now }
        ensures exact { DelayStands self.now result }
    {
        let mut m = load(self);
        delay_form(&mut m, Bound::free());
        keep(m)
    }

    fn within(&self, other: &Zone) -> bool
        ensures same { result ≡ zone_calls.within self.now other.now }
        ensures exact { WithinExact self.now other.now result }
    {
        let mut m = load(self);
        if canonicalize(&mut m) {
            is_beneath(&m, other)
        } else {
            true
        }
    }

    fn is_empty(&self) -> bool
        ensures same { result ≡ zone_calls.empty self.now }
        ensures exact { EmptyExact self.now result }
    {
        let mut m = load(self);
        !canonicalize(&mut m)
    }

    // Modest bounds take all gaps before they are closed, once. Larger ones are cut gap by gap, since any of the cuts may be refused.
    fn cut(&self, gaps: &[Gap]) -> Result<Zone, Slip> {
        let mut m = load(self);
        if gaps.is_empty() || !all_within(&m, MODEST_CONSTANT) {
            // The trait's own body again: an impl with a body of its own cannot call it, and the check does not cover a generic
            // function that both call.
            return gaps.iter().try_fold(*self, |set, gap| set.gap(*gap));
        }
        cut_all_raw(&mut m, gaps)?;
        canonicalize(&mut m);
        Ok(Zone { bounds: m })
    }
}

impl ClosedForms for Zone {
    ghost closings = { zone_closings };

    ghost forms = { record { closed_within_is = closed_within_is; closed_empty_is = closed_empty_is } };

    // What a gap leaves is closed.
    fn cut_closed(&self, gaps: &[Gap]) -> Result<Zone, Slip> {
        if gaps.is_empty() {
            return Ok(self.closed());
        }
        self.cut(gaps)
    }

    fn closed(&self) -> Zone {
        let mut m = load(self);
        canonicalize(&mut m);
        Zone { bounds: m }
    }

    fn closed_within(&self, other: &Zone) -> bool {
        self.closed_is_empty() || is_beneath(&self.bounds, other)
    }

    fn closed_is_empty(&self) -> bool {
        !Bound::neutral_weight().at_most(self.bounds[0])
    }
}

// Zones compute: strict bounds leave readings at finer scales, and none where nothing is left.
pub fn zone_cases_stand()
    ensures { CasesStand }
{}

// Two zones hold the same readings exactly when their closed bounds are equal.
pub fn zone_canonical_stands()
    ensures { Canonical }
{}
