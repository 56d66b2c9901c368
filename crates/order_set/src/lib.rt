//! Order sets: sets of clock readings given by the order of every two clocks.

#![tactic(auto)]

ghost use Rattle.std.specs.Prelude.{◌≡◌, true, length, if◌then◌else◌, refl};
ghost use Rattle.std.proofs.Common.{◌∙◌};
ghost use Rattle.clockset.specs.Laws.{bad_argument};
ghost use Rattle.zone_theory.specs.Gaps.{gap_sign};
ghost use Rattle.order_set.specs.Exact.{Canonical, GapStands, ResetStands, DelayStands, ZeroExact, WithinExact, EmptyExact};
ghost use Rattle.order_set.specs.Orders.{sign_list, order_holds, order_calls, order_closings, limits, order_gap, order_reset, order_delay};
ghost use Rattle.clocks.specs.Gaps.{good_gap, good_mask};
ghost use Rattle.clocks.specs.Readings.{in_mask, count_at, cleared, later, zero_reading};
ghost use Rattle.zone_theory.proofs.Counts.{length_listed, length_later};
ghost use Rattle.zone_theory.proofs.Exact.{reset_now, delay_now};
ghost use Rattle.zone_theory.proofs.GapLimits.{gap_sign_is};
ghost use Rattle.order_set.specs.Facts.{all_in, zero_exact, gap_exact, gap_stands, cut_list, good_slip, reset_exactly, reset_stands, reset_list, delay_exactly, delay_list, within_exactly, empty_exactly, gap_same, reset_same, delay_same};
ghost use Rattle.clockset.proofs.Fares.{fare_same};

use clocks::{Gap, Sign};
use clockset::{ClockSet, ClosedForms};
use matrix::{canonicalize, cut_form, delay_form, is_good_gap, reset_form, tighten, within_form};
use slip::{Refusal, Slip};
use weight::OrderSign;

// What is known of the count of clock i less that of clock j stands at 7 * i + j; clock 0 always reads zero. Every array is
// an order set: the calls bring it to closed form first.
#[derive(Clone, Copy)]
pub struct OrderSet {
    pub signs: [OrderSign; 49],
}

// The order that follows from a gap. A function and no `From`: neither type is of this crate.
fn sign_of(gap: Gap) -> OrderSign
    ensures { result ≡ gap_sign gap }
{
    if gap.constant < 0 {
        return OrderSign::Below;
    }
    if gap.constant > 0 {
        return OrderSign::Free;
    }
    match gap.sign {
        Sign::Below => OrderSign::Below,
        Sign::AtMost => OrderSign::AtMost,
    }
}

// The calls are those of `matrix`; an order set has nothing to read anew, and refuses nothing but a bad argument.
impl ClockSet for OrderSet {
    ghost holds = { order_holds };

    ghost calls = { order_calls };

    ghost sound = { record {
      all_in = λ s v p six. all_in s v;
      zero_in = λ s p. (zero_exact s zero_reading p refl).1 refl;
      gap_in = λ a b g e s v p six h o. (gap_exact a g b e s v p six).1 (h, gap_sign_is g s v p o);
      gap_bad = λ a g e. (gap_stands a g (order_gap a g) refl).comes.1 e;
      gap_good = λ a g e good is. absurd (good_slip (good_gap g) (cut_list a g) e good is);
      reset_in =
          λ a b mask e s v p six h.
          (reset_exactly a mask b e s (cleared (in_mask mask) v) p (length_listed (λ i. (if in_mask mask i then 0 else count_at v i)))).1 (reset_now (in_mask mask) (limits a) s v six h);
      reset_bad = λ a mask e. (reset_stands a mask (order_reset a mask) refl).comes.1 e;
      reset_good = λ a mask e good is. absurd (good_slip (good_mask mask) (reset_list a mask) e good is);
      delay_in = λ a b e s n v p six h. (delay_exactly a b e s (later n v) p (length_later n v ∙ six)).1 (delay_now (limits a) s n v six h);
      delay_good = λ a e is. absurd (good_slip true (delay_list a) e refl is);
      within_true = λ a b. (within_exactly a b).0;
      empty_true = λ a. (empty_exactly a).0;
    } };

    ghost sure = { record {
      within_all = λ a b. (within_exactly a b).1;
      empty_all = λ a. (empty_exactly a).1;
      gap_alike = λ a b g same. fare_same order_holds (order_gap a g) (order_gap b g) (gap_same a b same g);
      reset_alike = λ a b mask same. fare_same order_holds (order_reset a mask) (order_reset b mask) (reset_same a b same mask);
      delay_alike = λ a b same. fare_same order_holds (order_delay a) (order_delay b) (delay_same a b same);
    } };

    fn all() -> OrderSet {
        let mut signs = [OrderSign::Free; 49];
        tighten(&mut signs);
        OrderSet { signs }
    }

    fn zero() -> OrderSet
        ensures same { result ≡ order_calls.zero }
        ensures exact { ZeroExact result }
    {
        OrderSet {
            signs: [OrderSign::AtMost; 49],
        }
    }

    fn gap(&self, gap: Gap) -> Result<OrderSet, Slip>
        ensures same { result ≡ order_calls.gap self.now gap }
        ensures exact { GapStands self.now gap result }
    {
        if !is_good_gap(gap) {
            return Err(Refusal::BadArgument.at(0));
        }
        let mut m = self.signs;
        cut_form(
            &mut m,
            gap.first as usize,
            gap.second as usize,
            sign_of(gap),
        );
        Ok(OrderSet { signs: m })
    }

    fn reset(&self, mask: u8) -> Result<OrderSet, Slip>
        ensures same { result ≡ order_calls.reset self.now mask }
        ensures exact { ResetStands self.now mask result }
    {
        if mask >= 64 {
            return Err(Refusal::BadArgument.at(0));
        }
        let mut m = self.signs;
        let signs = reset_form(&mut m, mask);
        Ok(OrderSet { signs })
    }

    fn delay(&self) -> Result<OrderSet, Slip>
        ensures same { result ≡ order_calls.delay self.now }
        ensures exact { DelayStands self.now result }
    {
        let mut m = self.signs;
        delay_form(&mut m, OrderSign::Free);
        Ok(OrderSet { signs: m })
    }

    fn within(&self, other: &OrderSet) -> bool
        ensures same { result ≡ order_calls.within self.now other.now }
        ensures exact { WithinExact self.now other.now result }
    {
        let mut m = self.signs;
        within_form(&mut m, &other.signs)
    }

    fn is_empty(&self) -> bool
        ensures same { result ≡ order_calls.empty self.now }
        ensures exact { EmptyExact self.now result }
    {
        let mut m = self.signs;
        !canonicalize(&mut m)
    }
}

impl ClosedForms for OrderSet {
    ghost closings = { order_closings };

    ghost forms = { record { closed_within_is = λ a b. refl; closed_empty_is = λ a. refl } };

    // an order set is asked as it is
    fn closed(&self) -> OrderSet {
        *self
    }

    fn closed_within(&self, other: &OrderSet) -> bool {
        self.within(other)
    }

    fn closed_is_empty(&self) -> bool {
        self.is_empty()
    }
}

// Two order sets hold the same readings exactly when their closed signs are equal.
pub fn order_canonical_stands()
    ensures { Canonical }
{}
