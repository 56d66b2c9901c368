//! Tests of weights and of the two kinds of clock sets, with values found by hand.

#![tactic(auto)]

#[cfg(test)]
mod weights {
    use std::test::Fail;
    use weight::{Bound, OrderSign, Weight, all_small, close};

    // no limits but zero between a place and itself
    fn unlimited() -> [Bound; 49] {
        let mut m = [Bound::free(); 49];
        for weight in m.iter_mut().step_by(8) {
            *weight = Bound::up_to(0);
        }
        m
    }

    fn closes(m: &mut [Bound; 49]) -> Result<bool, Fail> {
        if !all_small(m) {
            return Err(Fail::new("a bound is too large"));
        }
        Ok(close(m))
    }

    #[test]
    fn strict_if_one_is(rt: HostRuntime) {
        assert_eq!(rt; Bound::under(3).sum(Bound::up_to(-5)), Bound::under(-2));
        assert_eq!(rt; Bound::up_to(3).sum(Bound::up_to(-5)), Bound::up_to(-2));
        assert_eq!(rt; Bound::under(3).sum(Bound::under(4)), Bound::under(7));
    }

    #[test]
    fn unlimited_stays_so(rt: HostRuntime) {
        assert_eq!(rt; Bound::free().sum(Bound::up_to(-5)), Bound::free());
        assert_eq!(rt; Bound::under(-5).sum(Bound::free()), Bound::free());
    }

    #[test]
    fn shorter_way(rt: HostRuntime) -> Result<(), Fail> {
        let mut m = unlimited();
        m[1] = Bound::up_to(4);
        m[7 + 2] = Bound::under(-6);
        assert!(rt; closes(&mut m)?);
        assert_eq!(rt; m[2], Bound::under(-2));
        assert_eq!(rt; m[1], Bound::up_to(4));
        assert_eq!(rt; m[7], Bound::free());
        Ok(())
    }

    #[test]
    fn empty_form(rt: HostRuntime) -> Result<(), Fail> {
        let mut m = unlimited();
        m[5] = Bound::up_to(4);
        m[7 * 5] = Bound::under(-4);
        assert!(rt; !closes(&mut m)?);
        assert_eq!(rt; m[48], Bound::under(0));
        assert_eq!(rt; m[2], Bound::under(0));
        Ok(())
    }

    #[test]
    fn order_of_three(rt: HostRuntime) {
        let mut m = [OrderSign::Free; 49];
        m[1] = OrderSign::AtMost;
        m[7 + 2] = OrderSign::Below;
        assert!(rt; close(&mut m));
        assert!(rt; m[2].at_most(OrderSign::Below));
        assert!(rt; !m[7].at_most(OrderSign::AtMost));
        m[7 * 2] = OrderSign::AtMost;
        assert!(rt; !close(&mut m));
    }
}

#[cfg(test)]
mod kinds {
    use clocks::{Gap, Sign};
    use clockset::{ClockSet, ClosedForms};
    use order_set::OrderSet;
    use slip::Slip;
    use std::process::Abort;
    use std::test::Fail;
    use zone::Zone;

    fn below(first: u8, second: u8, constant: i32) -> Gap {
        Gap {
            first,
            second,
            sign: Sign::Below,
            constant,
        }
    }

    fn up_to(first: u8, second: u8, constant: i32) -> Gap {
        Gap {
            first,
            second,
            sign: Sign::AtMost,
            constant,
        }
    }

    // the number of a refusal, and 0 where there is none
    fn number<S: ClockSet>(r: Result<S, Slip>) -> u8 {
        match r {
            Ok(_) => 0,
            Err(slip) => slip.refusal.number(),
        }
    }

    fn equal<S: ClockSet>(a: S, b: S) -> bool {
        a.within(&b) && b.within(&a)
    }

    fn constants_at_the_edge<S: ClockSet>(rt: &impl Abort, a: S) {
        assert_eq!(rt; number(a.gap(up_to(1, 0, 9_999))), 0);
        assert_eq!(rt; number(a.gap(up_to(1, 0, 10_000))), 11);
        assert_eq!(rt; number(a.gap(below(0, 1, -9_999))), 0);
        assert_eq!(rt; number(a.gap(below(0, 1, -10_000))), 11);
    }

    fn clocks_at_the_edge<S: ClockSet>(rt: &impl Abort, a: S) {
        assert_eq!(rt; number(a.gap(up_to(6, 0, 1))), 0);
        assert_eq!(rt; number(a.gap(up_to(7, 0, 1))), 11);
        assert_eq!(rt; number(a.gap(up_to(0, 7, 1))), 11);
        assert_eq!(rt; number(a.gap(up_to(3, 3, 1))), 11);
        assert_eq!(rt; number(a.reset(63)), 0);
        assert_eq!(rt; number(a.reset(64)), 11);
    }

    fn empty_sets<S: ClockSet>(rt: &impl Abort, zero: S) -> Result<(), Fail> {
        let none = zero.gap(below(1, 2, 0))?;
        assert!(rt; none.is_empty());
        assert!(rt; none.within(&zero));
        assert!(rt; none.delay()?.is_empty());
        assert!(rt; none.reset(5)?.is_empty());
        assert!(rt; none.gap(up_to(0, 1, 9_999))?.is_empty());
        Ok(())
    }

    // several gaps at once, a bad one among them, and none
    fn several_gaps<S: ClockSet>(rt: &impl Abort, all: S, zero: S) -> Result<(), Fail> {
        assert_eq!(rt;
            number(all.cut(&[up_to(1, 0, 5), up_to(3, 3, 0), up_to(2, 0, 5)])),
            11
        );
        assert!(rt; equal(all.cut(&[])?, all));
        assert!(rt; all.cut(&[below(1, 2, 0), up_to(2, 1, 0)])?.is_empty());
        let less = all.cut(&[below(1, 2, 0), up_to(2, 3, 0)])?;
        assert!(rt; less.within(&all.gap(below(1, 3, 0))?));
        assert!(rt; !less.within(&zero));
        Ok(())
    }

    fn closed_forms<S: ClosedForms>(rt: &impl Abort, all: S, zero: S) -> Result<(), Fail> {
        let none = zero.gap(below(1, 2, 0))?.closed();
        assert!(rt; none.closed_is_empty());
        assert!(rt; none.closed_within(&none));
        assert!(rt; !all.closed().closed_is_empty());
        assert!(rt; !all.closed().closed_within(&zero));
        assert!(rt; zero.closed().closed_within(&all));
        assert!(rt; all.cut_closed(&[up_to(1, 0, 0)])?.closed_within(&all));
        assert!(rt; all.cut_closed(&[below(1, 0, 0)])?.closed_is_empty());
        Ok(())
    }

    #[test]
    fn zone_edges(rt: HostRuntime) -> Result<(), Fail> {
        constants_at_the_edge(&rt, Zone::all());
        clocks_at_the_edge(&rt, Zone::all());
        several_gaps(&rt, Zone::all(), Zone::zero())?;
        closed_forms(&rt, Zone::all(), Zone::zero())?;
        empty_sets(&rt, Zone::zero())
    }

    #[test]
    fn order_set_edges(rt: HostRuntime) -> Result<(), Fail> {
        constants_at_the_edge(&rt, OrderSet::all());
        clocks_at_the_edge(&rt, OrderSet::all());
        several_gaps(&rt, OrderSet::all(), OrderSet::zero())?;
        closed_forms(&rt, OrderSet::all(), OrderSet::zero())?;
        empty_sets(&rt, OrderSet::zero())
    }

    fn strict_bounds<S: ClockSet>(rt: &impl Abort, all: S) -> Result<(), Fail> {
        let above = all.gap(below(0, 1, 0))?;
        assert!(rt; !above.gap(below(1, 0, 1))?.is_empty());
        let from_one = all.gap(up_to(0, 1, -1))?;
        assert!(rt; from_one.gap(below(1, 0, 1))?.is_empty());
        assert!(rt; !from_one.gap(up_to(1, 0, 1))?.is_empty());
        Ok(())
    }

    // clock 2 waits while clock 1 starts again
    fn apart<S: ClockSet>(rt: &impl Abort, all: S, zero: S) -> Result<(), Fail> {
        let later = zero.delay()?;
        assert!(rt; later.gap(below(1, 2, 0))?.is_empty());
        let apart = later.gap(up_to(0, 2, -3))?.reset(1)?;
        assert!(rt; apart.within(&all.gap(up_to(1, 2, -3))?));
        assert!(rt; !apart.within(&all.gap(up_to(1, 2, -4))?));
        assert!(rt; equal(apart.reset(63)?, zero));
        Ok(())
    }

    #[test]
    fn zone_bounds(rt: HostRuntime) -> Result<(), Fail> {
        assert!(rt; !Zone::all().within(&Zone::zero()));
        strict_bounds(&rt, Zone::all())?;
        apart(&rt, Zone::all(), Zone::zero())
    }

    // clock 1 goes on while clock 2 is read at a number of units and starts again
    fn goes_on<S: ClockSet>(a: S, units: u16) -> Result<S, Slip> {
        let n = units as i32;
        a.delay()?
            .gap(up_to(2, 0, n))?
            .gap(up_to(0, 2, 0 - n))?
            .reset(2)
    }

    fn four_million<S: ClockSet>(rt: &impl Abort, zero: S) -> Result<(), Fail> {
        let mut a = zero;
        for _ in 0..400 {
            a = goes_on(a, 9_999)?;
        }
        // clock 1 stands at 3,999,600
        assert_eq!(rt; number(goes_on(a, 401)), 16);
        let top = goes_on(a, 400)?;
        assert_eq!(rt; number(top.delay()), 0);
        assert_eq!(rt; number(top.reset(1)), 0);
        assert_eq!(rt; number(goes_on(top, 1)), 16);
        // large bounds are cut gap by gap: clock 1 would be at 4,000,001 when clock 2 is at 1
        let later = top.delay()?;
        assert_eq!(rt; number(later.cut(&[up_to(2, 0, 0), up_to(3, 0, 9_999)])), 0);
        assert_eq!(rt; number(later.cut(&[up_to(2, 0, 1), up_to(0, 2, -1)])), 16);
        Ok(())
    }

    #[test]
    fn zone_four_million(rt: HostRuntime) -> Result<(), Fail> {
        four_million(&rt, Zone::zero())
    }

    fn rounds<S: ClockSet>(rt: &impl Abort, all: S, zero: S) -> Result<(), Fail> {
        let less = all.gap(below(1, 2, 0))?;
        assert!(rt; equal(all.gap(up_to(1, 2, -3))?, less));
        assert!(rt; equal(all.gap(below(1, 2, 5))?, all));
        assert!(rt; !equal(all.gap(up_to(1, 2, 0))?, less));
        assert!(rt; less.gap(below(2, 1, 0))?.is_empty());
        assert!(rt; !less.gap(below(2, 1, 1))?.is_empty());
        assert!(rt; equal(less.reset(63)?, zero));
        Ok(())
    }

    #[test]
    fn order_set_rounds(rt: HostRuntime) -> Result<(), Fail> {
        rounds(&rt, OrderSet::all(), OrderSet::zero())
    }
}
