// Tests of the docket's calls over zones and over order sets: each refusal with its place, and what the marks come to. The plans are those of
// examples/, and the expected values follow from docs/docket.md.

#![tactic(auto)]

#[cfg(test)]
mod tests {
    use clocks::{Gap, Sign};
    use clockset::ClockSet;
    use docket::docket::Docket;
    use docket::entries::Entries;
    use docket_theory::{Entry, Verdict};
    use model::accepted::Model;
    use model::read::read_model;
    use order_set::OrderSet;
    use slip::{Refusal, Slip};
    use std::alloc::Global;
    use std::process::Abort;
    use std::test::Fail;
    use zone::Zone;

    const THREE_CELLS: [u8; 22] = [
        0, 3, 0, 0, 0, 32, 1, 0, 65, 66, 0, 0, 0, 2, 4, 0, 4, 0, 80, 1, 0, 2,
    ];

    const QUICK_BARRIER: [u8; 22] = [
        0, 3, 0, 0, 0, 32, 1, 0, 65, 66, 0, 0, 0, 2, 4, 0, 1, 0, 80, 1, 0, 2,
    ];

    fn plan(heap: Global, bytes: &[u8]) -> Result<Model, Fail> {
        read_model(heap, bytes).map_err(|_| Fail::new("refused"))
    }

    // A table of n rows.
    fn table<S: ClockSet>(heap: Global, n: usize) -> Result<Vec<Entry<S>>, Fail> {
        let entry = Entry {
            cell: 0,
            set: S::all(),
        };
        let mut rows = Vec::new(heap);
        rows.resize(n, entry)?;
        Ok(rows)
    }

    fn blank_marks(heap: Global, n: usize) -> Result<Vec<u16>, Fail> {
        let marks = vec![in heap; 7; n]?;
        Ok(marks)
    }

    // All readings with clock 1 below zero: none.
    fn nothing<S: ClockSet>() -> Result<S, Fail> {
        let below = Gap {
            first: 1,
            second: 0,
            sign: Sign::Below,
            constant: 0,
        };
        S::all().gap(below).map_err(|_| Fail::new("refused"))
    }

    fn lodging<S: ClockSet>(rt: &impl Abort, heap: Global) -> Result<(), Fail> {
        let model = plan(heap, &THREE_CELLS)?;
        let mut rows = table::<S>(heap, 1)?;
        let mut marks = blank_marks(heap, 16)?;
        let mut entries = Entries::new(&mut rows);
        let mut docket = Docket::new();
        let empty = nothing::<S>()?;
        assert_eq!(rt;
            docket.strike(&mut entries, &mut marks),
            Err(Refusal::Unknown.at(0))
        );
        assert_eq!(rt;
            docket.lodge(&model, &mut entries, &mut marks, 3, &empty),
            Err(Refusal::Unknown.at(0))
        );
        assert_eq!(rt;
            docket.lodge(&model, &mut entries, &mut marks, 2, &empty),
            Err(Refusal::EmptySet.at(0))
        );
        assert_eq!(rt;
            docket.lodge(&model, &mut entries, &mut marks, 2, &S::all()),
            Ok(0)
        );
        assert_eq!(rt;
            docket.lodge(&model, &mut entries, &mut marks, 3, &empty),
            Err(Refusal::DocketFull.at(1))
        );
        assert_eq!(rt; marks.first().copied(), Some(65535));
        assert_eq!(rt; docket.strike(&mut entries, &mut marks), Ok(()));
        assert_eq!(rt; entries.live, 0);
        Ok(())
    }

    // The opening duty: by no entry, by one on another cell, by the first.
    fn settling_opening<S: ClockSet>(rt: &impl Abort, heap: Global) -> Result<(), Fail> {
        let model = plan(heap, &THREE_CELLS)?;
        let mut rows = table::<S>(heap, 2)?;
        let mut marks = blank_marks(heap, 32)?;
        let mut entries = Entries::new(&mut rows);
        let mut docket = Docket::new();
        assert_eq!(rt;
            docket.settle(&model, &entries, &mut marks, 65535, 1, None),
            Err(Refusal::Unknown.at(65535))
        );
        assert_eq!(rt;
            docket.settle(&model, &entries, &mut marks, 65535, 0, None),
            Err(Refusal::NotHeld.at(65535))
        );
        assert_eq!(rt;
            docket.settle(&model, &entries, &mut marks, 65535, 0, Some(0)),
            Err(Refusal::Unknown.at(65535))
        );
        assert_eq!(rt;
            docket.lodge(&model, &mut entries, &mut marks, 1, &S::all()),
            Ok(0)
        );
        assert_eq!(rt;
            docket.settle(&model, &entries, &mut marks, 65535, 0, Some(0)),
            Err(Refusal::OtherCell.at(65535))
        );
        assert_eq!(rt;
            docket.lodge(&model, &mut entries, &mut marks, 0, &S::all()),
            Ok(1)
        );
        assert_eq!(rt;
            docket.settle(&model, &entries, &mut marks, 65535, 0, Some(1)),
            Ok(())
        );
        assert_eq!(rt; docket.opening, 1);
        Ok(())
    }

    // The start out of cell 0, held by entry 1, and what a strike of that entry leaves.
    fn settling_start<S: ClockSet>(rt: &impl Abort, heap: Global) -> Result<(), Fail> {
        let model = plan(heap, &THREE_CELLS)?;
        let mut rows = table::<S>(heap, 2)?;
        let mut marks = blank_marks(heap, 32)?;
        let mut entries = Entries::new(&mut rows);
        let mut docket = Docket::new();
        assert_eq!(rt;
            docket.lodge(&model, &mut entries, &mut marks, 0, &S::all()),
            Ok(0)
        );
        assert_eq!(rt;
            docket.lodge(&model, &mut entries, &mut marks, 1, &S::all()),
            Ok(1)
        );
        assert_eq!(rt;
            docket.settle(&model, &entries, &mut marks, 0, 2, Some(0)),
            Err(Refusal::Unknown.at(0))
        );
        assert_eq!(rt;
            docket.settle(&model, &entries, &mut marks, 0, 1, None),
            Err(Refusal::NotHeld.at(0))
        );
        assert_eq!(rt;
            docket.settle(&model, &entries, &mut marks, 0, 1, Some(1)),
            Ok(())
        );
        assert_eq!(rt; marks.get(1).copied(), Some(1));
        assert_eq!(rt; docket.strike(&mut entries, &mut marks), Ok(()));
        assert_eq!(rt; marks.get(1).copied(), Some(65535));
        Ok(())
    }

    // Cell 0 with all readings and cell 1 with clock 1 at most 1, swept; how many duties stay open, and the verdict.
    fn sweeping<S: ClockSet>(
        rt: &impl Abort,
        heap: Global,
        bytes: &[u8],
    ) -> Result<(u32, Verdict), Fail> {
        let model = plan(heap, bytes)?;
        let mut rows = table::<S>(heap, 2)?;
        let mut marks = blank_marks(heap, 32)?;
        let mut entries = Entries::new(&mut rows);
        let mut docket = Docket::new();
        let at_most_one = Gap {
            first: 1,
            second: 0,
            sign: Sign::AtMost,
            constant: 1,
        };
        let low = S::all().gap(at_most_one).map_err(|_| Fail::new("refused"))?;
        assert_eq!(rt;
            docket.lodge(&model, &mut entries, &mut marks, 0, &S::all()),
            Ok(0)
        );
        assert_eq!(rt;
            docket.lodge(&model, &mut entries, &mut marks, 1, &low),
            Ok(1)
        );
        assert_eq!(rt;
            docket.verdict(&model, &entries, &marks),
            Verdict::Undecided
        );
        assert_eq!(rt; entries.duties(&model), 5);
        let open = docket.sweep(&model, &entries, &mut marks);
        Ok((open, docket.verdict(&model, &entries, &marks)))
    }

    #[test]
    fn lodge_and_strike(rt: HostRuntime) -> Result<(), Fail> {
        lodging::<Zone>(&rt, rt.alloc())?;
        lodging::<OrderSet>(&rt, rt.alloc())
    }

    #[test]
    fn settle(rt: HostRuntime) -> Result<(), Fail> {
        settling_opening::<Zone>(&rt, rt.alloc())?;
        settling_opening::<OrderSet>(&rt, rt.alloc())?;
        settling_start::<Zone>(&rt, rt.alloc())?;
        settling_start::<OrderSet>(&rt, rt.alloc())
    }

    #[test]
    fn sweep_and_verdict(rt: HostRuntime) -> Result<(), Fail> {
        let (open, verdict) = sweeping::<Zone>(&rt, rt.alloc(), &QUICK_BARRIER)?;
        assert_eq!(rt; open, 0);
        assert_eq!(rt; verdict, Verdict::Shut);
        let (open, verdict) = sweeping::<Zone>(&rt, rt.alloc(), &THREE_CELLS)?;
        assert_eq!(rt; open, 1);
        assert_eq!(rt; verdict, Verdict::Undecided);
        Ok(())
    }

    // Clock 2 goes on while clock 1 is read at a number of units and starts again.
    fn goes_on(a: Zone, units: u16) -> Result<Zone, Slip> {
        let n = units as i32;
        let high = Gap {
            first: 1,
            second: 0,
            sign: Sign::AtMost,
            constant: n,
        };
        let low = Gap {
            first: 0,
            second: 1,
            sign: Sign::AtMost,
            constant: 0 - n,
        };
        a.delay()?.gap(high)?.gap(low)?.reset(1)
    }

    // Clock 2 is 4,000,000 units ahead of clock 1, which cell 1 keeps at most 4: the image would need a larger bound.
    #[test]
    fn image_refused(rt: HostRuntime) -> Result<(), Fail> {
        let heap = rt.alloc();
        let model = plan(heap, &THREE_CELLS)?;
        let mut rows = table::<Zone>(heap, 1)?;
        let mut marks = blank_marks(heap, 16)?;
        let mut entries = Entries::new(&mut rows);
        let mut docket = Docket::new();
        let mut set = Zone::zero();
        for _k in 0..400 {
            set = goes_on(set, 9_999)?;
        }
        let ahead = goes_on(set, 400)?.delay()?;
        assert_eq!(rt;
            docket.lodge(&model, &mut entries, &mut marks, 1, &ahead),
            Ok(0)
        );
        assert_eq!(rt;
            docket.settle(&model, &entries, &mut marks, 0, 0, Some(0)),
            Err(Refusal::BoundTooLarge.at(0))
        );
        Ok(())
    }

    // The 257th entry finds the docket full, however large the tables are.
    #[test]
    fn full(rt: HostRuntime) -> Result<(), Fail> {
        let heap = rt.alloc();
        let model = plan(heap, &THREE_CELLS)?;
        let mut rows = table::<Zone>(heap, 300)?;
        let mut marks = blank_marks(heap, 4800)?;
        let mut entries = Entries::new(&mut rows);
        let docket = Docket::new();
        for k in 0..256 {
            assert_eq!(rt;
                docket.lodge(&model, &mut entries, &mut marks, 0, &Zone::all()),
                Ok(k)
            );
        }
        assert_eq!(rt;
            docket.lodge(&model, &mut entries, &mut marks, 0, &Zone::all()),
            Err(Refusal::DocketFull.at(256))
        );
        Ok(())
    }
}
