// A cell's invariant as gaps, by clock, the low end first.
ghost use Rattle.std.specs.Prelude.{◌≡◌, [], ◌++◌, take};
ghost use Rattle.std.specs.Option.{option_map};
ghost use Rattle.docket_theory.specs.Images.{low_gap, high_gap};
ghost use Rattle.images.specs.Gaps.{gathered, listed, gaps_to};

use crate::gap_list::GapList;
use clocks::{Gap, Sign};
use wire::cell::{Cell, End};

impl GapList {
    fn none() -> GapList
        ensures { gathered result ≡ [] }
    {
        let blank = Gap {
            first: 0,
            second: 0,
            sign: Sign::Below,
            constant: 0,
        };
        GapList {
            list: [blank; 12],
            count: 0,
        }
    }

    pub fn gaps(&self) -> &[Gap]
        ensures { result.now ≡ gathered self.now }
    {
        &self.list[..self.count]
    }

    // One more gap, if there is one.
    fn push(&mut self, gap: Option<Gap>)
        ensures { gathered self.new ≡ take 12 (gathered self.old ++ listed gap) }
    {
        let n = self.count;
        if let Some(gap) = gap {
            if n < 12 {
                self.list[n] = gap;
                self.count = n + 1;
            }
        }
    }
}

fn low_gap(clock: u8, low: Option<End>) -> Option<Gap>
    ensures { result ≡ option_map (low_gap clock) low }
{
    low.map(|end| Gap {
        first: 0,
        second: clock,
        sign: Sign::strict(end.open),
        constant: -(end.units as i32),
    })
}

fn high_gap(clock: u8, high: Option<End>) -> Option<Gap>
    ensures { result ≡ option_map (high_gap clock) high }
{
    high.map(|end| Gap {
        first: clock,
        second: 0,
        sign: Sign::strict(end.open),
        constant: end.units as i32,
    })
}

// The gaps of a cell's invariant.
pub(crate) fn gaps_of(cell: &Cell) -> GapList
    ensures { gathered result ≡ gaps_to cell.now 6 }
{
    let mut gaps = GapList::none();
    for (n, ends) in cell.ends.iter().enumerate() {
        let clock = (n + 1) as u8;
        gaps.push(low_gap(clock, ends.low));
        gaps.push(high_gap(clock, ends.high));
    }
    gaps
}
