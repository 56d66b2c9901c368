// The docket as a value: what it holds, what each of its calls makes of it, and what holds after every list of calls.
#![tactic(auto)]

ghost use Rattle.docket_theory.specs.Promise.{Stands};

use clockset::ClockSet;
use model::outgoing::Move;
use std::fmt;

// A cell, and the readings that the clocks may have in it.
#[derive(Clone, Copy, PartialEq, Eq, Debug)]
pub struct Entry<S> {
    pub cell: u16,
    pub set: S,
}

// What a docket owes: that some entry takes up the opening of every run, and each step out of an entry's cell.
#[derive(Clone, Copy, PartialEq, Eq, Debug)]
pub enum Duty<S> {
    Opening,
    Leave(Entry<S>, Move),
}

// What a docket says of a model: a final cell was reached, none can be, or neither is known.
#[derive(Clone, Copy, PartialEq, Eq, Debug)]
pub enum Verdict {
    Reached,
    Shut,
    Undecided,
}

// The verdict as a word.
impl fmt::Display for Verdict {
    ghost use Rattle.std.specs.Prelude.{Some};
    ghost use Rattle.docket_theory.specs.Words.{verdict_word};

    ghost output = { λ v. Some (verdict_word v) };

    fn fmt<W: fmt::Write>(&self, f: &mut fmt::Formatter<W>) -> fmt::Result {
        f.write_str(match self {
            Verdict::Reached => "reached",
            Verdict::Shut => "shut",
            Verdict::Undecided => "undecided",
        })
    }
}

// That the promise stands for every kind of clock set.
pub fn promise_stands<S: ClockSet>()
    ensures { Stands S.holds S.calls }
{}
