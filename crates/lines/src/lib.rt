// The lines that the programs print, byte for byte.
#![tactic(auto)]

ghost use Rattle.std.specs.Prelude.{◌≡◌, IfOk, Some, string_bytes};
ghost use Rattle.std.specs.Fmt.{WritesOnOk};
ghost use Rattle.lines.specs.Lines.{tenths, six_counts, line_text, lines_text};

pub mod report;

use docket_theory::Verdict;
use slip::Slip;
use std::alloc::{AllocError, Global};
use std::fmt;
use trail::position::Position;
use wire::step::Step;

// A line of a report.
#[derive(Clone, Copy)]
pub enum Line {
    // the number of cells of the model
    Cells(usize),
    // a step that was taken, and where it led
    Took(Step, Position),
    // where the trail ended
    Trail(Position),
    // no trail was given
    NoTrail,
    // a refusal, which is the last line
    Refused(Slip),
    // how many entries and duties a docket has, and how many duties are open
    Entries {
        entries: u16,
        duties: u32,
        open: u32,
    },
    // what the docket says of the model
    Verdict(Verdict),
}

// Elapsed time in tenths of a unit, half a tenth up; no unit has no tick.
fn in_tenths(ticks: u32, scale: u16) -> u64
    ensures { result ≡ tenths ticks scale }
{
    if scale == 0 {
        return 0;
    }
    (20 * ticks as u64 + scale as u64) / (2 * scale as u64)
}

// Six counts, with a space between two. A type, since an array does not print; one format, since a loop with a test for the first is no plainer.
#[derive(Clone, Copy)]
struct Counts([u32; 6]);

impl fmt::Display for Counts {
    ghost output = { λ c. Some (six_counts c.0) };

    fn fmt<W: fmt::Write>(&self, f: &mut fmt::Formatter<W>) -> fmt::Result {
        let [a, b, c, d, e, g] = self.0;
        write!(f, "{a} {b} {c} {d} {e} {g}")
    }
}

// A line with its end.
impl fmt::Display for Line {
    ghost output = { λ l. Some (line_text l) };

    fn fmt<W: fmt::Write>(&self, f: &mut fmt::Formatter<W>) -> fmt::Result {
        match self {
            Line::Cells(count) => write!(f, "cells {count}\n"),
            Line::Took(step, position) => write_took(f, *step, *position),
            Line::Trail(position) => write_trail(f, *position),
            Line::NoTrail => write!(f, "trail none\n"),
            Line::Refused(slip) => write!(f, "{slip}\n"),
            Line::Entries {
                entries,
                duties,
                open,
            } => write!(f, "entries {entries} duties {duties} open {open}\n"),
            Line::Verdict(verdict) => write!(f, "verdict {verdict}\n"),
        }
    }
}

fn write_took<W: fmt::Write>(f: &mut fmt::Formatter<W>, step: Step, p: Position) -> fmt::Result
    ensures { WritesOnOk W.write_str_gives f.old result (line_text (Line.Took step p)) f.new }
{
    let cell = p.cell;
    let counts = Counts(p.counts);
    let elapsed = p.elapsed;
    write!(f, "{step}: cell {cell} counts {counts} elapsed {elapsed}\n")
}

fn write_trail<W: fmt::Write>(f: &mut fmt::Formatter<W>, p: Position) -> fmt::Result
    ensures { WritesOnOk W.write_str_gives f.old result (line_text (Line.Trail p)) f.new }
{
    let cell = p.cell;
    let tenths = in_tenths(p.elapsed, p.scale);
    let whole = tenths / 10;
    let part = tenths % 10;
    write!(f, "trail cell {cell} elapsed {whole}.{part}\n")
}

// The text of one line, with its end.
pub fn text_of(heap: Global, line: Line) -> Result<String, AllocError>
    ensures { IfOk result (λ t. string_bytes t ≡ line_text line) }
{
    format!(in heap; "{line}")
}

// The text of all lines.
pub fn text_of_all(heap: Global, lines: &[Line]) -> Result<String, AllocError>
    ensures { IfOk result (λ t. string_bytes t ≡ lines_text lines.now) }
{
    let mut out = String::new(heap);
    for line in lines {
        write!(out, "{line}")?;
    }
    Ok(out)
}
