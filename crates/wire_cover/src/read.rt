// The entries of a cover, one after another, and the whole file.
ghost use Rattle.std.specs.Prelude.{◌≡◌, ℕ, List, map};
ghost use Rattle.wire_fields.specs.Faults.{Gives, Heeds};
ghost use Rattle.wire_fields.specs.Readers.{Takes, Gathers};
ghost use Rattle.wire_cover.specs.CoverFormat.{gap_of, gap_at, gaps_at, entry_at};
ghost use Rattle.clocks.specs.declared.Gap.{Gap};
ghost use Rattle.wire_cover.specs.Covers.{entry_seen, entries_at, cover_file, cover_head, cover_seen};

use crate::cover::{CoverEntry, CoverFile};
use clocks::{Gap, Sign};
use slip::Slip;
use std::alloc::Global;
use wire_fields::fault::Fault;
use wire_fields::reader::{Reader, fits};
use wire_fields::record::{Record, read_many};

// The gap that a word stands for: twice the constant, and 1 more for "at most". A function and no `From`: three values make a gap.
fn gap_of(first: u8, second: u8, word: i32) -> Gap
    ensures { result ≡ gap_of first second word }
{
    Gap {
        first,
        second,
        sign: Sign::strict(word.rem_euclid(2) == 0),
        constant: word.div_euclid(2),
    }
}

fn read_gap(reader: &mut Reader<'_>) -> Result<Gap, Slip>
    ensures { Takes gap_at reader.old reader.new result }
{
    let first = reader.byte()?;
    let second = reader.byte()?;
    let word = reader.signed()?;
    Ok(gap_of(first, second, word))
}

// An entry holds many.
impl Record<CoverFile> for Gap {
    ghost Seen = { Gap };

    ghost seen = { λ gap. gap };

    ghost stands = { gap_at };

    fn read(reader: &mut Reader<'_>, _heap: Global) -> Result<Gap, Fault> {
        let gap = read_gap(reader)?;
        Ok(gap)
    }
}

fn read_gaps(reader: &mut Reader<'_>, heap: Global, count: u8) -> Result<Vec<Gap>, Fault>
    ensures { Gathers (λ v. v.items) (gaps_at count) reader.old reader.new result }
{
    read_many::<CoverFile, _>(reader, heap, usize::from(count))
}

// A cover holds many.
impl Record<CoverFile> for CoverEntry {
    ghost Seen = { ℕ × List Gap };

    ghost seen = { entry_seen };

    ghost stands = { entry_at };

    fn read(reader: &mut Reader<'_>, heap: Global) -> Result<CoverEntry, Fault> {
        let cell = reader.word()?;
        let count = reader.byte()?;
        let gaps = read_gaps(reader, heap, count)?;
        Ok(CoverEntry { cell, gaps })
    }
}

#[tactic(auto, unfolding(crate::specs::Covers::entries_at))]
fn read_entries(reader: &mut Reader<'_>, heap: Global, count: u16) -> Result<Vec<CoverEntry>, Fault>
    ensures { Gathers (λ v. map entry_seen v.items) (entries_at count) reader.old reader.new result }
{
    read_many::<CoverFile, _>(reader, heap, usize::from(count))
}

pub fn cover_file(heap: Global, bytes: &[u8]) -> Result<CoverFile, Fault>
    ensures reads { Gives cover_seen result (cover_file bytes.now) }
    ensures heeds { Heeds result (cover_head bytes.now) }
{
    fits(bytes)?;
    let mut reader = Reader { bytes, at: 0 };
    let count = reader.count(0, 256)?;
    let entries = read_entries(&mut reader, heap, count)?;
    reader.close()?;
    Ok(CoverFile { entries })
}
