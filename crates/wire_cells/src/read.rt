// The fields of a cell, one after another.
ghost use Rattle.std.specs.Prelude.{◌≡◌, ◌+◌, ◌<◌, ◌≤◌, bit_and, count_ones};
ghost use Rattle.wire_fields.specs.Readers.{Takes};
ghost use Rattle.wire_ends.specs.EndsFormat.{bit, ends_at};
ghost use Rattle.wire_cells.specs.CellFormat.{letter_at, event_at, exit_set_at, dim_of, map_ok, map_at, events_at, clocks_at, cell_of, cell_at};

use crate::cell::{Cell, Event, Letter};
use slip::{Refusal, Slip};
use wire_ends::ends::Ends;
use wire_ends::read::{has_bit, read_ends};
use wire_fields::reader::Reader;

// The number of events that the map has.
#[tactic(auto, using(crate::specs::CellFormat::dim_few), unfolding(crate::specs::CellFormat::dim_of))]
fn dim_of(map: u16) -> usize
    ensures value { result ≡ dim_of map }
    ensures few { result ≤ 4 }
{
    (map & 15).count_ones() as usize
}

#[tactic(auto, using(std::proofs::lemmas::Nat::one_shl), unfolding(crate::specs::CellFormat::map_ok))]
fn map_ok(map: u16) -> bool
    ensures { result ≡ map_ok map }
{
    map < 4096 && (map & 15) + 1 == 1 << dim_of(map)
}

fn cell_of(map: u16, events: [Event; 4], exits: u8, ends: [Ends; 6]) -> Cell
    ensures { result ≡ cell_of map events exits ends }
{
    Cell {
        events,
        dim: dim_of(map),
        last: has_bit(map, 4),
        exits,
        ends,
    }
}

fn read_letter(reader: &mut Reader<'_>) -> Result<Letter, Slip>
    ensures { Takes letter_at reader.old reader.new result }
{
    let place = reader.at;
    let byte = reader.byte()?;
    Letter::try_from(byte).map_err(|refusal| refusal.at(place))
}

fn read_event(reader: &mut Reader<'_>) -> Result<Event, Slip>
    ensures { Takes event_at reader.old reader.new result }
{
    let letter = read_letter(reader)?;
    let lower = reader.word()?;
    let upper = reader.word()?;
    Ok(Event {
        letter,
        lower,
        upper,
    })
}

fn read_exits(reader: &mut Reader<'_>) -> Result<u8, Slip>
    ensures { Takes exit_set_at reader.old reader.new result }
{
    let place = reader.at;
    let e = reader.byte()?;
    if (1..=63).contains(&e) {
        Ok(e)
    } else {
        Err(Refusal::OutOfRange.at(place))
    }
}

fn read_map(reader: &mut Reader<'_>) -> Result<u16, Slip>
    ensures { Takes map_at reader.old reader.new result }
{
    let place = reader.at;
    let map = reader.word()?;
    if map_ok(map) {
        Ok(map)
    } else {
        Err(Refusal::BadBits.at(place))
    }
}

#[tactic(auto, using(wire_fields::proofs::Many::has_read_none, wire_fields::proofs::Many::has_read_more), unfolding(crate::specs::CellFormat::events_at))]
fn read_events(reader: &mut Reader<'_>, dim: usize) -> Result<[Event; 4], Slip>
    requires { dim ≤ 4 }
    ensures { Takes (events_at dim) reader.old reader.new result }
{
    let mut events = [Event {
        letter: Letter::Barrier,
        lower: 0,
        upper: 0,
    }; 4];
    // An index: what a loop over `iter_mut().take(dim)` has written is not known behind it, and `array::try_from_fn` does not say which call's refusal comes out.
    for k in 0..dim {
        events[k] = read_event(reader)?;
    }
    Ok(events)
}

// The range of clock k + 1.
fn read_clock(reader: &mut Reader<'_>, map: u16, k: u16) -> Result<Ends, Slip>
    requires { k < 6 }
    ensures { Takes (ends_at (bit map (k + 6))) reader.old reader.new result }
{
    read_ends(reader, has_bit(map, k + 6))
}

#[tactic(auto, using(wire_fields::proofs::Many::has_read_none, wire_fields::proofs::Many::has_read_more), unfolding(crate::specs::CellFormat::clocks_at))]
fn read_clocks(reader: &mut Reader<'_>, map: u16) -> Result<[Ends; 6], Slip>
    ensures { Takes (clocks_at map) reader.old reader.new result }
{
    let mut ends = [Ends::default(); 6];
    // An index, which also says which bit of the map stands for the clock; a loop over `iter_mut().enumerate()` is no plainer.
    for k in 0..6u16 {
        ends[k as usize] = read_clock(reader, map, k)?;
    }
    Ok(ends)
}

pub fn read_cell(reader: &mut Reader<'_>) -> Result<Cell, Slip>
    ensures { Takes cell_at reader.old reader.new result }
{
    let map = read_map(reader)?;
    let events = read_events(reader, dim_of(map))?;
    let exits = if has_bit(map, 5) {
        read_exits(reader)?
    } else {
        0
    };
    let ends = read_clocks(reader, map)?;
    Ok(cell_of(map, events, exits, ends))
}
