// The range of a clock in a file.
ghost use Rattle.std.specs.Prelude.{◌≡◌, ◌<◌};
ghost use Rattle.wire_fields.specs.Readers.{Takes};
ghost use Rattle.wire_ends.specs.EndsFormat.{bit, end_ok, flags_ok, flags_at, there_at, ends_at};

use crate::ends::{End, Ends};
use slip::{Refusal, Slip};
use wire_fields::reader::Reader;

// Whether bit k of the map stands. Not the bits of a set of clocks: another width and another definition.
#[tactic(auto, using(std::proofs::lemmas::Nat::and_mask), unfolding(crate::specs::EndsFormat::bit))]
pub fn has_bit(map: u16, k: u16) -> bool
    requires { k < 16 }
    ensures { result ≡ bit map k }
{
    (map >> k) & 1 == 1
}

// An open bit needs its end. Two bits of a byte, and no value beside a flag: an enum would be no plainer.
fn end_ok(has: bool, open: bool) -> bool
    ensures { result ≡ end_ok has «open» }
{
    has || !open
}

#[tactic(auto, unfolding(crate::specs::EndsFormat::flags_ok))]
fn flags_ok(flags: u16) -> bool
    ensures { result ≡ flags_ok flags }
{
    let low = has_bit(flags, 0);
    let high = has_bit(flags, 2);
    flags < 16 && (low || high) && end_ok(low, has_bit(flags, 1)) && end_ok(high, has_bit(flags, 3))
}

fn read_flags(reader: &mut Reader<'_>) -> Result<u16, Slip>
    ensures { Takes flags_at reader.old reader.new result }
{
    let place = reader.at;
    let b = reader.byte()?;
    let flags = u16::from(b);
    if flags_ok(flags) {
        Ok(flags)
    } else {
        Err(Refusal::BadBits.at(place))
    }
}

// A flag, as in `End`.
fn read_end(reader: &mut Reader<'_>, open: bool) -> Result<End, Slip>
    ensures { Takes (there_at «open») reader.old reader.new result }
{
    let place = reader.at;
    let units = reader.word()?;
    if units <= 9999 {
        Ok(End { units, open })
    } else {
        Err(Refusal::OutOfRange.at(place))
    }
}

// A flag, since the map has a bit for it, and the format has both cases in one definition: a test at each caller would be no plainer.
pub fn read_ends(reader: &mut Reader<'_>, has: bool) -> Result<Ends, Slip>
    ensures { Takes (ends_at has) reader.old reader.new result }
{
    if !has {
        return Ok(Ends::default());
    }
    let flags = read_flags(reader)?;
    let low = if has_bit(flags, 0) {
        Some(read_end(reader, has_bit(flags, 1))?)
    } else {
        None
    };
    let high = if has_bit(flags, 2) {
        Some(read_end(reader, has_bit(flags, 3))?)
    } else {
        None
    };
    Ok(Ends { low, high })
}
