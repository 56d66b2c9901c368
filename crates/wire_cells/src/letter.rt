// The byte that a letter stands as in a file.
ghost use Rattle.std.specs.Prelude.{◌≡◌};
ghost use Rattle.std.specs.Option.{ok_or};
ghost use Rattle.slip.specs.declared.Refusal.TheVariants.{OutOfRange as NoLetter};
ghost use Rattle.wire_cells.specs.CellFormat.{letter_of};

use crate::cell::Letter;
use slip::Refusal;

impl TryFrom<u8> for Letter {
    type Error = Refusal;

    ghost try_from_gives = { λ byte r. r ≡ ok_or (letter_of byte) NoLetter };

    fn try_from(byte: u8) -> Result<Letter, Refusal> {
        match byte as char {
            'B' => Ok(Letter::Barrier),
            'D' => Ok(Letter::Display),
            'R' => Ok(Letter::Read),
            'W' => Ok(Letter::Write),
            'S' => Ok(Letter::Sensor),
            _ => Err(Refusal::OutOfRange),
        }
    }
}
