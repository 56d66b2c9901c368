// The reader of a file's fields, from the front.
ghost use Rattle.std.specs.Prelude.{◌≡◌, ◌≤◌, length, if◌then◌else◌, Ok, Err, nat_le};
ghost use Rattle.slip.specs.declared.Refusal.TheVariants.{Surplus};
ghost use Rattle.wire_fields.specs.Reading.{slip};

use slip::{Refusal, Slip};

// The bytes of a file, and the place of the next field in them. A refused field leaves no promise on the place.
#[derive(Drop)]
pub struct Reader<'a> {
    pub bytes: &'a [u8],
    pub at: usize,
    ghost within: { at ≤ length bytes.now },
}

// Refuses what is too long to be any file.
pub fn fits(bytes: &[u8]) -> Result<(), Slip>
    ensures { result ≡ (if nat_le (length bytes.now) 60000 then Ok tt else Err (slip Surplus 60000)) }
{
    if bytes.len() <= 60000 {
        Ok(())
    } else {
        Err(Refusal::Surplus.at(60000))
    }
}
