ghost use Rattle.std.specs.Prelude.{◌≡◌};
ghost use Rattle.kinds_export.specs.Answers.{gap_of, told};

use clocks::{Gap, Sign};
use slip::Slip;

// The gap of what C code passes: a flag for the sign, since C code has no enum of ours. A function and no `From`: four values make a gap.
pub(crate) fn gap_of(first: u8, second: u8, strict: bool, constant: i32) -> Gap
    ensures { result ≡ gap_of first second strict constant }
{
    Gap {
        first,
        second,
        sign: Sign::strict(strict),
        constant,
    }
}

// Writes a set that came, in the form that C code holds, over the old one, and answers 0; else the number of the refusal. A number,
// since C code has no enum of refusals.
pub(crate) fn put<S: Drop, T: From<S> + Drop>(set: &mut T, res: Result<S, Slip>) -> u8
    ensures { (view : S → T) → ((s : S) (t : T) → T.from_gives s t → t ≡ view s) → (result, set.new) ≡ told view set.old res }
{
    match res {
        Ok(s) => {
            *set = T::from(s);
            0
        }
        Err(e) => e.refusal.number(),
    }
}
