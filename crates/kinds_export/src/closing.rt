ghost use Rattle.std.specs.Prelude.{◌≡◌, map};
ghost use Rattle.weight.specs.Bounds.{limit_of};
ghost use Rattle.kinds_export.specs.Answers.{close_told};

use weight::{Bound, all_small, close};

// 0: closed. 1: no closed form, and every bound is now "below 0". The closing asks for 49 bounds with small constants: 2 where there are not 49, 3
// where a constant passes 4,000,000 either way, and nothing is changed then.
// A number, since C code has no enum of answers.
#[unsafe(no_mangle)]
pub extern "C" fn kinds_close(m: &mut [Bound]) -> u8
    ensures { (result, map limit_of m.new) ≡ close_told (map limit_of m.old) }
{
    if m.len() != 49 {
        return 2;
    }
    if !all_small(m) {
        return 3;
    }
    if close(m) { 0 } else { 1 }
}
