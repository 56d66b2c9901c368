ghost use Rattle.std.specs.Prelude.{◌≡◌, ◌≤◌, leb as at_most, map, pos, unsigned_abs};
ghost use Rattle.weight.specs.Limits.{Limit, limit_leb, limit_plus, up_to, under, free};
ghost use Rattle.weight.specs.Bounds.{all_small, all_within, is_free, limit_of, limit_size};
ghost use Rattle.weight.specs.Limited.{limit_laws, limit_grows};

use crate::Weight;

// A limit on a difference in one number: twice the constant, plus one for "at most"; the greatest number is no limit.
// So the order of bounds is the order of their numbers. The C interface lends bounds in this form, and a closing of it is fast.
#[derive(Clone, Copy, PartialEq, Eq, PartialOrd, Ord, Debug)]
#[repr(C)]
pub struct Bound {
    pub code: i32,
}

impl Bound {
    pub fn under(c: i32) -> Bound
        requires { unsigned_abs c ≤ 4000000 }
        ensures { limit_of result ≡ under c }
    {
        Bound { code: 2 * c }
    }

    pub fn up_to(c: i32) -> Bound
        requires { unsigned_abs c ≤ 4000000 }
        ensures { limit_of result ≡ up_to c }
    {
        Bound { code: 2 * c + 1 }
    }

    pub fn free() -> Bound
        ensures { limit_of result ≡ free }
    {
        Bound { code: i32::MAX }
    }

    pub fn is_free(self) -> bool
        ensures { result ≡ is_free (limit_of self) }
    {
        self.code == i32::MAX
    }

    // whether the constant is at most 4,000,000 either way
    pub fn is_small(self) -> bool
        ensures { result ≡ at_most (limit_size (limit_of self)) 4000000 }
    {
        self.is_within(4_000_000)
    }

    // whether the constant is at most that number either way
    pub fn is_within(self, most: u32) -> bool
        requires { most ≤ 4000000 }
        ensures { result ≡ at_most (limit_size (limit_of self)) most }
    {
        let top = 2 * most as i32;
        self.is_free() || (-top <= self.code && self.code <= top + 1)
    }
}

pub fn all_small(m: &[Bound]) -> bool
    ensures { result ≡ all_small (map limit_of m.now) }
{
    all_within(m, 4_000_000)
}

pub fn all_within(m: &[Bound], most: u32) -> bool
    requires { most ≤ 4000000 }
    ensures { result ≡ all_within most (map limit_of m.now) }
{
    m.iter().all(|b| b.is_within(most))
}

impl Weight for Bound {
    ghost Value = { Limit };

    ghost value = { limit_of };

    ghost leb = { limit_leb };

    ghost plus = { limit_plus };

    ghost neutral = { up_to (pos 0) };

    ghost unbounded = { free };

    ghost hopeless = { under (pos 0) };

    ghost size = { limit_size };

    ghost laws = { limit_laws };

    ghost grows = { limit_grows };

    fn neutral_weight() -> Bound {
        Bound { code: 1 }
    }

    fn hopeless_weight() -> Bound {
        Bound { code: 0 }
    }

    // the low bits of the two tell whether each is "at most"; the sum is so if both are
    fn sum(self, other: Bound) -> Bound {
        if self.is_free() || other.is_free() {
            return Bound::free();
        }
        let x = self.code;
        let y = other.code;
        Bound {
            code: x + y - ((x | y) & 1),
        }
    }

    fn lesser_of(self, other: Bound) -> Bound {
        self.min(other)
    }

    fn at_most(self, other: Bound) -> bool {
        self <= other
    }
}
