//! Weights that a matrix of differences is made of, and the closing of such a matrix.

#![tactic(auto)]

ghost use Rattle.std.specs.Prelude.{◌≡◌, ℕ, ◌+◌, ◌^◌, ◌≤◌, Bool};
ghost use Rattle.weight.specs.Weights.{Laws};
ghost use Rattle.weight.specs.Closing.{lesser};

mod bound;
mod closing;
mod order_sign;

pub use bound::{Bound, all_small, all_within};
pub use closing::close;
pub use order_sign::OrderSign;

// A stored weight stands for a value: an associative sum keeps a total order of the values. The laws speak of values
// alone, so a weight can be stored in whatever form is fast: its order is that of the values, and no bound `Ord` asks one of the
// stored forms.
pub trait Weight: Copy {
    ghost Value: { Type 0 };

    ghost value: { Self → Value };

    ghost leb: { Value → Value → Bool };

    ghost plus: { Value → Value → Value };

    ghost neutral: { Value };

    ghost unbounded: { Value };

    // below neutral
    ghost hopeless: { Value };

    // bounds what the storage has to hold
    ghost size: { Value → ℕ };

    fn neutral_weight() -> Self
        ensures { value result ≡ neutral };

    fn hopeless_weight() -> Self
        ensures { value result ≡ hopeless };

    fn sum(self, other: Self) -> Self
        requires { size (value self) + size (value other) ≤ 2 ^ 29 }
        ensures { value result ≡ plus (value self) (value other) };

    fn lesser_of(self, other: Self) -> Self
        ensures { value result ≡ lesser leb (value self) (value other) };

    fn at_most(self, other: Self) -> bool
        ensures { result ≡ leb (value self) (value other) };

    ghost laws: { Laws leb plus neutral unbounded hopeless };

    ghost grows: { (x y : Value) → size (plus x y) ≤ size x + size y };
}
