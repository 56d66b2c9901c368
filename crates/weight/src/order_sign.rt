ghost use Rattle.weight.specs.Signs.{sign_leb, sign_plus};
ghost use Rattle.weight.specs.declared.order_sign.OrderSign.{OrderSign as Sign};
ghost use Rattle.weight.specs.declared.order_sign.OrderSign.TheVariants.{Below, AtMost, Free};
ghost use Rattle.std.proofs.Common.{rules};

use crate::Weight;

// What is known of the first reading minus the second: below zero, at most zero, or nothing.
#[derive(Clone, Copy, PartialEq, Eq, PartialOrd, Ord, Debug)]
pub enum OrderSign {
    Below,
    AtMost,
    Free,
}

impl Weight for OrderSign {
    ghost Value = { Sign };

    ghost value = { λ s. s };

    ghost leb = { sign_leb };

    ghost plus = { sign_plus };

    ghost neutral = { AtMost };

    ghost unbounded = { Free };

    ghost hopeless = { Below };

    ghost size = { λ _. 0 };

    ghost laws = { Prim.search rules };

    ghost grows = { Prim.search rules };

    fn neutral_weight() -> OrderSign {
        OrderSign::AtMost
    }

    fn hopeless_weight() -> OrderSign {
        OrderSign::Below
    }

    fn sum(self, other: OrderSign) -> OrderSign {
        match (self, other) {
            (OrderSign::Free, _) | (_, OrderSign::Free) => OrderSign::Free,
            (OrderSign::AtMost, OrderSign::AtMost) => OrderSign::AtMost,
            _ => OrderSign::Below,
        }
    }

    fn lesser_of(self, other: OrderSign) -> OrderSign {
        self.min(other)
    }

    fn at_most(self, other: OrderSign) -> bool {
        self <= other
    }
}
