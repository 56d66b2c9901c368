ghost use Rattle.std.specs.Prelude.{◌≡◌};
ghost use Rattle.order_set.specs.Orders.{order_calls};
ghost use Rattle.kinds_export.specs.Answers.{gap_of, told};
ghost use Rattle.kinds_export.specs.Codes.{sign_of, code_of, set_of, codes_of};

use crate::answer::{gap_of, put};
use clockset::ClockSet;
use order_set::OrderSet;
use std::array;
use weight::OrderSign;

// An order set in plain bytes, since foreign code could write a sign that is none: 0 is below zero, 1 at most zero, every other
// byte says nothing. The sign of clock i less clock j stands at 7 * i + j.
#[derive(Clone, Copy)]
#[repr(C)]
pub struct OrderCodes {
    pub codes: [u8; 49],
}

// Functions, and no `From`: neither the byte nor the sign is a type of this crate.
fn sign_of(code: u8) -> OrderSign
    ensures { result ≡ sign_of code }
{
    match code {
        0 => OrderSign::Below,
        1 => OrderSign::AtMost,
        _ => OrderSign::Free,
    }
}

fn code_of(sign: OrderSign) -> u8
    ensures { result ≡ code_of sign }
{
    match sign {
        OrderSign::Below => 0,
        OrderSign::AtMost => 1,
        OrderSign::Free => 2,
    }
}

impl From<OrderCodes> for OrderSet {
    ghost from_gives = { λ c s. s ≡ set_of c };

    fn from(set: OrderCodes) -> OrderSet {
        OrderSet {
            signs: array::from_fn(|p| sign_of(set.codes[p])),
        }
    }
}

impl From<OrderSet> for OrderCodes {
    ghost from_gives = { λ s c. c ≡ codes_of s };

    fn from(set: OrderSet) -> OrderCodes {
        OrderCodes {
            codes: array::from_fn(|p| code_of(set.signs[p])),
        }
    }
}

#[unsafe(no_mangle)]
pub extern "C" fn kinds_order_all(set: &mut OrderCodes)
    ensures { set.new ≡ codes_of order_calls.all }
{
    *set = OrderCodes::from(OrderSet::all());
}

#[unsafe(no_mangle)]
pub extern "C" fn kinds_order_zero(set: &mut OrderCodes)
    ensures { set.new ≡ codes_of order_calls.zero }
{
    *set = OrderCodes::from(OrderSet::zero());
}

#[unsafe(no_mangle)]
pub extern "C" fn kinds_order_gap(
    set: &mut OrderCodes,
    first: u8,
    second: u8,
    strict: bool,
    constant: i32,
) -> u8
    ensures { (result, set.new) ≡ told codes_of set.old (order_calls.gap (set_of set.old) (gap_of first second strict constant)) }
{
    let result = OrderSet::from(*set).gap(gap_of(first, second, strict, constant));
    put(set, result)
}

#[unsafe(no_mangle)]
pub extern "C" fn kinds_order_reset(set: &mut OrderCodes, mask: u8) -> u8
    ensures { (result, set.new) ≡ told codes_of set.old (order_calls.reset (set_of set.old) mask) }
{
    let result = OrderSet::from(*set).reset(mask);
    put(set, result)
}

#[unsafe(no_mangle)]
pub extern "C" fn kinds_order_delay(set: &mut OrderCodes) -> u8
    ensures { (result, set.new) ≡ told codes_of set.old (order_calls.delay (set_of set.old)) }
{
    let result = OrderSet::from(*set).delay();
    put(set, result)
}

#[unsafe(no_mangle)]
pub extern "C" fn kinds_order_within(low: &OrderCodes, high: &OrderCodes) -> bool
    ensures { result ≡ order_calls.within (set_of low.now) (set_of high.now) }
{
    OrderSet::from(*low).within(&OrderSet::from(*high))
}

#[unsafe(no_mangle)]
pub extern "C" fn kinds_order_is_empty(set: &OrderCodes) -> bool
    ensures { result ≡ order_calls.empty (set_of set.now) }
{
    OrderSet::from(*set).is_empty()
}
