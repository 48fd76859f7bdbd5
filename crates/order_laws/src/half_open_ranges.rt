//! Ranges of addresses without their end.

ghost use Rattle.order_laws.specs.Orders.{half_open, half_open_in_line, half_open_lawful};

use crate::items::Item;
use crate::orders::TreeOrder;
use std::cmp::Ordering;

/// Ranges `a..b` of addresses, the end excluded.
#[derive(Clone, Copy, Debug, Drop)]
pub struct HalfOpen;

impl TreeOrder for HalfOpen {
    type Key = u64;

    ghost order = { half_open };

    fn key_of(i: &Item) -> u64 {
        i.a
    }

    fn valid(i: &Item) -> bool {
        i.a < i.b
    }

    #[inline(always)]
    fn apart(x: &Item, y: &Item) -> bool {
        x.b <= y.a || y.b <= x.a
    }

    #[inline(always)]
    fn less(x: &Item, y: &Item) -> bool {
        x.a < y.a
    }

    #[inline(always)]
    fn comp(k: u64, i: &Item) -> Ordering {
        if k < i.a {
            Ordering::Less
        } else if k >= i.b {
            Ordering::Greater
        } else {
            Ordering::Equal
        }
    }

    fn in_line() -> bool {
        true
    }

    ghost lawful = { half_open_lawful };
}
