//! Ranges of addresses with their end.

ghost use Rattle.order_laws.specs.Orders.{closed, closed_in_line, closed_lawful};

use crate::items::Item;
use crate::orders::TreeOrder;
use std::cmp::Ordering;

/// Ranges `a..=b` of addresses, the end included.
#[derive(Clone, Copy, Debug, Drop)]
pub struct Closed;

impl TreeOrder for Closed {
    type Key = u64;

    ghost order = { closed };

    fn key_of(i: &Item) -> u64 {
        i.a
    }

    fn valid(i: &Item) -> bool {
        i.a <= i.b
    }

    #[inline(always)]
    fn apart(x: &Item, y: &Item) -> bool {
        x.b < y.a || y.b < x.a
    }

    #[inline(always)]
    fn less(x: &Item, y: &Item) -> bool {
        x.a < y.a
    }

    #[inline(always)]
    fn comp(k: u64, i: &Item) -> Ordering {
        if k < i.a {
            Ordering::Less
        } else if k > i.b {
            Ordering::Greater
        } else {
            Ordering::Equal
        }
    }

    fn in_line() -> bool {
        true
    }

    ghost lawful = { closed_lawful };
}
