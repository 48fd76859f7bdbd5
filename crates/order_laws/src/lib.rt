//! Items, the orders that arrange them, and why a call is refused.
//!
//! A latched tree (include/linux/rbtree_latch.h) is parametric in two functions: `less`, which
//! places an item among items, and `comp`, which places a key against an item. This crate states
//! what the two owe each other, as laws of the trait [`TreeOrder`], and proves them for ranges of
//! addresses with and without their end.
#![tactic(auto)]

pub mod closed_ranges;
pub mod half_open_ranges;
pub mod items;
pub mod laws;
pub mod orders;
pub mod refusals;
pub mod tables;

pub use closed_ranges::Closed;
pub use half_open_ranges::HalfOpen;
pub use items::Item;
pub use orders::TreeOrder;
pub use refusals::Refusal;
