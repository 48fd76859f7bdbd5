//! Planned changes of one copy of a latched tree.
//!
//! A writer changes a copy while readers walk the other (include/linux/rbtree_latch.h), one word at
//! a time. It keeps a [`Shape`], its private picture of the copy, and plans the stores of a change
//! from it: a plan is a list of stores, and whoever makes them in turn leads the copy from the old
//! table to the new one. An insert first stores the item's words and then links; an erase stores
//! links alone, since a node's item words serve both copies.
#![tactic(auto)]

pub mod mirrors;
pub mod shapes;

pub use mirrors::{mirror_store, mirrored};
pub use shapes::{STORES, Shape, item_stores};
