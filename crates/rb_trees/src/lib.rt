//! Red-black trees of nodes: what a change makes of one, and which stores of links follow it.
#![tactic(auto)]

use order_laws::Item;

/// A node of the copy and the item whose words it has.
#[derive(Clone, Copy, Debug, PartialEq, Eq, Drop)]
pub struct Record {
    /// The number of the node.
    pub node: u32,
    /// The item.
    pub item: Item,
}

/// Whether the top of a subtree and a child of it are red, seen from the side of the subtree.
#[derive(Clone, Copy, Debug, PartialEq, Eq, Drop)]
pub enum RedViolation {
    /// No.
    Nowhere,
    /// With the child on that side.
    Outer,
    /// With the child on the other side alone.
    Inner,
}

/// A side of a node: of its two subtrees the one that a way down goes into.
#[derive(Clone, Copy, Debug, PartialEq, Eq, Drop)]
pub enum Side {
    /// The left one.
    Left,
    /// The right one.
    Right,
}
