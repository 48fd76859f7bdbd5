//! Nodes as the slab has them, and what a cursor shows of one.

ghost use Rattle.std.specs.Prelude.{◌≡◌};
ghost use Rattle.rb_trees.specs.Sides.{opposite};
ghost use Rattle.rb_cursor.specs.Sides.{side_by, child_at, with_link};

use order_laws::Item;
use rb_trees::Side;

/// A record with its colour and the links to its two subtrees: 0, or one more than a key.
#[derive(Clone, Copy, Debug, PartialEq, Eq, Drop)]
pub struct Node {
    /// The item.
    pub item: Item,
    /// The number of the node in its copy.
    pub node: u32,
    /// The link to the left subtree.
    pub left: u32,
    /// The link to the right subtree.
    pub right: u32,
    /// Whether it is red.
    pub red: bool,
}

impl Node {
    /// The link to the subtree on a side.
    #[inline(always)]
    pub(crate) fn child(&self, side: Side) -> u32
        ensures { result ≡ child_at side self.now }
    {
        match side {
            Side::Left => self.left,
            Side::Right => self.right,
        }
    }

    /// Another link to the subtree on a side.
    #[inline(always)]
    pub(crate) fn set_child(&mut self, side: Side, link: u32)
        ensures { self.new ≡ with_link side link self.old }
    {
        match side {
            Side::Left => self.left = link,
            Side::Right => self.right = link,
        }
    }
}

/// The left side, or else the right one.
#[inline(always)]
pub(crate) fn side_by(left: bool) -> Side
    ensures { result ≡ side_by left }
{
    if left { Side::Left } else { Side::Right }
}

/// The other side.
#[inline(always)]
pub(crate) fn opposite(side: Side) -> Side
    ensures { result ≡ opposite side }
{
    match side {
        Side::Left => Side::Right,
        Side::Right => Side::Left,
    }
}

/// A step down: the link to the node that was opened, and the side on which the way goes on.
#[derive(Clone, Copy, Debug, PartialEq, Eq, Drop)]
pub struct Step {
    /// The link to the node.
    pub link: u32,
    /// The side.
    pub side: Side,
}

/// The colour and the number of the node in hand.
#[derive(Clone, Copy, Debug, PartialEq, Eq, Drop)]
pub struct Top {
    /// Whether it is red.
    pub red: bool,
    /// The number of the node in its copy.
    pub node: u32,
}

/// The nearest node above the tree in hand.
#[derive(Clone, Copy, Debug, PartialEq, Eq, Drop)]
pub struct Nearest {
    /// On which side of it the tree in hand is.
    pub side: Side,
    /// Whether it is red.
    pub red: bool,
    /// The number of the node in its copy.
    pub node: u32,
}
