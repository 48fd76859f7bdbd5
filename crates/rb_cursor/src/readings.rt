//! A tree of records in a slab, for reading.

ghost use Rattle.std.specs.Prelude.{◌≡◌, not};
ghost use Rattle.rb_trees.specs.Trees.{is_red, shape};
ghost use Rattle.rb_trees.specs.Turns.{link};
ghost use Rattle.rb_trees.specs.Inserted.{red_violation};
ghost use Rattle.rb_trees.specs.Sides.{on};

use crate::nodes::{Node, opposite};
use rb_trees::{RedViolation, Side};
use slab::Slab;
use std::marker::Model;

/// A tree, for reading.
#[derive(Drop)]
pub struct Reading<'a> {
    nodes: &'a Slab<Node>,
    link: u32,
}

impl<'a> Model for Reading<'a> {
    ghost use Rattle.rb_trees.specs.Trees.{ColouredTree};
    ghost use Rattle.rb_cursor.specs.Zippers.{branches_code};

    ghost Value = { ColouredTree };

    ghost coded = { branches_code };

    ghost use Rattle.rb_cursor.specs.Links.{IsLink, read};

    ghost view = { λ r. read r.nodes.now r.link };

    ghost invariant = { λ r. IsLink r.nodes.now r.link };
}

/// The top of a tree, with its two subtrees.
#[derive(Drop)]
pub struct Fork<'a> {
    /// The node.
    pub node: &'a Node,
    /// The left subtree.
    pub left: Reading<'a>,
    /// The right subtree.
    pub right: Reading<'a>,
}

impl<'a> Reading<'a> {
    ghost use Rattle.rb_cursor.specs.Links.{IsLink, read};
    ghost use Rattle.rb_cursor.specs.Readings.{Forked};
    ghost use Rattle.rb_cursor.specs.Tops.{is_fork};

    /// The tree that a link leads to.
    #[inline(always)]
    pub(crate) fn new(nodes: &'a Slab<Node>, link: u32) -> Self
        requires { IsLink nodes.now link }
        ensures { result ≡ read nodes.now link }
    {
        Reading { nodes, link }
    }

    /// A copy of this reading.
    #[inline(always)]
    pub fn again(&self) -> Reading<'a>
        ensures { result ≡ self.now }
    {
        Reading {
            nodes: self.nodes,
            link: self.link,
        }
    }

    /// The top, if there is one.
    #[inline(always)]
    pub fn open(&self) -> Option<Fork<'a>>
        ensures { Forked self.now result }
    {
        if self.link == 0 {
            return None;
        }
        match self.nodes.get(self.link as usize - 1) {
            Some(node) => Some(Fork {
                node,
                left: Reading {
                    nodes: self.nodes,
                    link: node.left,
                },
                right: Reading {
                    nodes: self.nodes,
                    link: node.right,
                },
            }),
            None => unreachable!(),
        }
    }

    /// Whether there is no node.
    #[inline(always)]
    pub fn is_empty(&self) -> bool
        ensures { result ≡ not (is_fork self.now) }
    {
        match self.open() {
            Some(_) => false,
            None => true,
        }
    }

    /// Whether the top is red.
    #[inline(always)]
    pub fn is_red(&self) -> bool
        ensures { result ≡ is_red self.now }
    {
        match self.open() {
            Some(fork) => fork.node.red,
            None => false,
        }
    }

    /// The link that leads to the tree in its copy.
    #[inline(always)]
    pub fn link(&self) -> u64
        ensures { result ≡ link (shape self.now) }
    {
        match self.open() {
            Some(fork) => fork.node.node as u64 + 1,
            None => 0,
        }
    }

    /// Whether the top and a child of it are red, and which child, for a tree on this side.
    #[inline(always)]
    pub fn red_violation(&self, side: Side) -> RedViolation
        ensures { result ≡ red_violation side self.now }
    {
        let Some(fork) = self.open() else {
            return RedViolation::Nowhere;
        };
        if !fork.node.red {
            return RedViolation::Nowhere;
        }
        if fork.child(side).is_red() {
            return RedViolation::Outer;
        }
        if fork.child(opposite(side)).is_red() {
            return RedViolation::Inner;
        }
        RedViolation::Nowhere
    }
}

impl<'a> Fork<'a> {
    /// The subtree on a side.
    #[inline(always)]
    pub(crate) fn child(&self, side: Side) -> &Reading<'a>
        ensures { result.now ≡ on side self.now.left self.now.right }
    {
        match side {
            Side::Left => &self.left,
            Side::Right => &self.right,
        }
    }
}
