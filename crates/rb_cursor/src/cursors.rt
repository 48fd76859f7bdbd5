//! A place in a tree of records in a slab: the tree in hand, and the steps by which it was reached.
//!
//! The slab always has the whole tree, so a step down or up writes no link. Below, 20 is in hand
//! (`tree` leads to it), and the steps lead to 50 on its left and then to 10 on its right; `blank`
//! leads to the nodes that are not in the tree, which are chained by their left links.
//!
//!          50              steps: 50 Left, 10 Right
//!         /  \             tree: 20
//!       10    70           blank: . -> . -> .
//!      /  \
//!     5    20
//!         /  \
//!       15    30
//!
//! If another node takes the place of the top of the tree in hand, `lead` writes the link of the
//! nearest node above.

ghost use Rattle.std.specs.Prelude.{◌≡◌, ◌+◌, ◌<◌, ◌≤◌, ◌==◌, [], length, slice_set};
ghost use Rattle.std.specs.Prelude.{OnOk, OnErr, true, if◌then◌else◌};
ghost use Rattle.rb_trees.specs.Trees.{tip, is_red, coloured, blackened, shape};
ghost use Rattle.rb_trees.specs.Turns.{link, turned};
ghost use Rattle.rb_cursor.specs.Opening.{Opened, HasNearest};
ghost use Rattle.rb_cursor.specs.Closing.{closed_zipper, closed_to, all_closed, risen};
ghost use Rattle.rb_cursor.specs.Tops.{HasTop, row_of, with_row, reddened};
ghost use Rattle.rb_cursor.specs.Tops.{planted, HasOneSubtree, top_taken};
ghost use Rattle.rb_cursor.specs.Zippers.{altered};
ghost use Rattle.rb_cursor.specs.Writes.{with_last_link, LastLeadsOn};

use crate::nodes::{Nearest, Node, Step, Top, opposite};
use crate::readings::Reading;
use order_laws::Item;
use rb_trees::{Record, Side};
use slab::Slab;
use std::alloc::{AllocError, Global};
use std::marker::Model;

/// A tree of records, and a place in it.
#[derive(Drop)]
pub struct Cursor {
    pub(crate) nodes: Slab<Node>,
    pub(crate) tree: u32,
    pub(crate) steps: [Step; 64],
    pub(crate) depth: usize,
    blank: u32,
    room: u32,
}

impl Model for Cursor {
    ghost use Rattle.rb_cursor.specs.Zippers.{Zipper, zipper_code};

    ghost Value = { Zipper };

    ghost coded = { zipper_code };

    ghost use Rattle.rb_cursor.specs.Places.{IsCursor, shown};

    ghost view = { λ c. shown c.nodes c.tree c.steps c.depth c.room };

    ghost invariant = { λ c. IsCursor c.nodes c.tree c.steps c.depth c.blank c.room };
}

impl Cursor {
    /// No nodes, and no memory taken.
    pub fn new(alloc: Global) -> Self
        ensures { result ≡ record { tree = tip; path = []; room = 0 } }
    {
        Cursor {
            nodes: Slab::new(alloc),
            tree: 0,
            steps: [Step {
                link: 0,
                side: Side::Left,
            }; 64],
            depth: 0,
            blank: 0,
            room: 0,
        }
    }

    /// How many nodes can be planted with no memory taken.
    #[inline(always)]
    pub fn room(&self) -> usize
        ensures { result ≡ self.now.room }
    {
        self.room as usize
    }

    /// How many nodes are above the tree in hand.
    #[inline(always)]
    pub fn depth(&self) -> usize
        ensures { result ≡ length self.now.path }
    {
        self.depth
    }

    /// Makes sure that `more` nodes can be planted. It fails if there is no memory, or if a key
    /// would not fit a link: then there may be more room than before, and nothing else has changed.
    #[inline(always)]
    pub fn reserve(&mut self, more: usize) -> Result<(), AllocError>
        ensures tree { self.new.tree ≡ self.old.tree }
        ensures path { self.new.path ≡ self.old.path }
        ensures kept { self.old.room ≤ self.new.room }
        ensures room { OnOk result (more ≤ self.new.room) }
    {
        while self.room() < more {
            self.add_blank()?;
        }
        Ok(())
    }

    // Puts a blank node more into the slab.
    #[inline(never)]
    fn add_blank(&mut self) -> Result<(), AllocError>
        ensures more { OnOk result (self.new ≡ record self.old { room = self.old.room + 1 }) }
        ensures unchanged { OnErr result (self.new ≡ self.old) }
    {
        if self.nodes.len() >= u32::MAX as usize - 1 {
            return Err(AllocError);
        }
        self.nodes.reserve(1)?;
        let key = self.nodes.vacant_key();
        if key >= u32::MAX as usize {
            return Err(AllocError);
        }
        self.nodes.insert_reserved(Node {
            item: Item { a: 0, b: 0, tag: 0 },
            node: 0,
            left: self.blank,
            right: 0,
            red: false,
        });
        self.blank = key as u32 + 1;
        self.room += 1;
        Ok(())
    }

    /// The tree in hand, for reading.
    #[inline(always)]
    pub fn tree(&self) -> Reading<'_>
        ensures { result ≡ self.now.tree }
    {
        Reading::new(&self.nodes, self.tree)
    }

    /// Opens the node in hand: its subtree on a side is in hand then. If there is no node, nothing
    /// is done.
    #[inline(always)]
    pub fn open(&mut self, side: Side) -> Option<Top>
        requires { length self.old.path < 64 }
        ensures { Opened side self.old self.new result }
    {
        if self.tree == 0 {
            return None;
        }
        let Some(node) = self.nodes.get(self.tree as usize - 1) else {
            unreachable!()
        };
        let top = Top {
            red: node.red,
            node: node.node,
        };
        let below = node.child(side);
        self.steps[self.depth] = Step {
            link: self.tree,
            side,
        };
        self.depth += 1;
        self.tree = below;
        Some(top)
    }

    /// Goes up to the nearest node above, which gets this colour.
    #[inline(always)]
    pub fn close(&mut self, red: bool)
        ensures { self.new ≡ closed_zipper red self.old.tree self.old.path self.old.room }
    {
        if self.depth == 0 {
            return;
        }
        self.depth -= 1;
        let link = self.steps[self.depth].link;
        let Some(node) = self.nodes.get_mut(link as usize - 1) else {
            unreachable!()
        };
        node.red = red;
        self.tree = link;
    }

    /// Goes up to the nearest node above, which keeps its colour.
    #[inline(always)]
    #[tactic(auto, using(crate::proofs::StepLemmas::risen_by))]
    pub(crate) fn rise(&mut self)
        ensures { self.new ≡ risen self.old }
    {
        let depth = self.depth();
        if depth > 0 {
            self.close_to(depth - 1);
        }
    }

    /// Goes up until only `depth` nodes are above, and leaves the colours as they are.
    #[inline(always)]
    pub fn close_to(&mut self, depth: usize)
        ensures { self.new ≡ closed_to depth self.old.tree self.old.path self.old.room }
    {
        if depth < self.depth {
            self.tree = self.steps[depth].link;
            self.depth = depth;
        }
    }

    /// Goes all the way up, and leaves the colours as they are.
    #[inline(always)]
    #[tactic(auto, using(crate::proofs::ChangeLemmas::closed_to_none))]
    pub fn close_all(&mut self)
        ensures { self.new ≡ all_closed self.old }
    {
        self.close_to(0);
    }

    /// The nearest node above the tree in hand, if there is one.
    #[inline(always)]
    pub fn above(&self) -> Option<Nearest>
        ensures { HasNearest self.now.path result }
    {
        if self.depth == 0 {
            return None;
        }
        let step = self.steps[self.depth - 1];
        match self.nodes.get(step.link as usize - 1) {
            Some(node) => Some(Nearest {
                side: step.side,
                red: node.red,
                node: node.node,
            }),
            None => unreachable!(),
        }
    }

    /// The colour and the number of the node in hand, if there is one.
    #[inline(always)]
    pub fn top(&self) -> Option<Top>
        ensures { HasTop self.now.tree result }
    {
        match self.tree().open() {
            Some(fork) => Some(Top {
                red: fork.node.red,
                node: fork.node.node,
            }),
            None => None,
        }
    }

    /// The record of the node in hand, if there is one.
    #[inline(always)]
    pub fn row(&self) -> Option<Record>
        ensures { result ≡ row_of self.now.tree }
    {
        match self.tree().open() {
            Some(fork) => Some(Record {
                node: fork.node.node,
                item: fork.node.item,
            }),
            None => None,
        }
    }

    /// The link that leads to the tree in hand in its copy.
    #[inline(always)]
    pub fn link(&self) -> u64
        ensures { result ≡ link (shape self.now.tree) }
    {
        self.tree().link()
    }

    /// Whether the node in hand is red.
    #[inline(always)]
    pub fn is_red(&self) -> bool
        ensures { result ≡ is_red self.now.tree }
    {
        self.tree().is_red()
    }

    /// Makes the node in hand black.
    #[inline(always)]
    pub fn blacken(&mut self)
        ensures { self.new ≡ altered blackened self.old }
    {
        self.colour(false);
    }

    /// Makes the node in hand red.
    #[inline(always)]
    pub fn redden(&mut self)
        ensures { self.new ≡ altered reddened self.old }
    {
        self.colour(true);
    }

    // Gives the node in hand this colour.
    #[inline(always)]
    fn colour(&mut self, red: bool)
        ensures { self.new ≡ altered (coloured red) self.old }
    {
        if self.tree == 0 {
            return;
        }
        let top = &mut self.nodes[self.tree as usize - 1];
        top.red = red;
    }

    /// Gives the node in hand another record.
    pub fn set_row(&mut self, row: Record)
        ensures { self.new ≡ altered (with_row row) self.old }
    {
        if self.tree == 0 {
            return;
        }
        let Some(node) = self.nodes.get_mut(self.tree as usize - 1) else {
            unreachable!()
        };
        node.item = row.item;
        node.node = row.node;
    }

    /// Puts a red leaf with this record in hand; no node may be in hand before.
    #[inline]
    #[tactic(auto, using(crate::proofs::TurnLemmas::leads_on))]
    pub fn plant(&mut self, row: Record)
        requires leaf { self.old.tree ≡ tip }
        requires room { 0 < self.old.room }
        ensures { self.new ≡ planted row self.old }
    {
        let link = self.blank;
        let node = &mut self.nodes[link as usize - 1];
        self.blank = node.left;
        *node = Node {
            item: row.item,
            node: row.node,
            left: 0,
            right: 0,
            red: true,
        };
        self.room -= 1;
        self.tree = link;
        lead(&mut self.nodes, &self.steps, self.depth, link);
    }

    /// Takes the node in hand out, which has one subtree at most: that subtree is in hand then.
    #[tactic(auto, using(crate::proofs::TurnLemmas::leads_on))]
    pub fn take_top(&mut self)
        requires { HasOneSubtree self.old.tree }
        ensures { self.new ≡ top_taken self.old }
    {
        let link = self.tree;
        let node = &mut self.nodes[link as usize - 1];
        let subtree = only_link(node.left, node.right);
        node.left = self.blank;
        self.blank = link;
        self.room += 1;
        self.tree = subtree;
        lead(&mut self.nodes, &self.steps, self.depth, subtree);
    }

    /// Puts the child on the other side of the node in hand in its place, and the node on this side
    /// of it. The child gets the first colour, the node the second.
    #[inline(always)]
    #[tactic(auto, using(crate::proofs::TurnLemmas::leads_on))]
    pub fn turn(&mut self, side: Side, child_red: bool, node_red: bool)
        ensures { self.new ≡ altered (turned side child_red node_red) self.old }
    {
        let link = self.tree;
        if link == 0 {
            return;
        }
        let Some(node) = self.nodes.get(link as usize - 1) else {
            unreachable!()
        };
        let other = opposite(side);
        let child = node.child(other);
        if child == 0 {
            return;
        }
        let lower = &mut self.nodes[child as usize - 1];
        let middle = lower.child(side);
        lower.set_child(side, link);
        lower.red = child_red;
        let upper = &mut self.nodes[link as usize - 1];
        upper.set_child(other, middle);
        upper.red = node_red;
        self.tree = child;
        lead(&mut self.nodes, &self.steps, self.depth, child);
    }
}

// Writes a step, field by field: a whole one would be written with its padding.
#[inline(always)]
pub(crate) fn set_step(steps: &mut [Step; 64], depth: usize, link: u32, side: Side)
    requires { depth < 64 }
    ensures { steps.new ≡ slice_set steps.old depth (record { link = link; side = side }) }
{
    let step = &mut steps[depth];
    step.link = link;
    step.side = side;
}

// The left link of a node, or the right one if the left one is 0.
#[inline(always)]
fn only_link(left: u32, right: u32) -> u32
    ensures { result ≡ (if left == 0 then right else left) }
{
    if left == 0 { right } else { left }
}

// Makes the last of `depth` steps lead by this link.
#[inline(always)]
fn lead(nodes: &mut Slab<Node>, steps: &[Step; 64], depth: usize, link: u32)
    requires few { depth ≤ 64 }
    requires leads { LastLeadsOn steps.now depth }
    ensures { nodes.new ≡ with_last_link nodes.old steps.now depth link }
{
    if depth == 0 {
        return;
    }
    let step = steps[depth - 1];
    let Some(node) = nodes.get_mut(step.link as usize - 1) else {
        return;
    };
    node.set_child(step.side, link);
}
