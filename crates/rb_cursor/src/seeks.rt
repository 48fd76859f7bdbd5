//! Ways down from the tree in hand.

ghost use Rattle.std.specs.Prelude.{◌≡◌, ◌+◌, ◌≤◌, [], false, length};
ghost use Rattle.rb_trees.specs.Trees.{tip, shape, depth};
ghost use Rattle.rb_trees.specs.Found.{meets_on_the_way};
ghost use Rattle.rb_trees.specs.Paths.{plugged, way_by, place_at, way_at, first_place, first_way};

use crate::cursors::{Cursor, set_step};
use crate::nodes::side_by;
use crate::probes::{ApartProbe, LeafProbe, Probe};
use order_laws::{Item, TreeOrder};
use rb_trees::Side;
use std::marker::PhantomData;

impl Cursor {
    /// Goes down to the place of an item: after the items that are not greater, in a tree that is
    /// in order. No node is in hand then.
    #[inline]
    #[tactic(auto, using(rb_trees::proofs::PathLemmas::place_leaf))]
    pub fn seek_leaf<O: TreeOrder>(&mut self, item: &Item)
        requires { depth (shape self.old.tree) + length self.old.path ≤ 64 }
        ensures tree { self.new.tree ≡ tip }
        ensures path { self.new.path ≡ way_by O.order.less item.now self.old.tree self.old.path }
        ensures room { self.new.room ≡ self.old.room }
    {
        self.seek(&LeafProbe::<O>(*item, PhantomData));
    }

    /// Goes down to the place of an item, unless it meets one on the way: then that one is in hand.
    /// Returns whether it does, in a tree in which no item beyond one that is apart can meet it.
    #[inline]
    #[tactic(auto, using(crate::proofs::SeekLemmas::apart_ways))]
    pub fn seek_apart<O: TreeOrder>(&mut self, item: &Item) -> bool
        requires { depth (shape self.old.tree) + length self.old.path ≤ 64 }
        ensures met { result ≡ meets_on_the_way O.order item.now [] self.old.tree }
        ensures tree { result ≡ false → self.new.tree ≡ tip }
        ensures path { result ≡ false →
            self.new.path ≡ way_by O.order.less item.now self.old.tree self.old.path }
        ensures whole { plugged self.new.path self.new.tree ≡ plugged self.old.path self.old.tree }
        ensures room { self.new.room ≡ self.old.room }
    {
        self.seek(&ApartProbe::<O>(*item, PhantomData));
        !self.tree().is_empty()
    }

    /// Goes down to the node of what is sought. If there is none, no node is in hand then.
    #[inline]
    pub fn seek<P: Probe>(&mut self, sought: &P)
        requires { depth (shape self.old.tree) + length self.old.path ≤ 64 }
        ensures tree { self.new.tree ≡ place_at (P.seen sought.now) self.old.tree }
        ensures path { self.new.path ≡ way_at (P.seen sought.now) self.old.tree self.old.path }
        ensures room { self.new.room ≡ self.old.room }
    {
        let mut link = self.tree;
        let mut depth = self.depth;
        while link != 0 {
            // By a `&mut`, since that tests no range.
            let node = &mut self.nodes[link as usize - 1];
            if sought.is_at(&node.item) {
                self.tree = link;
                self.depth = depth;
                return;
            }
            let side = side_by(sought.is_before(&node.item));
            set_step(&mut self.steps, depth, link, side);
            depth += 1;
            link = node.child(side);
        }
        self.tree = link;
        self.depth = depth;
    }

    /// Goes down to the first node.
    #[inline]
    pub fn seek_first(&mut self)
        requires { depth (shape self.old.tree) + length self.old.path ≤ 64 }
        ensures tree { self.new.tree ≡ first_place self.old.tree }
        ensures path { self.new.path ≡ first_way self.old.tree self.old.path }
        ensures room { self.new.room ≡ self.old.room }
    {
        while let Some(fork) = self.tree().open() {
            if fork.left.is_empty() {
                return;
            }
            let Some(_) = self.open(Side::Left) else {
                unreachable!()
            };
        }
    }
}
