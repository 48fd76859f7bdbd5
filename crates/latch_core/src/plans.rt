//! The stores of an update, in the order in which they are made.

ghost use Rattle.std.specs.Prelude.{◌≡◌, ◌+◌, ◌*◌, ◌^◌, ◌<◌, ◌≤◌, ◌++◌, [], Some, IsSome, OnOk};
ghost use Rattle.std.specs.Prelude.{drop, length, slice_get};
ghost use Rattle.word_layout.specs.Layouts.{capacity_of};
ghost use Rattle.word_layout.specs.Stores.{AreLinkStores};
ghost use Rattle.rb_words.specs.Mirrors.{mirror_stores};
ghost use Rattle.latch_core.specs.Plans.{update_stores};

use rb_words::mirrored;
use std::alloc::{AllocError, Global};
use std::marker::Model;
use word_layout::{Layout, Store, append};

/// The stores of an update, and how many of them were made.
#[derive(Drop)]
pub struct Plan {
    stores: Vec<Store>,
    made: usize,
}

impl Model for Plan {
    ghost use Rattle.std.specs.Prelude.{◌≤◌, ◌-◌, vec_len, vec_capacity};
    ghost use Rattle.latch_core.specs.WriterViews.{PlanView, plan_code, plan_view};

    ghost Value = { PlanView };

    ghost coded = { plan_code };

    ghost view = { λ p.
        plan_view p.stores.items p.made (vec_capacity p.stores - vec_len p.stores) };

    ghost invariant = { λ p. p.made ≤ vec_len p.stores };
}

impl Plan {
    /// No stores, and no memory taken.
    pub fn new(alloc: Global) -> Self
        ensures { result.stores_left ≡ [] }
    {
        Plan {
            stores: Vec::new(alloc),
            made: 0,
        }
    }

    /// How many stores are to be made.
    pub fn remaining(&self) -> u64
        ensures { result ≡ length self.now.stores_left }
    {
        (self.stores.len() - self.made) as u64
    }

    /// The stores to be made, in their order.
    #[inline(always)]
    pub fn stores_left(&self) -> &[Store]
        ensures { result.now ≡ self.now.stores_left }
    {
        &self.stores[self.made..]
    }

    /// The store to be made next.
    #[inline(always)]
    pub fn next(&self) -> Option<Store>
        ensures { result ≡ slice_get self.now.stores_left 0 }
    {
        self.stores.get(self.made).copied()
    }

    /// The next store was made; returns which it was.
    #[inline(always)]
    pub fn advance(&mut self) -> Store
        requires { IsSome (slice_get self.old.stores_left 0) }
        ensures was { slice_get self.old.stores_left 0 ≡ Some result }
        ensures left { self.new.stores_left ≡ drop 1 self.old.stores_left }
    {
        let store = self.stores[self.made];
        self.made += 1;
        store
    }

    /// Makes room for the stores of an update, when none are left.
    pub fn reserve(&mut self, count: usize) -> Result<(), AllocError>
        requires { self.old.stores_left ≡ [] }
        ensures left { self.new.stores_left ≡ [] }
        ensures room { OnOk result (count ≤ self.new.room) }
    {
        self.made = 0;
        self.stores.clear();
        self.stores.reserve(count)
    }

    /// Takes in stores, for which there is room.
    #[inline(always)]
    pub fn add(&mut self, stores: &[Store])
        requires room { length stores.now ≤ self.old.room }
        ensures left { self.new.stores_left ≡ self.old.stores_left ++ stores.now }
        ensures room { self.new.room + length stores.now ≡ self.old.room }
    {
        append(&mut self.stores, stores);
    }

    /// Takes in all that follows the stores of items: the first flip, the links of copy 0, the
    /// second flip, these links in copy 1.
    #[inline(always)]
    pub fn close(&mut self, l: Layout, sequence: u64, links: &[Store])
        requires links_only { AreLinkStores (capacity_of l) 0 links.now }
        requires room { 2 * length links.now + 2 ≤ self.old.room }
        requires counts { sequence + 2 < 2 ^ 64 }
        ensures { self.new.stores_left
            ≡ update_stores sequence self.old.stores_left links.now (mirror_stores links.now) }
    {
        self.stores.push_reserved(flip_to(sequence + 1));
        append(&mut self.stores, links);
        self.stores.push_reserved(flip_to(sequence + 2));
        mirrored(l, links, &mut self.stores);
    }
}

/// The store that makes this number the sequence.
#[inline(always)]
fn flip_to(sequence: u64) -> Store
    ensures { result ≡ record { word = 0; value = sequence } }
{
    Store {
        word: 0,
        value: sequence,
    }
}
