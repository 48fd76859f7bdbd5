//! What is sought in a tree, and how it compares with the item of a node.

ghost use Rattle.std.specs.Prelude.{◌≡◌, ℕ, false};
ghost use Rattle.std.specs.Ordering.{is_eq, is_lt};
ghost use Rattle.std.specs.declared.cmp.Ordering.{Ordering};
ghost use Rattle.rb_trees.specs.declared.Record.{Record};
ghost use Rattle.rb_trees.specs.Erased.{first_word_at, item_lies};
ghost use Rattle.rb_trees.specs.Paths.{leaf_lies, apart_lies};

use order_laws::{Item, TreeOrder};
use std::marker::PhantomData;

/// What is sought in a tree.
pub trait Probe {
    ghost seen: { Self → Record → Ordering };

    /// Whether it lies at a record with this item.
    fn is_at(&self, item: &Item) -> bool
        ensures { (n : ℕ) → result ≡ is_eq (seen self.now (record { node = n; item = item.now })) };

    /// Whether it lies before a record with this item, at which it does not lie.
    fn is_before(&self, item: &Item) -> bool
        ensures { (n : ℕ) → let lies = seen self.now (record { node = n; item = item.now }) in
            is_eq lies ≡ false → result ≡ is_lt lies };
}

/// A first word, in a tree in the order of first words.
#[derive(Drop)]
pub struct WordProbe(pub u64);

impl Probe for WordProbe {
    ghost seen = { λ s. first_word_at s.0 };

    #[inline(always)]
    fn is_at(&self, item: &Item) -> bool {
        self.0 == item.a
    }

    #[inline(always)]
    fn is_before(&self, item: &Item) -> bool {
        self.0 < item.a
    }
}

/// An item that the tree has, in the order of its items.
#[derive(Drop)]
pub struct ItemProbe<O: TreeOrder> {
    /// The item.
    pub item: Item,
    /// The order.
    pub order: PhantomData<O>,
}

impl<O: TreeOrder> Probe for ItemProbe<O> {
    ghost seen = { λ s. item_lies O.order.less s.item };

    #[inline(always)]
    fn is_at(&self, item: &Item) -> bool {
        item.a == self.item.a
    }

    #[inline(always)]
    fn is_before(&self, item: &Item) -> bool {
        O::less(&self.item, item)
    }
}

/// An item that is to be put after those that are not greater, in the order of the tree.
#[derive(Drop)]
pub struct LeafProbe<O: TreeOrder>(pub Item, pub PhantomData<O>);

impl<O: TreeOrder> Probe for LeafProbe<O> {
    ghost seen = { λ s. leaf_lies O.order.less s.0 };

    #[inline(always)]
    fn is_at(&self, _item: &Item) -> bool {
        false
    }

    #[inline(always)]
    fn is_before(&self, item: &Item) -> bool {
        O::less(&self.0, item)
    }
}

/// As [`LeafProbe`], but it lies at an item that is not apart from it.
#[derive(Drop)]
pub struct ApartProbe<O: TreeOrder>(pub Item, pub PhantomData<O>);

impl<O: TreeOrder> Probe for ApartProbe<O> {
    ghost seen = { λ s. apart_lies O.order s.0 };

    #[inline(always)]
    fn is_at(&self, item: &Item) -> bool {
        !O::apart(item, &self.0)
    }

    #[inline(always)]
    fn is_before(&self, item: &Item) -> bool {
        O::less(&self.0, item)
    }
}
