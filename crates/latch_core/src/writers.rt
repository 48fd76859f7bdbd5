//! The writer of a latched tree, which hands out one store at a time.

ghost use Rattle.std.specs.Prelude.{◌≡◌, false, ◌↔◌, ◌+◌, ◌*◌, ◌<◌, ◌≤◌, [], Some, None, ◌||◌};
ghost use Rattle.std.specs.Prelude.{IsTrue, IsSome, IfSome, IfOk, IfErr, OnOk, OnErr, length};
ghost use Rattle.std.specs.Prelude.{List, vec_len, vec_capacity, IfNone, OnSome, All};
ghost use Rattle.order_laws.specs.declared.items.Item.{Item};
ghost use Rattle.order_laws.specs.Tables.{has, meets, without_all};
ghost use Rattle.word_layout.specs.declared.stores.Store.{Store};
ghost use Rattle.word_layout.specs.Layouts.{capacity_of, limit_of};
ghost use Rattle.word_layout.specs.Limits.{most_nodes};
ghost use Rattle.word_layout.specs.Words.{at, words_for};
ghost use Rattle.latch_core.specs.Sequences.{generation_of};
ghost use Rattle.table_updates.specs.Updates.{failed_test, some_invalid, some_missing, some_meet};
ghost use Rattle.table_updates.specs.Updates.{cannot_erase, cannot_insert};
ghost use Rattle.std.specs.List.Sorted.{IsNonDecreasing};
ghost use Rattle.latch_core.specs.Latches.{Latch, PendingUpdate, opening_latch};
ghost use Rattle.latch_core.specs.Writers.{next_store, why_refused, IsRefusedBy};
ghost use Rattle.latch_core.specs.Writers.{RefusesAsRepresented, MayOpen, IsOpeningRefused};
ghost use Rattle.latch_core.specs.Writers.{RepresentsLatch, MayBeNext, StoresNext, HasBegun};
ghost use Rattle.latch_core.specs.Writers.{opening_writer, writer_after_step};
ghost use Rattle.latch_core.specs.Widening.{why_not_widened, widened_writer, RepresentsWidened};
ghost use Rattle.latch_core.specs.Widening.{IsWideningRefused};
ghost use Rattle.latch_core.specs.Replacements.{replacement, update_found};

use crate::changes::{plan_erases, plan_inserts};
use crate::clashes::{in_order, some_invalid, some_overlap, some_twice};
use crate::nodes::{add_nodes, all_nodes};
use crate::plans::Plan;
use crate::replacements::Difference;
use crate::sequences::{generation, is_spent};
use order_laws::{Item, Refusal, TreeOrder};
use rb_words::{STORES, Shape, item_stores};
use std::alloc::Global;
use std::marker::Model;
use table_updates::Update;
use word_layout::{Layout, Store, TreeCopy};

/// The writer's side of a latch (`latch_tree_insert`, `latch_tree_erase` and
/// `raw_write_seqcount_latch` of include/linux/rbtree_latch.h and include/linux/seqlock.h).
///
/// An update flips the sequence, changes copy 0, flips again and changes copy 1 likewise, so
/// one picture serves both copies. All stores are planned when the update begins, and all memory is
/// taken then; after that [`next`](WriterCore::next) returns one store, and
/// [`did`](WriterCore::did) is called when it was made. One update is pending at a time.
#[derive(Drop)]
pub struct WriterCore<O: TreeOrder> {
    layout: Layout,
    sequence: u64,
    shape: Shape<O>,
    free: Vec<u32>,
    plan: Plan,
    /// The links of an update of one item, while it is planned.
    links: Vec<Store>,
}

impl<O: TreeOrder> Model for WriterCore<O> {
    ghost use Rattle.std.specs.Prelude.{◌≤◌, vec_capacity};
    ghost use Rattle.word_layout.specs.Layouts.{capacity_of, limit_of};
    ghost use Rattle.word_layout.specs.Limits.{most_nodes};
    ghost use Rattle.latch_core.specs.WriterViews.{WriterView, writer_code};
    ghost use Rattle.latch_core.specs.Writers.{AreInStep};

    ghost Value = { WriterView };

    ghost coded = { writer_code };

    ghost view = { λ w. record {
      capacity = capacity_of w.layout;
      limit = limit_of w.layout;
      sequence = w.sequence;
      table = w.shape.table;
      zero_tree = w.shape.tree;
      one_tree = w.shape.tree;
      stores_left = w.plan.stores_left;
    } };

    ghost invariant = { λ w.
        AreInStep (capacity_of w.layout) w.shape w.free.items w.plan.stores_left
        × (capacity_of w.layout ≤ vec_capacity w.free) };
}

impl<O: TreeOrder> WriterCore<O> {
    /// The writer of an empty table, at an opening sequence.
    ///
    /// Refused by [`Refusal::BadCapacity`] if the sequence is odd or above the layout's limit,
    /// and else by [`Refusal::OutOfMemory`].
    pub fn open(alloc: Global, l: Layout, start: u64) -> Result<Self, Refusal>
        ensures opened { IfOk result (λ w. w ≡ opening_writer l start) }
        ensures may { IfOk result (λ w. MayOpen l start) }
        ensures pictures { IfOk result
            (λ w. RepresentsLatch w (opening_latch (capacity_of l) start)) }
        ensures refusal { IfErr result (IsOpeningRefused l start) }
    {
        if start % 2 == 1 || start > l.limit() {
            return Err(Refusal::BadCapacity);
        }
        Ok(WriterCore {
            layout: l,
            sequence: start,
            shape: Shape::new(alloc, l, TreeCopy::Zero),
            free: all_nodes(alloc, l.capacity())?,
            plan: Plan::new(alloc),
            links: Vec::new(alloc),
        })
    }

    /// Goes on with the nodes and the greatest sequence of a layout: the table and the sequence
    /// stay, and the nodes that come in addition are free.
    ///
    /// The list of free nodes gets its memory here. Whoever keeps the words puts seven words of 0
    /// after them for each new node. Refused by [`Refusal::UpdateInHand`], then by
    /// [`Refusal::BadCapacity`] if the layout has fewer nodes or a smaller greatest sequence,
    /// and last by [`Refusal::OutOfMemory`]; a refusal changes nothing.
    pub fn widen(&mut self, l: Layout) -> Result<(), Refusal>
        ensures accepted { OnOk result (why_not_widened self.old l ≡ None) }
        ensures widened { OnOk result (self.new ≡ widened_writer self.old l) }
        ensures pictures { OnOk result (RepresentsWidened self.old self.new) }
        ensures refusal { IfErr result (IsWideningRefused self.old l) }
        ensures unchanged { OnErr result (self.new ≡ self.old) }
    {
        if let Some(refusal) = self.why_not_widened(l) {
            return Err(refusal);
        }
        add_nodes(&mut self.free, self.layout.capacity(), l.capacity())?;
        self.shape.widen(l);
        self.layout = l;
        Ok(())
    }

    /// Why [`widen`](WriterCore::widen) would refuse a layout before it asks for memory; none if
    /// it would ask.
    pub fn why_not_widened(&self, l: Layout) -> Option<Refusal>
        ensures { result ≡ why_not_widened self.now l }
    {
        if self.remaining() > 0 {
            Some(Refusal::UpdateInHand)
        } else if l.capacity() < self.layout.capacity() || l.limit() < self.layout.limit() {
            Some(Refusal::BadCapacity)
        } else {
            None
        }
    }

    /// Begins an update, and returns how many stores it takes.
    ///
    /// The stores are planned and all memory is taken here. Refused by [`Refusal::UpdateInHand`],
    /// then by [`Refusal::BadItem`], then by [`Refusal::Overlap`] or [`Refusal::NoSuchItem`], by
    /// [`Refusal::Full`], by [`Refusal::SequenceSpent`] and last by [`Refusal::OutOfMemory`]; a
    /// refusal changes nothing.
    #[tactic(auto, using(crate::proofs::WriterLemmas::refuses_pictured))]
    pub fn begin(&mut self, u: &Update) -> Result<u64, Refusal>
        ensures accepted { IfOk result (λ left. why_refused O.order self.old u.now ≡ None) }
        ensures begun { IfOk result (λ left. (left ≡ length self.new.stores_left)
            × HasBegun O.order self.old u.now self.new) }
        ensures refusal { IfErr result (IsRefusedBy O.order self.old u.now) }
        ensures unchanged { OnErr result (self.new ≡ self.old) }
        ensures same { (self.new.capacity ≡ self.old.capacity)
            × (self.new.limit ≡ self.old.limit) × (self.new.sequence ≡ self.old.sequence) }
        ensures pictured { RefusesAsRepresented O.order self.old u.now }
    {
        let begun = match u {
            Update::Insert(item) => self.insert(*item),
            Update::Erase(a) => self.erase(*a),
            Update::Batch { erase, insert } => {
                if let Some(refusal) = self.refusal(u) {
                    return Err(refusal);
                }
                self.batch(erase.as_slice(), insert.as_slice())?;
                true
            }
        };
        if !begun {
            return match self.refusal(u) {
                Some(refusal) => Err(refusal),
                None => Err(Refusal::OutOfMemory),
            };
        }
        Ok(self.plan.remaining())
    }

    /// Whether no update is pending, and two flips more keep within the greatest sequence.
    #[inline(always)]
    fn is_ready(&self) -> bool
        ensures { IsTrue result
            → (self.now.stores_left ≡ []) × (self.now.sequence + 2 ≤ self.now.limit) }
    {
        self.plan.remaining() == 0 && !is_spent(self.layout, self.sequence)
    }

    /// Why an update is refused before any memory is asked for, if it is.
    fn refusal(&self, u: &Update) -> Option<Refusal>
        ensures { result ≡ why_refused O.order self.now u.now }
    {
        if self.plan.remaining() > 0 {
            return Some(Refusal::UpdateInHand);
        }
        if let Some(refusal) = self.failed_test(u) {
            return Some(refusal);
        }
        if is_spent(self.layout, self.sequence) {
            return Some(Refusal::SequenceSpent);
        }
        None
    }

    /// The first test of an update of the table that fails, by its refusal.
    fn failed_test(&self, u: &Update) -> Option<Refusal>
        ensures { result ≡ failed_test O.order self.now.capacity self.now.table u.now }
    {
        match u {
            Update::Insert(item) => self.insert_test(item),
            Update::Erase(a) if self.shape.has(*a) => None,
            Update::Erase(_) => Some(Refusal::NoSuchItem),
            Update::Batch { erase, insert } => self.batch_test(erase.as_slice(), insert.as_slice()),
        }
    }

    /// Why an item is not to be inserted, if it is not.
    fn insert_test(&self, item: &Item) -> Option<Refusal>
        ensures { result
            ≡ failed_test O.order self.now.capacity self.now.table (Update.Insert item.now) }
    {
        if !O::valid(item) {
            Some(Refusal::BadItem)
        } else if self.meets(item) {
            Some(Refusal::Overlap)
        } else if self.len() == self.layout().capacity() {
            Some(Refusal::Full)
        } else {
            None
        }
    }

    /// Whether an item of the table is not apart from this one.
    #[tactic(auto, using(order_laws::proofs::PlaceLemmas::without_none))]
    fn meets(&self, item: &Item) -> bool
        ensures { result ≡ meets O.order item.now self.now.table }
    {
        self.shape.meets(item, &[], false)
    }

    /// Why a batch is not to be carried out, if it is not.
    ///
    /// Its first words are tested in order, and as they came if there is no memory for a copy.
    #[tactic(auto, using(crate::proofs::ClashLemmas::tests_moved))]
    fn batch_test(&self, erase: &[u64], insert: &[Item]) -> Option<Refusal>
        ensures { result ≡ failed_test O.order self.now.capacity self.now.table
            (Update.Batch erase.now insert.now) }
    {
        match in_order(*self.free.allocator(), erase) {
            Ok(sorted) => self.batch_test_of(sorted.as_slice(), true, insert),
            Err(_) => self.batch_test_of(erase, false, insert),
        }
    }

    /// Why a batch is refused whose first words may be `rising`, if it is.
    fn batch_test_of(&self, erase: &[u64], rising: bool, insert: &[Item]) -> Option<Refusal>
        requires { IsTrue rising → IsNonDecreasing erase.now }
        ensures { result ≡ failed_test O.order self.now.capacity self.now.table
            (Update.Batch erase.now insert.now) }
    {
        if some_invalid::<O>(insert) {
            Some(Refusal::BadItem)
        } else if self.cannot_erase(erase, rising) {
            Some(Refusal::NoSuchItem)
        } else if self.cannot_insert(erase, rising, insert) {
            Some(Refusal::Overlap)
        } else if self.shape.len() as usize + insert.len() > self.layout.capacity() as usize {
            Some(Refusal::Full)
        } else {
            None
        }
    }

    /// Whether some first word is in no item of the table or is named twice.
    fn cannot_erase(&self, erase: &[u64], rising: bool) -> bool
        requires { IsTrue rising → IsNonDecreasing erase.now }
        ensures { result ≡ cannot_erase erase.now self.now.table }
    {
        self.some_missing(erase) || some_twice(erase, rising)
    }

    /// Whether two of some valid items are not apart, or one of them and an item of the table that
    /// stays.
    fn cannot_insert(&self, erase: &[u64], rising: bool, insert: &[Item]) -> bool
        requires rising { IsTrue rising → IsNonDecreasing erase.now }
        requires valid { some_invalid O.order insert.now ≡ false }
        ensures { result ≡ cannot_insert O.order erase.now insert.now self.now.table }
    {
        some_overlap::<O>(*self.free.allocator(), insert) || self.some_meet(erase, rising, insert)
    }

    /// Whether some first word is in no item of the table.
    fn some_missing(&self, words: &[u64]) -> bool
        ensures { result ≡ some_missing words.now self.now.table }
    {
        words.iter().any(|a| !self.shape.has(*a))
    }

    /// Whether one of the items is not apart from an item of the table that has none of the first
    /// words `but`.
    fn some_meet(&self, but: &[u64], rising: bool, items: &[Item]) -> bool
        requires { IsTrue rising → IsNonDecreasing but.now }
        ensures { result ≡ some_meet O.order items.now (without_all but.now self.now.table) }
    {
        items.iter().any(|i| self.shape.meets(i, but, rising))
    }

    /// Plans to insert an item in a free node, which both copies then link. Returns whether it
    /// could.
    ///
    /// The way down to the item's place shows whether it meets one of the table, so that is not
    /// asked before.
    fn insert(&mut self, item: Item) -> bool
        ensures accepted { IsTrue result
            → why_refused O.order self.old (Update.Insert item) ≡ None }
        ensures begun { IsTrue result → HasBegun O.order self.old (Update.Insert item) self.new }
        ensures unchanged { result ≡ false → self.new ≡ self.old }
    {
        if !self.is_ready() || self.shape.len() == self.layout.capacity() || !O::valid(&item) {
            return false;
        }
        let Ok(()) = reserve(&mut self.shape, &mut self.plan, &mut self.links, 1) else {
            return false;
        };
        self.shape.stays_sound();
        let Some(node) = self.free.pop() else {
            unreachable!()
        };
        let met = self.shape.plan_links_apart(&mut self.links, node, item);
        self.shape.stays_sound();
        if met {
            self.free.push_reserved(node);
            return false;
        }
        self.plan.add(&item_stores(node, item));
        self.plan.close(self.layout, self.sequence, &self.links);
        true
    }

    /// Plans to erase the item of a first word, if there is one: both copies leave out its node,
    /// which is free afterwards. Returns whether it could.
    fn erase(&mut self, a: u64) -> bool
        ensures accepted { IsTrue result → why_refused O.order self.old (Update.Erase a) ≡ None }
        ensures begun { IsTrue result → HasBegun O.order self.old (Update.Erase a) self.new }
        ensures unchanged { result ≡ false → self.new ≡ self.old }
    {
        if !self.is_ready() {
            return false;
        }
        let Ok(()) = reserve(&mut self.shape, &mut self.plan, &mut self.links, 1) else {
            return false;
        };
        self.shape.stays_sound();
        let Some(node) = self.shape.plan_erase_found(&mut self.links, a) else {
            return false;
        };
        self.shape.stays_sound();
        self.free.push_reserved(node);
        self.plan.close(self.layout, self.sequence, &self.links);
        true
    }

    /// Plans to erase the items of some first words and to insert some items.
    ///
    /// The inserted items go into nodes that were free before, so none goes into a node that is
    /// erased here.
    fn batch(&mut self, erase: &[u64], insert: &[Item]) -> Result<(), Refusal>
        requires accepted { why_refused O.order self.old (Update.Batch erase.now insert.now)
            ≡ None }
        ensures begun { OnOk result
            (HasBegun O.order self.old (Update.Batch erase.now insert.now) self.new) }
        ensures refusal { IfErr result (λ e. e ≡ Refusal.OutOfMemory) }
        ensures unchanged { OnErr result (self.new ≡ self.old) }
    {
        let size = erase.len() + insert.len();
        let mut links = Vec::new(*self.free.allocator());
        reserve(&mut self.shape, &mut self.plan, &mut links, size)?;
        let fresh = self.free.len();
        self.shape.stays_sound();
        plan_erases(&mut self.shape, &mut self.free, &mut links, erase);
        plan_inserts(
            &mut self.shape,
            &mut self.free,
            fresh,
            &mut self.plan,
            &mut links,
            insert,
        );
        self.shape.stays_sound();
        self.plan.close(self.layout, self.sequence, &links);
        Ok(())
    }

    /// The store to be made next; none if no update is pending.
    ///
    /// Its word lies in the memory. On any words that the core pictures it is a step that a writer
    /// may make.
    #[inline(always)]
    #[tactic(auto, using(crate::proofs::WriterLemmas::next_may))]
    pub fn next(&self) -> Option<Store>
        ensures which { result ≡ next_store self.now }
        ensures some { IsSome result ↔ (0 < length self.now.stores_left) }
        ensures within { IfSome result (λ s. s.word < words_for self.now.capacity) }
        ensures may { MayBeNext self.now result }
    {
        self.plan.next()
    }

    /// Passes over the store that [`next`](WriterCore::next) returned, which was made, and keeps the
    /// sequence that it makes.
    #[inline(always)]
    #[tactic(auto, using(crate::proofs::WriterLemmas::did_pictures))]
    pub fn did(&mut self)
        requires { IsSome (next_store self.old) }
        ensures same { (self.new.capacity ≡ self.old.capacity)
            × (self.new.limit ≡ self.old.limit) × (self.new.table ≡ self.old.table) }
        ensures left { length self.new.stores_left + 1 ≡ length self.old.stores_left }
        ensures stepped { (s : Store) → next_store self.old ≡ Some s
            → self.new ≡ writer_after_step self.old s }
        ensures pictures { StoresNext self.old self.new }
    {
        let store = self.plan.advance();
        if store.word == 0 {
            self.sequence = store.value;
        }
    }

    /// The next store, which counts as made: [`next`](WriterCore::next) and
    /// [`did`](WriterCore::did) in one, for a writer that makes each store before it asks for
    /// another.
    #[inline(always)]
    pub fn step(&mut self) -> Option<Store>
        ensures which { result ≡ next_store self.old }
        ensures within { IfSome result (λ s. s.word < words_for self.old.capacity) }
        ensures may { MayBeNext self.old result }
        ensures same { (self.new.capacity ≡ self.old.capacity)
            × (self.new.limit ≡ self.old.limit) × (self.new.table ≡ self.old.table) }
        ensures left { OnSome result
            (length self.new.stores_left + 1 ≡ length self.old.stores_left) }
        ensures stepped { IfSome result (λ s. self.new ≡ writer_after_step self.old s) }
        ensures pictures { StoresNext self.old self.new }
        ensures none { IfNone result (self.new ≡ self.old) }
    {
        let store = self.next()?;
        self.did();
        Some(store)
    }

    /// The stores that are left, in the order in which they are made; each word lies in the memory.
    #[inline(always)]
    pub fn stores_left(&self) -> &[Store]
        ensures are { result.now ≡ self.now.stores_left }
        ensures within { All (λ s. s.word < words_for self.now.capacity) self.now.stores_left }
    {
        self.plan.stores_left()
    }

    /// How many stores are left until the pending update is at its end; 0 if none is pending.
    #[tactic(auto, using(crate::proofs::WriterLemmas::remaining_pictured))]
    pub fn remaining(&self) -> u64
        ensures count { result ≡ length self.now.stores_left }
        ensures left { (l : Latch) (h : PendingUpdate) → RepresentsLatch self.now l
            → l.pending ≡ Some h
            → h.steps_left ≡ result }
    {
        self.plan.remaining()
    }

    /// The generation of the sequence.
    pub fn generation(&self) -> u64
        ensures is { result ≡ generation_of self.now.sequence }
        ensures pictured { (l : Latch) → RepresentsLatch self.now l
            → result ≡ generation_of (at l.words 0) }
    {
        generation(self.sequence)
    }

    /// Whether an item of the table after all accepted updates has this first word.
    pub fn holds(&self, a: u64) -> bool
        ensures is { result ≡ has a self.now.table }
        ensures pictured { (l : Latch) → RepresentsLatch self.now l
            → result ≡ has a l.newest_table }
    {
        self.shape.has(a)
    }

    /// How many items the table after all accepted updates has.
    pub fn len(&self) -> u32
        ensures is { result ≡ length self.now.table }
        ensures pictured { (l : Latch) → RepresentsLatch self.now l
            → result ≡ length l.newest_table }
    {
        self.shape.len()
    }

    /// What the table differs in from other items, before any is given: whoever keeps the words
    /// gives it the items. Takes no memory.
    pub fn difference(&self) -> Difference
        ensures { (table items : List Item) → update_found result items table
            ≡ replacement table items }
    {
        Difference::new(*self.free.allocator())
    }

    /// The number of nodes and the greatest sequence.
    pub fn layout(&self) -> Layout
        ensures capacity { capacity_of result ≡ self.now.capacity }
        ensures limit { limit_of result ≡ self.now.limit }
    {
        self.layout
    }
}

/// Makes room for an update of `size` items, in the picture and in the plan, and for their links in
/// a list, which is empty then.
#[inline(always)]
fn reserve<O: TreeOrder>(
    shape: &mut Shape<O>,
    plan: &mut Plan,
    links: &mut Vec<Store>,
    size: usize,
) -> Result<(), Refusal>
    requires none_left { plan.old.stores_left ≡ [] }
    requires size { size ≤ 2 * most_nodes }
    ensures kept { shape.new ≡ record shape.old { room = shape.new.room } }
    ensures plan_kept { plan.new.stores_left ≡ [] }
    ensures room { OnOk result (size ≤ shape.new.room) }
    ensures plan_room { OnOk result (2 * (size * STORES) + 2 ≤ plan.new.room) }
    ensures links { OnOk result ((links.new.items ≡ []) × (vec_len links.new ≡ 0)
        × (size * STORES ≤ vec_capacity links.new)) }
    ensures refusal { IfErr result (λ e. e ≡ Refusal.OutOfMemory) }
{
    plan.reserve(2 * (size * STORES) + 2)?;
    links.clear();
    shape.reserve(size as u32, links)
}
