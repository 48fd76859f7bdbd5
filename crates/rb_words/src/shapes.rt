//! A copy as its writer sees it, and the plans of its changes.
//!
//! The tree is red-black: the writer's nodes alone have colours, so a change of colours stores
//! nothing.

ghost use Rattle.std.specs.Prelude.{◌≡◌, ◌+◌, ◌*◌, ◌<◌, ◌≤◌, ◌++◌, [], true, false, List};
ghost use Rattle.std.specs.Prelude.{IsTrue, IfErr, OnOk, IfSome, IsSome, is_some, Some, None};
ghost use Rattle.std.specs.Prelude.{Contains, length, vec_len, vec_capacity};
ghost use Rattle.std.specs.List.Sorted.{IsNonDecreasing};
ghost use Rattle.order_laws.specs.Tables.{IsTable, has, meets, without_all};
ghost use Rattle.word_layout.specs.declared.stores.Store.{Store};
ghost use Rattle.word_layout.specs.Layouts.{capacity_of};
ghost use Rattle.word_layout.specs.Copies.{copy_number};
ghost use Rattle.word_layout.specs.Words.{listed};
ghost use Rattle.rb_words.specs.Pictures.{IsPicture, empty_picture};
ghost use Rattle.rb_words.specs.Wider.{IsPicturedWider};
ghost use Rattle.rb_words.specs.Plans.{item_stores, Inserts, LeadsWithItem, Erases, LeadsByLinks};
ghost use Rattle.rb_words.specs.TreePictures.{LosesWord};
ghost use Rattle.rb_cursor.specs.Changes.{AddsLinks};
ghost use Rattle.rb_trees.specs.Trees.{shape, depth, rows, IsRedBlack};
ghost use Rattle.rb_trees.specs.Replaced.{Nothing};
ghost use Rattle.rb_trees.specs.Found.{items_of_records};

use order_laws::{Item, Refusal, TreeOrder};
use rb_cursor::Cursor;
use rb_cursor::erases::erase;
use rb_cursor::inserts::{insert, insert_apart};
use rb_cursor::probes::{ItemProbe, WordProbe};
use rb_cursor::searches::{find_any, has, meets, meets_any};
use rb_trees::Record;
use std::alloc::Global;
use std::marker::{Model, PhantomData};
use word_layout::places::{a_of, b_of, tag_of};
use word_layout::{Layout, Store, TreeCopy};

/// The most stores that a plan has for each item, whatever the table.
pub const STORES: usize = 16;

/// The writer's private picture of one copy.
///
/// Readers never see it. A contract sees a `Picture`: the number of nodes, the copy, the table that
/// the copy holds, the tree that it holds it in, and how many more items fit without memory.
#[derive(Drop)]
pub struct Shape<O: TreeOrder> {
    layout: Layout,
    copy: TreeCopy,
    cursor: Cursor,
    count: u32,
    order: PhantomData<O>,
}

impl<O: TreeOrder> Model for Shape<O> {
    ghost use Rattle.word_layout.specs.Layouts.{capacity_of};
    ghost use Rattle.word_layout.specs.Copies.{copy_number};
    ghost use Rattle.rb_words.specs.Pictures.{Picture, picture_code, IsPicture};
    ghost use Rattle.rb_words.specs.TreePictures.{picture_of};
    ghost use Rattle.rb_trees.specs.Trees.{rows, IsRedBlack};
    ghost use Rattle.std.specs.Prelude.{◌≡◌, [], length};

    ghost Value = { Picture };

    ghost coded = { picture_code };

    ghost view = { λ s.
        picture_of (capacity_of s.layout) (copy_number s.copy) s.cursor.tree s.cursor.room };

    ghost invariant = { λ s.
        IsPicture O.order
        (picture_of (capacity_of s.layout) (copy_number s.copy) s.cursor.tree s.cursor.room)
        × IsRedBlack s.cursor.tree
        × (s.count ≡ length (rows s.cursor.tree))
        × (s.cursor.path ≡ []) };
}

impl<O: TreeOrder> Shape<O> {
    /// The picture of an empty copy. Takes no memory.
    pub fn new(alloc: Global, l: Layout, copy: TreeCopy) -> Self
        ensures empty { result ≡ empty_picture (capacity_of l) (copy_number copy) }
    {
        Shape {
            layout: l,
            copy,
            cursor: Cursor::new(alloc),
            count: 0,
            order: PhantomData,
        }
    }

    /// Pictures its items in their tree, in a memory of the nodes of this layout, which has no
    /// fewer. Takes no memory.
    pub fn widen(&mut self, l: Layout)
        requires { self.old.capacity ≤ capacity_of l }
        ensures widened { self.new ≡ record self.old { capacity = capacity_of l } }
        ensures pictures { IsPicturedWider self.old self.new }
    {
        self.layout = l;
    }

    /// What every shape keeps, for a caller that reasons about it: what it pictures can be. Does
    /// nothing.
    #[inline(always)]
    pub fn stays_sound(&self)
        ensures { IsPicture O.order self.now }
    {
        // A method learns its type's invariant from a field that it reads.
        let _ = &self.layout;
    }

    /// How many items are pictured.
    pub fn len(&self) -> u32
        ensures count { result ≡ length self.now.table }
    {
        self.count
    }

    /// Whether some item has this first word.
    pub fn has(&self, a: u64) -> bool
        ensures { result ≡ has a self.now.table }
    {
        if O::in_line() {
            has(&self.cursor.tree(), a)
        } else {
            find_any(&self.cursor.tree(), a).is_some()
        }
    }

    /// Whether some item with none of the first words `but` is not apart from this one; `rising`
    /// says that these words rise. Then each item that is met costs a search by halves among them,
    /// so k of them cost O((k + 1) log n + k log k) in an order of items in line
    /// ([`TreeOrder::in_line`]).
    pub fn meets(&self, item: &Item, but: &[u64], rising: bool) -> bool
        requires { IsTrue rising → IsNonDecreasing but.now }
        ensures { result ≡ meets O.order item.now (without_all but.now self.now.table) }
    {
        if O::in_line() && O::valid(item) {
            meets::<O>(&self.cursor.tree(), item, but, rising)
        } else {
            meets_any::<O>(&self.cursor.tree(), item, but, rising)
        }
    }

    /// Makes room for `k` items, and in a list for `k` plans more.
    ///
    /// What is pictured and what is listed stay, even if memory is refused by
    /// [`Refusal::OutOfMemory`].
    #[inline(always)]
    pub fn reserve(&mut self, k: u32, out: &mut Vec<Store>) -> Result<(), Refusal>
        ensures kept { self.new ≡ record self.old { room = self.new.room } }
        ensures grown { self.old.room ≤ self.new.room }
        ensures room { OnOk result (k ≤ self.new.room) }
        ensures listed { out.new.items ≡ out.old.items }
        ensures list { OnOk result (vec_len out.new + k * STORES ≤ vec_capacity out.new) }
        ensures refusal { IfErr result (λ e. e ≡ Refusal.OutOfMemory) }
    {
        self.cursor.reserve(k as usize)?;
        Ok(out.reserve(k as usize * STORES)?)
    }

    /// Plans to insert an item in a free node, and pictures the copy with it: appends the stores of
    /// links, before which the item's words are stored ([`item_stores`]).
    ///
    /// Takes no memory. There must be room for one item and for [`STORES`] stores less three
    /// ([`Shape::reserve`]); the item must be valid and meet none ([`Shape::meets`]).
    pub fn plan_links(&mut self, out: &mut Vec<Store>, node: u32, item: Item)
        requires room { 0 < self.old.room }
        requires list { vec_len out.old + STORES ≤ vec_capacity out.old + 3 }
        requires in_range { node < self.old.capacity }
        requires free { Contains (listed self.old.tree) node → ⊥ }
        requires valid { O.order.valid item ≡ true }
        requires apart { meets O.order item self.old.table ≡ false }
        ensures pictures { Inserts O.order self.old self.new node item }
        ensures plan { (links : List Store)
            × (out.new.items ≡ out.old.items ++ links)
            × LeadsWithItem self.old self.new node item links }
        ensures few { vec_len out.new + 3 ≤ vec_len out.old + STORES }
        ensures capacity { vec_capacity out.new ≡ vec_capacity out.old }
    {
        insert::<O>(out, self.copy, &mut self.cursor, Record { node, item });
        self.count += 1;
    }

    /// Plans the links of an insert alone, unless the item meets one of the table. Returns whether
    /// it does; then what is pictured and what is listed stay.
    ///
    /// Takes no memory. There must be room for one item and for [`STORES`] stores less three, and
    /// the item must be valid. In an order of items in line ([`TreeOrder::in_line`]) it goes down
    /// once.
    #[inline(always)]
    pub fn plan_links_apart(&mut self, out: &mut Vec<Store>, node: u32, item: Item) -> bool
        requires room { 0 < self.old.room }
        requires list { vec_len out.old + STORES ≤ vec_capacity out.old + 3 }
        requires in_range { node < self.old.capacity }
        requires free { Contains (listed self.old.tree) node → ⊥ }
        requires valid { O.order.valid item ≡ true }
        ensures met { result ≡ meets O.order item self.old.table }
        ensures unchanged { result ≡ true →
            (self.new ≡ self.old) × (out.new.items ≡ out.old.items) }
        ensures pictures { result ≡ false → Inserts O.order self.old self.new node item }
        ensures plan { result ≡ false → (links : List Store)
            × (out.new.items ≡ out.old.items ++ links)
            × LeadsWithItem self.old self.new node item links }
        ensures few { vec_len out.new + 3 ≤ vec_len out.old + STORES }
        ensures capacity { vec_capacity out.new ≡ vec_capacity out.old }
    {
        if !O::in_line() {
            if self.meets(&item, &[], false) {
                return true;
            }
            self.plan_links(out, node, item);
            return false;
        }
        if insert_apart::<O>(out, self.copy, &mut self.cursor, Record { node, item }) {
            return true;
        }
        self.count += 1;
        false
    }

    /// Plans to erase the item of this first word, and pictures the copy without it. Returns the
    /// node that is free then.
    ///
    /// Appends stores of links alone, since the words of the item serve both copies. Takes no
    /// memory. There must be room for [`STORES`] stores, and an item of this first word
    /// ([`Shape::has`]).
    pub fn plan_erase(&mut self, out: &mut Vec<Store>, a: u64) -> u32
        requires list { vec_len out.old + STORES ≤ vec_capacity out.old }
        requires pictured { has a self.old.table ≡ true }
        ensures pictures { Erases self.old self.new a result }
        ensures plan { (links : List Store)
            × (out.new.items ≡ out.old.items ++ links) × LeadsByLinks self.old self.new links }
        ensures few { vec_len out.new ≤ vec_len out.old + STORES }
        ensures capacity { vec_capacity out.new ≡ vec_capacity out.old }
    {
        let Some(node) = self.plan_erase_found(out, a) else {
            unreachable!()
        };
        node
    }

    /// Plans to erase the item of this first word, if there is one: then it returns the node that
    /// is free then, and has planned what [`Shape::plan_erase`] does. With none, what is pictured
    /// and what is listed stay.
    ///
    /// Takes no memory. There must be room for [`STORES`] stores. If first words lead
    /// ([`TreeOrder::in_line`]), it goes down once.
    pub fn plan_erase_found(&mut self, out: &mut Vec<Store>, a: u64) -> Option<u32>
        requires list { vec_len out.old + STORES ≤ vec_capacity out.old }
        ensures found { is_some result ≡ has a self.old.table }
        ensures unchanged { result ≡ None →
            (self.new ≡ self.old) × (out.new.items ≡ out.old.items) }
        ensures pictures { IfSome result (Erases self.old self.new a) }
        ensures plan { IsSome result → (links : List Store)
            × (out.new.items ≡ out.old.items ++ links) × LeadsByLinks self.old self.new links }
        ensures few { vec_len out.new ≤ vec_len out.old + STORES }
        ensures capacity { vec_capacity out.new ≡ vec_capacity out.old }
    {
        let node = without_word::<O>(out, self.copy, &mut self.cursor, a)?;
        self.count -= 1;
        Some(node)
    }
}

// Takes the record of a first word out of the tree, if there is one, and appends the stores of
// links. Returns its node. In an order that is in no line the item is looked for among all first,
// since its first word says nothing about its place there.
fn without_word<O: TreeOrder>(
    out: &mut Vec<Store>,
    copy: TreeCopy,
    cursor: &mut Cursor,
    a: u64,
) -> Option<u32>
    requires whole { cursor.old.path ≡ [] }
    requires good { IsRedBlack cursor.old.tree }
    requires steps { depth (shape cursor.old.tree) ≤ 64 }
    requires list { vec_len out.old + STORES ≤ vec_capacity out.old }
    requires table { IsTable O.order (items_of_records (rows cursor.old.tree)) }
    ensures found { is_some result ≡ has a (items_of_records (rows cursor.old.tree)) }
    ensures unchanged { result ≡ None →
        (cursor.new ≡ cursor.old) × (out.new.items ≡ out.old.items) }
    ensures gone { IfSome result (LosesWord a cursor.old.tree cursor.new.tree) }
    ensures balanced { IsRedBlack cursor.new.tree }
    ensures links { IsSome result → AddsLinks Nothing (copy_number copy) cursor.old.tree
        cursor.new.tree out.old out.new }
    ensures path { cursor.new.path ≡ [] }
    ensures room { IsSome result → cursor.new.room ≡ cursor.old.room + 1 }
    ensures few { vec_len out.new ≤ vec_len out.old + STORES }
    ensures capacity { vec_capacity out.new ≡ vec_capacity out.old }
{
    if O::in_line() {
        let row = erase(out, copy, cursor, &WordProbe(a))?;
        return Some(row.node);
    }
    let item = find_any(&cursor.tree(), a)?;
    let order = PhantomData;
    let row = erase(out, copy, cursor, &ItemProbe::<O> { item, order })?;
    Some(row.node)
}

/// The stores of an item's words in a node, which serve both copies.
#[inline(always)]
pub fn item_stores(node: u32, item: Item) -> [Store; 3]
    ensures { result ≡ item_stores node item }
{
    [
        Store {
            word: a_of(node),
            value: item.a,
        },
        Store {
            word: b_of(node),
            value: item.b,
        },
        Store {
            word: tag_of(node),
            value: item.tag,
        },
    ]
}
