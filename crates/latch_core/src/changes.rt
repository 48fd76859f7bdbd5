//! Several changes of one update, planned one after another.

ghost use Rattle.std.specs.Prelude.{◌≡◌, ◌+◌, ◌*◌, ◌<◌, ◌≤◌, ◌++◌, false, List, length, take};
ghost use Rattle.std.specs.Prelude.{vec_len, vec_capacity};
ghost use Rattle.word_layout.specs.declared.stores.Store.{Store};
ghost use Rattle.word_layout.specs.Words.{listed};
ghost use Rattle.table_updates.specs.Updates.{some_missing, some_twice, some_invalid, some_overlap};
ghost use Rattle.table_updates.specs.Updates.{some_meet};
ghost use Rattle.latch_core.specs.FreeNodes.{AreAllNodes};
ghost use Rattle.latch_core.specs.Changes.{PlacedItems, stores_of_placed, ErasesWords};
ghost use Rattle.latch_core.specs.Changes.{InsertsItems};

use crate::plans::Plan;
use order_laws::{Item, TreeOrder};
use rb_words::{STORES, Shape, item_stores};
use word_layout::Store;

/// Plans to erase the items of these first words, and puts their nodes after the free ones.
pub fn plan_erases<O: TreeOrder>(
    shape: &mut Shape<O>,
    free: &mut Vec<u32>,
    links: &mut Vec<Store>,
    erase: &[u64],
)
    requires there { some_missing erase.now shape.old.table ≡ false }
    requires once { some_twice erase.now ≡ false }
    requires room { vec_len links.old + length erase.now * STORES ≤ vec_capacity links.old }
    requires first_copy { shape.old.copy ≡ 0 }
    requires nodes { AreAllNodes shape.old.capacity (free.old.items ++ listed shape.old.tree) }
    requires places { shape.old.capacity ≤ vec_capacity free.old }
    ensures plan { (more : List Store) × (links.new.items ≡ links.old.items ++ more)
        × ErasesWords shape.old shape.new erase.now more free.old.items free.new.items }
    ensures few { vec_len links.new ≤ vec_len links.old + length erase.now * STORES }
    ensures links_capacity { vec_capacity links.new ≡ vec_capacity links.old }
    ensures free_capacity { vec_capacity free.new ≡ vec_capacity free.old }
    ensures room_kept { shape.old.room ≤ shape.new.room }
{
    for a in erase {
        let node = shape.plan_erase(links, *a);
        free.push_reserved(node);
    }
}

/// Plans to insert these items in as many of the first `fresh` free nodes: the stores of their
/// words go into the plan, the ones of links into a list of their own.
///
/// No node after the fresh ones is taken.
pub fn plan_inserts<O: TreeOrder>(
    shape: &mut Shape<O>,
    free: &mut Vec<u32>,
    fresh: usize,
    plan: &mut Plan,
    links: &mut Vec<Store>,
    insert: &[Item],
)
    requires valid { some_invalid O.order insert.now ≡ false }
    requires apart { some_overlap O.order insert.now ≡ false }
    requires off { some_meet O.order insert.now shape.old.table ≡ false }
    requires shape_room { length insert.now ≤ shape.old.room }
    requires plan_room { length insert.now * 3 ≤ plan.old.room }
    requires links_room { vec_len links.old + length insert.now * STORES ≤ vec_capacity links.old }
    requires enough { length insert.now ≤ fresh }
    requires free { fresh ≤ vec_len free.old }
    requires first_copy { shape.old.copy ≡ 0 }
    requires nodes { AreAllNodes shape.old.capacity (free.old.items ++ listed shape.old.tree) }
    ensures plan { (placed : PlacedItems) × (more : List Store)
        × (plan.new.stores_left ≡ plan.old.stores_left ++ stores_of_placed placed)
        × (links.new.items ≡ links.old.items ++ more)
        × InsertsItems O.order shape.old shape.new insert.now placed more
        (take fresh free.old.items) free.new.items }
    ensures few { length plan.new.stores_left + vec_len links.new
        ≤ length plan.old.stores_left + vec_len links.old + length insert.now * STORES }
    ensures plan_len { length plan.new.stores_left
        ≡ length plan.old.stores_left + length insert.now * 3 }
    ensures plan_room_left { plan.new.room + length insert.now * 3 ≡ plan.old.room }
    ensures free_capacity { vec_capacity free.new ≡ vec_capacity free.old }
{
    for (taken, item) in insert.iter().enumerate() {
        let node = free.swap_remove(fresh - 1 - taken);
        plan.add(&item_stores(node, *item));
        shape.plan_links(links, node, *item);
    }
}
