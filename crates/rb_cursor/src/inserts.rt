//! Inserts.
//!
//! An insert goes down once to the place of the new leaf, plants it red, and goes up. At each node
//! above, the link to the subtree is stored if it changed, and two red nodes in line are mended
//! (`mends`). As soon as the subtree in hand has the link that it had and a black top, nothing
//! above changes any more, and the rest of the way is one jump.
//!
//!           50                     50                      50
//!          /  \                   /  \                    /  \
//!        20    70     ->        20    70      ->       20*    70
//!       /  \                   /  \                   /  \
//!     10*   30*              10*   30*              10    30
//!                           /                      /
//!                          5*                     5*
//!
//! (A star marks a red node.) The leaf 5 is planted and linked to 10; at 20 the two red nodes 10
//! and 5 in line are mended; at 50, which is black, 20 is as good as it was, and the way ends
//! there. Were 50 red, its parent would mend 50 and 20.

ghost use Rattle.std.specs.Prelude.{◌≡◌, ◌+◌, ◌<◌, ◌≤◌, [], true, false, length};
ghost use Rattle.std.specs.Prelude.{vec_capacity, vec_len, insert};
ghost use Rattle.order_laws.specs.Tables.{IsTable};
ghost use Rattle.rb_trees.specs.Trees.{tip, branch, shape, depth, rows, IsRedBlack};
ghost use Rattle.rb_trees.specs.Found.{items_of_records, meets_on_the_way};
ghost use Rattle.rb_trees.specs.Paths.{plugged};
ghost use Rattle.rb_trees.specs.Turns.{link};
ghost use Rattle.rb_cursor.specs.Changes.{PutsIn, AddsLinks};
ghost use Rattle.word_layout.specs.Copies.{copy_number};

use crate::cursors::Cursor;
use crate::mends::mend;
use crate::relinks::{relink, relink_root};
use order_laws::TreeOrder;
use rb_trees::Record;
use word_layout::places::{left_of, right_of};
use word_layout::{Store, TreeCopy};

/// Puts a record at its place, after those that are not greater.
#[tactic(auto, using(crate::proofs::InsertSteps::insert_place))]
pub fn insert<O: TreeOrder>(
    out: &mut Vec<Store>,
    copy: TreeCopy,
    cursor: &mut Cursor,
    added: Record,
)
    requires whole { cursor.old.path ≡ [] }
    requires good { IsRedBlack cursor.old.tree }
    requires table { IsTable O.order (items_of_records (rows cursor.old.tree)) }
    requires steps { depth (shape cursor.old.tree) ≤ 64 }
    requires room { 0 < cursor.old.room }
    requires list { vec_len out.old + 9 ≤ vec_capacity out.old }
    ensures rows { PutsIn O.order added (rows cursor.old.tree) (rows cursor.new.tree) }
    ensures balanced { IsRedBlack cursor.new.tree }
    ensures links { AddsLinks (λ i. i ≡ added.node) (copy_number copy) cursor.old.tree
        cursor.new.tree out.old out.new }
    ensures path { cursor.new.path ≡ [] }
    ensures room { cursor.new.room + 1 ≡ cursor.old.room }
    ensures few { vec_len out.new ≤ vec_len out.old + 9 }
    ensures capacity { vec_capacity out.new ≡ vec_capacity out.old }
{
    let root = cursor.link();
    cursor.seek_leaf::<O>(&added.item);
    grow(out, copy, cursor, added, root);
}

/// As [`insert`] puts it, unless its item meets one of the tree: then nothing changes. Returns
/// whether it does. In the tree no item beyond one that is apart from the item can meet it.
#[inline(always)]
#[tactic(auto, using(crate::proofs::InsertSteps::insert_place))]
pub fn insert_apart<O: TreeOrder>(
    out: &mut Vec<Store>,
    copy: TreeCopy,
    cursor: &mut Cursor,
    added: Record,
) -> bool
    requires whole { cursor.old.path ≡ [] }
    requires good { IsRedBlack cursor.old.tree }
    requires table { IsTable O.order (items_of_records (rows cursor.old.tree)) }
    requires steps { depth (shape cursor.old.tree) ≤ 64 }
    requires room { 0 < cursor.old.room }
    requires list { vec_len out.old + 9 ≤ vec_capacity out.old }
    ensures met { result ≡ meets_on_the_way O.order added.item [] cursor.old.tree }
    ensures unchanged { result ≡ true →
        (cursor.new ≡ cursor.old) × (out.new.items ≡ out.old.items) }
    ensures rows { result ≡ false →
        PutsIn O.order added (rows cursor.old.tree) (rows cursor.new.tree) }
    ensures balanced { IsRedBlack cursor.new.tree }
    ensures links { result ≡ false → AddsLinks (λ i. i ≡ added.node) (copy_number copy)
        cursor.old.tree cursor.new.tree out.old out.new }
    ensures path { cursor.new.path ≡ [] }
    ensures room { result ≡ false → cursor.new.room + 1 ≡ cursor.old.room }
    ensures few { vec_len out.new ≤ vec_len out.old + 9 }
    ensures capacity { vec_capacity out.new ≡ vec_capacity out.old }
{
    let root = cursor.link();
    if cursor.seek_apart::<O>(&added.item) {
        cursor.close_all();
        return true;
    }
    grow(out, copy, cursor, added, root);
    false
}

// Plants a record, with no node in hand, and goes all the way up to the root, to which the link was
// `root`.
#[inline(always)]
fn grow(out: &mut Vec<Store>, copy: TreeCopy, cursor: &mut Cursor, added: Record, root: u64)
    requires leaf { cursor.old.tree ≡ tip }
    requires good { IsRedBlack (plugged cursor.old.path tip) }
    requires root { root ≡ link (shape (plugged cursor.old.path tip)) }
    requires steps { length cursor.old.path ≤ 64 }
    requires room { 0 < cursor.old.room }
    requires list { vec_len out.old + 9 ≤ vec_capacity out.old }
    ensures rows { rows cursor.new.tree
        ≡ rows (plugged cursor.old.path (branch true tip added tip)) }
    ensures balanced { IsRedBlack cursor.new.tree }
    ensures links { AddsLinks (λ i. i ≡ added.node) (copy_number copy)
        (plugged cursor.old.path tip) cursor.new.tree out.old out.new }
    ensures path { cursor.new.path ≡ [] }
    ensures room { cursor.new.room + 1 ≡ cursor.old.room }
    ensures few { vec_len out.new ≤ vec_len out.old + 9 }
    ensures capacity { vec_capacity out.new ≡ vec_capacity out.old }
{
    cursor.plant(added);
    out.push_reserved(Store {
        word: left_of(copy, added.node),
        value: 0,
    });
    out.push_reserved(Store {
        word: right_of(copy, added.node),
        value: 0,
    });
    // of the tree in hand: the links to it, whether it is red, and whether a child of it may be,
    // too
    let mut before = 0;
    let mut after = added.node as u64 + 1;
    let mut red = true;
    let mut clashes = false;
    while let Some(above) = cursor.above() {
        relink(out, copy, above.side, above.node, before, after);
        cursor.rise();
        if !red {
            break;
        }
        before = above.node as u64 + 1;
        if above.red {
            after = before;
            clashes = true;
        } else if clashes {
            mend(out, copy, cursor, above.side);
            after = cursor.link();
            red = cursor.is_red();
            clashes = false;
        } else {
            break;
        }
    }
    cursor.close_all();
    cursor.blacken();
    relink_root(out, copy, root, cursor.link());
}
