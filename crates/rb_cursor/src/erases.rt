//! Erases.
//!
//! An erase goes down once to the node. If it has no right subtree, its left one takes its place;
//! else the next node in order does, the first of its right subtree, which is taken out there. If
//! the place lost a black node, the subtree there is short: each way down has one black node less
//! than it had. On the way up, the link to the subtree is stored if it changed, and a short one is
//! filled (`fills`). As soon as the subtree in hand has the link that it had and is not short,
//! nothing above changes any more, and the rest of the way is one jump.
//!
//!           50                     60                      60
//!          /  \                   /  \                    /  \
//!        20    80*    ->        20    80*      ->       20    80*
//!             /  \                   /  \                    /  \
//!           70    90               70    90                70    90
//!          /                      /
//!        60*                     .
//!
//! (A star marks a red node.) Of 50 the next node is 60, red, so nothing is short: 70 stores its
//! left link, which the jump up to 50 follows; 60 stores both of its new links; and the root's link
//! is stored last.

ghost use Rattle.std.specs.Prelude.{◌≡◌, ◌+◌, ◌<◌, ◌≤◌, [], true, None, IsSome, IfSome, List};
ghost use Rattle.std.specs.Prelude.{length, vec_len, vec_capacity};
ghost use Rattle.rb_trees.specs.Trees.{shape, depth, rows, IsRedBlack};
ghost use Rattle.rb_trees.specs.Erased.{found};
ghost use Rattle.rb_trees.specs.Replaced.{Nothing};
ghost use Rattle.rb_cursor.specs.Changes.{TakesOut, AddsLinks, TakesTop, TakesFirst, Climbs};
ghost use Rattle.rb_cursor.specs.Changes.{most_on_climb};
ghost use Rattle.rb_cursor.specs.Tops.{is_fork};
ghost use Rattle.rb_cursor.specs.Stores.{Adds};
ghost use Rattle.word_layout.specs.Copies.{copy_number};
ghost use Rattle.word_layout.specs.declared.stores.Store.{Store};

use crate::cursors::Cursor;
use crate::fills::{fill, lower};
use crate::probes::Probe;
use crate::relinks::{relink, relink_root};
use rb_trees::{Record, Side};
use word_layout::places::{left_of, right_of};
use word_layout::{Store, TreeCopy};

/// Takes the record that is sought out, if it is there. Returns it; with none, nothing changes.
#[inline]
pub fn erase<P: Probe>(
    out: &mut Vec<Store>,
    copy: TreeCopy,
    cursor: &mut Cursor,
    sought: &P,
) -> Option<Record>
    requires whole { cursor.old.path ≡ [] }
    requires good { IsRedBlack cursor.old.tree }
    requires steps { depth (shape cursor.old.tree) ≤ 64 }
    requires list { vec_len out.old + 13 ≤ vec_capacity out.old }
    ensures row { found (P.seen sought.now) cursor.old.tree ≡ result }
    ensures unchanged { result ≡ None →
        (cursor.new ≡ cursor.old) × (out.new.items ≡ out.old.items) }
    ensures rows { IfSome result (λ row.
        TakesOut row (rows cursor.old.tree) (rows cursor.new.tree)) }
    ensures balanced { IsRedBlack cursor.new.tree }
    ensures links { IsSome result → AddsLinks Nothing (copy_number copy) cursor.old.tree
        cursor.new.tree out.old out.new }
    ensures path { cursor.new.path ≡ [] }
    ensures room { IsSome result → cursor.new.room ≡ cursor.old.room + 1 }
    ensures few { vec_len out.new ≤ vec_len out.old + 13 }
    ensures capacity { vec_capacity out.new ≡ vec_capacity out.old }
{
    let root = cursor.link();
    cursor.seek(sought);
    let Some(row) = cursor.row() else {
        cursor.close_all();
        return None;
    };
    let short = take_node(out, copy, cursor);
    climb(out, copy, cursor, 0, row.node as u64 + 1, short);
    relink_root(out, copy, root, cursor.link());
    Some(row)
}

// Takes the node in hand out: the next node in order takes its place, or its left subtree if it has
// no right one. Returns whether the tree in hand is short then.
fn take_node(out: &mut Vec<Store>, copy: TreeCopy, cursor: &mut Cursor) -> bool
    requires fork { is_fork cursor.old.tree ≡ true }
    requires steps { depth (shape cursor.old.tree) + length cursor.old.path ≤ 64 }
    requires list { vec_len out.old + 13 ≤ vec_capacity out.old }
    ensures takes { (links : List Store) × Adds out.old links out.new
        × TakesTop (copy_number copy) cursor.old.tree cursor.new.tree result links }
    ensures path { cursor.new.path ≡ cursor.old.path }
    ensures room { cursor.new.room ≡ cursor.old.room + 1 }
    ensures capacity { vec_capacity out.new ≡ vec_capacity out.old }
{
    let Some(fork) = cursor.tree().open() else {
        unreachable!()
    };
    let red = fork.node.red;
    let left = fork.left.link();
    if fork.right.is_empty() {
        cursor.take_top();
        return lower(cursor, red);
    }
    let Some(_) = cursor.open(Side::Right) else {
        unreachable!()
    };
    let next = take_first(out, copy, cursor);
    let right = cursor.link();
    cursor.close(red);
    cursor.set_row(next.row);
    out.push_reserved(Store {
        word: left_of(copy, next.row.node),
        value: left,
    });
    out.push_reserved(Store {
        word: right_of(copy, next.row.node),
        value: right,
    });
    if next.short {
        return fill(out, copy, cursor, Side::Right);
    }
    false
}

// The first record of a tree that it lost, and whether what is left is short.
#[derive(Drop)]
struct TakenFirst {
    row: Record,
    short: bool,
}

// Takes the first node out of the tree in hand.
fn take_first(out: &mut Vec<Store>, copy: TreeCopy, cursor: &mut Cursor) -> TakenFirst
    requires fork { is_fork cursor.old.tree ≡ true }
    requires steps { depth (shape cursor.old.tree) + length cursor.old.path ≤ 64 }
    requires list { vec_len out.old + 10 ≤ vec_capacity out.old }
    ensures takes { (links : List Store) × Adds out.old links out.new
        × TakesFirst (copy_number copy) cursor.old.tree cursor.new.tree result.row result.short
        links }
    ensures path { cursor.new.path ≡ cursor.old.path }
    ensures room { cursor.new.room ≡ cursor.old.room + 1 }
    ensures capacity { vec_capacity out.new ≡ vec_capacity out.old }
{
    let depth = cursor.depth();
    cursor.seek_first();
    let Some(row) = cursor.row() else {
        unreachable!()
    };
    let red = cursor.is_red();
    cursor.take_top();
    let short = lower(cursor, red);
    let short = climb(out, copy, cursor, depth, row.node as u64 + 1, short);
    TakenFirst { row, short }
}

// Goes up until `depth` nodes are above, from a subtree that may be short and to which the link was
// `before`. Returns whether what is in hand then is short.
#[inline(always)]
fn climb(
    out: &mut Vec<Store>,
    copy: TreeCopy,
    cursor: &mut Cursor,
    depth: usize,
    before: u64,
    short: bool,
) -> bool
    requires steps { length cursor.old.path < 64 }
    requires list { vec_len out.old + most_on_climb short ≤ vec_capacity out.old }
    ensures climbs { (links : List Store) × Adds out.old links out.new
        × Climbs (copy_number copy) depth before short cursor.old cursor.new result links }
    ensures room { cursor.new.room ≡ cursor.old.room }
    ensures capacity { vec_capacity out.new ≡ vec_capacity out.old }
{
    let mut before = before;
    let mut after = cursor.link();
    let mut short = short;
    while cursor.depth() > depth {
        let Some(above) = cursor.above() else {
            unreachable!()
        };
        relink(out, copy, above.side, above.node, before, after);
        cursor.rise();
        if !short {
            break;
        }
        short = fill(out, copy, cursor, above.side);
        before = above.node as u64 + 1;
        after = cursor.link();
    }
    cursor.close_to(depth);
    short
}
