//! A node one of whose subtrees has one black node less on each way down than the other is mended
//! by rotations (`rb_trees/specs/Erased` has the drawings).

ghost use Rattle.std.specs.Prelude.{◌≡◌, ◌+◌, ◌<◌, length, vec_capacity};
ghost use Rattle.rb_trees.specs.Erased.{lowered, filled, fill_links, filled_black};
ghost use Rattle.rb_trees.specs.Erased.{fill_links_black};
ghost use Rattle.rb_cursor.specs.Zippers.{holding};
ghost use Rattle.rb_cursor.specs.Stores.{Fits, Adds};
ghost use Rattle.word_layout.specs.Copies.{copy_number};

use crate::cursors::Cursor;
use crate::nodes::opposite;
use crate::relinks::relink;
use crate::turns::turn;
use rb_trees::Side;
use word_layout::{Store, TreeCopy};

/// Lets the tree in hand take the place of a node of this colour that had no other subtree: if the
/// node was black, the top becomes black. Returns whether the tree is one black node short then.
pub(crate) fn lower(cursor: &mut Cursor, red: bool) -> bool
    ensures short { result ≡ (lowered red cursor.old.tree).short }
    ensures cursor { cursor.new ≡ holding (lowered red cursor.old.tree).tree cursor.old }
{
    if red {
        return false;
    }
    let Some(top) = cursor.top() else {
        return true;
    };
    cursor.blacken();
    !top.red
}

// Mends the node in hand, whose subtree on a side is one black node short and whose other child is
// black. Returns whether the whole is one black node short then.
#[inline(always)]
fn fill_black(out: &mut Vec<Store>, copy: TreeCopy, cursor: &mut Cursor, side: Side) -> bool
    requires steps { length cursor.old.path < 64 }
    requires list { Fits out.old (fill_links_black side (copy_number copy) cursor.old.tree) }
    ensures short { result ≡ (filled_black side cursor.old.tree).short }
    ensures cursor { cursor.new ≡ holding (filled_black side cursor.old.tree).tree cursor.old }
    ensures items { Adds out.old
        (fill_links_black side (copy_number copy) cursor.old.tree) out.new }
    ensures capacity { vec_capacity out.new ≡ vec_capacity out.old }
{
    let other = opposite(side);
    let Some(fork) = cursor.tree().open() else {
        return false;
    };
    let Some(sibling) = fork.child(other).open() else {
        return false;
    };
    let red = fork.node.red;
    if sibling.child(other).is_red() {
        turn(out, copy, cursor, side, red, false);
        cursor.open(other);
        cursor.blacken();
        cursor.close(red);
        return false;
    }
    let inner_red = sibling.child(side).is_red();
    let Some(node) = cursor.open(other) else {
        unreachable!()
    };
    if inner_red {
        let before = cursor.link();
        turn(out, copy, cursor, other, false, false);
        relink(out, copy, other, node.node, before, cursor.link());
        cursor.close(red);
        turn(out, copy, cursor, side, red, false);
        return false;
    }
    cursor.redden();
    cursor.close(false);
    !red
}

// As `fill`; the compiler knows the side here, and leaves no choice by it.
#[inline(always)]
fn fill_on(out: &mut Vec<Store>, copy: TreeCopy, cursor: &mut Cursor, side: Side) -> bool
    requires steps { length cursor.old.path + 1 < 64 }
    requires list { Fits out.old (fill_links side (copy_number copy) cursor.old.tree) }
    ensures short { result ≡ (filled side cursor.old.tree).short }
    ensures cursor { cursor.new ≡ holding (filled side cursor.old.tree).tree cursor.old }
    ensures items { Adds out.old (fill_links side (copy_number copy) cursor.old.tree) out.new }
    ensures capacity { vec_capacity out.new ≡ vec_capacity out.old }
{
    let Some(fork) = cursor.tree().open() else {
        return false;
    };
    if !fork.child(opposite(side)).is_red() {
        return fill_black(out, copy, cursor, side);
    }
    turn(out, copy, cursor, side, false, true);
    let Some(top) = cursor.open(side) else {
        unreachable!()
    };
    let before = cursor.link();
    fill_black(out, copy, cursor, side);
    relink(out, copy, side, top.node, before, cursor.link());
    cursor.close(false);
    false
}

/// Mends the node in hand, whose subtree on a side is one black node short. Returns whether the
/// whole is one black node short then.
#[inline]
pub(crate) fn fill(out: &mut Vec<Store>, copy: TreeCopy, cursor: &mut Cursor, side: Side) -> bool
    requires steps { length cursor.old.path + 1 < 64 }
    requires list { Fits out.old (fill_links side (copy_number copy) cursor.old.tree) }
    ensures short { result ≡ (filled side cursor.old.tree).short }
    ensures cursor { cursor.new ≡ holding (filled side cursor.old.tree).tree cursor.old }
    ensures items { Adds out.old (fill_links side (copy_number copy) cursor.old.tree) out.new }
    ensures capacity { vec_capacity out.new ≡ vec_capacity out.old }
{
    match side {
        Side::Left => fill_on(out, copy, cursor, Side::Left),
        Side::Right => fill_on(out, copy, cursor, Side::Right),
    }
}
