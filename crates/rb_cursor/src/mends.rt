//! A black node one of whose children is red with a red child is mended: it is recoloured with its
//! children, or turned (`rb_trees/specs/Inserted` has the drawings).

ghost use Rattle.std.specs.Prelude.{◌≡◌, ◌<◌, length, vec_capacity};
ghost use Rattle.rb_trees.specs.Inserted.{mended, mend_links};
ghost use Rattle.rb_cursor.specs.Tops.{red_over_black};
ghost use Rattle.rb_cursor.specs.Zippers.{altered};
ghost use Rattle.rb_cursor.specs.Stores.{Fits, Adds};
ghost use Rattle.word_layout.specs.Copies.{copy_number};

use crate::cursors::Cursor;
use crate::nodes::opposite;
use crate::relinks::relink;
use crate::turns::turn;
use rb_trees::{RedViolation, Side};
use word_layout::{Store, TreeCopy};

// Makes the node in hand red and its children black.
#[inline]
fn recolour(cursor: &mut Cursor)
    requires { length cursor.old.path < 64 }
    ensures { cursor.new ≡ altered red_over_black cursor.old }
{
    let Some(_) = cursor.open(Side::Left) else {
        return;
    };
    cursor.blacken();
    cursor.close(true);
    let Some(_) = cursor.open(Side::Right) else {
        unreachable!()
    };
    cursor.blacken();
    cursor.close(true);
}

// As `mend`; the compiler knows the side here, and leaves no choice by it.
#[inline(always)]
fn mend_on(out: &mut Vec<Store>, copy: TreeCopy, cursor: &mut Cursor, side: Side)
    requires steps { length cursor.old.path < 64 }
    requires list { Fits out.old (mend_links side (copy_number copy) cursor.old.tree) }
    ensures cursor { cursor.new ≡ altered (mended side) cursor.old }
    ensures items { Adds out.old (mend_links side (copy_number copy) cursor.old.tree) out.new }
    ensures capacity { vec_capacity out.new ≡ vec_capacity out.old }
{
    let Some(fork) = cursor.tree().open() else {
        return;
    };
    if fork.node.red {
        return;
    }
    let other = opposite(side);
    let other_red = fork.child(other).is_red();
    match fork.child(side).red_violation(side) {
        RedViolation::Nowhere => {}
        RedViolation::Outer => {
            if other_red {
                return recolour(cursor);
            }
            turn(out, copy, cursor, other, false, true);
        }
        RedViolation::Inner => {
            if other_red {
                return recolour(cursor);
            }
            let Some(node) = cursor.open(side) else {
                unreachable!()
            };
            let before = cursor.link();
            turn(out, copy, cursor, side, true, true);
            relink(out, copy, side, node.node, before, cursor.link());
            cursor.close(false);
            turn(out, copy, cursor, other, false, true);
        }
    }
}

/// Mends the node in hand, whose child on a side may be red with a red child.
#[inline]
pub(crate) fn mend(out: &mut Vec<Store>, copy: TreeCopy, cursor: &mut Cursor, side: Side)
    requires steps { length cursor.old.path < 64 }
    requires list { Fits out.old (mend_links side (copy_number copy) cursor.old.tree) }
    ensures cursor { cursor.new ≡ altered (mended side) cursor.old }
    ensures items { Adds out.old (mend_links side (copy_number copy) cursor.old.tree) out.new }
    ensures capacity { vec_capacity out.new ≡ vec_capacity out.old }
{
    match side {
        Side::Left => mend_on(out, copy, cursor, Side::Left),
        Side::Right => mend_on(out, copy, cursor, Side::Right),
    }
}
