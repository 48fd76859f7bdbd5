//! Rotations, with their stores.

ghost use Rattle.std.specs.Prelude.{◌≡◌, vec_capacity};
ghost use Rattle.rb_trees.specs.Turns.{turned, turn_links};
ghost use Rattle.rb_cursor.specs.Zippers.{altered};
ghost use Rattle.rb_cursor.specs.Stores.{Fits, Adds};
ghost use Rattle.word_layout.specs.Copies.{copy_number};

use crate::cursors::Cursor;
use crate::nodes::opposite;
use crate::relinks::link_of;
use rb_trees::Side;
use word_layout::{Store, TreeCopy};

/// Puts the child on the other side of the node in hand in its place, and the node on this side of
/// it. The child gets the first colour, the node the second.
#[inline(always)]
pub(crate) fn turn(
    out: &mut Vec<Store>,
    copy: TreeCopy,
    cursor: &mut Cursor,
    side: Side,
    child_red: bool,
    node_red: bool,
)
    requires { Fits out.old (turn_links side (copy_number copy) cursor.old.tree) }
    ensures cursor { cursor.new ≡ altered (turned side child_red node_red) cursor.old }
    ensures items { Adds out.old (turn_links side (copy_number copy) cursor.old.tree) out.new }
    ensures capacity { vec_capacity out.new ≡ vec_capacity out.old }
{
    let Some(node) = cursor.tree().open() else {
        return;
    };
    let Some(child) = node.child(opposite(side)).open() else {
        return;
    };
    out.push_reserved(Store {
        word: link_of(copy, opposite(side), node.node.node),
        value: child.child(side).link(),
    });
    out.push_reserved(Store {
        word: link_of(copy, side, child.node.node),
        value: node.node.node as u64 + 1,
    });
    cursor.turn(side, child_red, node_red);
}
