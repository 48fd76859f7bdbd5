//! The store of a link, if it changed.

ghost use Rattle.std.specs.Prelude.{◌≡◌, vec_capacity};
ghost use Rattle.rb_trees.specs.Sides.{link_word};
ghost use Rattle.rb_trees.specs.Turns.{relink, relink_root};
ghost use Rattle.rb_cursor.specs.Stores.{Fits, Adds};
ghost use Rattle.word_layout.specs.Copies.{copy_number};

use rb_trees::Side;
use word_layout::places::{left_of, right_of, root_of};
use word_layout::{Store, TreeCopy};

/// The word of a node's link on a side.
#[inline(always)]
pub(crate) fn link_of(copy: TreeCopy, side: Side, node: u32) -> usize
    ensures { result ≡ link_word side (copy_number copy) node }
{
    match side {
        Side::Left => left_of(copy, node),
        Side::Right => right_of(copy, node),
    }
}

/// Stores the link of a node on a side, if it changed.
#[inline(always)]
pub(crate) fn relink(
    out: &mut Vec<Store>,
    copy: TreeCopy,
    side: Side,
    node: u32,
    before: u64,
    after: u64,
)
    requires { Fits out.old (relink side (copy_number copy) node before after) }
    ensures items { Adds out.old (relink side (copy_number copy) node before after) out.new }
    ensures capacity { vec_capacity out.new ≡ vec_capacity out.old }
{
    if before != after {
        out.push_reserved(Store {
            word: link_of(copy, side, node),
            value: after,
        });
    }
}

/// Stores the link of the root, if it changed.
#[inline(always)]
pub(crate) fn relink_root(out: &mut Vec<Store>, copy: TreeCopy, before: u64, after: u64)
    requires { Fits out.old (relink_root (copy_number copy) before after) }
    ensures items { Adds out.old (relink_root (copy_number copy) before after) out.new }
    ensures capacity { vec_capacity out.new ≡ vec_capacity out.old }
{
    if before != after {
        out.push_reserved(Store {
            word: root_of(copy),
            value: after,
        });
    }
}
