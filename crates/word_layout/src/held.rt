//! What a copy holds, found by walking all of its tree: a plain slow program, for tests.

ghost use Rattle.std.specs.Prelude.{◌≡◌, ◌<◌, ◌≤◌, ◌+◌, ◌++◌, List, length, IfOk, IfSome, IfNone};
ghost use Rattle.order_laws.specs.declared.items.Item.{Item};
ghost use Rattle.word_layout.specs.Copies.{copy_number};
ghost use Rattle.word_layout.specs.Layouts.{capacity_of};
ghost use Rattle.word_layout.specs.Words.{words_for, Nodes, listed, items, Leads, HoldsTable};

use crate::layouts::Layout;
use crate::places::{TreeCopy, a_of, b_of, left_of, right_of, root_of, tag_of};
use order_laws::Item;
use std::alloc::{AllocError, Global};

/// The items that a copy holds, from left to right in its tree; none if its links lead to no
/// tree, or to one of more nodes than there are.
pub fn held_in(
    alloc: Global,
    l: Layout,
    copy: TreeCopy,
    words: &[u64],
) -> Result<Option<Vec<Item>>, AllocError>
    requires { length words.now ≡ words_for (capacity_of l) }
    ensures held { IfOk result (λ held. IfSome held (λ table.
        HoldsTable words.now (capacity_of l) (copy_number copy) table.items)) }
    ensures none { IfOk result (λ held. IfNone held (
        (table : List Item) → HoldsTable words.now (capacity_of l) (copy_number copy) table →
        capacity_of l < length table)) }
{
    let mut found = Vec::new(alloc);
    let root = words[root_of(copy)];
    match walk(l, copy, words, root, l.capacity(), &mut found)? {
        Some(_) => Ok(Some(found)),
        None => Ok(None),
    }
}

// Appends the items of the tree that a link leads to, and returns how many of `left` visits are
// left; none if there is no such tree of at most `left` nodes.
fn walk(
    l: Layout,
    copy: TreeCopy,
    words: &[u64],
    link: u64,
    left: u32,
    found: &mut Vec<Item>,
) -> Result<Option<u32>, AllocError>
    requires { length words.now ≡ words_for (capacity_of l) }
    ensures tree { IfOk result (λ r. IfSome r (λ rest.
        (t : Nodes) × Leads words.now (capacity_of l) (copy_number copy) link t
        × (found.new.items ≡ found.old.items ++ items words.now t)
        × (rest + length (listed t) ≡ left))) }
    ensures none { IfOk result (λ r. IfNone r (
        (t : Nodes) → Leads words.now (capacity_of l) (copy_number copy) link t →
        left < length (listed t))) }
    ensures fewer { IfOk result (λ r. IfSome r (λ rest. rest ≤ left)) }
{
    if link == 0 {
        return Ok(Some(left));
    }
    if link > l.capacity() as u64 || left == 0 {
        return Ok(None);
    }
    let node = (link - 1) as u32;
    let less = words[left_of(copy, node)];
    let Some(rest) = walk(l, copy, words, less, left - 1, found)? else {
        return Ok(None);
    };
    found.push(Item {
        a: words[a_of(node)],
        b: words[b_of(node)],
        tag: words[tag_of(node)],
    })?;
    walk(l, copy, words, words[right_of(copy, node)], rest, found)
}
