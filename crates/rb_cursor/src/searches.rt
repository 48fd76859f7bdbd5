//! Searches.

ghost use Rattle.std.specs.Prelude.{◌≡◌, ◌==◌, IsTrue, is_some};
ghost use Rattle.std.specs.List.{list_any};
ghost use Rattle.std.specs.List.Sorted.{IsNonDecreasing};
ghost use Rattle.rb_trees.specs.Erased.{first_word_at, found};
ghost use Rattle.rb_trees.specs.Found.{item_with_word, meets_anywhere, meets_on_the_way};

use crate::readings::Reading;
use order_laws::{Item, TreeOrder};

/// Whether some item has this first word, in a tree in the order of first words.
#[inline]
pub fn has(tree: &Reading<'_>, a: u64) -> bool
    ensures { result ≡ is_some (found (first_word_at a) tree.now) }
{
    let mut rest = tree.again();
    while let Some(fork) = rest.open() {
        let here = fork.node.item.a;
        if a == here {
            return true;
        }
        rest = if a < here { fork.left } else { fork.right };
    }
    false
}

/// An item of this first word; goes through all.
pub fn find_any(tree: &Reading<'_>, a: u64) -> Option<Item>
    ensures { result ≡ item_with_word a tree.now }
{
    match tree.open() {
        None => None,
        Some(fork) => {
            if fork.node.item.a == a {
                return Some(fork.node.item);
            }
            match find_any(&fork.left, a) {
                Some(item) => Some(item),
                None => find_any(&fork.right, a),
            }
        }
    }
}

// Whether a first word is among these, by halves if they are known to rise.
fn is_left_out(a: u64, but: &[u64], rising: bool) -> bool
    requires { IsTrue rising → IsNonDecreasing but.now }
    ensures { result ≡ list_any (λ x. x == a) but.now }
{
    if rising {
        but.binary_search(&a).is_ok()
    } else {
        but.contains(&a)
    }
}

/// Whether some item with none of the first words `but` is not apart from this one, in a tree in
/// which no item beyond one that is apart can meet it. If the words are `rising`, each item that is
/// met costs a search by halves among them.
pub fn meets<O: TreeOrder>(tree: &Reading<'_>, item: &Item, but: &[u64], rising: bool) -> bool
    requires { IsTrue rising → IsNonDecreasing but.now }
    ensures { result ≡ meets_on_the_way O.order item.now but.now tree.now }
{
    let mut rest = tree.again();
    while let Some(fork) = rest.open() {
        if !O::apart(&fork.node.item, item) {
            return !is_left_out(fork.node.item.a, but, rising)
                || meets::<O>(&fork.left, item, but, rising)
                || meets::<O>(&fork.right, item, but, rising);
        }
        rest = if O::less(item, &fork.node.item) {
            fork.left
        } else {
            fork.right
        };
    }
    false
}

/// Whether some item with none of the first words `but` is not apart from this one; goes through
/// all.
pub fn meets_any<O: TreeOrder>(tree: &Reading<'_>, item: &Item, but: &[u64], rising: bool) -> bool
    requires { IsTrue rising → IsNonDecreasing but.now }
    ensures { result ≡ meets_anywhere O.order item.now but.now tree.now }
{
    match tree.open() {
        None => false,
        Some(fork) => {
            let here = !is_left_out(fork.node.item.a, but, rising)
                && !O::apart(&fork.node.item, item);
            here || meets_any::<O>(&fork.left, item, but, rising)
                || meets_any::<O>(&fork.right, item, but, rising)
        }
    }
}
