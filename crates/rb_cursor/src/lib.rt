//! The writer's red-black tree in a slab, with a cursor: a place in the tree from which it is read
//! and changed.
//!
//! A caller makes room first; then it changes the tree, and makes the stores that the change
//! appended, in turn (`rb_words` does this for a copy of a latched tree):
//!
//! ```text
//! let mut cursor = Cursor::new(alloc);       // no nodes, and no memory taken
//! let mut stores = Vec::new(alloc);
//! cursor.reserve(1)?;                        // an insert plants one node
//! stores.reserve(13)?;                       // an insert appends at most 9 stores, an erase 13
//!
//! // the item is valid and meets none; its words are in the node already
//! insert::<Closed>(&mut stores, TreeCopy::Zero, &mut cursor, Record { node, item });
//! for store in &stores {
//!     apply(words, *store);
//! }
//! let found = has(&cursor.tree(), item.a);    // true
//!
//! stores.clear();
//! if let Some(row) = erase(&mut stores, TreeCopy::Zero, &mut cursor, &WordProbe(item.a)) {
//!     // row.node is free after these stores
//! }
//! ```
//!
//! These are the cases of an insert and of an erase, with their numbers in lib/rbtree.c of Linux,
//! and the functions that have them. A star marks a red node. `side` chooses between a case and its
//! mirror image. `turns::turn` turns a node; `relinks::relink` stores the link to it if it changed.
//!
//! ```text
//! INSERT: the new leaf n is red, its parent p; above p is g, whose other child is u
//!           n is the root: it becomes black                               inserts::grow
//!           p is black: nothing more to do                                inserts::grow
//!   Case 1  u is red: p and u become black, g red, and g is the next n    mends::recolour
//!   Case 2  u is black, n is inner: p is turned, and then as case 3       mends::mend_on (Inner)
//!   Case 3  u is black, n is outer: g is turned                           mends::mend_on (Outer)
//!
//!          g             g*              g             g               g            p
//!         / \           / \             / \           / \             / \          / \
//!   1:   p*  u*  ->    p   u      2:   p*  u   ->    n*  u      3:   p*  u   ->   n*  g*
//!       /             /                 \           /               /                  \
//!      n*            n*                  n*        p*              n*                   u
//!
//! ERASE: n goes                                                           erases::take_node
//!   Case 1  n has no right subtree: its left one takes its place
//!   Case 2  the right child is the next node: it takes the place of n     with take_first
//!           (rbtree.c has this in case 1 if there is no left subtree)
//!   Case 3  the next node is below the right child: it does, too          with take_first
//!           a black node left its place to a red child: this turns black  fills::lower
//!
//! FILL: n is short of a black node, its parent is p, the other child s has l (inner) and r (outer)
//!   Case 1  s is red: p is turned; with l for s, one of the cases below   fills::fill_on
//!   Case 2  l and r are black: s becomes red, and p black; if p was       fills::fill_black
//!           black, p is the next n                                        erases::climb
//!   Case 3  l is red, r is black: s is turned, and then p, as in case 4   fills::fill_black
//!   Case 4  r is red: p is turned; s gets the colour of p, p and r black  fills::fill_black
//!
//!        p            s             p         p            p         p          p           s
//!       / \          / \           / \       / \          / \       / \        / \         / \
//!   1: n   s*  ->   p*  r      2: n   s ->  n   s*    3: n   s ->  n   l   4: n   s  ->   p   r
//!         / \      / \                                      / \         \        / \     / \
//!        l   r    n   l                                    l*  r         s      l   r*  n   l
//! ```
#![tactic(auto)]

pub mod cursors;
pub mod erases;
mod fills;
pub mod inserts;
mod mends;
pub mod nodes;
pub mod probes;
pub mod readings;
mod relinks;
pub mod searches;
pub mod seeks;
mod turns;

pub use cursors::Cursor;
pub use nodes::{Nearest, Node, Top};
pub use readings::Reading;
