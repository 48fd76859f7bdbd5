//! The second copy's plan, made from the first's.
//!
//! Both copies hold their table in trees of one form, so that a writer keeps one
//! [`Shape`](crate::Shape), of copy 0, and plans a change once. The links of copy 1 lie beside
//! the ones of copy 0:
//!
//! ```text
//!   word     1      2      ..   3+7i  4+7i  5+7i   6+7i   7+7i   8+7i   9+7i
//!          root 0  root 1         a     b    tag   left   right  left   right
//!            |______^                                |______|______^      ^
//!                                                           |_____________|
//! ```

ghost use Rattle.std.specs.Prelude.{◌≡◌, ◌+◌, ◌≤◌, ◌++◌, ◌<◌, ◌^◌, length, vec_len, vec_capacity};
ghost use Rattle.word_layout.specs.Layouts.{capacity_of};
ghost use Rattle.word_layout.specs.Stores.{AreLinkStores};
ghost use Rattle.rb_words.specs.Pictures.{Picture, IsPicture};
ghost use Rattle.rb_words.specs.Mirrors.{mirror_stores, mirror_store, second_picture};
ghost use Rattle.rb_words.specs.Mirrors.{AreInsertsMirrored, ArePlansWithItemMirrored};
ghost use Rattle.rb_words.specs.Mirrors.{AreErasesMirrored, ArePlansByLinksMirrored};

use order_laws::TreeOrder;
use word_layout::{Layout, Store};

/// Appends for each of these stores of copy 0's root and links the store of its value in copy
/// 1. Takes no memory.
pub fn mirrored(l: Layout, links: &[Store], out: &mut Vec<Store>)
    requires first_copy { AreLinkStores (capacity_of l) 0 links.now }
    requires room { vec_len out.old + length links.now ≤ vec_capacity out.old }
    ensures items { out.new.items ≡ out.old.items ++ mirror_stores links.now }
    ensures len { vec_len out.new ≡ vec_len out.old + length links.now }
    ensures capacity { vec_capacity out.new ≡ vec_capacity out.old }
{
    for link in links {
        out.push_reserved(mirror_store(*link));
    }
}

/// The store of copy 1 for one of copy 0.
#[inline(always)]
pub fn mirror_store(link: Store) -> Store
    requires { link.word + 2 < 2 ^ 64 }
    ensures { result ≡ mirror_store link }
{
    let word = if link.word == 1 { 2 } else { link.word + 2 };
    Store {
        word,
        value: link.value,
    }
}

/// What a change is in copy 0, the mirrored change is in copy 1: its item goes in or out, at its
/// place, and the mirrored links lead copy 1 as the links lead copy 0.
pub fn a_change_is_mirrored<O: TreeOrder>()
    ensures sound { (p : Picture) → IsPicture O.order p → IsPicture O.order (second_picture p) }
    ensures inserts { (old new : Picture) → AreInsertsMirrored O.order old new }
    ensures with_item { (old new : Picture) → ArePlansWithItemMirrored O.order old new }
    ensures erases { (old new : Picture) → AreErasesMirrored old new }
    ensures by_links { (old new : Picture) → ArePlansByLinksMirrored old new }
{}
