//! Whether some entries of a batch are not valid or clash, in few comparisons.
//!
//! Entries that clash are side by side in a sorted copy. If there is no memory for the copy,
//! and in an order in which items that clash need not be neighbours, each is compared with each.

ghost use Rattle.std.specs.Prelude.{◌≡◌, false, IsTrue, IfOk};
ghost use Rattle.std.specs.List.Sorted.{IsPermutation, IsNonDecreasing, IsNonDecreasingBy};
ghost use Rattle.order_laws.specs.declared.items.Item.{Item};
ghost use Rattle.order_laws.specs.Orders.{IsInLine};
ghost use Rattle.order_laws.specs.Tables.{meets};
ghost use Rattle.table_updates.specs.Updates.{some_twice, some_invalid, some_overlap};

use order_laws::{Item, TreeOrder};
use std::alloc::{AllocError, Global};

/// The numbers of a list in order.
pub fn in_order(alloc: Global, words: &[u64]) -> Result<Vec<u64>, AllocError>
    ensures permutation { IfOk result (λ sorted. IsPermutation words.now sorted.items) }
    ensures sorted { IfOk result (λ sorted. IsNonDecreasing sorted.items) }
{
    let mut sorted = Vec::new(alloc);
    sorted.extend_from_slice(words)?;
    sorted.sort_unstable();
    Ok(sorted)
}

/// Whether some item is not valid.
pub fn some_invalid<O: TreeOrder>(items: &[Item]) -> bool
    ensures { result ≡ some_invalid O.order items.now }
{
    items.iter().any(|i| !O::valid(i))
}

/// Whether some number is in the list twice. Only neighbours are compared if the list is
/// `rising`.
pub fn some_twice(words: &[u64], rising: bool) -> bool
    requires { IsTrue rising → IsNonDecreasing words.now }
    ensures { result ≡ some_twice words.now }
{
    if rising {
        has_equal_neighbours(words)
    } else {
        has_equal_entries(words)
    }
}

// Whether a sorted list has two equal neighbours, as it has if some number is in it twice.
#[tactic(auto, using(crate::proofs::ClashLemmas::twice_on))]
fn has_equal_neighbours(words: &[u64]) -> bool
    requires sorted { IsNonDecreasing words.now }
    ensures { result ≡ some_twice words.now }
{
    for place in 1..words.len() {
        if words[place] == words[place - 1] {
            return true;
        }
    }
    false
}

// Whether two entries of the list are equal.
fn has_equal_entries(words: &[u64]) -> bool
    ensures { result ≡ some_twice words.now }
{
    for (place, a) in words.iter().enumerate() {
        if words[place + 1..].contains(a) {
            return true;
        }
    }
    false
}

/// Whether two of some valid items are not apart.
pub fn some_overlap<O: TreeOrder>(alloc: Global, items: &[Item]) -> bool
    requires valid { some_invalid O.order items.now ≡ false }
    ensures { result ≡ some_overlap O.order items.now }
{
    if !O::in_line() {
        return has_overlapping_entries::<O>(items);
    }
    match by_first_word(alloc, items) {
        Ok(sorted) => has_overlapping_neighbours::<O>(sorted.as_slice()),
        Err(_) => has_overlapping_entries::<O>(items),
    }
}

// The items of a list in the order of their first words.
fn by_first_word(alloc: Global, items: &[Item]) -> Result<Vec<Item>, AllocError>
    ensures permutation { IfOk result (λ sorted. IsPermutation items.now sorted.items) }
    ensures sorted { IfOk result (λ sorted. IsNonDecreasingBy (λ (i : Item). i.a) sorted.items) }
{
    let mut sorted = Vec::new(alloc);
    sorted.extend_from_slice(items)?;
    sorted.sort_unstable_by_key(|i| i.a);
    Ok(sorted)
}

// Whether two neighbours are not apart in a list that is sorted by first words, as they are if
// any two items of it are not.
fn has_overlapping_neighbours<O: TreeOrder>(items: &[Item]) -> bool
    requires in_line { IsInLine O.order }
    requires valid { some_invalid O.order items.now ≡ false }
    requires sorted { IsNonDecreasingBy (λ (i : Item). i.a) items.now }
    ensures { result ≡ some_overlap O.order items.now }
{
    for place in 1..items.len() {
        if !O::apart(&items[place], &items[place - 1]) {
            return true;
        }
    }
    false
}

// Whether two items of the list are not apart.
fn has_overlapping_entries<O: TreeOrder>(items: &[Item]) -> bool
    ensures { result ≡ some_overlap O.order items.now }
{
    for (place, item) in items.iter().enumerate() {
        if meets::<O>(&items[place + 1..], item) {
            return true;
        }
    }
    false
}

// Whether some item of the list is not apart from this one.
fn meets<O: TreeOrder>(table: &[Item], item: &Item) -> bool
    ensures { result ≡ meets O.order item.now table.now }
{
    table.iter().any(|x| !O::apart(x, item))
}
