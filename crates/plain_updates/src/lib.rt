//! The definitions of updates as plain, slow programs, which tests compare with.
//!
//! ```text
//!     table, update --refusal_for--> why it is refused, if it is
//!                   --after--------> the table after it
//! ```
//!
//! Each contract is the definition, and each loop goes through a whole list.
#![tactic(auto)]

ghost use Rattle.std.specs.Prelude.{◌≡◌, ◌+◌, None, Some, if◌then◌else◌, nat_lt, IfOk};
ghost use Rattle.order_laws.specs.Tables.{has, meets, without_all};
ghost use Rattle.word_layout.specs.Layouts.{capacity_of, limit_of};
ghost use Rattle.table_updates.specs.Updates.{failed_test, refusal_for, some_invalid, some_missing};
ghost use Rattle.table_updates.specs.Updates.{some_twice, cannot_erase};
ghost use Rattle.table_updates.specs.Updates.{some_overlap, some_meet, cannot_insert, with_items};
ghost use Rattle.table_updates.specs.Updates.{after};

use order_laws::tables::{with_item, without};
use order_laws::{Item, Refusal, TreeOrder};
use std::alloc::{AllocError, Global};
use table_updates::Update;
use word_layout::Layout;

/// Why an update of a table is refused, if it is.
#[tactic(auto, using(crate::proofs::TestLemmas::none_then, crate::proofs::TestLemmas::some_then))]
pub fn refusal_for<O: TreeOrder>(
    l: Layout,
    in_hand: bool,
    table: &[Item],
    sequence: u64,
    u: &Update,
) -> Option<Refusal>
    ensures { result
        ≡ refusal_for O.order (capacity_of l) (limit_of l) in_hand table.now sequence u.now }
{
    if in_hand {
        return Some(Refusal::UpdateInHand);
    }
    if let Some(refusal) = failed_test::<O>(l, table, u) {
        return Some(refusal);
    }
    if is_spent(l, sequence) {
        return Some(Refusal::SequenceSpent);
    }
    None
}

// Whether two flips more would pass the layout's greatest sequence.
fn is_spent(l: Layout, sequence: u64) -> bool
    ensures { result ≡ nat_lt (limit_of l) (sequence + 2) }
{
    sequence > l.limit() - 2
}

// The first test of an update of a table that fails, by its refusal.
fn failed_test<O: TreeOrder>(l: Layout, table: &[Item], u: &Update) -> Option<Refusal>
    ensures { result ≡ failed_test O.order (capacity_of l) table.now u.now }
{
    match u {
        Update::Insert(item) => insert_test::<O>(l, table, item),
        Update::Erase(a) => erase_test(table, *a),
        Update::Batch { erase, insert } => {
            batch_test::<O>(l, table, erase.as_slice(), insert.as_slice())
        }
    }
}

// Why an item is not to be inserted, if it is not.
fn insert_test<O: TreeOrder>(l: Layout, table: &[Item], item: &Item) -> Option<Refusal>
    ensures { result ≡ failed_test O.order (capacity_of l) table.now (Update.Insert item.now) }
{
    if !O::valid(item) {
        Some(Refusal::BadItem)
    } else if meets::<O>(table, item) {
        Some(Refusal::Overlap)
    } else if table.len() == l.capacity() as usize {
        Some(Refusal::Full)
    } else {
        None
    }
}

// Why a first word is not to be erased, if it is not.
fn erase_test(table: &[Item], a: u64) -> Option<Refusal>
    ensures { result ≡ if has a table.now then None else Some Refusal.NoSuchItem }
{
    if has(table, a) {
        None
    } else {
        Some(Refusal::NoSuchItem)
    }
}

// Why a batch is not to be carried out, if it is not.
fn batch_test<O: TreeOrder>(
    l: Layout,
    table: &[Item],
    erase: &[u64],
    insert: &[Item],
) -> Option<Refusal>
    ensures { result
        ≡ failed_test O.order (capacity_of l) table.now (Update.Batch erase.now insert.now) }
{
    if some_invalid::<O>(insert) {
        Some(Refusal::BadItem)
    } else if cannot_erase(table, erase) {
        Some(Refusal::NoSuchItem)
    } else if cannot_insert::<O>(table, erase, insert) {
        Some(Refusal::Overlap)
    } else if table.len() + insert.len() > l.capacity() as usize {
        Some(Refusal::Full)
    } else {
        None
    }
}

// Whether some first word is in no item of the table or is named twice.
fn cannot_erase(table: &[Item], erase: &[u64]) -> bool
    ensures { result ≡ cannot_erase erase.now table.now }
{
    some_missing(table, erase) || some_twice(erase)
}

// Whether two of the items are not apart, or one of them and an item of the table that stays.
fn cannot_insert<O: TreeOrder>(table: &[Item], erase: &[u64], insert: &[Item]) -> bool
    ensures { result ≡ cannot_insert O.order erase.now insert.now table.now }
{
    some_overlap::<O>(insert) || some_meet::<O>(table, erase, insert)
}

// Whether some item is not valid.
fn some_invalid<O: TreeOrder>(items: &[Item]) -> bool
    ensures { result ≡ some_invalid O.order items.now }
{
    items.iter().any(|i| !O::valid(i))
}

// Whether some first word is in no item of the table.
fn some_missing(table: &[Item], words: &[u64]) -> bool
    ensures { result ≡ some_missing words.now table.now }
{
    words.iter().any(|a| !has(table, *a))
}

// Whether some number is in the list twice.
fn some_twice(words: &[u64]) -> bool
    ensures { result ≡ some_twice words.now }
{
    for (place, a) in words.iter().enumerate() {
        if words[place + 1..].contains(a) {
            return true;
        }
    }
    false
}

// Whether two items of the list are not apart.
fn some_overlap<O: TreeOrder>(items: &[Item]) -> bool
    ensures { result ≡ some_overlap O.order items.now }
{
    for (place, item) in items.iter().enumerate() {
        if meets::<O>(&items[place + 1..], item) {
            return true;
        }
    }
    false
}

// Whether one of the items is not apart from an item of the table that has none of the first words
// `but`.
fn some_meet<O: TreeOrder>(table: &[Item], but: &[u64], items: &[Item]) -> bool
    ensures { result ≡ some_meet O.order items.now (without_all but.now table.now) }
{
    items.iter().any(|item| meets_beside::<O>(table, but, item))
}

// Whether some item that has none of the first words `but` is not apart from this one.
fn meets_beside<O: TreeOrder>(table: &[Item], but: &[u64], item: &Item) -> bool
    ensures { result ≡ meets O.order item.now (without_all but.now table.now) }
{
    for x in table {
        if !but.contains(&x.a) && !O::apart(x, item) {
            return true;
        }
    }
    false
}

// Whether some item of the list has this first word.
fn has(table: &[Item], a: u64) -> bool
    ensures { result ≡ has a table.now }
{
    table.iter().any(|x| x.a == a)
}

// Whether some item of the list is not apart from this one.
fn meets<O: TreeOrder>(table: &[Item], item: &Item) -> bool
    ensures { result ≡ meets O.order item.now table.now }
{
    for x in table {
        if !O::apart(x, item) {
            return true;
        }
    }
    false
}

/// The table after an update.
#[tactic(auto, using(crate::proofs::TestLemmas::without_few))]
pub fn after<O: TreeOrder>(
    alloc: Global,
    table: &[Item],
    u: &Update,
) -> Result<Vec<Item>, AllocError>
    ensures { IfOk result (λ new. new.items ≡ after O.order table.now u.now) }
{
    match u {
        Update::Insert(item) => with_item::<O>(alloc, table, *item),
        Update::Erase(a) => without(alloc, table, *a),
        Update::Batch { erase, insert } => {
            changed::<O>(alloc, table, erase.as_slice(), insert.as_slice())
        }
    }
}

// The table without the items of these first words, and with these items.
fn changed<O: TreeOrder>(
    alloc: Global,
    table: &[Item],
    erase: &[u64],
    insert: &[Item],
) -> Result<Vec<Item>, AllocError>
    ensures { IfOk result (λ new. new.items
        ≡ with_items O.order insert.now (without_all erase.now table.now)) }
{
    let mut new = without_all(alloc, table, erase)?;
    for item in insert {
        new = with_item::<O>(alloc, new.as_slice(), *item)?;
    }
    Ok(new)
}

// The table without the items of these first words.
fn without_all(alloc: Global, table: &[Item], gone: &[u64]) -> Result<Vec<Item>, AllocError>
    ensures { IfOk result (λ rest. rest.items ≡ without_all gone.now table.now) }
{
    table
        .iter()
        .copied()
        .filter(|x| !gone.contains(&x.a))
        .collect(alloc)
}
