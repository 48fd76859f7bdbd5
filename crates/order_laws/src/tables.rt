//! Plain slow programs beside the definitions of tables, for tests that compare a whole table.

ghost use Rattle.std.specs.Prelude.{◌≡◌, IfOk};
ghost use Rattle.order_laws.specs.Tables.{with_item, without, place_for};

use crate::items::Item;
use crate::orders::TreeOrder;
use std::alloc::{AllocError, Global};

/// The table with one item more, before the first item that it is less than.
pub fn with_item<O: TreeOrder>(
    alloc: Global,
    table: &[Item],
    item: Item,
) -> Result<Vec<Item>, AllocError>
    ensures { IfOk result (λ all. all.items ≡ with_item O.order item table.now) }
{
    let mut all = table.to_vec(alloc)?;
    all.insert(place_for::<O>(table, &item), item)?;
    Ok(all)
}

/// The table without the item of a first word.
pub fn without(alloc: Global, table: &[Item], a: u64) -> Result<Vec<Item>, AllocError>
    ensures { IfOk result (λ rest. rest.items ≡ without a table.now) }
{
    table.iter().copied().filter(|x| x.a != a).collect(alloc)
}

// The index of the first item that this one is less than, or the table's length.
fn place_for<O: TreeOrder>(table: &[Item], item: &Item) -> usize
    ensures { result ≡ place_for O.order item.now table.now }
{
    for (place, x) in table.iter().enumerate() {
        if O::less(item, x) {
            return place;
        }
    }
    table.len()
}
