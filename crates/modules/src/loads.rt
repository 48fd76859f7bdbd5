//! What a load, an unload, and the end of a module's start change in the table.
//!
//! One item put in, or one taken out, is an update of its own; anything else is a batch. Whether an
//! update is one of these is told without memory.

ghost use Rattle.std.specs.Prelude.{◌≡◌, ◌≢◌, [], IfOk, Ok};
ghost use Rattle.std.specs.Prelude.{length, map};
ghost use Rattle.std.specs.Str.{bytes_eq};
ghost use Rattle.modules.specs.Loads.{GivesOrLacksMemory, is_erasing, is_inserting, item_of};
ghost use Rattle.modules.specs.Loads.{is_item_of, only_of, same_items, update_of};
ghost use Rattle.modules.specs.Starts.{starts_of};

use crate::lines::Part;
use crate::regions::Region;
use order_laws::{Item, Refusal};
use std::alloc::{AllocError, Global};
use table_updates::{Entries, Update};

/// The item of a region.
pub(crate) fn item_of(region: Region, number: u64) -> Item
    ensures { result ≡ item_of number region }
{
    Item {
        a: region.start(),
        b: region.end(),
        tag: number,
    }
}

/// The items of regions.
fn items_of(alloc: Global, regions: &[Region], number: u64) -> Result<Vec<Item>, AllocError>
    ensures { IfOk result (λ v. v.items ≡ map (item_of number) regions.now) }
{
    regions
        .iter()
        .map(|region| item_of(*region, number))
        .collect(alloc)
}

/// The batch that puts in several regions of a module.
#[tactic(auto, using(crate::proofs::LoadLemmas::many_given, crate::proofs::LoadLemmas::many_lacks))]
fn inserting_many(alloc: Global, regions: &[Region], number: u64) -> Result<Update, Refusal>
    requires { length regions.now ≢ 1 }
    ensures { GivesOrLacksMemory (Ok (update_of [] (map (item_of number) regions.now))) result }
{
    let items = items_of(alloc, regions, number)?;
    let erase = Entries::new(Vec::new(alloc))?;
    let insert = Entries::new(items)?;
    Ok(Update::Batch { erase, insert })
}

/// The update that puts in the regions of a module.
pub(crate) fn inserting(alloc: Global, regions: &[Region], number: u64) -> Result<Update, Refusal>
    ensures { GivesOrLacksMemory (Ok (update_of [] (map (item_of number) regions.now))) result }
{
    match regions {
        [region] => Ok(Update::Insert(item_of(*region, number))),
        _ => inserting_many(alloc, regions, number),
    }
}

/// The first addresses of the core regions, if `core` asks for them, and of the init regions,
/// if `init` does.
#[tactic(auto, using(crate::proofs::LoadLemmas::wanted_more, crate::proofs::LoadLemmas::other_more))]
fn starts_of(
    alloc: Global,
    regions: &[Region],
    parts: &[Part],
    core: bool,
    init: bool,
) -> Result<Vec<u64>, AllocError>
    requires { length parts.now ≡ length regions.now }
    ensures { IfOk result (λ v. v.items ≡ starts_of core init regions.now parts.now) }
{
    let mut starts = Vec::new(alloc);
    for (place, part) in parts.iter().enumerate() {
        if part.is_of(core, init) {
            starts.push(regions[place].start())?;
        }
    }
    Ok(starts)
}

/// The only one of these first addresses, if there is just one. It takes no memory.
fn only_start(regions: &[Region], parts: &[Part], core: bool, init: bool) -> Option<u64>
    requires { length parts.now ≡ length regions.now }
    ensures { result ≡ only_of (starts_of core init regions.now parts.now) }
{
    let mut count: usize = 0;
    let mut last = 0;
    for (place, part) in parts.iter().enumerate() {
        if part.is_of(core, init) {
            count += 1;
            last = regions[place].start();
        }
    }
    if count == 1 { Some(last) } else { None }
}

/// The update that takes out the core regions, if `core` asks for them, and the init regions,
/// if `init` does.
#[tactic(auto, using(crate::proofs::LoadLemmas::erase_batch))]
pub(crate) fn erasing(
    alloc: Global,
    regions: &[Region],
    parts: &[Part],
    core: bool,
    init: bool,
) -> Result<Update, Refusal>
    requires { length parts.now ≡ length regions.now }
    ensures { GivesOrLacksMemory
        (Ok (update_of (starts_of core init regions.now parts.now) [])) result }
{
    if let Some(start) = only_start(regions, parts, core, init) {
        return Ok(Update::Erase(start));
    }
    let starts = starts_of(alloc, regions, parts, core, init)?;
    Ok(Update::batch(alloc, starts.as_slice(), &[])?)
}

/// Whether the words are the first addresses of the regions that are asked for.
fn are_starts(words: &[u64], regions: &[Region], parts: &[Part], core: bool, init: bool) -> bool
    requires { length parts.now ≡ length regions.now }
    ensures { result ≡ bytes_eq (starts_of core init regions.now parts.now) words.now }
{
    let mut count: usize = 0;
    for (place, part) in parts.iter().enumerate() {
        if part.is_of(core, init) {
            if count == words.len() || words[count] != regions[place].start() {
                return false;
            }
            count += 1;
        }
    }
    count == words.len()
}

/// Whether the update is the one that takes out the regions that are asked for.
pub(crate) fn is_erasing(
    regions: &[Region],
    parts: &[Part],
    core: bool,
    init: bool,
    update: &Update,
) -> bool
    requires { length parts.now ≡ length regions.now }
    ensures { result ≡ is_erasing (starts_of core init regions.now parts.now) update.now }
{
    match update {
        Update::Insert(_) => false,
        Update::Erase(start) => are_starts(&[*start], regions, parts, core, init),
        Update::Batch { erase, insert } => {
            erase.as_slice().len() != 1
                && insert.as_slice().is_empty()
                && are_starts(erase.as_slice(), regions, parts, core, init)
        }
    }
}

/// Whether the item is the region's.
fn is_item_of(region: Region, number: u64, item: Item) -> bool
    ensures { result ≡ is_item_of number region item }
{
    item.a == region.start() && item.b == region.end() && item.tag == number
}

/// Whether the items are the regions'.
#[tactic(auto, using(crate::proofs::LoadLemmas::one_item_more))]
fn same_items(regions: &[Region], number: u64, items: &[Item]) -> bool
    ensures { result ≡ same_items number regions.now items.now }
{
    if regions.len() != items.len() {
        return false;
    }
    for (place, region) in regions.iter().enumerate() {
        if !is_item_of(*region, number, items[place]) {
            return false;
        }
    }
    true
}

/// Whether the update is the one that puts in the regions of a module.
pub(crate) fn is_inserting(regions: &[Region], number: u64, update: &Update) -> bool
    ensures { result ≡ is_inserting number regions.now update.now }
{
    match update {
        Update::Insert(item) => same_items(regions, number, &[*item]),
        Update::Erase(_) => false,
        Update::Batch { erase, insert } => {
            regions.len() != 1
                && erase.as_slice().is_empty()
                && same_items(regions, number, insert.as_slice())
        }
    }
}
