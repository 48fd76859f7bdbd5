//! The table of a catalog: every region, loaded into a world, and the items that hold addresses.
ghost use Rattle.std.specs.Prelude.{◌≡◌, ◌+◌, ◌≤◌, List, length, map, IfOk, IfErr};
ghost use Rattle.order_laws.specs.declared.items.Item.{Item};
ghost use Rattle.modules.specs.Items.{items_of};
ghost use Rattle.command_tables.specs.CatalogTables.{answer_at, answer_in, HasFewRegions, HasTable};
ghost use Rattle.command_tables.specs.CatalogTables.{HoldsBelow, IsRefusedFor};

use latch_steps::{Event, Reply, World};
use listing::AddressRule;
use modules::{Catalog, Held};
use order_laws::{HalfOpen, Item, Refusal};
use std::alloc::Global;
use word_layout::Layout;

/// An address, and the item that holds the one that is looked up for it.
#[derive(Clone, Copy, Debug, Drop)]
pub struct AddressAnswer {
    pub addr: u64,
    pub item: Option<Item>,
}

/// Looks each address up, as the rule takes it, in the table of all regions of a catalog.
///
/// Refused by [`Refusal::BadCapacity`] if there are more regions than a table has nodes, and by
/// [`Refusal::OutOfMemory`].
pub fn answers_of(
    alloc: Global,
    catalog: &Catalog,
    rule: AddressRule,
    addresses: &[u64],
) -> Result<Vec<AddressAnswer>, Refusal>
    ensures answers { IfOk result (λ v. v.items ≡ map (answer_at catalog.now rule) addresses.now) }
    ensures fits { IfOk result (λ _. HasFewRegions catalog.now) }
    ensures refusal { IfErr result (IsRefusedFor catalog.now) }
{
    let mut world = open_for(alloc, catalog)?;
    load_all(&mut world, catalog)?;
    let mut answers = Vec::with_capacity(alloc, addresses.len())?;
    for addr in addresses {
        let answer = look_up(&mut world, rule, *addr)?;
        answers.push(answer)?;
    }
    Ok(answers)
}

/// A world with a node for each region of the catalog, and with at least one.
fn open_for(alloc: Global, catalog: &Catalog) -> Result<World<HalfOpen>, Refusal>
    ensures holds { IfOk result (HoldsBelow catalog.now 0) }
    ensures fits { IfOk result (λ _. HasFewRegions catalog.now) }
    ensures refusal { IfErr result (IsRefusedFor catalog.now) }
{
    catalog.stays_sound();
    let Ok(nodes) = u32::try_from(catalog.regions().max(1)) else {
        return Err(Refusal::BadCapacity);
    };
    World::open(alloc, Layout::wide(nodes)?, 0)
}

/// Loads the kernel itself, and then the modules by their numbers.
fn load_all(world: &mut World<HalfOpen>, catalog: &Catalog) -> Result<(), Refusal>
    requires { HoldsBelow catalog.now 0 world.old }
    ensures holds { IfOk result (λ _. HasTable (items_of catalog.now) world.new) }
    ensures refusal { IfErr result (λ e. e ≡ Refusal.OutOfMemory) }
{
    for number in 0..=catalog.len() {
        load(world, catalog, number)?;
    }
    Ok(())
}

/// Loads the module of this number, if there is one, up to the end of the update.
fn load(world: &mut World<HalfOpen>, catalog: &Catalog, number: u64) -> Result<(), Refusal>
    requires modules { number ≤ length catalog.now.modules }
    requires holds { HoldsBelow catalog.now number world.old }
    ensures holds { IfOk result (λ _. HoldsBelow catalog.now (number + 1) world.new) }
    ensures refusal { IfErr result (λ e. e ≡ Refusal.OutOfMemory) }
{
    if catalog.module(number).is_none() {
        return Ok(());
    }
    let none_held = Held {
        core: false,
        init: false,
    };
    let update = catalog.load(number, none_held)?;
    if let Reply::Refused(why) = world.step(Event::Begin(update)) {
        return Err(why);
    }
    world.settle();
    Ok(())
}

/// Looks one address up, as the rule takes it. No step of the writer comes between, so the first
/// attempt returns.
fn look_up(
    world: &mut World<HalfOpen>,
    rule: AddressRule,
    addr: u64,
) -> Result<AddressAnswer, Refusal>
    ensures found { (items : List Item) → HasTable items world.old
        → IfOk result (λ a. a ≡ answer_in items rule addr) }
    ensures holds { (items : List Item) → HasTable items world.old
        → IfOk result (λ _. HasTable items world.new) }
    ensures refusal { (items : List Item) → HasTable items world.old
        → IfErr result (λ e. e ≡ Refusal.OutOfMemory) }
{
    let Some(place) = rule.place_of(addr) else {
        return Ok(AddressAnswer { addr, item: None });
    };
    let found = world.find_now(0, place)?;
    Ok(AddressAnswer {
        addr,
        item: found.answer,
    })
}
