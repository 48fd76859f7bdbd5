//! Whether an address of a log may also go by the name of another symbol at the address of its
//! answer's symbol.
//!
//! Mostly the name is the answer's, so it is compared with that first.
ghost use Rattle.std.specs.Prelude.{◌≡◌, ◌≤◌, ◌<◌, true};
ghost use Rattle.modules.specs.AtAddress.{lists_symbol};
ghost use Rattle.command_listings.specs.LogAnswers.{is_alias_in};

use modules::{Catalog, Module, Symbol, symbol_in};
use order_laws::Item;

/// Whether the symbol that the address belongs to, or another one at its address, has the name.
#[tactic(auto, using(modules::proofs::AtAddressLemmas::found_is_listed))]
pub fn is_alias_in(catalog: &Catalog, item: Item, addr: u64, name: &[u8]) -> bool
    requires from { item.a ≤ addr }
    requires below { addr < item.b }
    ensures { result ≡ is_alias_in catalog.now item addr name.now }
{
    let Some(module) = catalog.module(item.tag) else {
        return false;
    };
    match symbol_in(module, item.a, item.b, addr) {
        Some(found) => is_alias_of(module, found.symbol, name),
        None => false,
    }
}

/// Whether a symbol of a module, or another one at its address, has the name.
#[tactic(auto, using(crate::proofs::AliasLemmas::named_so))]
fn is_alias_of(module: &Module, symbol: &Symbol, name: &[u8]) -> bool
    requires { lists_symbol module.now.symbols symbol.now.addr symbol.now.name ≡ true }
    ensures { result ≡ lists_symbol module.now.symbols symbol.now.addr name.now }
{
    symbol.name() == name || module.lists(symbol.addr, name)
}
