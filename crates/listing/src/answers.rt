//! What is known of an address, and its text.

ghost use Rattle.std.specs.Prelude.{◌≡◌, ◌+◌, ◌^◌, ◌≤◌, ◌<◌, IfSome};
ghost use Rattle.std.specs.Option.{option_copied};
ghost use Rattle.texts.specs.Output.{Says};
ghost use Rattle.listing.specs.Answers.{answer_of, farther, held_answer, held_at, is_nothing, owner_text};
ghost use Rattle.listing.specs.Answers.{nothing, sought, symbol_text, text_of};

use crate::AddressRule;
use modules::{Catalog, FoundSymbol, Module, symbol_in};
use order_laws::Item;
use std::io::Write;
use std::marker::Model;
use texts::Output;

/// What is known of an address: nothing, its module alone, or its symbol. A contract sees names
/// without their places in memory.
#[derive(Drop)]
pub struct SymbolAnswer<'c, 'a> {
    /// The symbol that the address belongs to, with the offset of the answer.
    pub found: Option<FoundSymbol<'c, 'a>>,
    /// The name of its module, if that is not the kernel itself.
    pub owner: Option<&'a [u8]>,
}

impl<'c, 'a> Model for SymbolAnswer<'c, 'a> {
    ghost use Rattle.std.specs.Option.{option_copied};
    ghost use Rattle.listing.specs.Answers.{Known};

    ghost Value = { Known };

    ghost view = { λ a. record { found = a.found; owner = option_copied a.owner } };
}

impl<'c, 'a> SymbolAnswer<'c, 'a> {
    /// Nothing is known.
    #[inline(always)]
    fn nothing() -> SymbolAnswer<'c, 'a>
        ensures { result ≡ nothing }
    {
        SymbolAnswer {
            found: None,
            owner: None,
        }
    }
}

impl SymbolAnswer<'_, '_> {
    /// Whether nothing is known.
    #[inline(always)]
    pub fn is_nothing(&self) -> bool
        ensures { result ≡ is_nothing self.now }
    {
        self.found.is_none() && self.owner.is_none()
    }
}

/// What was found, with `bytes` added to the offset.
#[inline(always)]
pub fn farther<'c, 'a>(found: FoundSymbol<'c, 'a>, bytes: u64) -> FoundSymbol<'c, 'a>
    requires { found.offset + bytes < 2 ^ 64 }
    ensures { result ≡ farther bytes found.entry }
{
    FoundSymbol {
        symbol: found.symbol,
        offset: found.offset + bytes,
        size: found.size,
    }
}

/// The item and the address, if the item holds it.
fn held_at(item: Option<Item>, addr: u64) -> Option<(Item, u64)>
    ensures is { result ≡ held_at item addr }
    ensures holds { IfSome result (λ s. (s.0.a ≤ s.1) × (s.1 < s.0.b)) }
{
    let item = item?;
    if item.a <= addr && addr < item.b {
        Some((item, addr))
    } else {
        None
    }
}

/// The item that was found for the address that the rule looks up, and this address, if the item
/// holds it.
pub fn sought(rule: AddressRule, item: Option<Item>, addr: u64) -> Option<(Item, u64)>
    ensures is { result ≡ sought rule item addr }
    ensures holds { IfSome result (λ s. (s.0.a ≤ s.1) × (s.1 < s.0.b)) }
{
    held_at(item, rule.place_of(addr)?)
}

/// What is known of an address, if `item` was found for the address that the rule looks up in its
/// place.
///
/// It is nothing if the rule looks nothing up, there is no item, the item does not hold the
/// address, its tag is the number of no module, or the kernel itself has no symbol at or below the
/// address. It takes no memory.
///
/// Like [`symbol_in`] it is compiled into its callers.
#[inline(always)]
pub fn answer_of<'c, 'a>(
    catalog: &'c Catalog<'a>,
    rule: AddressRule,
    item: Option<Item>,
    addr: u64,
) -> SymbolAnswer<'c, 'a>
    ensures { result ≡ answer_of catalog.now rule item addr }
{
    let Some((item, place)) = sought(rule, item, addr) else {
        return SymbolAnswer::nothing();
    };
    held_answer(catalog, item, place, rule.before())
}

/// What is known of an address that the item holds, for one that lies `before` bytes farther on.
#[inline(always)]
fn held_answer<'c, 'a>(
    catalog: &'c Catalog<'a>,
    item: Item,
    addr: u64,
    before: u64,
) -> SymbolAnswer<'c, 'a>
    requires from { item.a ≤ addr }
    requires below { addr < item.b }
    requires near { before ≤ 1 }
    ensures { result ≡ held_answer catalog.now item before addr }
{
    let Some(module) = catalog.module(item.tag) else {
        return SymbolAnswer::nothing();
    };
    let found = match symbol_in(module, item.a, item.b, addr) {
        Some(found) => Some(farther(found, before)),
        None => None,
    };
    let owner = if item.tag == 0 {
        None
    } else {
        Some(module.name())
    };
    SymbolAnswer { found, owner }
}

/// Writes the text of an answer: `NAME+0xOFFSET/0xSIZE [MODULE]`, without ` [MODULE]` for the
/// kernel itself, `? [MODULE]` if the module alone is known, and `-` if nothing is.
pub fn put_answer<W: Write>(writer: &mut Output<W>, answer: &SymbolAnswer)
    ensures { Says W.contents writer.old writer.new (text_of answer.now) }
{
    match &answer.found {
        Some(found) => put_symbol(writer, found),
        None if answer.is_nothing() => writer.put(b"-"),
        None => writer.put(b"?"),
    }
    put_owner(writer, answer.owner);
}

/// Writes `NAME+0xOFFSET/0xSIZE`.
#[tactic(auto, unfolding(crate::specs::Answers::symbol_text))]
fn put_symbol<W: Write>(writer: &mut Output<W>, found: &FoundSymbol)
    ensures { Says W.contents writer.old writer.new (symbol_text found.now) }
{
    let symbol = found.symbol;
    writer.put(symbol.name());
    writer.put(b"+");
    writer.put_hexadecimal(found.offset);
    writer.put(b"/");
    writer.put_hexadecimal(found.size);
}

/// Writes ` [MODULE]`, or nothing for the kernel itself.
#[tactic(auto, unfolding(crate::specs::Answers::owner_text))]
fn put_owner<W: Write>(writer: &mut Output<W>, owner: Option<&[u8]>)
    ensures { Says W.contents writer.old writer.new (owner_text (option_copied owner.entry)) }
{
    if let Some(name) = owner {
        writer.put(b" [");
        writer.put(name);
        writer.put(b"]");
    }
}
