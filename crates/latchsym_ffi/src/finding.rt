//! What is known of an address.

ghost use Rattle.std.specs.Prelude.{◌≡◌, ◌≤◌, ◌<◌, IfSome};
ghost use Rattle.std.specs.Option.{option_map};
ghost use Rattle.latchsym_ffi.specs.Finding.{Describes, answer_of, copied, known_at, known_code};
ghost use Rattle.latchsym_ffi.specs.Finding.{known_in, module_name, owner_named, shown_seen};
ghost use Rattle.latchsym_ffi.specs.Finding.{known_as, known_call, symbol_named};
ghost use Rattle.latchsym_ffi.specs.Named.{IsTold};

use crate::answers::{DONE, NO_SYMBOL, NOTHING};
use listing::farther;
use modules::{Catalog, Finder, FoundSymbol, IndexedCatalog, symbol_of};
use order_laws::Item;

/// The answer for an address.
#[repr(C)]
#[derive(Clone, Copy, Drop)]
pub struct CatalogAnswer {
    /// The number of the module: 0 is the kernel itself.
    pub module_number: u64,
    /// How many bytes the address lies above the symbol.
    pub offset: u64,
    /// How many bytes the symbol reaches.
    pub size: u64,
    /// How many bytes the symbol's name has.
    pub name_len: usize,
    /// How many bytes the module's name has.
    pub module_len: usize,
}

/// The answer for an address, with the places of the names in the listings.
#[repr(C)]
#[derive(Clone, Copy, Drop)]
pub struct CatalogSymbol {
    /// The number of the module: 0 is the kernel itself.
    pub module_number: u64,
    /// How many bytes the address lies above the symbol.
    pub offset: u64,
    /// How many bytes the symbol reaches.
    pub size: u64,
    /// The symbol's name.
    pub name: &'static [u8],
    /// The module's name.
    pub module: &'static [u8],
}

/// The region that an address lies in, and the symbol that it belongs to, if there is one.
#[derive(Drop)]
pub(crate) struct RegionAndSymbol<'c> {
    item: Item,
    found: Option<FoundSymbol<'c, 'static>>,
}

/// The answer for an address, with the names.
#[derive(Drop)]
pub(crate) struct Description {
    pub(crate) code: u32,
    pub(crate) answer: CatalogAnswer,
    symbol: &'static [u8],
    owner: &'static [u8],
}

/// Copies as many bytes as there is room for.
fn copy_name(room: &mut [u8], name: &[u8])
    ensures { room.new ≡ copied name.now room.old }
{
    let count = room.len().min(name.len());
    room[..count].copy_from_slice(&name[..count]);
}

/// The name of the module of a number, which is empty if there is none.
fn name_of<'a>(catalog: &Catalog<'a>, number: u64) -> &'a [u8]
    ensures { result.now ≡ module_name catalog.now number }
{
    match catalog.module(number) {
        Some(module) => module.name(),
        None => &[],
    }
}

/// The region that the address lies in, and the symbol, the offset and the size if there is one.
///
/// It is compiled into its callers: handed on through memory the answer was stored by words and
/// loaded by pairs of them, which waits.
#[inline(always)]
pub(crate) fn seek<'c>(
    catalog: &'c IndexedCatalog<'static>,
    addr: u64,
) -> Option<RegionAndSymbol<'c>>
    ensures { option_map shown_seen result ≡ known_at catalog.now addr }
{
    let item = catalog.find(addr)?;
    Some(RegionAndSymbol {
        item,
        found: symbol_of(catalog.catalog(), item, addr),
    })
}

/// The region of one of several addresses, and its symbol, if there is one.
pub(crate) fn seek_next<'c>(
    finder: &mut Finder<'c, 'static>,
    addr: u64,
) -> Option<RegionAndSymbol<'c>>
    ensures seen { option_map shown_seen result ≡ known_at finder.old addr }
    ensures stays { finder.new ≡ finder.old }
{
    let (item, found) = finder.find(addr)?;
    Some(RegionAndSymbol { item, found })
}

/// The region of the address one byte lower, and its symbol, with the offset of the return address
/// itself: the call before it may be the last instruction of its symbol.
pub(crate) fn seek_call<'c>(
    catalog: &'c IndexedCatalog<'static>,
    addr: u64,
) -> Option<RegionAndSymbol<'c>>
    ensures { option_map shown_seen result ≡ known_call catalog.now addr }
{
    let RegionAndSymbol { item, found } = seek(catalog, addr.checked_sub(1)?)?;
    let found = match found {
        Some(found) => Some(farther(found, 1)),
        None => None,
    };
    Some(RegionAndSymbol { item, found })
}

/// How an address is looked up.
#[derive(Clone, Copy, Drop)]
pub(crate) enum AddressUse {
    /// As it is.
    AsItIs,
    /// As a return address.
    AsReturn,
}

/// The region and the symbol of an address, looked up so.
#[inline(always)]
pub(crate) fn seek_as<'c>(
    taken: AddressUse,
    catalog: &'c IndexedCatalog<'static>,
    addr: u64,
) -> Option<RegionAndSymbol<'c>>
    ensures { option_map shown_seen result ≡ known_as taken catalog.now addr }
{
    match taken {
        AddressUse::AsItIs => seek(catalog, addr),
        AddressUse::AsReturn => seek_call(catalog, addr),
    }
}

/// The answer for what a search found.
pub(crate) fn description_of(
    catalog: &Catalog<'static>,
    seen: Option<RegionAndSymbol<'_>>,
) -> Description
    ensures { Describes catalog.now (option_map shown_seen seen.entry) result }
{
    let Some(RegionAndSymbol { item, found }) = seen else {
        return Description {
            code: NOTHING,
            answer: CatalogAnswer {
                module_number: 0,
                offset: 0,
                size: 0,
                name_len: 0,
                module_len: 0,
            },
            symbol: &[],
            owner: &[],
        };
    };
    let owner = name_of(catalog, item.tag);
    let (code, symbol, offset, size) = match found {
        Some(found) => {
            let symbol = found.symbol;
            (DONE, symbol.name(), found.offset, found.size)
        }
        None => (NO_SYMBOL, b"".as_slice(), 0, 0),
    };
    Description {
        code,
        answer: CatalogAnswer {
            module_number: item.tag,
            offset,
            size,
            name_len: symbol.len(),
            module_len: owner.len(),
        },
        symbol,
        owner,
    }
}

/// Writes what a search found, with the names as places in the listings: DONE with a symbol,
/// NO_SYMBOL if no symbol of its region is at or below the address, and NOTHING, with all numbers
/// 0, if it lies in no region.
pub(crate) fn name_places(
    catalog: &Catalog<'static>,
    seen: Option<RegionAndSymbol<'_>>,
    out: &mut CatalogSymbol,
) -> u32
    ensures { IsTold catalog.now (option_map shown_seen seen.entry) result out.new }
{
    let told = description_of(catalog, seen);
    *out = CatalogSymbol {
        module_number: told.answer.module_number,
        offset: told.answer.offset,
        size: told.answer.size,
        name: told.symbol,
        module: told.owner,
    };
    told.code
}

/// Writes what was found, with as much of the names as there is room for.
pub(crate) fn copy_names(
    catalog: &Catalog<'static>,
    seen: Option<RegionAndSymbol<'_>>,
    out: &mut CatalogAnswer,
    name: &mut [u8],
    owner: &mut [u8],
) -> u32
    ensures code { result ≡ known_code (option_map shown_seen seen.entry) }
    ensures answer { out.new ≡ answer_of catalog.now (option_map shown_seen seen.entry) }
    ensures name { name.new
        ≡ copied (symbol_named (option_map shown_seen seen.entry)) name.old }
    ensures owner { owner.new
        ≡ copied (owner_named catalog.now (option_map shown_seen seen.entry)) owner.old }
{
    let told = description_of(catalog, seen);
    *out = told.answer;
    copy_name(name, told.symbol);
    copy_name(owner, told.owner);
    told.code
}

/// The symbol in an item that a table has for an address, if there is an item.
pub(crate) fn seen_in<'c>(
    catalog: &'c Catalog<'static>,
    item: Option<Item>,
    addr: u64,
) -> Option<RegionAndSymbol<'c>>
    requires { IfSome item (λ i. (i.a ≤ addr) × (addr < i.b)) }
    ensures { option_map shown_seen result ≡ known_in catalog.now addr item }
{
    let item = item?;
    Some(RegionAndSymbol {
        item,
        found: symbol_of(catalog, item, addr),
    })
}
