//! What C calls, to go through the modules, the regions and the symbols of a catalog, and from
//! names to addresses.

ghost use Rattle.std.specs.Prelude.{◌≡◌, ◌≢◌, ◌<◌, IfSome, length, position};
ghost use Rattle.std.specs.Str.{bytes_eq};
ghost use Rattle.modules.specs.Catalogs.{module_of};
ghost use Rattle.latchsym_ffi.specs.ByNumber.{TellsBoth, TellsModule, TellsPlace, TellsRegion};
ghost use Rattle.latchsym_ffi.specs.ByNumber.{TellsSymbol, named_from, part_at, place_named};
ghost use Rattle.latchsym_ffi.specs.ByNumber.{place_of_name, region_at};
ghost use Rattle.latchsym_ffi.specs.ByNumber.{symbol_at_place};
ghost use Rattle.latchsym_ffi.specs.HeldCatalogs.{HeldCatalog};
ghost use Rattle.latchsym_ffi.specs.Handles.{HoldsCatalog, RefusesOther, Stays};
ghost use Rattle.latchsym_ffi.specs.Kinds.{catalog_kind};

use crate::answers::{DONE, NOTHING};
use crate::calls::with_catalog;
use crate::handles::Handle;
use crate::open_catalogs::OpenCatalog;
use modules::{Catalog, Part, Symbol};
use order_laws::Refusal;
use std::alloc::Global;

/// A module: its name, and how many regions and symbols it has.
#[repr(C)]
#[derive(Clone, Copy, Drop)]
pub struct CatalogModule {
    pub name: &'static [u8],
    pub regions: usize,
    pub symbols: usize,
}

/// A region of a module: its first address and its end, which is excluded, and whether only the
/// start of the module needs it.
#[repr(C)]
#[derive(Clone, Copy, Drop)]
pub struct CatalogRegion {
    pub a: u64,
    pub b: u64,
    pub is_init: u32,
}

/// A symbol of a module.
#[repr(C)]
#[derive(Clone, Copy, Drop)]
pub struct CatalogEntry {
    pub addr: u64,
    pub name: &'static [u8],
}

/// Returns what is known of a module, by its number.
fn write_module(catalog: &Catalog<'static>, number: u64, out: &mut CatalogModule) -> u32
    ensures { TellsModule (module_of catalog.now number) result out.old out.new }
{
    let Some(module) = catalog.module(number) else {
        return NOTHING;
    };
    *out = CatalogModule {
        name: module.name(),
        regions: module.regions().len(),
        symbols: module.symbols().len(),
    };
    DONE
}

/// Returns the region at a place in a module.
fn write_region(
    catalog: &Catalog<'static>,
    number: u64,
    place: usize,
    out: &mut CatalogRegion,
) -> u32
    ensures { TellsRegion (region_at catalog.now number place) (part_at catalog.now number place)
        result out.old out.new }
{
    let Some(module) = catalog.module(number) else {
        return NOTHING;
    };
    let Some(region) = module.regions().get(place) else {
        return NOTHING;
    };
    let Some(part) = module.parts().get(place) else {
        return NOTHING;
    };
    *out = CatalogRegion {
        a: region.start(),
        b: region.end(),
        is_init: match part {
            Part::Core => 0,
            Part::Init => 1,
        },
    };
    DONE
}

/// Returns the symbol at a place in a module.
fn write_symbol(
    catalog: &Catalog<'static>,
    number: u64,
    place: usize,
    out: &mut CatalogEntry,
) -> u32
    ensures { TellsSymbol (symbol_at_place catalog.now number place) result out.old out.new }
{
    let Some(module) = catalog.module(number) else {
        return NOTHING;
    };
    let Some(symbol) = module.symbols().get(place) else {
        return NOTHING;
    };
    *out = CatalogEntry {
        addr: symbol.addr,
        name: symbol.name(),
    };
    DONE
}

/// The place of the first symbol that has this name.
fn position_named(symbols: &[Symbol<'static>], name: &[u8]) -> Option<usize>
    ensures place { result ≡ position (λ s. bytes_eq s.name name.now) symbols.now }
    ensures within { IfSome result (λ n. n < length symbols.now) }
{
    symbols.iter().position(|symbol| symbol.name() == name)
}

/// The place of the first symbol from a place on that has this name.
fn named_from(symbols: &[Symbol<'static>], name: &[u8], from: usize) -> Option<usize>
    ensures { result ≡ named_from symbols.now name.now from }
{
    let rest = symbols.get(from..)?;
    let place = position_named(rest, name)?;
    Some(from + place)
}

/// Returns the place of the first symbol of a name in a module, from a place on.
fn write_named(
    catalog: &Catalog<'static>,
    number: u64,
    name: &[u8],
    from: usize,
    out: &mut usize,
) -> u32
    ensures { TellsPlace (place_named catalog.now number name.now from) result out.old out.new }
{
    let Some(module) = catalog.module(number) else {
        return NOTHING;
    };
    match named_from(module.symbols(), name, from) {
        Some(place) => {
            *out = place;
            DONE
        }
        None => NOTHING,
    }
}

/// How many modules a catalog has, the kernel itself not counted: they have the numbers from 1 on.
#[unsafe(no_mangle)]
pub extern "C" fn latchsym_catalog_modules(catalog: &mut Handle, out: &mut u64) -> u32
    ensures stays { Stays catalog.old catalog.new }
    ensures told { (c : HeldCatalog) → HoldsCatalog c catalog.old
        → (result ≡ 0) × (out.new ≡ length c.entries.modules) }
    ensures other { RefusesOther catalog_kind catalog.old catalog.new out.old out.new result }
{
    with_catalog!(catalog, |open| {
        *out = open.catalog().len();
        DONE
    })
}

/// Writes the module of a number; 0 is the kernel itself.
#[unsafe(no_mangle)]
pub extern "C" fn latchsym_catalog_module(
    catalog: &mut Handle,
    number: u64,
    out: &mut CatalogModule,
) -> u32
    ensures stays { Stays catalog.old catalog.new }
    ensures told { (c : HeldCatalog) → HoldsCatalog c catalog.old
        → TellsModule (module_of c.entries number) result out.old out.new }
    ensures other { RefusesOther catalog_kind catalog.old catalog.new out.old out.new result }
{
    with_catalog!(catalog, |open| write_module(open.catalog(), number, out))
}

/// Writes a region of a module.
#[unsafe(no_mangle)]
pub extern "C" fn latchsym_catalog_region(
    catalog: &mut Handle,
    number: u64,
    place: usize,
    out: &mut CatalogRegion,
) -> u32
    ensures stays { Stays catalog.old catalog.new }
    ensures told { (c : HeldCatalog) → HoldsCatalog c catalog.old
        → TellsRegion (region_at c.entries number place) (part_at c.entries number place)
        result out.old out.new }
    ensures other { RefusesOther catalog_kind catalog.old catalog.new out.old out.new result }
{
    with_catalog!(
        catalog,
        |open| write_region(open.catalog(), number, place, out)
    )
}

/// Writes a symbol of a module.
#[unsafe(no_mangle)]
pub extern "C" fn latchsym_catalog_symbol(
    catalog: &mut Handle,
    number: u64,
    place: usize,
    out: &mut CatalogEntry,
) -> u32
    ensures stays { Stays catalog.old catalog.new }
    ensures told { (c : HeldCatalog) → HoldsCatalog c catalog.old
        → TellsSymbol (symbol_at_place c.entries number place) result out.old out.new }
    ensures other { RefusesOther catalog_kind catalog.old catalog.new out.old out.new result }
{
    with_catalog!(
        catalog,
        |open| write_symbol(open.catalog(), number, place, out)
    )
}

/// Writes the place of a module's next symbol of a name.
#[unsafe(no_mangle)]
pub extern "C" fn latchsym_catalog_place_of_name_nonnull(
    catalog: &mut Handle,
    number: u64,
    name: &[u8],
    from: usize,
    out: &mut usize,
) -> u32
    ensures stays { Stays catalog.old catalog.new }
    ensures told { (c : HeldCatalog) → HoldsCatalog c catalog.old
        → TellsPlace (place_named c.entries number name.now from) result out.old out.new }
    ensures other { RefusesOther catalog_kind catalog.old catalog.new out.old out.new result }
{
    with_catalog!(
        catalog,
        |open| write_named(open.catalog(), number, name, from, out)
    )
}

/// Returns the module and the place of the n-th symbol of a name.
fn write_place_of(
    alloc: Global,
    catalog: &mut OpenCatalog,
    name: &[u8],
    from: usize,
    number: &mut u64,
    place: &mut usize,
) -> u32
    ensures same { catalog.new ≡ catalog.old }
    ensures told { result ≢ 7 → TellsBoth (place_of_name catalog.old.entries name.now from) result
        (number.old, place.old) (number.new, place.new) }
    ensures refused { result ≡ 7 → (number.new ≡ number.old) × (place.new ≡ place.old) }
{
    match catalog.place_of(alloc, name, from) {
        Ok(Some((found, at))) => {
            *number = found;
            *place = at;
            DONE
        }
        Ok(None) => NOTHING,
        Err(_) => Refusal::OutOfMemory.number(),
    }
}

/// Writes the module and the place of the n-th symbol of a name in all modules. The first call
/// sorts the symbols of the catalog by name.
#[unsafe(no_mangle)]
pub extern "C" fn latchsym_catalog_find_name_nonnull(
    alloc: Global,
    catalog: &mut Handle,
    name: &[u8],
    from: usize,
    number: &mut u64,
    place: &mut usize,
) -> u32
    ensures stays { Stays catalog.old catalog.new }
    ensures told { (c : HeldCatalog) → HoldsCatalog c catalog.old → result ≢ 7
        → TellsBoth (place_of_name c.entries name.now from) result (number.old, place.old)
        (number.new, place.new) }
    ensures refused { result ≡ 7 → (number.new ≡ number.old) × (place.new ≡ place.old) }
    ensures other { catalog.old.kind ≢ catalog_kind → (result ≡ 101) × (catalog.new ≡ catalog.old)
        × (number.new ≡ number.old) × (place.new ≡ place.old) }
{
    with_catalog!(
        catalog,
        |open| write_place_of(alloc, open, name, from, number, place)
    )
}
