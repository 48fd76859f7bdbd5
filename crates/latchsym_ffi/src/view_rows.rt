//! The rows of a view: a catalog in plain memory of the caller's, which several threads read at
//! once.
//!
//! ```text
//! view:      the regions, by rising first address
//! region:    a, b, module | symbols: addr, place, name      by rising address
//!                         | addresses: addr                 once more, closer together
//! ```
//!
//! A search goes through the addresses alone, and reads one symbol.

ghost use Rattle.std.specs.List.Sorted.{IsNonDecreasingBy};

/// A symbol of a module.
#[repr(C)]
#[derive(Clone, Copy, Drop)]
pub struct ViewSymbol {
    pub addr: u64,
    /// Its place among the symbols of the module, in the order listed.
    pub place: usize,
    pub name: &'static [u8],
}

/// A region, its module, and all symbols of this module by rising address, at one address by
/// falling place; and their addresses.
#[repr(C)]
#[derive(Clone, Copy, Drop)]
pub struct ViewRegion<'s> {
    pub a: u64,
    pub b: u64,
    pub module_number: u64,
    pub module: &'static [u8],
    pub symbols: &'s [ViewSymbol],
    pub addresses: &'s [u64],
    ghost rising: { IsNonDecreasingBy (λ a. a) addresses.now },
}

/// The symbols of a module by rising address, at one address by falling place; and their addresses.
#[derive(Clone, Copy, Drop)]
pub struct ModuleRows<'s> {
    pub symbols: &'s [ViewSymbol],
    pub addresses: &'s [u64],
    ghost rising: { IsNonDecreasingBy (λ a. a) addresses.now },
}

/// The regions of a catalog, by rising first address.
#[repr(C)]
#[derive(Clone, Copy, Drop)]
pub struct CatalogView<'c, 's> {
    pub regions: &'c [ViewRegion<'s>],
    ghost rising: { IsNonDecreasingBy (λ r. r.a) regions.now },
}
