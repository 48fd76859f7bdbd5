//! Modules that are listed, and are not in the catalog since their regions meet others.
ghost use Rattle.std.specs.Prelude.{◌≡◌};
ghost use Rattle.std.specs.List.{list_any};
ghost use Rattle.std.specs.Option.{option_copied};
ghost use Rattle.texts.specs.Lines.{lines_of};
ghost use Rattle.listing.specs.ModuleListing.{modules_in};
ghost use Rattle.listing.specs.Overlaps.{do_modules_overlap, has_module, has_name, is_left_out};
ghost use Rattle.listing.specs.Overlaps.{is_listed_name, names_left_out};
ghost use Rattle.listing.specs.SymbolListing.{symbols_in};

use crate::module_listing::module_in;
use crate::symbol_listing::{cut_tabbed_line, symbol_of_line};
use modules::{Catalog, Module, SymbolLine};
use texts::cut_line;

/// Whether a symbol names a module that is listed and left out. The symbols are gone through only
/// if a module is left out.
#[tactic(auto, using(crate::proofs::OverlapLemmas::none_named))]
pub(crate) fn do_modules_overlap(text: &[u8], kallsyms: &[u8], catalog: &Catalog) -> bool
    ensures { result ≡ do_modules_overlap (modules_in (lines_of text.now))
        (symbols_in (lines_of kallsyms.now)) catalog.now }
{
    leaves_out_modules(text, catalog) && name_left_out(text, kallsyms, catalog)
}

/// Whether a listed module is left out.
fn leaves_out_modules(text: &[u8], catalog: &Catalog) -> bool
    ensures { result
        ≡ list_any (λ m. is_left_out catalog.now m.name) (modules_in (lines_of text.now)) }
{
    let mut rest = text;
    while !rest.is_empty() {
        let (line, after) = cut_line(rest);
        if let Ok(module) = module_in(line) {
            if !has_module(catalog, module.name) {
                return true;
            }
        }
        rest = after;
    }
    false
}

/// Whether one of the symbols names a module that is listed and left out.
fn name_left_out(text: &[u8], kallsyms: &[u8], catalog: &Catalog) -> bool
    ensures { result
        ≡ list_any (names_left_out (modules_in (lines_of text.now)) catalog.now)
        (symbols_in (lines_of kallsyms.now)) }
{
    let mut rest = kallsyms;
    while !rest.is_empty() {
        let (line, tab, after) = cut_tabbed_line(rest);
        if let Ok(symbol) = symbol_of_line(line, tab) {
            if names_left_out(text, catalog, &symbol) {
                return true;
            }
        }
        rest = after;
    }
    false
}

/// Whether the symbol names a module that is listed and left out.
fn names_left_out(text: &[u8], catalog: &Catalog, symbol: &SymbolLine) -> bool
    ensures { result
        ≡ names_left_out (modules_in (lines_of text.now)) catalog.now symbol.now }
{
    match symbol.module {
        Some(name) => !has_module(catalog, name) && is_listed_name(text, name),
        None => false,
    }
}

/// Whether a listed module has the name.
pub(crate) fn is_listed_name(text: &[u8], name: &[u8]) -> bool
    ensures { result ≡ is_listed_name (modules_in (lines_of text.now)) name.now }
{
    let mut rest = text;
    while !rest.is_empty() {
        let (line, after) = cut_line(rest);
        if let Ok(module) = module_in(line) {
            if module.name == name {
                return true;
            }
        }
        rest = after;
    }
    false
}

/// Whether a module of the catalog has the name. One that is called `-` is not found by its name,
/// which is the kernel's own.
#[tactic(auto, using(crate::proofs::OverlapLemmas::has_number))]
fn has_module(catalog: &Catalog, name: &[u8]) -> bool
    ensures { result ≡ has_module catalog.now name.now }
{
    if name == b"-".as_slice() {
        lists_module(catalog, name)
    } else {
        catalog.number_of(name).is_some()
    }
}

/// Whether the catalog has a module of this name, sought one module after the other.
fn lists_module(catalog: &Catalog, name: &[u8]) -> bool
    ensures { result ≡ has_module catalog.now name.now }
{
    for place in 0..catalog.len() {
        if has_name(catalog.module(place + 1), name) {
            return true;
        }
    }
    false
}

/// Whether the module is there and has the name.
fn has_name(found: Option<&Module>, name: &[u8]) -> bool
    ensures { result ≡ has_name name.now (option_copied found.entry) }
{
    match found {
        Some(module) => name == module.name(),
        None => false,
    }
}
