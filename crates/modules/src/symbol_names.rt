//! From a name to the symbols of all modules that have it.
//!
//! ```text
//! module 0:  a_init  b_start        sorted:  a_init   in module 0 at place 0
//! module 1:  a_init                          a_init   in module 1 at place 0
//!                                            b_start  in module 0 at place 1
//! ```

ghost use Rattle.std.specs.Prelude.{◌≡◌, ◌++◌, IfOk};
ghost use Rattle.modules.specs.SymbolNames.{IsNamesOf, named_symbols, names_of_symbols, names_in_module};
ghost use Rattle.modules.specs.SymbolNames.{all_of_name};

use crate::by_name::{Named, all_named, sort_by_name};
use crate::catalog::Catalog;
use crate::symbols::Symbol;
use std::alloc::{AllocError, Global};
use std::marker::Model;

/// A symbol by its name: the number of its module, and its place among the symbols of this module
/// in the order listed.
#[derive(Debug, Drop)]
pub struct NamedSymbol<'a> {
    pub name: &'a [u8],
    pub number: u64,
    pub place: usize,
}

impl<'a> Model for NamedSymbol<'a> {
    ghost use Rattle.modules.specs.SymbolNames.{SymbolName};

    ghost Value = { SymbolName };

    ghost view = { λ s. record { name = s.name.now; number = s.number; place = s.place } };
}

impl<'a> Named for NamedSymbol<'a> {
    ghost name_of = { λ s. s.name };

    fn name(&self) -> &[u8] {
        self.name
    }
}

/// The symbols of a catalog in the order of their names.
#[derive(Drop)]
pub struct SymbolNames<'a> {
    by_name: Vec<NamedSymbol<'a>>,
}

impl<'a> Model for SymbolNames<'a> {
    ghost use Rattle.std.specs.Prelude.{List};
    ghost use Rattle.std.specs.List.Sorted.{IsSortedBy};
    ghost use Rattle.modules.specs.ByName.{comes_first};
    ghost use Rattle.modules.specs.SymbolNames.{SymbolName};

    ghost Value = { List SymbolName };

    ghost view = { λ s. s.by_name.items };

    ghost invariant = { λ s. IsSortedBy (comes_first (λ n. n.name)) s.by_name.items };
}

/// Puts the names of a module's symbols after the others.
fn push_symbols<'a>(
    names: &mut Vec<NamedSymbol<'a>>,
    symbols: &[Symbol<'a>],
    number: u64,
) -> Result<(), AllocError>
    ensures { IfOk result
        (λ _. names.new.items ≡ names.old.items ++ names_of_symbols number symbols.now) }
{
    for place in 0..symbols.len() {
        let symbol = &symbols[place];
        names.push(NamedSymbol {
            name: symbol.name(),
            number,
            place,
        })?;
    }
    Ok(())
}

/// Puts the names of the symbols of the module of a number after the others, if there is one.
fn push_module<'a>(
    names: &mut Vec<NamedSymbol<'a>>,
    catalog: &Catalog<'a>,
    number: u64,
) -> Result<(), AllocError>
    ensures { IfOk result
        (λ _. names.new.items ≡ names.old.items ++ names_in_module catalog.now number) }
{
    match catalog.module(number) {
        Some(module) => push_symbols(names, module.symbols(), number),
        None => Ok(()),
    }
}

/// The names of all symbols, in the order of the catalog.
#[tactic(auto, using(crate::proofs::SymbolNameLemmas::one_number_more))]
fn listed_names<'a>(
    alloc: Global,
    catalog: &Catalog<'a>,
) -> Result<Vec<NamedSymbol<'a>>, AllocError>
    ensures { IfOk result (λ v. v.items ≡ named_symbols catalog.now) }
{
    let modules = catalog.len();
    let mut names = Vec::new(alloc);
    for number in 0..=modules {
        push_module(&mut names, catalog, number)?;
    }
    Ok(names)
}

impl<'a> SymbolNames<'a> {
    /// Sorts the symbols of a catalog by name. Refused only when out of memory.
    pub fn of(alloc: Global, catalog: &Catalog<'a>) -> Result<SymbolNames<'a>, AllocError>
        ensures { IfOk result (IsNamesOf catalog.now) }
    {
        let mut by_name = listed_names(alloc, catalog)?;
        sort_by_name(&mut by_name)?;
        Ok(SymbolNames { by_name })
    }

    /// The symbols of this name, by rising number of their modules and, in one module, in the order
    /// listed.
    pub fn named(&self, name: &[u8]) -> &[NamedSymbol<'a>]
        ensures { result.now ≡ all_of_name name.now self.now }
    {
        all_named(self.by_name.as_slice(), name)
    }
}
