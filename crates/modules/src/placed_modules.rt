//! The modules of a catalog with their regions, before their symbols are put in.

ghost use Rattle.std.specs.Prelude.{◌≡◌, ◌++◌, ◌∷◌, [], false, length, IfOk, OnErr, OnOk};
ghost use Rattle.std.specs.List.{list_any, position_from};
ghost use Rattle.std.specs.Str.{bytes_eq};
ghost use Rattle.modules.specs.Accepted.{accepted_with, names_of, none_yet};
ghost use Rattle.modules.specs.Kept.{AreDistinctNames};

use crate::names::Names;
use crate::placing::PlacedModule;
use crate::regions::Region;
use std::alloc::{AllocError, Global};
use std::marker::Model;

/// The regions of the kernel itself, and modules in theirs, which are found by name. A
/// contract sees them as what was accepted, with no line that was not.
#[derive(Drop)]
pub(crate) struct PlacedModules<'a> {
    /// The regions of the kernel itself.
    pub(crate) built_in: Vec<Region>,
    /// The modules in their order.
    pub(crate) modules: Vec<PlacedModule<'a>>,
    /// Their names.
    pub(crate) names: Names<'a>,
}

impl<'a> Model for PlacedModules<'a> {
    ghost use Rattle.std.specs.Prelude.{◌≡◌};
    ghost use Rattle.modules.specs.Accepted.{Accepted, names_of};

    ghost Value = { Accepted };

    ghost use Rattle.modules.specs.PlacedModules.{placed_modules_view};

    ghost view = { placed_modules_view };

    ghost invariant = { λ p. names_of p.modules.items ≡ p.names };
}

impl<'a> PlacedModules<'a> {
    /// No modules.
    pub(crate) fn new(alloc: Global, built_in: Vec<Region>) -> PlacedModules<'a>
        ensures { result ≡ none_yet built_in.items }
    {
        PlacedModules {
            built_in,
            modules: Vec::new(alloc),
            names: Names::new(alloc),
        }
    }

    /// These modules, whose names are distinct.
    pub(crate) fn of(
        alloc: Global,
        built_in: Vec<Region>,
        modules: Vec<PlacedModule<'a>>,
    ) -> Result<PlacedModules<'a>, AllocError>
        requires { AreDistinctNames (names_of modules.items) }
        ensures { IfOk result (λ p. p ≡ accepted_with built_in.items modules.entry.items) }
    {
        let mut names = Names::new(alloc);
        for module in &modules {
            names.push(module.name)?;
        }
        Ok(PlacedModules {
            built_in,
            modules,
            names,
        })
    }

    /// How many modules there are.
    pub(crate) fn len(&self) -> usize
        ensures { result ≡ length self.now.modules }
    {
        self.modules.len()
    }

    /// The place of the module of this name.
    pub(crate) fn place_of(&self, name: &[u8]) -> Option<usize>
        ensures { result ≡ position_from (bytes_eq name.now) 0 (names_of self.now.modules) }
    {
        self.names.place_of(name)
    }

    /// Whether a module has this name.
    pub(crate) fn has(&self, name: &[u8]) -> bool
        ensures { result ≡ list_any (bytes_eq name.now) (names_of self.now.modules) }
    {
        self.names.has(name)
    }

    /// Puts a module, whose name none has, after the others. An error leaves these as they were.
    pub(crate) fn push(&mut self, added: PlacedModule<'a>) -> Result<(), AllocError>
        requires new { list_any (bytes_eq added.name) (names_of self.old.modules) ≡ false }
        ensures pushed { OnOk result
            (self.new ≡ record self.old { modules = self.old.modules ++ added.entry ∷ [] }) }
        ensures err { OnErr result (self.new ≡ self.old) }
    {
        self.modules.reserve(1)?;
        self.names.push(added.name)?;
        self.modules.push(added).unwrap();
        Ok(())
    }
}
