//! Names that are found: of the modules of a catalog, and of the modules that a listing of symbols
//! or a change of one has lines of.
//!
//! In a listing of symbols the modules are numbered from 1 on by their first lines; 0 is the kernel
//! itself:
//!
//! ```text
//! runs:     none   "ext4"   none   "nfs"   "ext4"
//! numbers:  0      1        0      2       1
//! ```

ghost use Rattle.std.specs.Prelude.{◌≡◌, ◌<◌, ◌≤◌, ◌+◌, ◌^◌, ◌++◌, ◌∷◌, [], false, length, IfOk};
ghost use Rattle.std.specs.Prelude.{IfSome, OnErr, OnOk};
ghost use Rattle.std.specs.List.{list_any, position_from};
ghost use Rattle.std.specs.Str.{bytes_eq};
ghost use Rattle.modules.specs.LineMarks.{AreNamed, name_of, number_in};
ghost use Rattle.modules.specs.Names.{with_name};
ghost use Rattle.modules.specs.SharedRuns.{lines_of_shared};

use crate::shared_listings::SharedRun;
use std::alloc::{AllocError, Global};
use std::collections::BTreeMap;
use std::marker::Model;

/// Names in their order, and the place of each. A contract sees the list of the names.
#[derive(Drop)]
pub struct Names<'a> {
    listed: Vec<&'a [u8]>,
    places: BTreeMap<&'a [u8], usize>,
}

impl<'a> Model for Names<'a> {
    ghost use Rattle.std.specs.Prelude.{List, ℕ};
    ghost use Rattle.modules.specs.FoundNames.{names_at, HasPlaces};

    ghost Value = { List (List ℕ) };

    ghost view = { λ n. names_at n.listed.items };

    ghost invariant = { HasPlaces };
}

impl<'a> Names<'a> {
    /// No names.
    pub fn new(alloc: Global) -> Names<'a>
        ensures { result ≡ [] }
    {
        Names {
            listed: Vec::new(alloc),
            places: BTreeMap::new(alloc),
        }
    }

    /// The names of the modules that these lines are of.
    pub(crate) fn of_runs(alloc: Global, runs: &[SharedRun<'a>]) -> Result<Names<'a>, AllocError>
        ensures { IfOk result (λ n. AreNamed n (lines_of_shared runs.now)) }
    {
        let mut names = Names::new(alloc);
        for run in runs {
            names.put(run.module)?;
        }
        Ok(names)
    }

    /// The place of a name, if it is among these.
    pub(crate) fn place_of(&self, name: &[u8]) -> Option<usize>
        ensures place { result ≡ position_from (bytes_eq name.now) 0 self.now }
        ensures within { IfSome result (λ place. place + 1 < 2 ^ 64) }
    {
        self.places.get(name).copied()
    }

    /// Whether a name is among these.
    pub fn has(&self, name: &[u8]) -> bool
        ensures { result ≡ list_any (bytes_eq name.now) self.now }
    {
        self.places.contains_key(name)
    }

    /// Puts a name, which is not among these, after the others. An error leaves these as they were.
    pub(crate) fn push(&mut self, name: &'a [u8]) -> Result<(), AllocError>
        requires { list_any (bytes_eq name.now) self.old ≡ false }
        ensures pushed { OnOk result (self.new ≡ self.old ++ name.now ∷ []) }
        ensures err { OnErr result (self.new ≡ self.old) }
    {
        self.listed.reserve(1)?;
        self.places.insert(name, self.listed.len())?;
        self.listed.push(name).unwrap();
        Ok(())
    }

    /// Puts a name after the others, unless it is among them. An error leaves these as they were.
    pub fn put(&mut self, name: &'a [u8]) -> Result<(), AllocError>
        ensures put { OnOk result (self.new ≡ with_name self.old name.now) }
        ensures err { OnErr result (self.new ≡ self.old) }
    {
        if self.has(name) {
            return Ok(());
        }
        self.push(name)
    }

    /// How many numbers there are, the kernel's own among them.
    pub(crate) fn count(&self) -> usize
        ensures { result ≡ length self.now + 1 }
    {
        self.listed.len() + 1
    }

    /// The number of the module of this name, from 1 on; 0 if there is none.
    pub(crate) fn number_of(&self, name: &[u8]) -> u64
        ensures { result ≡ number_in self.now name.now }
    {
        match self.place_of(name) {
            Some(place) => place as u64 + 1,
            None => 0,
        }
    }

    /// The name of the module of a number, from 1 on.
    pub(crate) fn name_of(&self, number: u64) -> &'a [u8]
        requires some { 0 < number }
        requires within { number ≤ length self.now }
        ensures { result.now ≡ name_of self.now number }
    {
        self.listed[(number - 1) as usize]
    }
}
