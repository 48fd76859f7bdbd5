//! What the lines of a script have each writer and each reader do, each in the order of its lines.
ghost use Rattle.std.specs.Prelude.{◌≡◌, ◌≤◌, ◌<◌, ◌++◌, ◌∷◌, ℕ, List, [], true, All, IfOk, length};
ghost use Rattle.run_files.specs.declared.scripts.ScriptLine.{ScriptLine};
ghost use Rattle.run_files.specs.Scripts.{has_actor, lies_between, most_writers};
ghost use Rattle.modules.specs.Catalogs.{number_for};
ghost use Rattle.shared_lookup.specs.declared.changes.Change.{Change};
ghost use Rattle.command_tables.specs.Assignments.{AreListed, HasLists, IsAssigned};

use modules::Catalog;
use run_files::{MOST_WRITERS, ModuleName, ScriptLine};
use shared_lookup::Change;
use std::alloc::{AllocError, Global};

/// For each writer from number 1 on its changes and the names of their modules, and for each reader
/// from number 1 on the addresses that it looks up.
#[derive(Drop)]
pub struct Assignments<'a> {
    pub changes: Vec<Vec<Change>>,
    pub names: Vec<Vec<ModuleName<'a>>>,
    pub keys: Vec<Vec<u64>>,
}

/// What the lines of a script for `readers` readers have each actor do.
pub fn assign<'a>(
    alloc: Global,
    catalog: &Catalog<'_>,
    lines: &[ScriptLine<'a>],
    readers: u32,
) -> Result<Assignments<'a>, AllocError>
    requires { All (λ l. has_actor readers l ≡ true) lines.now }
    ensures { IfOk result (IsAssigned catalog.now readers lines.now) }
{
    let mut assigned = Assignments {
        changes: empty_lists(alloc, MOST_WRITERS)?,
        names: empty_lists(alloc, MOST_WRITERS)?,
        keys: empty_lists(alloc, readers)?,
    };
    for line in lines {
        assigned.add(catalog, readers, line)?;
    }
    Ok(assigned)
}

/// Lists without an entry, `count` of them.
fn empty_lists<T: Drop>(alloc: Global, count: u32) -> Result<Vec<Vec<T>>, AllocError>
    ensures { IfOk result (λ lists. AreListed count [] lists.items) }
{
    let mut lists = Vec::new(alloc);
    for _ in 0..count {
        lists.push(Vec::new(alloc))?;
    }
    Ok(lists)
}

/// Puts an entry at the end of the list with this number, counted from 1.
fn enlist<T: Drop>(lists: &mut Vec<Vec<T>>, number: u32, entry: T) -> Result<(), AllocError>
    requires from { 1 ≤ number }
    requires among { number ≤ length lists.old.items }
    ensures { (count : ℕ) → (entries : List (ℕ × T)) → AreListed count entries lists.old.items
        → IfOk result (λ _. AreListed count (entries ++ (number, entry) ∷ []) lists.new.items) }
{
    lists[number as usize - 1].push(entry)?;
    Ok(())
}

/// The number of the module of this name, and one that no module has if there is none.
fn number_for(catalog: &Catalog<'_>, name: &ModuleName<'_>) -> u64
    ensures { result ≡ number_for catalog.now name.now }
{
    catalog.number_for(name.bytes)
}

impl<'a> Assignments<'a> {
    /// Adds what one line has its actor do.
    fn add(
        &mut self,
        catalog: &Catalog<'_>,
        readers: u32,
        line: &ScriptLine<'a>,
    ) -> Result<(), AllocError>
        requires actor { has_actor readers line.now ≡ true }
        requires lists { HasLists readers self.old }
        ensures { (lines : List ScriptLine) → IsAssigned catalog.now readers lines self.old
            → IfOk result (λ _. IsAssigned catalog.now readers (lines ++ line.now ∷ []) self.new) }
    {
        match line {
            ScriptLine::Load { writer, name } => {
                self.add_change(*writer, Change::Load(number_for(catalog, name)), name)
            }
            ScriptLine::Unload { writer, name } => {
                self.add_change(*writer, Change::Unload(number_for(catalog, name)), name)
            }
            ScriptLine::Init { writer, name } => {
                self.add_change(*writer, Change::DropInit(number_for(catalog, name)), name)
            }
            ScriptLine::Look { reader, address } => enlist(&mut self.keys, *reader, *address),
        }
    }

    /// Adds a change of a writer and the name of its module.
    fn add_change(
        &mut self,
        writer: u32,
        change: Change,
        name: &ModuleName<'a>,
    ) -> Result<(), AllocError>
        requires known { lies_between 1 most_writers writer ≡ true }
        requires changes { length self.old.changes.items ≡ most_writers }
        requires names { length self.old.names.items ≡ most_writers }
        ensures keys { self.new.keys ≡ self.old.keys }
        ensures changes { (entries : List (ℕ × Change))
            → AreListed most_writers entries self.old.changes.items
            → IfOk result (λ _. AreListed most_writers
            (entries ++ (writer, change) ∷ []) self.new.changes.items) }
        ensures names { (entries : List (ℕ × List ℕ))
            → AreListed most_writers entries self.old.names.items
            → IfOk result (λ _. AreListed most_writers
            (entries ++ (writer, name.now) ∷ []) self.new.names.items) }
    {
        enlist(&mut self.changes, writer, change)?;
        enlist(&mut self.names, writer, ModuleName { bytes: name.bytes })
    }
}
