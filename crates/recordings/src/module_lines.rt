//! The lines of a listing by their modules.
//!
//! ```text
//!     do_one                  no module
//!     xfs_a  [xfs]    xfs:    xfs_a, xfs_b
//!     xfs_b  [xfs]
//!     nf_a   [nf]     nf:     nf_a
//! ```
//!
//! A listing has the lines of a module one after the other, so there are few parts to look through.
ghost use Rattle.std.specs.Prelude.{◌≡◌, ◌++◌, [], List, IfOk};
ghost use Rattle.std.specs.Option.{option_copied};
ghost use Rattle.std.specs.Str.{bytes_eq};
ghost use Rattle.logs.specs.Lines.{lines};
ghost use Rattle.histories.specs.ListingLines.{module_of};
ghost use Rattle.recordings.specs.ModuleLines.{SomeLines, joined, joined_if, modules_in, text_of};

use crate::lines::{first_line, without_end};
use listing::module_of_line;
use memchr::memchr;
use std::alloc::{AllocError, Global};
use std::marker::Model;

/// Lines of a module. A contract sees the bytes.
#[derive(Debug, Drop)]
pub struct ModuleLines {
    pub(crate) name: Vec<u8>,
    pub(crate) text: Vec<u8>,
}

impl Model for ModuleLines {
    ghost use Rattle.recordings.specs.ModuleLines.{SomeLines};

    ghost Value = { SomeLines };

    ghost view = { λ m. record { name = m.name.items; text = m.text.items } };
}

/// The module of a line, if it is well formed and has one.
fn module_in(line: &[u8]) -> Option<&[u8]>
    ensures { option_copied result ≡ module_of line.now }
{
    module_of_line(line, memchr(b'\t', line))?
}

impl ModuleLines {
    /// These lines of the module of this name.
    pub(crate) fn new(alloc: Global, name: &[u8], text: &[u8]) -> Result<ModuleLines, AllocError>
        ensures { IfOk result (λ m. m ≡ record { name = name.now; text = text.now }) }
    {
        let mut lines = ModuleLines {
            name: Vec::with_capacity(alloc, name.len())?,
            text: Vec::with_capacity(alloc, text.len())?,
        };
        lines.name.extend_from_slice(name)?;
        lines.text.extend_from_slice(text)?;
        Ok(lines)
    }

    /// Its lines, with this name.
    pub(crate) fn copy(&self, alloc: Global) -> Result<ModuleLines, AllocError>
        ensures { IfOk result (λ m. m ≡ self.now) }
    {
        ModuleLines::new(alloc, &self.name, &self.text)
    }

    /// These lines and one more.
    fn with(mut self, line: &[u8]) -> Result<ModuleLines, AllocError>
        ensures { IfOk result
            (λ m. m ≡ record { name = self.name; text = self.text ++ line.now }) }
    {
        self.text.extend_from_slice(line)?;
        Ok(self)
    }

    /// Whether they are of the module of this name.
    pub(crate) fn is_of(&self, name: &[u8]) -> bool
        ensures { result ≡ bytes_eq name.now self.now.name }
    {
        name == self.name.as_slice()
    }
}

/// Puts the lines so far, unless the next line goes on with them. Returns those that may go on.
fn go_on(
    alloc: Global,
    modules: &mut Vec<ModuleLines>,
    last: Option<ModuleLines>,
    name: &[u8],
    line: &[u8],
) -> Result<ModuleLines, AllocError>
    ensures { IfOk result (λ next. (more : List SomeLines)
        → modules.old.items
        ++ joined_if last (joined (record { name = name.now; text = line.now }) more)
        ≡ modules.new.items ++ joined next more) }
{
    if let Some(last) = last {
        if last.is_of(name) {
            return last.with(line);
        }
        modules.push(last)?;
    }
    ModuleLines::new(alloc, name, line)
}

/// The lines of a listing that are of modules, as they follow each other.
pub(crate) fn modules_in(alloc: Global, text: &[u8]) -> Result<Vec<ModuleLines>, AllocError>
    ensures { IfOk result (λ modules. modules.items ≡ modules_in (lines text.now)) }
{
    let mut modules = Vec::new(alloc);
    let mut last = None;
    let mut rest = text;
    while !rest.is_empty() {
        let (line, more) = first_line(rest);
        if let Some(name) = module_in(without_end(line)) {
            last = Some(go_on(alloc, &mut modules, last, name, line)?);
        }
        rest = more;
    }
    with_last(modules, last)
}

/// These lines, and the last ones, if there are any.
fn with_last(
    modules: Vec<ModuleLines>,
    last: Option<ModuleLines>,
) -> Result<Vec<ModuleLines>, AllocError>
    ensures { IfOk result (λ all. all.items ≡ modules.items ++ joined_if last []) }
{
    let mut all = modules;
    if let Some(last) = last {
        all.push(last)?;
    }
    Ok(all)
}

/// The lines of the module of this name.
pub(crate) fn text_of(
    alloc: Global,
    modules: &[ModuleLines],
    name: &[u8],
) -> Result<Vec<u8>, AllocError>
    ensures { IfOk result (λ text. text.items ≡ text_of modules.now name.now) }
{
    let mut text = Vec::new(alloc);
    let mut rest = modules;
    while let [lines, more @ ..] = rest {
        if lines.is_of(name) {
            text.extend_from_slice(&lines.text)?;
        }
        rest = more;
    }
    Ok(text)
}
