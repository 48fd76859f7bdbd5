//! Which modules have other lines than a history has, and what it has after a change of them.
//!
//! ```text
//!     history    ext4: a b    nf: c    xfs: d
//!     listing    ext4: a               xfs: d e
//!
//!     named by an event: xfs          changed: ext4, nf
//!     after its change   xfs: d e    ext4: a
//! ```
ghost use Rattle.std.specs.Prelude.{◌≡◌, ◌++◌, filter, IfOk, OnOk};
ghost use Rattle.std.specs.List.{fold};
ghost use Rattle.histories.specs.Changes.{is_among};
ghost use Rattle.recordings.specs.Changes.{changed_names, is_changed, is_left, modules_after};
ghost use Rattle.recordings.specs.Changes.{parts_among, texts, with_changed};
ghost use Rattle.recordings.specs.ModuleLines.{names_of};

use crate::module_lines::{ModuleLines, text_of};
use std::alloc::{AllocError, Global};

/// Whether a name is among these.
pub(crate) fn is_among(names: &[&[u8]], name: &[u8]) -> bool
    ensures { result ≡ is_among (texts names.now) name.now }
{
    let mut rest = names;
    while let [other, more @ ..] = rest {
        if name == *other {
            return true;
        }
        rest = more;
    }
    false
}

/// Whether the lines of a module that no event of the block names are others than those that the
/// history has.
fn is_changed(
    alloc: Global,
    named: &[&[u8]],
    now: &[ModuleLines],
    old: &[ModuleLines],
    name: &[u8],
) -> Result<bool, AllocError>
    ensures { IfOk result
        (λ b. b ≡ is_changed (texts named.now) now.now old.now name.now) }
{
    if is_among(named, name) {
        return Ok(false);
    }
    let text = text_of(alloc, now, name)?;
    let before = text_of(alloc, old, name)?;
    Ok(text.as_slice() != before.as_slice())
}

/// Puts the name of a module for which this holds, unless it is there.
fn put_if_changed<'m>(
    alloc: Global,
    named: &[&[u8]],
    now: &[ModuleLines],
    old: &[ModuleLines],
    name: &'m [u8],
    names: &mut Vec<&'m [u8]>,
) -> Result<(), AllocError>
    ensures { OnOk result (texts names.new.items
        ≡ with_changed (texts named.now) now.now old.now (texts names.old.items) name.now) }
{
    if !is_among(names, name) && is_changed(alloc, named, now, old, name)? {
        names.push(name)?;
    }
    Ok(())
}

/// Puts the names of modules for which this holds, each once.
fn put_changed<'m>(
    alloc: Global,
    named: &[&[u8]],
    now: &[ModuleLines],
    old: &[ModuleLines],
    asked: &'m [ModuleLines],
    names: &mut Vec<&'m [u8]>,
) -> Result<(), AllocError>
    ensures { OnOk result (texts names.new.items
        ≡ fold (with_changed (texts named.now) now.now old.now) (texts names.old.items)
        (names_of asked.now)) }
{
    let mut rest = asked;
    while let [lines, more @ ..] = rest {
        put_if_changed(alloc, named, now, old, &lines.name, names)?;
        rest = more;
    }
    Ok(())
}

/// The modules that no event of a block names and whose lines have changed.
pub(crate) fn changed_names<'m>(
    alloc: Global,
    named: &[&[u8]],
    now: &'m [ModuleLines],
    old: &'m [ModuleLines],
) -> Result<Vec<&'m [u8]>, AllocError>
    ensures { IfOk result
        (λ names. texts names.items ≡ changed_names (texts named.now) now.now old.now) }
{
    let mut names = Vec::new(alloc);
    put_changed(alloc, named, now, old, now, &mut names)?;
    put_changed(alloc, named, now, old, old, &mut names)?;
    Ok(names)
}

/// Puts copies of the lines of the modules of these names.
fn copy_among(
    alloc: Global,
    modules: &mut Vec<ModuleLines>,
    names: &[&[u8]],
    now: &[ModuleLines],
) -> Result<(), AllocError>
    ensures { OnOk result (modules.new.items ≡ modules.old.items
        ++ parts_among (texts names.now) now.now) }
{
    let mut rest = now;
    while let [lines, more @ ..] = rest {
        if is_among(names, &lines.name) {
            modules.push(lines.copy(alloc)?)?;
        }
        rest = more;
    }
    Ok(())
}

/// Puts copies of the lines of the modules but for this one and the ones of these names.
fn copy_others(
    alloc: Global,
    modules: &mut Vec<ModuleLines>,
    name: &[u8],
    names: &[&[u8]],
    old: &[ModuleLines],
) -> Result<(), AllocError>
    ensures { OnOk result (modules.new.items ≡ modules.old.items
        ++ filter (is_left name.now (texts names.now)) old.now) }
{
    let mut rest = old;
    while let [lines, more @ ..] = rest {
        if !lines.is_of(name) && !is_among(names, &lines.name) {
            modules.push(lines.copy(alloc)?)?;
        }
        rest = more;
    }
    Ok(())
}

/// The lines of the modules after a change about the module of this name, which has these lines
/// now, and of the other modules of these names.
pub(crate) fn modules_after(
    alloc: Global,
    name: &[u8],
    own: &[u8],
    others: &[&[u8]],
    now: &[ModuleLines],
    old: &[ModuleLines],
) -> Result<Vec<ModuleLines>, AllocError>
    ensures { IfOk result (λ m. m.items
        ≡ modules_after name.now own.now (texts others.now) now.now old.now) }
{
    let mut modules = Vec::new(alloc);
    copy_others(alloc, &mut modules, name, others, old)?;
    if !own.is_empty() {
        modules.push(ModuleLines::new(alloc, name, own)?)?;
    }
    copy_among(alloc, &mut modules, others, now)?;
    Ok(modules)
}
