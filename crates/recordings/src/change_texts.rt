//! The lines of a change.
ghost use Rattle.std.specs.Prelude.{◌≡◌, ◌++◌, OnOk};
ghost use Rattle.recordings.specs.Changes.{texts};
ghost use Rattle.recordings.specs.ChangeTexts.{gone_line, gone_line_of, gone_lines};
ghost use Rattle.recordings.specs.ChangeTexts.{header_line, own_lines, texts_among};

use crate::changes::is_among;
use crate::events::is_word;
use crate::module_lines::{ModuleLines, text_of};
use std::alloc::{AllocError, Global};

/// Puts the header of a listing or of a change.
pub(crate) fn put_header(out: &mut Vec<u8>, word: &[u8], time: &[u8]) -> Result<(), AllocError>
    ensures { OnOk result (out.new.items ≡ out.old.items ++ header_line word.now time.now) }
{
    out.extend_from_slice(word)?;
    out.extend_from_slice(time)?;
    out.push(b'\n')?;
    Ok(())
}

/// Puts that a module is gone.
fn put_gone(out: &mut Vec<u8>, name: &[u8]) -> Result<(), AllocError>
    ensures { OnOk result (out.new.items ≡ out.old.items ++ gone_line name.now) }
{
    if !is_word(name) {
        return Ok(());
    }
    out.extend_from_slice(b"gone ")?;
    out.extend_from_slice(name)?;
    out.push(b'\n')?;
    Ok(())
}

/// Puts the lines of the module that a change is about, or that it is gone.
pub(crate) fn put_own(out: &mut Vec<u8>, name: &[u8], own: &[u8]) -> Result<(), AllocError>
    ensures { OnOk result (out.new.items ≡ out.old.items ++ own_lines name.now own.now) }
{
    if own.is_empty() {
        return put_gone(out, name);
    }
    out.extend_from_slice(own)?;
    Ok(())
}

/// Puts the lines of the modules of these names.
pub(crate) fn put_among(
    out: &mut Vec<u8>,
    names: &[&[u8]],
    now: &[ModuleLines],
) -> Result<(), AllocError>
    ensures { OnOk result (out.new.items
        ≡ out.old.items ++ texts_among (texts names.now) now.now) }
{
    let mut rest = now;
    while let [lines, more @ ..] = rest {
        if is_among(names, &lines.name) {
            out.extend_from_slice(&lines.text)?;
        }
        rest = more;
    }
    Ok(())
}

/// Puts that the module of this name is gone, if it is.
fn put_if_gone(
    alloc: Global,
    out: &mut Vec<u8>,
    name: &[u8],
    now: &[ModuleLines],
) -> Result<(), AllocError>
    ensures { OnOk result (out.new.items ≡ out.old.items ++ gone_line_of now.now name.now) }
{
    if text_of(alloc, now, name)?.is_empty() {
        put_gone(out, name)?;
    }
    Ok(())
}

/// Puts which of the modules of these names are gone.
pub(crate) fn put_all_gone(
    alloc: Global,
    out: &mut Vec<u8>,
    names: &[&[u8]],
    now: &[ModuleLines],
) -> Result<(), AllocError>
    ensures { OnOk result (out.new.items
        ≡ out.old.items ++ gone_lines (texts names.now) now.now) }
{
    let mut rest = names;
    while let [name, more @ ..] = rest {
        put_if_gone(alloc, out, name, now)?;
        rest = more;
    }
    Ok(())
}
