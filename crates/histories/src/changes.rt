//! What a change makes of a listing.
//!
//! ```text
//!     listing              change               the listing after it
//!
//!     do_one               gone ext4            do_one               kept: of the kernel
//!     ext4_a  [ext4]       xfs_b  [xfs]         nf_a    [nf]         kept: not named
//!     xfs_a   [xfs]                             xfs_b   [xfs]        added
//!     nf_a    [nf]         names: ext4, xfs
//! ```
//!
//! The names are collected first, each once; then each line of the listing is looked at once.
ghost use Rattle.std.specs.Prelude.{◌≡◌, ◌++◌, IfOk, OnOk};
ghost use Rattle.std.specs.Option.{option_copied};
ghost use Rattle.logs.specs.Lines.{lines};
ghost use Rattle.histories.specs.Changes.{added_lines, bad_line_of, changed_by, is_among, is_kept};
ghost use Rattle.histories.specs.Changes.{kept_lines};
ghost use Rattle.histories.specs.Changes.{is_named, named_module, with_named};

use crate::grammar::{Header, gone_in, is_understood_after};
use crate::lines::{line_length, without_end};
use crate::listing_lines::module_in;
use modules::Names;
use std::alloc::{AllocError, Global};

/// The module that a line of a change names, if it names one.
fn named_module(line: &[u8]) -> Option<&[u8]>
    ensures { option_copied result ≡ named_module line.now }
{
    match gone_in(line) {
        Some(name) => Some(name),
        None => module_in(line),
    }
}

/// Puts a name after these, if there is one that is not among them.
fn put_name<'a>(names: &mut Names<'a>, name: Option<&'a [u8]>) -> Result<(), AllocError>
    ensures { OnOk result (names.new ≡ with_named names.old (option_copied name.entry)) }
{
    match name {
        Some(name) => names.put(name),
        None => Ok(()),
    }
}

/// The modules that a change names, each once: of its lines, and of its lines `gone NAME`.
#[tactic(auto, using(crate::proofs::NameLemmas::collected))]
pub fn names_in<'a>(alloc: Global, change: &'a [u8]) -> Result<Names<'a>, AllocError>
    ensures { IfOk result (λ names. is_among names ≡ is_named change.now) }
{
    let mut names = Names::new(alloc);
    let mut rest = change;
    while !rest.is_empty() {
        let end = line_length(rest);
        put_name(&mut names, named_module(without_end(&rest[..end])))?;
        rest = &rest[end..];
    }
    Ok(names)
}

/// The number of the first line of a change that is not understood, from 1 on: a line of the kernel
/// itself, or one that begins with a word of a history and is not `gone NAME`.
pub fn bad_line_of(change: &[u8]) -> Option<u64>
    ensures { result ≡ bad_line_of change.now }
{
    let in_change = Header {
        is_change: true,
        time: 0,
    };
    let mut number = 1;
    let mut rest = change;
    while !rest.is_empty() {
        let end = line_length(rest);
        if !is_understood_after(in_change, without_end(&rest[..end])) {
            return Some(number);
        }
        number += 1;
        rest = &rest[end..];
    }
    None
}

/// Whether a line is kept under a change that names these modules.
fn is_kept(names: &Names, line: &[u8]) -> bool
    ensures { result ≡ is_kept (is_among names.now) line.now }
{
    match module_in(without_end(line)) {
        Some(module) => !names.has(module),
        None => true,
    }
}

/// Puts the lines of a listing that are kept.
fn put_kept(names: &Names, listing: &[u8], out: &mut Vec<u8>) -> Result<(), AllocError>
    ensures { OnOk result (out.new.items ≡ out.old.items
        ++ kept_lines (is_among names.now) (lines listing.now)) }
{
    let mut rest = listing;
    while !rest.is_empty() {
        let end = line_length(rest);
        let line = &rest[..end];
        if is_kept(names, line) {
            out.extend_from_slice(line)?;
        }
        rest = &rest[end..];
    }
    Ok(())
}

/// Puts the lines of a change that are lines of a listing.
fn put_added(change: &[u8], out: &mut Vec<u8>) -> Result<(), AllocError>
    ensures { OnOk result (out.new.items ≡ out.old.items ++ added_lines (lines change.now)) }
{
    let mut rest = change;
    while !rest.is_empty() {
        let end = line_length(rest);
        let line = &rest[..end];
        if gone_in(without_end(line)).is_none() {
            out.extend_from_slice(line)?;
        }
        rest = &rest[end..];
    }
    Ok(())
}

/// A listing after a change.
pub(crate) fn changed_by(
    alloc: Global,
    change: &[u8],
    listing: &[u8],
) -> Result<Vec<u8>, AllocError>
    ensures { IfOk result (λ text. text.items ≡ changed_by change.now listing.now) }
{
    let names = names_in(alloc, change)?;
    let mut text = Vec::with_capacity(alloc, listing.len().saturating_add(change.len()))?;
    put_kept(&names, listing, &mut text)?;
    put_added(change, &mut text)?;
    Ok(text)
}
