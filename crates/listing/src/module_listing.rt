//! Listings of modules, in the form of /proc/modules.
//!
//! Each line is a module, or is skipped for the first cause that holds of it:
//!
//! ```text
//! ext4 1200128 1 - Live 0xffffffffc0c00000 (E)
//! NAME SIZE    not      BASE               not looked at
//!              looked at
//! ```
ghost use Rattle.std.specs.Prelude.{◌≡◌, true, All, map, refl, IfOk};
ghost use Rattle.texts.specs.Lines.{lines_of};
ghost use Rattle.texts.specs.Numbers.{numeral};
ghost use Rattle.listing.specs.ModuleListing.{base_of, module_cause_name, module_causes};
ghost use Rattle.listing.specs.ModuleListing.{module_counts, module_of_line, module_of_words};
ghost use Rattle.listing.specs.ModuleListing.{module_of_parts, module_place, modules_in};
ghost use Rattle.listing.specs.declared.module_listing.SkippedModule.TheVariants.{Hidden, Empty};
ghost use Rattle.listing.specs.declared.module_listing.SkippedModule.TheVariants.{Wraps, Long};
ghost use Rattle.listing.specs.declared.module_listing.SkippedModule.TheVariants.{Malformed};
ghost use Rattle.modules.specs.Lines.{fits};

use crate::causes::{Cause, Counts, EMPTY, HIDDEN, LONG, MALFORMED, WRAPS};
use crate::gaps::first_words;
use modules::ModuleLine;
use std::alloc::{AllocError, Global};
use texts::{LONGEST_LINE, cut_line, decimal, hexadecimal};

/// Why a line of a listing of modules is skipped. The causes are in the order in which their
/// counts are written, and a line is skipped for the first that holds of it in the order long,
/// malformed, hidden, empty, wraps.
#[derive(Clone, Copy, Debug, PartialEq, Eq, Drop)]
pub enum SkippedModule {
    /// Its base is 0, as it is shown to a reader without privileges.
    Hidden,
    /// Its size is 0.
    Empty,
    /// Its region goes past the greatest address.
    Wraps,
    /// It has more than 4096 bytes.
    Long,
    /// It has fewer than six words, or its size or its base is no number of the form.
    Malformed,
}

const ALL: [SkippedModule; 5] = [
    SkippedModule::Hidden,
    SkippedModule::Empty,
    SkippedModule::Wraps,
    SkippedModule::Long,
    SkippedModule::Malformed,
];

impl Cause<5> for SkippedModule {
    ghost causes = { module_causes };

    ghost place_of = { module_place };

    ghost name_of = { module_cause_name };

    fn all() -> &'static [SkippedModule] {
        &ALL
    }

    fn place(self) -> usize {
        self as usize
    }

    fn name(self) -> &'static str {
        match self {
            SkippedModule::Hidden => HIDDEN,
            SkippedModule::Empty => EMPTY,
            SkippedModule::Wraps => WRAPS,
            SkippedModule::Long => LONG,
            SkippedModule::Malformed => MALFORMED,
        }
    }

    ghost at_place = { elim [
      | Hidden ↦ refl
      | Empty ↦ refl
      | Wraps ↦ refl
      | Long ↦ refl
      | Malformed ↦ refl
    ] };

    ghost in_order = { refl };
}

/// How many lines of a listing of modules were skipped, by cause.
pub type ModuleCounts = Counts<SkippedModule, 5>;

/// The base of a module: `0x` and 1 to 16 hexadecimal digits.
fn base(word: &[u8]) -> Option<u64>
    ensures { result ≡ base_of word.now }
{
    if word.starts_with(b"0x") {
        hexadecimal(&word[2..])
    } else {
        None
    }
}

/// The module of this name, if its size and its base are numbers.
fn make_module<'a>(name: &'a [u8], size: &[u8], start: &[u8]) -> Option<ModuleLine<'a>>
    ensures { result ≡ module_of_parts name.now (numeral 10 20 size.now) (base_of start.now) }
{
    Some(ModuleLine {
        name,
        size: decimal(size)?,
        base: base(start)?,
    })
}

/// The module that these words are.
fn module_in_words<'a>(words: &[&'a [u8]]) -> Option<ModuleLine<'a>>
    ensures { result ≡ module_of_words (map (λ w. w.now) words.now) }
{
    match words {
        [name, size, _, _, _, start, ..] => make_module(name, size, start),
        _ => None,
    }
}

/// The module that a line is, or the first cause for which it is skipped.
#[tactic(auto, using(crate::proofs::ModuleLineLemmas::six_words))]
pub(crate) fn module_in<'a>(line: &'a [u8]) -> Result<ModuleLine<'a>, SkippedModule>
    ensures { result ≡ module_of_line line.now }
{
    if line.len() > LONGEST_LINE {
        return Err(SkippedModule::Long);
    }
    let Some(module) = module_in_words(&first_words::<6>(line)) else {
        return Err(SkippedModule::Malformed);
    };
    if module.base == 0 {
        Err(SkippedModule::Hidden)
    } else if module.size == 0 {
        Err(SkippedModule::Empty)
    } else if module.size > u64::MAX - module.base {
        Err(SkippedModule::Wraps)
    } else {
        Ok(module)
    }
}

/// The modules of a listing in the form of /proc/modules, and how many of its lines were skipped.
///
/// Words are separated by blanks and tabs, any number of them. A line is skipped as long if it
/// has more than [`LONGEST_LINE`](texts::LONGEST_LINE) bytes, else as malformed if it has fewer
/// than six words, or the second is not 1 to 20 decimal digits of a 64-bit number (the size) or the
/// sixth not `0x` and 1 to 16 hexadecimal digits (the base), else as hidden if the base is 0, as
/// empty if the size is 0, and as one that wraps if the region goes past the greatest address. The
/// names are parts of the text.
pub fn read_modules<'a>(
    alloc: Global,
    text: &'a [u8],
) -> Result<(Vec<ModuleLine<'a>>, ModuleCounts), AllocError>
    ensures modules { IfOk result (λ r. r.0.items ≡ modules_in (lines_of text.now)) }
    ensures counts { IfOk result (λ r. r.1.by_place ≡ module_counts (lines_of text.now)) }
    ensures fit { IfOk result (λ r. All (λ m. fits m ≡ true) r.0.items) }
{
    let mut modules = Vec::new(alloc);
    let mut counts = ModuleCounts::new();
    let mut rest = text;
    while !rest.is_empty() {
        let (line, after) = cut_line(rest);
        match module_in(line) {
            Ok(module) => modules.push(module)?,
            Err(cause) => counts.add(cause),
        }
        rest = after;
    }
    Ok((modules, counts))
}
