//! Notes on unusable listings, so that a run over one does not look like a success.
//!
//! Notes are decided when the catalog is built, mostly from what was counted for it. The listing of
//! symbols is gone through again only if none of its lines is kept, if the kernel itself has no
//! region or if a module is left out.
ghost use Rattle.std.specs.Prelude.{◌≡◌, find, true};
ghost use Rattle.std.specs.Option.{option_copied};
ghost use Rattle.texts.specs.Lines.{lines_of};
ghost use Rattle.listing.specs.Looks.{are_modules_hidden, are_symbols_hidden};
ghost use Rattle.listing.specs.ModuleListing.{modules_in};
ghost use Rattle.listing.specs.Owners.{unlisted_owner};
ghost use Rattle.listing.specs.SymbolListing.{symbols_in, symbols_with};
ghost use Rattle.listing.specs.ListingNotes.{all_notes, has_symbols, HasBounds};
ghost use Rattle.listing.specs.ListingNotes.{is_of_kallsyms, is_of_modules, is_some_noted};
ghost use Rattle.listing.specs.ListingNotes.{lacks_symbol, lacks_symbols, no_notes};

use crate::looks::{
    first_line_ends_in_cr, is_gzip, is_utf_16, kernel_symbols, lacks_module_lines,
    lacks_symbol_lines, looks_like_modules, looks_like_symbols,
};
use crate::overlaps::do_modules_overlap;
use crate::owners::Owner;
use modules::{Catalog, KernelBounds, Module};

/// What is noted of a listing. The notes are in the order in which the first that applies to a
/// listing is sought.
#[derive(Clone, Copy, Debug, PartialEq, Eq, Drop)]
pub enum ListingNote {
    /// There is no byte, and no listing of modules beside it.
    Empty,
    /// The text is a file that gzip made.
    Gzip,
    /// The text is in UTF-16.
    Utf16,
    /// All well-formed lines are hidden, as they are to a reader without privileges.
    AllHidden,
    /// No line is accepted as a module, and the first well-formed one is a symbol.
    LooksLikeSymbols,
    /// No line is kept as a symbol, and the first well-formed one is a module.
    LooksLikeModules,
    /// No line is kept, and the first ends in a carriage return.
    LinesEndInCrLf,
    /// There are symbols of the kernel itself, and none at its first address.
    NoStart,
    /// There are symbols of the kernel itself, and none at its end.
    NoEnd,
    /// No symbol of a listed module lies in its region.
    OtherBoot,
    /// A symbol names a listed module that is left out, since its region meets others.
    ModulesOverlap,
    /// There are bytes, and no line is well formed in a listing of modules.
    NoModuleLine,
    /// There are bytes, and no line is well formed in a listing of symbols.
    NoSymbolLine,
    /// A symbol is of what no listing of modules has; the first such is of this owner.
    UnlistedOwner(Owner),
}

/// The first note that applies to each listing, if one does.
#[derive(Clone, Copy, Debug, PartialEq, Eq, Drop)]
pub struct ListingNotes {
    pub modules: Option<ListingNote>,
    pub kallsyms: Option<ListingNote>,
}

/// All notes, in the order in which the first that applies to a listing is sought.
const ALL: [ListingNote; 16] = [
    ListingNote::Empty,
    ListingNote::Gzip,
    ListingNote::Utf16,
    ListingNote::AllHidden,
    ListingNote::LooksLikeSymbols,
    ListingNote::LooksLikeModules,
    ListingNote::LinesEndInCrLf,
    ListingNote::NoStart,
    ListingNote::NoEnd,
    ListingNote::OtherBoot,
    ListingNote::ModulesOverlap,
    ListingNote::NoModuleLine,
    ListingNote::NoSymbolLine,
    ListingNote::UnlistedOwner(Owner::Bpf),
    ListingNote::UnlistedOwner(Owner::Ftrace),
    ListingNote::UnlistedOwner(Owner::Kprobes),
];

impl ListingNote {
    /// All notes, in that order.
    pub fn all() -> &'static [ListingNote]
        ensures { result.now ≡ all_notes }
    {
        &ALL
    }
}

impl ListingNotes {
    /// The notes of a job without listings.
    pub fn none() -> ListingNotes
        ensures { result ≡ no_notes }
    {
        ListingNotes {
            modules: None,
            kallsyms: None,
        }
    }

    /// Whether something is noted.
    pub fn any(&self) -> bool
        ensures { result ≡ is_some_noted self.now }
    {
        self.modules.is_some() || self.kallsyms.is_some()
    }
}

/// Whether modules are listed and none of them has a symbol.
#[tactic(auto, using(crate::proofs::ListingNoteLemmas::one_has_some))]
fn lacks_symbols(catalog: &Catalog) -> bool
    ensures { result ≡ lacks_symbols catalog.now }
{
    let count = catalog.len();
    for place in 0..count {
        if has_symbols(catalog.module(place + 1)) {
            return false;
        }
    }
    count > 0
}

/// Whether the module is there and has symbols.
fn has_symbols(found: Option<&Module>) -> bool
    ensures { result ≡ has_symbols (option_copied found.entry) }
{
    match found {
        Some(module) => !module.symbols().is_empty(),
        None => false,
    }
}

/// What is known of a listing of modules once it is read.
#[derive(Clone, Copy, Drop)]
pub struct ModuleFacts {
    /// All well-formed lines are hidden, and there is one.
    pub hidden: bool,
    /// Mapping symbols may be kept.
    pub with_mapping: bool,
    /// The owner of the first symbol that may be kept and is of what no listing of modules has.
    pub unlisted: Option<Owner>,
}

/// Whether a note applies to a listing of modules with this text beside one of symbols, if this
/// catalog is built of both and this is known.
pub fn applies_to_modules(
    note: ListingNote,
    text: &[u8],
    kallsyms: &[u8],
    known: ModuleFacts,
    catalog: &Catalog,
) -> bool
    requires hidden { known.hidden ≡ are_modules_hidden (lines_of text.now) }
    requires unlisted { known.unlisted ≡ unlisted_owner (modules_in (lines_of text.now))
        (symbols_with known.with_mapping (symbols_in (lines_of kallsyms.now))) }
    ensures { result ≡ is_of_modules known.with_mapping text.now kallsyms.now catalog.now note }
{
    let none = catalog.len() == 0;
    match note {
        ListingNote::Gzip => is_gzip(text),
        ListingNote::Utf16 => is_utf_16(text),
        ListingNote::AllHidden => known.hidden,
        ListingNote::LooksLikeSymbols => none && looks_like_symbols(text),
        ListingNote::LinesEndInCrLf => none && first_line_ends_in_cr(text),
        ListingNote::OtherBoot => lacks_symbols(catalog),
        ListingNote::ModulesOverlap => do_modules_overlap(text, kallsyms, catalog),
        ListingNote::NoModuleLine => none && lacks_module_lines(text),
        ListingNote::UnlistedOwner(owner) => !known.with_mapping && owner.is(known.unlisted),
        ListingNote::Empty
        | ListingNote::LooksLikeModules
        | ListingNote::NoStart
        | ListingNote::NoEnd
        | ListingNote::NoSymbolLine => false,
    }
}

/// The first note on such a listing of modules.
pub fn note_of_modules(
    text: &[u8],
    kallsyms: &[u8],
    known: ModuleFacts,
    catalog: &Catalog,
) -> Option<ListingNote>
    requires hidden { known.hidden ≡ are_modules_hidden (lines_of text.now) }
    requires unlisted { known.unlisted ≡ unlisted_owner (modules_in (lines_of text.now))
        (symbols_with known.with_mapping (symbols_in (lines_of kallsyms.now))) }
    ensures { result
        ≡ find (is_of_modules known.with_mapping text.now kallsyms.now catalog.now) all_notes }
{
    ListingNote::all().iter().copied().find(|note| applies_to_modules(
        *note, text, kallsyms, known, catalog,
    ))
}

/// What is known of a listing of symbols once it is read.
#[derive(Clone, Copy, Drop)]
pub struct SymbolFacts {
    /// There is no listing of modules beside it.
    pub is_alone: bool,
    /// All well-formed lines are hidden, and there is one.
    pub hidden: bool,
    /// How many lines are kept.
    pub kept: u64,
    /// Both names that bound the kernel are known to be listed. If it is not set, they are
    /// sought in the text.
    pub has_kernel: bool,
}

/// Whether a note applies to a listing of symbols with this text, if these facts are known and
/// these names bound the kernel.
pub fn applies_to_kallsyms(
    note: ListingNote,
    text: &[u8],
    names: &KernelBounds,
    facts: SymbolFacts,
) -> bool
    requires hidden { facts.hidden ≡ are_symbols_hidden (lines_of text.now) }
    requires kernel { facts.has_kernel ≡ true
        → HasBounds names.now (symbols_in (lines_of text.now)) }
    ensures { result ≡ is_of_kallsyms names.now facts.is_alone text.now facts.kept note }
{
    let none = facts.kept == 0;
    match note {
        ListingNote::Empty => facts.is_alone && text.is_empty(),
        ListingNote::Gzip => is_gzip(text),
        ListingNote::Utf16 => is_utf_16(text),
        ListingNote::AllHidden => facts.hidden,
        ListingNote::LooksLikeModules => none && looks_like_modules(text),
        ListingNote::LinesEndInCrLf => none && first_line_ends_in_cr(text),
        ListingNote::NoStart => lacks_bounds(text, names, facts.has_kernel).0,
        ListingNote::NoEnd => lacks_bounds(text, names, facts.has_kernel).1,
        ListingNote::NoSymbolLine => none && lacks_symbol_lines(text),
        ListingNote::LooksLikeSymbols
        | ListingNote::OtherBoot
        | ListingNote::ModulesOverlap
        | ListingNote::NoModuleLine
        | ListingNote::UnlistedOwner(_) => false,
    }
}

/// The first note on such a listing of symbols.
pub fn note_of_kallsyms(
    text: &[u8],
    names: &KernelBounds,
    facts: SymbolFacts,
) -> Option<ListingNote>
    requires hidden { facts.hidden ≡ are_symbols_hidden (lines_of text.now) }
    requires kernel { facts.has_kernel ≡ true
        → HasBounds names.now (symbols_in (lines_of text.now)) }
    ensures { result
        ≡ find (is_of_kallsyms names.now facts.is_alone text.now facts.kept) all_notes }
{
    ListingNote::all()
        .iter()
        .copied()
        .find(|note| applies_to_kallsyms(*note, text, names, facts))
}

/// Whether symbols of the kernel itself are listed, and none at its first address; and whether they
/// are, and none at its end. If both its bounds are known to be listed, nothing is sought.
fn lacks_bounds(text: &[u8], names: &KernelBounds, has_kernel: bool) -> (bool, bool)
    requires { has_kernel ≡ true → HasBounds names.now (symbols_in (lines_of text.now)) }
    ensures start { result.0 ≡ lacks_symbol names.now.start (symbols_in (lines_of text.now)) }
    ensures end { result.1 ≡ lacks_symbol names.now.end (symbols_in (lines_of text.now)) }
{
    if has_kernel {
        return (false, false);
    }
    let shown = kernel_symbols(text, names);
    (shown.any && !shown.start, shown.any && !shown.end)
}
