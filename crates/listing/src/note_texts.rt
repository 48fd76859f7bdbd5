//! The texts of the notes that name nothing, for both the commands and the library for C. The other
//! notes name a symbol or what to leave out, and each of the two has its own texts for them.
ghost use Rattle.std.specs.Prelude.{◌≡◌, ◌++◌, ◌∷◌, [], IfSome};
ghost use Rattle.std.specs.Option.{option_copied};
ghost use Rattle.listing.specs.NoteTexts.{ended_text, plain_text, without_last};

use crate::listing_notes::ListingNote;

const EMPTY: &[u8] = b"is empty\0";

const GZIP: &[u8] = b"is compressed by gzip; unpack it first\0";

const UTF_16: &[u8] = b"is UTF-16; convert it first\0";

const ALL_HIDDEN: &[u8] = b"every address is 0; read it as root (kernel.kptr_restrict)\0";

const LOOKS_LIKE_SYMBOLS: &[u8] = b"looks like a listing of symbols\0";

const LOOKS_LIKE_MODULES: &[u8] = b"looks like a listing of modules\0";

const LINES_END_IN_CR_LF: &[u8] = b"lines end in CR LF\0";

const OTHER_BOOT: &[u8] = b"no symbol lies in a listed module; are both listings of one boot?\0";

const NO_MODULE_LINE: &[u8] = b"no line is of the form of /proc/modules\0";

const NO_SYMBOL_LINE: &[u8] = b"no line is of the form of /proc/kallsyms\0";

/// What a note says that names nothing, with a 0 at the end, as C wants it.
pub fn ended_text(note: ListingNote) -> Option<&'static [u8]>
    ensures text { option_copied result ≡ ended_text note }
    ensures ended { IfSome result (λ t. t.now ≡ without_last t.now ++ 0 ∷ []) }
{
    match note {
        ListingNote::Empty => Some(EMPTY),
        ListingNote::Gzip => Some(GZIP),
        ListingNote::Utf16 => Some(UTF_16),
        ListingNote::AllHidden => Some(ALL_HIDDEN),
        ListingNote::LooksLikeSymbols => Some(LOOKS_LIKE_SYMBOLS),
        ListingNote::LooksLikeModules => Some(LOOKS_LIKE_MODULES),
        ListingNote::LinesEndInCrLf => Some(LINES_END_IN_CR_LF),
        ListingNote::OtherBoot => Some(OTHER_BOOT),
        ListingNote::NoModuleLine => Some(NO_MODULE_LINE),
        ListingNote::NoSymbolLine => Some(NO_SYMBOL_LINE),
        ListingNote::NoStart
        | ListingNote::NoEnd
        | ListingNote::ModulesOverlap
        | ListingNote::UnlistedOwner(_) => None,
    }
}

/// A text without its last byte.
fn without_last(text: &'static [u8]) -> &'static [u8]
    ensures { result.now ≡ without_last text.now }
{
    match text {
        [front @ .., _] => front,
        [] => text,
    }
}

/// What a note says that names nothing.
pub fn plain_text(note: ListingNote) -> Option<&'static [u8]>
    ensures { option_copied result ≡ plain_text note }
{
    match ended_text(note) {
        Some(text) => Some(without_last(text)),
        None => None,
    }
}
