//! The texts of the numbers that calls return, each with a 0 at its end. `listing` has the texts of
//! the notes that the commands say in these words too.

ghost use Rattle.std.specs.Prelude.{◌≡◌, ◌++◌, [], ◌∷◌};
ghost use Rattle.latchsym_ffi.specs.AnswerTexts.{answer_text, no_text, note_text, own_text};
ghost use Rattle.latchsym_ffi.specs.AnswerTexts.{refusal_text};

use crate::answers::CallOutcome;
use listing::{ListingNote, ended_text};
use order_laws::Refusal;

// of answers
const DONE: &[u8] = b"done\0";

const BAD_LINE: &[u8] = b"a line of the listing of regions is not one\0";

const NO_SYMBOL: &[u8] = b"no symbol of the region is at or below the address\0";

const NOTHING: &[u8] = b"nothing is there\0";

const RETRY: &[u8] = b"the writer flipped meanwhile: try again\0";

const BUSY: &[u8] = b"other calls have all readers of the pool: try again\0";

const FORGOTTEN: &[u8] = b"the follower has no listing of that moment\0";

const FLIP: &[u8] = b"a flip of the sequence\0";

const STORE: &[u8] = b"a store of a word\0";

const BAD_HANDLE: &[u8] = b"the handle does not fit the call\0";

const BAD_LENGTH: &[u8] = b"an array has another length than is needed\0";

const BAD_LISTINGS: &[u8] = b"the listings are not as this version has them\0";

const BAD_STAMP: &[u8] = b"the stamp lies below that of a listing shown before\0";

// of refusals
const BAD_ITEM: &[u8] = b"the item is empty\0";

const OVERLAP: &[u8] = b"the item overlaps one of the table\0";

const NO_SUCH_ITEM: &[u8] = b"no item of the table begins there\0";

const FULL: &[u8] = b"the table has as many items as nodes\0";

const UPDATE_IN_HAND: &[u8] = b"an update is pending\0";

const SEQUENCE_SPENT: &[u8] = b"the sequence is spent\0";

const OUT_OF_MEMORY: &[u8] = b"out of memory\0";

const READER_BUSY: &[u8] = b"the reader has a pending lookup\0";

const READER_IDLE: &[u8] = b"the reader has no pending lookup\0";

const BAD_CAPACITY: &[u8] = b"the number of nodes or of readers is out of its range\0";

const UNKNOWN_MODULE: &[u8] = b"the catalog has no such module\0";

const ALREADY_LOADED: &[u8] = b"the module is in the table\0";

const NOT_LOADED: &[u8] = b"the module is not in the table\0";

const TOO_MANY_REGIONS: &[u8] = b"more than 7 region lines have one name\0";

const NO_INIT: &[u8] = b"the table has no init region of the module\0";

// of notes
const NO_START: &[u8] = b"has no symbol at the kernel's first address\0";

const NO_END: &[u8] = b"has no symbol at the kernel's end; try the end _einittext\0";

const MODULES_OVERLAP: &[u8] =
    b"modules overlap, as sizes do from Linux 6.4 on; leave their listing out\0";

const UNLISTED_OWNER: &[u8] =
    b"lists no module of some symbols, which are left out; give no modules\0";

const NO_NUMBER: &[u8] = b"no number of this library\0";

/// The text of an answer.
pub(crate) fn text_of_answer(answer: CallOutcome) -> &'static [u8]
    ensures { result.now ≡ answer_text answer ++ 0 ∷ [] }
{
    match answer {
        CallOutcome::Done => DONE,
        CallOutcome::Refused(refusal) => text_of_refusal(refusal),
        CallOutcome::BadLine => BAD_LINE,
        CallOutcome::NoSymbol => NO_SYMBOL,
        CallOutcome::Nothing => NOTHING,
        CallOutcome::Retry => RETRY,
        CallOutcome::Busy => BUSY,
        CallOutcome::Forgotten => FORGOTTEN,
        CallOutcome::Flip => FLIP,
        CallOutcome::Store => STORE,
        CallOutcome::Noted(note) => text_of_note(note),
        CallOutcome::BadHandle => BAD_HANDLE,
        CallOutcome::BadLength => BAD_LENGTH,
        CallOutcome::BadListings => BAD_LISTINGS,
        CallOutcome::BadStamp => BAD_STAMP,
    }
}

/// The text of a refusal.
fn text_of_refusal(refusal: Refusal) -> &'static [u8]
    ensures { result.now ≡ refusal_text refusal ++ 0 ∷ [] }
{
    match refusal {
        Refusal::BadItem => BAD_ITEM,
        Refusal::Overlap => OVERLAP,
        Refusal::NoSuchItem => NO_SUCH_ITEM,
        Refusal::Full => FULL,
        Refusal::UpdateInHand => UPDATE_IN_HAND,
        Refusal::SequenceSpent => SEQUENCE_SPENT,
        Refusal::OutOfMemory => OUT_OF_MEMORY,
        Refusal::ReaderBusy => READER_BUSY,
        Refusal::ReaderIdle => READER_IDLE,
        Refusal::BadCapacity => BAD_CAPACITY,
        Refusal::UnknownModule => UNKNOWN_MODULE,
        Refusal::AlreadyLoaded => ALREADY_LOADED,
        Refusal::NotLoaded => NOT_LOADED,
        Refusal::TooManyRegions => TOO_MANY_REGIONS,
        Refusal::NoInit => NO_INIT,
    }
}

/// The text of a note.
fn text_of_note(note: ListingNote) -> &'static [u8]
    ensures { result.now ≡ note_text note ++ 0 ∷ [] }
{
    match ended_text(note) {
        Some(text) => text,
        None => own_text(note),
    }
}

/// The text of a note that the commands say otherwise; of others that there is no such number.
fn own_text(note: ListingNote) -> &'static [u8]
    ensures { result.now ≡ own_text note ++ 0 ∷ [] }
{
    match note {
        ListingNote::NoStart => NO_START,
        ListingNote::NoEnd => NO_END,
        ListingNote::ModulesOverlap => MODULES_OVERLAP,
        ListingNote::UnlistedOwner(_) => UNLISTED_OWNER,
        ListingNote::Empty
        | ListingNote::Gzip
        | ListingNote::Utf16
        | ListingNote::AllHidden
        | ListingNote::LooksLikeSymbols
        | ListingNote::LooksLikeModules
        | ListingNote::LinesEndInCrLf
        | ListingNote::OtherBoot
        | ListingNote::NoModuleLine
        | ListingNote::NoSymbolLine => NO_NUMBER,
    }
}

/// The text of a number that no call returns.
pub(crate) fn text_of_none() -> &'static [u8]
    ensures { result.now ≡ no_text ++ 0 ∷ [] }
{
    NO_NUMBER
}
