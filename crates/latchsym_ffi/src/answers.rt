//! The numbers that calls return. Each means one thing, whatever call returns it.

ghost use Rattle.std.specs.Prelude.{◌≡◌, ◌++◌, [], ◌∷◌, Some, find};
ghost use Rattle.latchsym_ffi.specs.declared.answers.CallOutcome.{CallOutcome as Told};
ghost use Rattle.latchsym_ffi.specs.AnswerTexts.{text_with};
ghost use Rattle.latchsym_ffi.specs.Answers.{answer_number, answer_with, has_number, note_number};
ghost use Rattle.latchsym_ffi.specs.Answers.{number_if_noted, of_any_owner};

use crate::answer_texts::{text_of_answer, text_of_none};
use listing::{ListingNote, Owner};
use order_laws::Refusal;

/// The call did what it was asked for: of a search, something was found; of a step, no update is
/// pending any more.
pub(crate) const DONE: u32 = 0;

/// A listing has a line that is not in its grammar.
pub(crate) const BAD_LINE: u32 = 15;

/// The address lies in a region, and no symbol of it is at or below the address.
pub(crate) const NO_SYMBOL: u32 = 21;

/// Nothing is there.
pub(crate) const NOTHING: u32 = 22;

/// The writer flipped meanwhile: another attempt is to be made.
pub(crate) const RETRY: u32 = 23;

/// Other calls have all readers of a pool.
const BUSY: u32 = 24;

/// A follower has forgotten the catalog of the moment, or had none then.
pub(crate) const FORGOTTEN: u32 = 25;

/// A step was a flip of the sequence.
pub(crate) const FLIP: u32 = 31;

/// A step was a store of another word.
pub(crate) const STORE: u32 = 32;

/// The handle holds nothing, or something else than is wanted.
pub(crate) const BAD_HANDLE: u32 = 101;

/// There is not as much room as there are addresses.
pub(crate) const BAD_LENGTH: u32 = 102;

/// The struct of the listings is not one of this version, or has one that it says is not there.
pub(crate) const BAD_LISTINGS: u32 = 103;

/// A stamp lies below the stamp of a catalog that was shown before.
pub(crate) const BAD_STAMP: u32 = 104;

/// What a call returns.
#[derive(Clone, Copy, Drop)]
pub enum CallOutcome {
    Done,
    Refused(Refusal),
    BadLine,
    NoSymbol,
    Nothing,
    Retry,
    Busy,
    Forgotten,
    Flip,
    Store,
    Noted(ListingNote),
    BadHandle,
    BadLength,
    BadListings,
    BadStamp,
}

/// All that a call returns, of the crates below, of this one and of the header, by rising number.
const ALL: [CallOutcome; 42] = [
    CallOutcome::Done,
    CallOutcome::Refused(Refusal::BadItem),
    CallOutcome::Refused(Refusal::Overlap),
    CallOutcome::Refused(Refusal::NoSuchItem),
    CallOutcome::Refused(Refusal::Full),
    CallOutcome::Refused(Refusal::UpdateInHand),
    CallOutcome::Refused(Refusal::SequenceSpent),
    CallOutcome::Refused(Refusal::OutOfMemory),
    CallOutcome::Refused(Refusal::ReaderBusy),
    CallOutcome::Refused(Refusal::ReaderIdle),
    CallOutcome::Refused(Refusal::BadCapacity),
    CallOutcome::Refused(Refusal::UnknownModule),
    CallOutcome::Refused(Refusal::AlreadyLoaded),
    CallOutcome::Refused(Refusal::NotLoaded),
    CallOutcome::Refused(Refusal::TooManyRegions),
    CallOutcome::BadLine,
    CallOutcome::Refused(Refusal::NoInit),
    CallOutcome::NoSymbol,
    CallOutcome::Nothing,
    CallOutcome::Retry,
    CallOutcome::Busy,
    CallOutcome::Forgotten,
    CallOutcome::Flip,
    CallOutcome::Store,
    CallOutcome::Noted(ListingNote::Gzip),
    CallOutcome::Noted(ListingNote::AllHidden),
    CallOutcome::Noted(ListingNote::LooksLikeSymbols),
    CallOutcome::Noted(ListingNote::LooksLikeModules),
    CallOutcome::Noted(ListingNote::LinesEndInCrLf),
    CallOutcome::Noted(ListingNote::NoStart),
    CallOutcome::Noted(ListingNote::NoEnd),
    CallOutcome::Noted(ListingNote::OtherBoot),
    CallOutcome::Noted(ListingNote::NoModuleLine),
    CallOutcome::Noted(ListingNote::NoSymbolLine),
    CallOutcome::Noted(ListingNote::ModulesOverlap),
    CallOutcome::Noted(ListingNote::Empty),
    CallOutcome::Noted(ListingNote::Utf16),
    CallOutcome::Noted(ListingNote::UnlistedOwner(Owner::Bpf)),
    CallOutcome::BadHandle,
    CallOutcome::BadLength,
    CallOutcome::BadListings,
    CallOutcome::BadStamp,
];

/// The first of these answers that has a number.
fn first_with(answers: &[CallOutcome], number: u32) -> Option<CallOutcome>
    ensures { result ≡ find (has_number number) answers.now }
{
    for answer in answers {
        if answer.has_number(number) {
            return Some(*answer);
        }
    }
    None
}

impl CallOutcome {
    /// Its number.
    fn number(self) -> u32
        ensures { result ≡ answer_number self }
    {
        match self {
            CallOutcome::Done => DONE,
            CallOutcome::Refused(refusal) => refusal.number(),
            CallOutcome::BadLine => BAD_LINE,
            CallOutcome::NoSymbol => NO_SYMBOL,
            CallOutcome::Nothing => NOTHING,
            CallOutcome::Retry => RETRY,
            CallOutcome::Busy => BUSY,
            CallOutcome::Forgotten => FORGOTTEN,
            CallOutcome::Flip => FLIP,
            CallOutcome::Store => STORE,
            CallOutcome::Noted(note) => number_of_note(note),
            CallOutcome::BadHandle => BAD_HANDLE,
            CallOutcome::BadLength => BAD_LENGTH,
            CallOutcome::BadListings => BAD_LISTINGS,
            CallOutcome::BadStamp => BAD_STAMP,
        }
    }

    /// Whether it has a number.
    #[tactic(auto, unfolding(crate::specs::Answers::has_number))]
    fn has_number(&self, number: u32) -> bool
        ensures { result ≡ has_number number self.now }
    {
        self.number() == number
    }

    /// The answer of a number.
    fn with_number(number: u32) -> Option<CallOutcome>
        ensures { result ≡ answer_with number }
    {
        first_with(&ALL, number)
    }
}

/// The number of a note on a listing.
fn number_of_note(note: ListingNote) -> u32
    ensures { result ≡ note_number note }
{
    match note {
        ListingNote::Gzip => 41,
        ListingNote::AllHidden => 42,
        ListingNote::LooksLikeSymbols => 43,
        ListingNote::LooksLikeModules => 44,
        ListingNote::LinesEndInCrLf => 45,
        ListingNote::NoStart => 46,
        ListingNote::NoEnd => 47,
        ListingNote::OtherBoot => 48,
        ListingNote::NoModuleLine => 49,
        ListingNote::NoSymbolLine => 50,
        ListingNote::ModulesOverlap => 51,
        ListingNote::Empty => 52,
        ListingNote::Utf16 => 53,
        ListingNote::UnlistedOwner(_) => 54,
    }
}

/// The number of a note, or of nothing if there is none.
pub(crate) fn number_if_noted(note: Option<ListingNote>) -> u32
    ensures { result ≡ number_if_noted note }
{
    match note {
        Some(note) => number_of_note(note),
        None => NOTHING,
    }
}

/// The text of a number, with a 0 at the end.
pub(crate) fn text_of(number: u32) -> &'static [u8]
    ensures { result.now ≡ text_with number ++ 0 ∷ [] }
{
    match CallOutcome::with_number(number) {
        Some(answer) => text_of_answer(answer),
        None => text_of_none(),
    }
}

/// A number means one thing: no two answers have it that differ in more than the owner of a note.
#[tactic(auto, unfolding(crate::specs::Answers::has_number))]
fn numbers_mean_one_thing()
    ensures { (a : Told) → answer_with (answer_number a) ≡ Some (of_any_owner a) }
{}
