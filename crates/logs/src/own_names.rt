//! Which reading of an address the log itself names, and whether it says the answer already.
//!
//! The log knows better than the place in the line whether an address is a return address. The byte
//! after a function is another one's first:
//!
//! ```text
//! [<ffffffff81000110>] do_one+0x10/0x10
//!                      ^^^^^^ ~~~~        a caller's has this name, and this offset
//! ```
ghost use Rattle.std.specs.Prelude.{◌≡◌, false, IfOk, if◌then◌else◌, None, option_map};
ghost use Rattle.std.specs.Option.{option_copied};
ghost use Rattle.logs.specs.OwnNames.{as_read, by_data, by_name, chosen, has_offset, insertion};
ghost use Rattle.logs.specs.OwnNames.{begins_so, is_missing, named_readings, says_itself};
ghost use Rattle.logs.specs.OwnNames.{says_place, says_text, text_for, without_bracket};
ghost use Rattle.logs.specs.SaidNames.{name_said};

use crate::address_words::AddressWord;
use crate::answers::Answers;
use crate::said_names::{SaidName, name_said};
use std::alloc::AllocError;

/// Which readings of an address have the name that the log says.
#[derive(Clone, Copy, Debug, Drop)]
pub struct NamedReadings {
    /// That as a caller's.
    pub as_caller: bool,
    /// That as it is.
    pub as_it_is: bool,
}

/// An address word as it is read, and what is to be said of it.
#[derive(Drop)]
pub(crate) struct Reading<'a> {
    pub(crate) word: AddressWord,
    /// The text of the answer.
    pub(crate) text: Option<Vec<u8>>,
    /// The name that the log says itself.
    pub(crate) said: Option<SaidName<'a>>,
    /// Whether there is a text, and the log does not say it itself.
    is_missing: bool,
}

impl Reading<'_> {
    /// The text that is inserted, if one is.
    pub(crate) fn insertion(self) -> Option<Vec<u8>>
        ensures { option_map (λ v. v.items) result
            ≡ (if self.entry.is_missing then option_map (λ v. v.items) self.entry.text else None) }
    {
        if self.is_missing { self.text } else { None }
    }
}

/// Whether the bytes begin with a blank and the text, perhaps with `? ` or `(` between, up to a
/// `]` at its end.
fn says_itself(rest: &[u8], text: &[u8]) -> bool
    ensures { result ≡ says_itself rest.now text.now }
{
    let text = without_bracket(text);
    let said = if text.is_empty() { text } else { &text[1..] };
    match rest {
        [b' ', more @ ..] => {
            begins_so(more, said)
                || (more.starts_with(b"? ") && begins_so(&more[2..], said))
                || (more.starts_with(b"(") && begins_so(&more[1..], said))
        }
        _ => false,
    }
}

/// Whether the bytes begin with a text. Mostly they differ in the first one.
fn begins_so(bytes: &[u8], text: &[u8]) -> bool
    ensures { result ≡ begins_so bytes.now text.now }
{
    match (bytes, text) {
        ([first, ..], [other, ..]) if first != other => false,
        _ => bytes.starts_with(text),
    }
}

/// The bytes without a `]` at their end.
fn without_bracket(text: &[u8]) -> &[u8]
    ensures { result.now ≡ without_bracket text.now }
{
    if text.ends_with(b"]") {
        &text[..text.len() - 1]
    } else {
        text
    }
}

/// Whether there is a text, and the bytes say it.
fn says_text(rest: &[u8], text: Option<&[u8]>) -> bool
    ensures { result ≡ says_text rest.now (option_copied text.entry) }
{
    match text {
        Some(text) => says_itself(rest, text),
        None => false,
    }
}

/// Which readings of an address have the name that a log says, if it says one.
fn named_readings<A: Answers>(answers: &A, said: Option<&SaidName<'_>>, value: u64) -> NamedReadings
    ensures { result
        ≡ named_readings (A.answering answers.now) (option_copied said.entry) value }
{
    match said {
        Some(said) => answers.named_readings(value, said.name),
        None => NamedReadings {
            as_caller: false,
            as_it_is: false,
        },
    }
}

/// Whether a reading that has the name has the offset too.
#[tactic(auto, unfolding(crate::specs::OwnNames::has_offset))]
fn has_offset<A: Answers>(answers: &A, named: NamedReadings, value: u64, offset: u64) -> bool
    ensures { result ≡ has_offset (A.answering answers.now) named value offset }
{
    (named.as_it_is && answers.is_offset(false, value, offset))
        || (named.as_caller && answers.is_offset(true, value, offset))
}

/// Whether a reading of an address has the name that a log says, as these readings have, and its
/// offset.
#[tactic(auto, unfolding(crate::specs::OwnNames::says_place, crate::specs::OwnNames::has_offset))]
fn says_place<A: Answers>(
    answers: &A,
    named: NamedReadings,
    said: Option<&SaidName<'_>>,
    value: u64,
) -> bool
    requires { named ≡ named_readings (A.answering answers.now) (option_copied said) value }
    ensures { result ≡ says_place (A.answering answers.now) (option_copied said.entry) value }
{
    match said {
        Some(said) => match said.distance.offset {
            Some(offset) => has_offset(answers, named, value, offset),
            None => false,
        },
        None => false,
    }
}

/// The one of both readings that alone has the name, or else the reading of the place.
fn chosen(as_caller: bool, as_it_is: bool, by_place: bool) -> bool
    ensures { result ≡ chosen as_caller as_it_is by_place }
{
    match (as_caller, as_it_is) {
        (true, false) => true,
        (false, true) => false,
        _ => by_place,
    }
}

/// The text of the answer, if it has one and the address is of this kernel.
fn text_for<A: Answers>(answers: &A, taken: AddressWord) -> Result<Option<Vec<u8>>, AllocError>
    ensures { IfOk result
        (λ o. option_map (λ v. v.items) o ≡ text_for (A.answering answers.now) taken) }
{
    if taken.is_foreign {
        return Ok(None);
    }
    answers.text_of(taken.is_caller, taken.value)
}

/// The address word as its place says, or as it is if data begins at it.
fn by_data<A: Answers>(answers: &A, taken: AddressWord) -> AddressWord
    ensures { result ≡ by_data (A.answering answers.now) taken }
{
    AddressWord {
        is_caller: taken.is_caller && !answers.is_data(taken.value),
        ..taken
    }
}

/// The address word by the readings that have the log's name.
fn by_name(named: NamedReadings, taken: AddressWord) -> AddressWord
    ensures { result ≡ by_name named taken }
{
    AddressWord {
        is_caller: chosen(named.as_caller, named.as_it_is, taken.is_caller),
        ..taken
    }
}

/// The text of an address word as the log names it, and whether these bytes say it, if the text of
/// the word as it is placed is there, and they do not say that.
fn text_by_name<A: Answers>(
    answers: &A,
    rest: &[u8],
    placed: AddressWord,
    text: Option<Vec<u8>>,
    word: AddressWord,
) -> Result<(Option<Vec<u8>>, bool), AllocError>
    requires text { option_map (λ v. v.items) text
        ≡ text_for (A.answering answers.now) placed }
    requires unsaid { says_text rest.now (text_for (A.answering answers.now) placed) ≡ false }
    requires word { word ≡ record placed { is_caller = word.is_caller } }
    ensures text { IfOk result (λ r. option_map (λ v. v.items) r.0
        ≡ text_for (A.answering answers.now) word) }
    ensures said { IfOk result (λ r. r.1
        ≡ says_text rest.now (text_for (A.answering answers.now) word)) }
{
    if word.is_caller == placed.is_caller {
        return Ok((text, false));
    }
    let text = text_for(answers, word)?;
    let is_said = says_text(rest, text.as_deref());
    Ok((text, is_said))
}

/// The address word as it is read, before the rest of its line, and the text of the answer. Mostly
/// the log has no name there, or that text itself; then the address is looked up once.
#[tactic(auto, unfolding(crate::specs::OwnNames::as_read))]
pub(crate) fn read_word<'a, A: Answers>(
    answers: &A,
    rest: &'a [u8],
    taken: AddressWord,
) -> Result<Reading<'a>, AllocError>
    ensures word { IfOk result (λ r. r.word ≡ as_read (A.answering answers.now) rest.now taken) }
    ensures text { IfOk result (λ r. option_map (λ v. v.items) r.text
        ≡ text_for (A.answering answers.now) (as_read (A.answering answers.now) rest.now taken)) }
    ensures said { IfOk result (λ r. r.said ≡ name_said rest.now) }
    ensures inserted { IfOk result
        (λ r. (if r.is_missing then option_map (λ v. v.items) r.text else None)
        ≡ insertion (A.answering answers.now) taken.value rest.now
        (text_for (A.answering answers.now) (as_read (A.answering answers.now) rest.now taken))) }
{
    let said = name_said(rest);
    if taken.is_foreign {
        return Ok(Reading {
            word: taken,
            text: None,
            said,
            is_missing: false,
        });
    }
    let placed = by_data(answers, taken);
    let text = text_for(answers, placed)?;
    if says_text(rest, text.as_deref()) {
        return Ok(Reading {
            word: placed,
            text,
            said,
            is_missing: false,
        });
    }
    let named = named_readings(answers, said.as_ref(), taken.value);
    let word = by_name(named, placed);
    let (text, is_said) = text_by_name(answers, rest, placed, text, word)?;
    let is_missing = text.is_some()
        && !(is_said || says_place(answers, named, said.as_ref(), taken.value));
    Ok(Reading {
        word,
        text,
        said,
        is_missing,
    })
}
