//! What a line of ftrace says of the modules of a kernel.
//!
//! ```text
//!       insmod-71   [000] .....   12.345678: module_load: xfs OE
//!                                 |  TIME   |             NAME
//!                          a gap before it
//! ```
//!
//! Times have any number of decimals, and are anywhere: no column is counted on.
ghost use Rattle.std.specs.Prelude.{◌≡◌, length, option_map};
ghost use Rattle.std.specs.Option.{option_copied};
ghost use Rattle.recordings.specs.Events.{after, event_here, event_in, first_word};
ghost use Rattle.recordings.specs.Events.{has_lost, is_word, marked, moved_by, named, said_by};
ghost use Rattle.recordings.specs.Events.{told_by};

use crate::lines::without_end;
use histories::timestamp_in;
use std::marker::Model;
use texts::cut_word;

/// The most bytes of a line that is read, with its end.
pub(crate) const LONGEST: usize = 1 << 16;

const MARK: &[u8] = b"tracing_mark_write: latchsym";

const LOADED: &[u8] = b"module_load: ";

const FREED: &[u8] = b"module_free: ";

const LOST: &[u8] = b"LOST";

/// What happened.
#[derive(Clone, Copy, Debug, PartialEq, Eq, Drop)]
pub enum EventKind {
    /// A mark that asks for the whole listing.
    Mark,
    /// A mark that asks for one module.
    MarkOf,
    /// A module was loaded.
    Loaded,
    /// A module was freed.
    Freed,
}

/// An event. A contract sees the bytes of its texts.
#[derive(Debug, Drop)]
pub struct Event<'a> {
    pub kind: EventKind,
    /// When it was, in nanoseconds.
    pub time: u64,
    /// Its time as it is written.
    pub time_text: &'a [u8],
    /// The module that it is about; of a mark of all nothing.
    pub module: &'a [u8],
}

impl<'a> Model for Event<'a> {
    ghost use Rattle.recordings.specs.KernelEvents.{KernelEvent};

    ghost Value = { KernelEvent };

    ghost view = { λ e. record {
      kind = e.kind;
      time = e.time;
      time_text = e.time_text.now;
      name = e.module.now;
    } };
}

/// What a line says.
#[derive(Debug, Drop)]
pub struct EventLine<'a> {
    /// The event that it says, if it says one.
    pub event: Option<Event<'a>>,
    /// Whether it says that events were lost.
    pub is_lost: bool,
}

/// What follows this beginning, if the text begins so.
fn after<'a>(beginning: &[u8], text: &'a [u8]) -> Option<&'a [u8]>
    ensures { option_copied result ≡ after beginning.now text.now }
{
    if text.starts_with(beginning) {
        Some(&text[beginning.len()..])
    } else {
        None
    }
}

/// Whether a text is a word, as the name of a module is.
pub(crate) fn is_word(text: &[u8]) -> bool
    ensures { result ≡ is_word text.now }
{
    !text.is_empty() && !text.contains(&b' ') && !text.contains(&b'\t')
}

/// An event of this kind about the module of this name, if it is a word.
fn named(kind: EventKind, name: &[u8]) -> Option<(EventKind, &[u8])>
    ensures { option_map (λ t. (t.0, t.1.now)) result ≡ named kind name.now }
{
    if is_word(name) {
        Some((kind, name))
    } else {
        None
    }
}

/// What the text after a time says, and its module.
fn told_by(text: &[u8]) -> Option<(EventKind, &[u8])>
    ensures { option_map (λ t. (t.0, t.1.now)) result ≡ told_by text.now }
{
    match after(MARK, text) {
        Some(rest) => marked(rest),
        None => moved_by(text),
    }
}

/// The module that a text says was loaded or freed.
fn moved_by(text: &[u8]) -> Option<(EventKind, &[u8])>
    ensures { option_map (λ t. (t.0, t.1.now)) result ≡ moved_by text.now }
{
    match after(LOADED, text) {
        Some(rest) => named(EventKind::Loaded, first_word(rest)),
        None => named(EventKind::Freed, first_word(after(FREED, text)?)),
    }
}

/// What is before the first blank.
fn first_word(text: &[u8]) -> &[u8]
    ensures { result.now ≡ first_word text.now }
{
    cut_word(text).0
}

/// What a mark says that goes on like this.
fn marked(rest: &[u8]) -> Option<(EventKind, &[u8])>
    ensures { option_map (λ t. (t.0, t.1.now)) result ≡ marked rest.now }
{
    match rest {
        [] => Some((EventKind::Mark, &[])),
        [b' ', name @ ..] => named(EventKind::MarkOf, name),
        _ => None,
    }
}

/// The event whose time begins here, if one does.
fn event_here(bytes: &[u8]) -> Option<Event<'_>>
    ensures { result ≡ event_here bytes.now }
{
    let time = timestamp_in(bytes)?;
    let text = after(b": ", &bytes[time.length..])?;
    let (kind, module) = told_by(text)?;
    Some(Event {
        kind,
        time: time.nanoseconds,
        time_text: &bytes[..time.length],
        module,
    })
}

/// The first event whose time begins after a blank or tab.
fn event_in(line: &[u8]) -> Option<Event<'_>>
    ensures { result ≡ event_in line.now }
{
    let mut is_after_gap = false;
    let mut i = 0;
    while i < line.len() {
        if is_after_gap {
            if let Some(event) = event_here(&line[i..]) {
                return Some(event);
            }
        }
        is_after_gap = line[i] == b' ' || line[i] == b'\t';
        i += 1;
    }
    None
}

/// Whether the bytes have the word for lost events.
fn has_lost(bytes: &[u8]) -> bool
    ensures { result ≡ has_lost bytes.now }
{
    let mut rest = bytes;
    while let [_, more @ ..] = rest {
        if rest.starts_with(LOST) {
            return true;
        }
        rest = more;
    }
    false
}

/// What a line says. One that is too long says nothing.
pub(crate) fn said_by(line: &[u8]) -> EventLine<'_>
    ensures { result ≡ said_by line.now }
{
    if line.len() > LONGEST {
        return EventLine {
            event: None,
            is_lost: false,
        };
    }
    EventLine {
        event: event_in(without_end(line)),
        is_lost: has_lost(line),
    }
}
