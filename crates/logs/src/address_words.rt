//! How the address words of a line are taken.
//!
//! A word is taken by the gap before it, which begins after the address word before, or with the
//! line. So each byte is looked at once, however many addresses a line has:
//!
//! ```text
//!     [   52.1]  [<ffffffff81000108>] from 0xffffffff81000110
//!     |----------|                                            prefix and marks: a frame
//!                                   |------|                  a label: a caller's
//! ```
ghost use Rattle.std.specs.Prelude.{◌≡◌, ◌≤◌, ◌<◌, ◌||◌, ◌==◌, false, length, reverse};
ghost use Rattle.std.specs.List.{list_any};
ghost use Rattle.std.specs.Option.{option_map_or};
ghost use Rattle.logs.specs.TakenWords.{begins_dump, begins_pair, begins_user, continues_trace};
ghost use Rattle.logs.specs.TakenWords.{ends_pair, ends_trace, ends_user};
ghost use Rattle.logs.specs.TakenWords.{gap_before, has_bracket, has_bus_label, has_code};
ghost use Rattle.logs.specs.TakenWords.{has_words, is_caller, is_exact, is_folded, is_foreign};
ghost use Rattle.logs.specs.TakenWords.{is_frame, is_marked, is_outside, is_row, is_user_line};
ghost use Rattle.logs.specs.TakenWords.{next_first, place_of};
ghost use Rattle.logs.specs.TakenWords.{repeats, says_caller, taken_at, tells_place};
ghost use Rattle.logs.specs.Words.{address_at, begins_joint, begins_suffix, is_glued, part};

use crate::contexts::{First, LogContext};
use crate::places::{
    ByteClass, begins_numbered, end_of, first_of, has_label, is_lead, prefix_end, without_end,
};
use crate::words::{Word, address_of_word, has_prefix, is_word_byte};
use memchr::{memchr, memmem};
use texts::digit_of;

/// What begins the registers of a program, and what ends them.
const USER: &[u8] = b"User PSW";

const KERNEL: &[u8] = b"Krnl";

const CALL_TRACE: &[u8] = b"Call Trace";
/// What comes before a part of the kernel's code, and before a table of ACPI.
const CODE: &[u8] = b"Code:";

const ACPI: &[u8] = b"ACPI:";
/// The labels of addresses of a bus.
const MMIO: &[u8] = b"MMIO";

const MEMORY: &[u8] = b"mem";

const PORT: &[u8] = b"port";
/// The labels of registers that hold no address.
const CAUSE: &[u8] = b"Cause";

const STATUS: &[u8] = b"Status";

const CONFIG: &[u8] = b"Config";

const PROCESSOR: &[u8] = b"PrId";

/// The place of an address word in its line.
#[derive(Clone, Copy, Debug, Drop)]
pub struct WordPlace {
    /// Whether only items that may begin a line come before it.
    pub begins_line: bool,
    /// Whether the line's text after the prefix begins with `#` and a digit.
    pub is_numbered: bool,
}

/// An address word, and how it is taken.
#[derive(Clone, Copy, Debug, Drop)]
pub struct AddressWord {
    pub word: Word,
    pub value: u64,
    pub place: WordPlace,
    /// Whether it begins its line with the mark `[`.
    pub begins_pair: bool,
    /// Whether it is a frame.
    pub is_frame: bool,
    /// Whether it is taken as a caller's.
    pub is_caller: bool,
    /// Whether from it on its line is not of this kernel: a program's, or a part of its code.
    pub is_outside: bool,
    /// Whether it is not of this kernel.
    pub is_foreign: bool,
}

/// The address that a word of the line is.
pub(crate) fn address_at(narrow: bool, line: &[u8], word: Word) -> Option<u64>
    requires word { word.start < word.end }
    requires within { word.end ≤ length line.now }
    ensures { result ≡ address_at narrow line.now word }
{
    if is_glued(line, word) {
        return None;
    }
    address_of_word(narrow, &line[word.start..word.end])
}

/// Whether one `-` joins the word to another one, `@` is directly before it, or `.` and a letter
/// are directly after it.
fn is_glued(line: &[u8], word: Word) -> bool
    requires word { word.start < word.end }
    requires within { word.end ≤ length line.now }
    ensures { result ≡ is_glued line.now word }
{
    let before = &line[..word.start];
    let after = &line[word.end..];
    ends_in_joint(before) || begins_joint(after) || before.ends_with(b"@") || begins_suffix(after)
}

/// Whether the bytes begin with a `.` and a letter.
fn begins_suffix(bytes: &[u8]) -> bool
    ensures { result ≡ begins_suffix bytes.now }
{
    match bytes {
        [first, second, ..] => {
            *first == b'.' && digit_of(*second) < 36 && !second.is_ascii_digit()
        }
        _ => false,
    }
}

/// Whether the bytes begin with a `-` and one of a word.
fn begins_joint(bytes: &[u8]) -> bool
    ensures { result ≡ begins_joint bytes.now }
{
    match bytes {
        [first, second, ..] => *first == b'-' && is_word_byte(*second),
        _ => false,
    }
}

/// Whether the bytes end in one of a word and a `-`.
fn ends_in_joint(bytes: &[u8]) -> bool
    ensures { result ≡ begins_joint (reverse bytes.now) }
{
    match bytes {
        [.., second, first] => *first == b'-' && is_word_byte(*second),
        _ => false,
    }
}

/// How an address word is taken, after another one or as the first of its line.
pub(crate) fn taken_at(
    narrow: bool,
    context: LogContext,
    line: &[u8],
    last: Option<AddressWord>,
    word: Word,
    value: u64,
) -> AddressWord
    requires word { word.start < word.end }
    requires within { word.end ≤ length line.now }
    ensures { result ≡ taken_at narrow context line.now last word value }
{
    let gap = gap_before(line, last, word);
    let place = place_of(last, without_end(ByteClass::Mark, gap));
    let after = &line[word.end..];
    let is_frame = is_frame(place, last, gap, &line[word.start..word.end], after);
    let says = says_caller(place, gap, after);
    let is_outside = is_outside(narrow, context, line, last, gap);
    AddressWord {
        word,
        value,
        place,
        begins_pair: begins_pair(place, gap),
        is_frame,
        is_caller: is_caller(context.first, last, gap, says, is_frame, value),
        is_outside,
        is_foreign: is_foreign(is_outside, narrow, gap, after),
    }
}

/// The bytes between the address word before, or the line's begin, and a word.
#[tactic(auto, unfolding(crate::specs::TakenWords::gap_before))]
fn gap_before(line: &[u8], last: Option<AddressWord>, word: Word) -> &[u8]
    requires { word.start ≤ length line.now }
    ensures { result.now ≡ gap_before line.now last word }
{
    match last {
        None => &line[..word.start],
        Some(last) => between(line, last.word.end, word.start),
    }
}

/// The place of a word in its line, with these bytes before its marks.
#[tactic(auto, unfolding(crate::specs::TakenWords::place_of))]
fn place_of(last: Option<AddressWord>, head: &[u8]) -> WordPlace
    ensures { result ≡ place_of last head.now }
{
    let end = prefix_end(last.is_none(), head);
    match last {
        Some(last) if end == 0 => WordPlace {
            begins_line: false,
            is_numbered: last.place.is_numbered,
        },
        _ => WordPlace {
            begins_line: is_lead(&head[end..]),
            is_numbered: begins_numbered(&head[end..]),
        },
    }
}

/// Whether the one mark of a word is `[`.
fn has_bracket(gap: &[u8]) -> bool
    ensures { result ≡ has_bracket gap.now }
{
    end_of(ByteClass::Mark, gap) == b"[".as_slice()
}

/// Whether a word begins its line with the mark `[`.
fn begins_pair(place: WordPlace, gap: &[u8]) -> bool
    ensures { result ≡ begins_pair place gap.now }
{
    place.begins_line && has_bracket(gap)
}

/// Whether a word has the mark `[<`, a tab directly before it, or `0x`.
fn is_marked(gap: &[u8], word: &[u8]) -> bool
    ensures { result ≡ is_marked gap.now word.now }
{
    end_of(ByteClass::Mark, gap).ends_with(b"[<") || has_prefix(word) || gap.ends_with(b"\t")
}

/// Whether a word is the second of `[ADDRESS] [ADDRESS]`, and the first begins the line.
fn ends_pair(last: Option<AddressWord>, gap: &[u8]) -> bool
    ensures { result ≡ ends_pair last gap.now }
{
    match last {
        None => false,
        Some(last) => {
            last.begins_pair
                && has_bracket(gap)
                && without_end(ByteClass::Space, without_end(ByteClass::Mark, gap))
                    == b"]".as_slice()
        }
    }
}

/// Whether a word with these bytes after it is a row of memory.
fn is_row(after: &[u8]) -> bool
    ensures { result ≡ is_row after.now }
{
    after.starts_with(b":")
}

/// Whether a word is a frame.
#[tactic(auto, unfolding(crate::specs::TakenWords::is_frame))]
fn is_frame(
    place: WordPlace,
    last: Option<AddressWord>,
    gap: &[u8],
    word: &[u8],
    after: &[u8],
) -> bool
    ensures { result ≡ is_frame place last gap.now word.now after.now }
{
    !is_row(after) && ((place.begins_line && is_marked(gap, word)) || ends_pair(last, gap))
}

/// Whether a word has a `;` directly before it and directly after it.
fn is_folded(gap: &[u8], after: &[u8]) -> bool
    ensures { result ≡ is_folded gap.now after.now }
{
    gap.ends_with(b";") && after.starts_with(b";")
}

/// Whether the bytes before a word and after it say that it is a caller's.
#[tactic(auto, unfolding(crate::specs::TakenWords::says_caller))]
fn says_caller(place: WordPlace, gap: &[u8], after: &[u8]) -> bool
    ensures { result ≡ says_caller place gap.now after.now }
{
    has_label(gap)
        || is_folded(gap, after)
        || (place.is_numbered
            && end_of(ByteClass::Word, without_end(ByteClass::LabelGap, gap)) == b"at".as_slice())
}

/// Whether a word is taken as a caller's.
#[tactic(auto, unfolding(crate::specs::TakenWords::is_caller))]
fn is_caller(
    next: First,
    last: Option<AddressWord>,
    gap: &[u8],
    says: bool,
    is_frame: bool,
    value: u64,
) -> bool
    ensures { result ≡ is_caller next last gap.now says is_frame value }
{
    if says {
        return true;
    }
    match last {
        Some(last) if repeats(last, gap, value) => last.is_caller,
        _ => continues_trace(next, is_frame),
    }
}

/// Whether the address before is this number, with no `:` or `=` between.
fn repeats(last: AddressWord, gap: &[u8], value: u64) -> bool
    ensures { result ≡ repeats last gap.now value }
{
    last.value == value && !has_sign(gap)
}

/// The bytes from a place up to another one, or none if that is not after it.
fn between(line: &[u8], start: usize, end: usize) -> &[u8]
    requires { end ≤ length line.now }
    ensures { result.now ≡ part line.now start end }
{
    if start < end { &line[start..end] } else { &[] }
}

/// Whether a `:` or `=` is among the bytes.
fn has_sign(bytes: &[u8]) -> bool
    ensures { result ≡ list_any (λ b. b == 58 || b == 61) bytes.now }
{
    bytes.iter().any(|byte| *byte == b':' || *byte == b'=')
}

/// Whether a word is a frame and not the first of its trace.
fn continues_trace(next: First, is_frame: bool) -> bool
    ensures { result ≡ continues_trace next is_frame }
{
    is_frame && !is_exact(next)
}

/// Whether a first frame is taken as it is.
fn is_exact(first: First) -> bool
    ensures { result ≡ is_exact first }
{
    match first {
        First::Exact => true,
        First::Frame | First::Kept => false,
    }
}

/// Whether from a word on all of its line is not of this kernel: a program's, or a part of its
/// code.
#[tactic(auto, unfolding(crate::specs::TakenWords::is_outside))]
fn is_outside(
    narrow: bool,
    context: LogContext,
    line: &[u8],
    last: Option<AddressWord>,
    gap: &[u8],
) -> bool
    ensures { result ≡ is_outside narrow context line.now last gap.now }
{
    was_outside(context, line, last) || begins_user(gap) || (narrow && has_code(gap))
}

/// Whether that holds of the address word before already, or else of the line.
fn was_outside(context: LogContext, line: &[u8], last: Option<AddressWord>) -> bool
    ensures { result ≡ option_map_or (λ t. t.is_outside) last (is_user_line context line.now) }
{
    match last {
        None => is_user_line(context, line),
        Some(last) => last.is_outside,
    }
}

/// Whether a word is not of this kernel: outside, a row of a dump, or, of 32 bits, after a label of
/// a bus or a register.
#[tactic(auto, unfolding(crate::specs::TakenWords::is_foreign))]
fn is_foreign(outside: bool, narrow: bool, gap: &[u8], after: &[u8]) -> bool
    ensures { result ≡ is_foreign outside narrow gap.now after.now }
{
    outside || begins_dump(after) || (narrow && has_bus_label(gap))
}

/// Whether a `:`, a blank, two hexadecimal digits and a blank begin the bytes.
fn begins_dump(after: &[u8]) -> bool
    ensures { result ≡ begins_dump after.now }
{
    after.starts_with(b": ")
        && first_of(ByteClass::Hexadecimal, &after[2..]) == 2
        && after[4..].starts_with(b" ")
}

/// Whether the last word is a label of a bus or a register.
fn has_bus_label(gap: &[u8]) -> bool
    ensures { result ≡ has_bus_label gap.now }
{
    let word = end_of(ByteClass::Word, without_end(ByteClass::ColonGap, gap));
    word == MMIO
        || word == MEMORY
        || word == PORT
        || word == CAUSE
        || word == STATUS
        || word == CONFIG
        || word == PROCESSOR
}

/// Whether a program's registers were begun before the line, and it does not end them.
fn is_user_line(context: LogContext, line: &[u8]) -> bool
    ensures { result ≡ is_user_line context line.now }
{
    context.is_user && !ends_user(line)
}

/// Whether the line ends the registers of a program.
fn ends_user(line: &[u8]) -> bool
    ensures { result ≡ ends_user line.now }
{
    has_words(KERNEL, line) || has_words(CALL_TRACE, line)
}

/// Whether the bytes begin the registers of a program. Mostly they are few, and have no `P` at all.
#[tactic(auto, using(crate::proofs::TextLemmas::no_user))]
fn begins_user(bytes: &[u8]) -> bool
    ensures { result ≡ begins_user bytes.now }
{
    has_p(bytes) && has_words(USER, bytes)
}

/// Whether a `P` is among the bytes.
fn has_p(bytes: &[u8]) -> bool
    ensures { result ≡ list_any (λ b. b == 80) bytes.now }
{
    bytes.iter().any(|byte| *byte == b'P')
}

/// Whether the line has the word `RIP`, `EIP` or `NIP`.
fn tells_place(line: &[u8]) -> bool
    ensures { result ≡ tells_place line.now }
{
    has_words(b"RIP", line) || has_words(b"EIP", line) || has_words(b"NIP", line)
}

/// Whether the bytes have `Code:` or `ACPI:`.
fn has_code(bytes: &[u8]) -> bool
    ensures { result ≡ has_code bytes.now }
{
    let mut rest = bytes;
    while !rest.is_empty() {
        if rest.starts_with(CODE) || rest.starts_with(ACPI) {
            return true;
        }
        rest = &rest[1..];
    }
    false
}

/// Whether the bytes have these words.
#[tactic(auto, using(crate::proofs::TextLemmas::none_found))]
fn has_words(words: &[u8], bytes: &[u8]) -> bool
    ensures { result ≡ has_words words.now false bytes.now }
{
    match memmem::find(bytes, words) {
        Some(_) => has_words_apart(words, bytes),
        None => false,
    }
}

/// Whether the bytes have these words, found byte by byte.
fn has_words_apart(words: &[u8], bytes: &[u8]) -> bool
    ensures { result ≡ has_words words.now false bytes.now }
{
    let mut within = false;
    let mut rest = bytes;
    while let [byte, more @ ..] = rest {
        if !within
            && rest.starts_with(words)
            && first_of(ByteClass::Word, &rest[words.len()..]) == 0
        {
            return true;
        }
        within = is_word_byte(*byte);
        rest = more;
    }
    false
}

/// Whether the line ends a trace.
fn ends_trace(line: &[u8]) -> bool
    ensures { result ≡ ends_trace line.now }
{
    let text = without_end(ByteClass::Closing, line);
    text.is_empty()
        || text.ends_with(b":")
        || text.ends_with(b"[")
        || text.ends_with(b"==")
        || text.starts_with(b"]")
}

/// How the next first frame is taken, after a line with a frame or without one.
fn next_first(first: First, has_frame: bool, tells: bool, line: &[u8]) -> First
    ensures { result ≡ next_first first has_frame tells (ends_trace line.now) }
{
    if has_frame {
        return First::Frame;
    }
    if tells {
        return First::Kept;
    }
    match first {
        First::Frame => {
            if ends_trace(line) {
                First::Exact
            } else {
                First::Frame
            }
        }
        First::Kept | First::Exact => first,
    }
}

/// Carries on after a line with a frame or without one. Mostly the line has no `P`.
#[tactic(auto, using(crate::proofs::TextLemmas::no_place, crate::proofs::TextLemmas::no_begin_of_user))]
pub(crate) fn carry_context(context: &mut LogContext, line: &[u8], has_frame: bool)
    ensures first { context.new.first
        ≡ next_first context.old.first has_frame (tells_place line.now) (ends_trace line.now) }
    ensures user { context.new.is_user
        ≡ (is_user_line context.old line.now || begins_user line.now) }
    ensures names { context.new.names ≡ context.old.names }
{
    match memchr(b'P', line) {
        Some(_) => {
            context.is_user = is_user_line(*context, line) || begins_user(line);
            context.first = next_first(context.first, has_frame, tells_place(line), line);
        }
        None => {
            context.is_user = is_user_line(*context, line);
            context.first = next_first(context.first, has_frame, false, line);
        }
    }
}
