//! The place of an address word in its line.
//!
//! ```text
//! [   52.104290] [T123]  <IRQ>  [<ffffffff81000108>] ? do_one
//! ~~~~~~~~~~~~~~===============^^                             prefix, lead, marks
//! ```
ghost use Rattle.std.specs.Prelude.{◌≡◌, ◌≤◌, ◌-◌, ◌==◌, ◌||◌, codes, drop, false, if◌then◌else◌};
ghost use Rattle.std.specs.Prelude.{length, nat_eq, take};
ghost use Rattle.std.specs.List.{ends_with, list_any};
ghost use Rattle.std.specs.Char.{is_digit};
ghost use Rattle.logs.specs.Places.{begins_blank, begins_like, begins_numbered, closed, colour};
ghost use Rattle.logs.specs.Places.{end_of, ends_in_label, ends_in_stamp, ends_prefix, ends_record};
ghost use Rattle.logs.specs.Places.{first_of, has_label, has_point, has_time, is_lead, is_of};
ghost use Rattle.logs.specs.Places.{is_record, last_of, lead_item, prefix_end, without_end};

use crate::words::is_word_byte;
use texts::digit_of;

/// The label of an address that another one is returned to.
const FROM: &[u8] = b"from";
/// What comes between such a label and its address, if it is a sentence.
const IS_AT: &[u8] = b" is at";
/// What a stack of /proc has before each of its frames.
const HIDDEN: &[u8] = b"[<0>]";
/// The last word of a prefix of a system log.
const KERNEL: &[u8] = b"kernel";
/// The shape of a time of day, and one that goes on.
const TIME: &[u8] = b"00:00:00";

const LONGER_TIME: &[u8] = b"00:00:00:";

/// A kind of bytes. Runs of each kind are sought.
#[derive(Clone, Copy, Debug, Drop)]
pub(crate) enum ByteClass {
    Word,
    Digit,
    /// `(`, `<` and `[`.
    Mark,
    /// A blank, `:`, `=` or a mark: these may separate a label from its address.
    LabelGap,
    /// A blank or a tab.
    Blank,
    NoBlank,
    Space,
    NoBracket,
    /// What may come at the end of a line after its text.
    Closing,
    /// A blank or `:`.
    ColonGap,
    /// A byte of the head of a record: no blank, tab or `;`.
    Record,
    NoComma,
    /// A byte of a word, `/` or `#`.
    Tag,
    /// A digit or `;`.
    Colour,
    /// A byte of what a log says of an address: no blank, control byte or parenthesis.
    Said,
    /// A byte of a group in brackets: no bracket, `<` or `>`.
    Group,
    /// A byte of a name that a log says, which `+` ends: one that it says.
    Name,
    Hexadecimal,
    /// A byte of a function's name: one of a word, `.` or `$`.
    Function,
}

impl ByteClass {
    /// Whether a byte is of the kind.
    #[inline]
    pub(crate) fn has(self, byte: u8) -> bool
        ensures { result ≡ is_of self byte }
    {
        match self {
            ByteClass::Word => is_word_byte(byte),
            ByteClass::Digit => byte.is_ascii_digit(),
            ByteClass::Mark => byte == b'(' || byte == b'<' || byte == b'[',
            ByteClass::LabelGap => {
                byte == b' '
                    || byte == b':'
                    || byte == b'='
                    || byte == b'('
                    || byte == b'<'
                    || byte == b'['
            }
            ByteClass::Blank => byte == b' ' || byte == b'\t',
            ByteClass::NoBlank => !(byte == b' ' || byte == b'\t'),
            ByteClass::Space => byte == b' ',
            ByteClass::NoBracket => !(byte == b'[' || byte == b']'),
            ByteClass::Closing => byte == b' ' || byte == b'\t' || byte == b'\r' || byte == b'\n',
            ByteClass::ColonGap => byte == b' ' || byte == b':',
            ByteClass::Record => !(byte == b' ' || byte == b'\t' || byte == b';'),
            ByteClass::NoComma => byte != b',',
            ByteClass::Tag => is_word_byte(byte) || byte == b'/' || byte == b'#',
            ByteClass::Colour => byte.is_ascii_digit() || byte == b';',
            ByteClass::Said => byte > b' ' && !(byte == b'(' || byte == b')'),
            ByteClass::Group => { !(byte == b'[' || byte == b']' || byte == b'<' || byte == b'>') }
            ByteClass::Name => byte > b' ' && !(byte == b'(' || byte == b')' || byte == b'+'),
            ByteClass::Hexadecimal => digit_of(byte) < 16,
            ByteClass::Function => is_word_byte(byte) || byte == b'.' || byte == b'$',
        }
    }
}

/// How many bytes of a kind the bytes begin with.
pub(crate) fn first_of(kind: ByteClass, bytes: &[u8]) -> usize
    ensures within { result ≤ length bytes.now }
    ensures is { result ≡ first_of kind bytes.now }
{
    let mut rest = bytes;
    while let [byte, more @ ..] = rest {
        if !kind.has(*byte) {
            return bytes.len() - rest.len();
        }
        rest = more;
    }
    bytes.len()
}

/// How many bytes of a kind the bytes end in.
fn last_of(kind: ByteClass, bytes: &[u8]) -> usize
    ensures within { result ≤ length bytes.now }
    ensures is { result ≡ last_of kind bytes.now }
{
    let mut rest = bytes;
    while let [front @ .., byte] = rest {
        if !kind.has(*byte) {
            return bytes.len() - rest.len();
        }
        rest = front;
    }
    bytes.len()
}

/// The bytes without the bytes of a kind at their end.
pub(crate) fn without_end(kind: ByteClass, bytes: &[u8]) -> &[u8]
    ensures { result.now ≡ without_end kind bytes.now }
{
    &bytes[..bytes.len() - last_of(kind, bytes)]
}

/// The bytes of a kind that the bytes end in.
pub(crate) fn end_of(kind: ByteClass, bytes: &[u8]) -> &[u8]
    ensures { result.now ≡ end_of kind bytes.now }
{
    &bytes[bytes.len() - last_of(kind, bytes)..]
}

/// The bytes up to the ones of a kind that they end in, and these.
fn cut_end(kind: ByteClass, bytes: &[u8]) -> (&[u8], &[u8])
    ensures front { result.0.now ≡ without_end kind bytes.now }
    ensures end { result.1.now ≡ end_of kind bytes.now }
{
    bytes.split_at(bytes.len() - last_of(kind, bytes))
}

/// The bytes without the last one.
fn without_last(bytes: &[u8]) -> &[u8]
    ensures { result.now ≡ take (length bytes.now - 1) bytes.now }
{
    if bytes.is_empty() {
        bytes
    } else {
        &bytes[..bytes.len() - 1]
    }
}

/// Whether the last word is a label.
fn ends_in_label(bytes: &[u8]) -> bool
    ensures { result ≡ ends_in_label bytes.now }
{
    let word = end_of(ByteClass::Word, bytes);
    if word.is_empty() {
        return false;
    }
    word == b"ra".as_slice() || word == b"lr".as_slice() || word == b"LR".as_slice() || word == FROM
}

/// Whether the bytes end in a text. Mostly they differ in the last one.
fn ends_so(bytes: &[u8], text: &[u8]) -> bool
    ensures { result ≡ ends_with nat_eq bytes.now text.now }
{
    match (bytes, text) {
        ([.., last], [.., other]) if last != other => false,
        _ => bytes.ends_with(text),
    }
}

/// Whether these bytes before an address end in a label.
pub(crate) fn has_label(before: &[u8]) -> bool
    ensures { result ≡ has_label before.now }
{
    let head = without_end(ByteClass::LabelGap, before);
    let word = end_of(ByteClass::Word, head);
    ends_so(before, b"<-")
        || ends_so(without_end(ByteClass::Space, before), HIDDEN)
        || ends_in_label(head)
        || (ends_so(head, IS_AT) && ends_in_label(&head[..head.len() - IS_AT.len()]))
        || (before[head.len()..].starts_with(b":")
            && (word == b"at".as_slice() || word == b"in".as_slice()))
}

/// Whether the bytes begin with a shape, in which `0` is any digit.
fn begins_like(shape: &[u8], bytes: &[u8]) -> bool
    ensures { result ≡ begins_like shape.now bytes.now }
{
    let mut signs = shape;
    let mut rest = bytes;
    while let [sign, later @ ..] = signs {
        let [byte, more @ ..] = rest else {
            return false;
        };
        if !is_like(*sign, *byte) {
            return false;
        }
        signs = later;
        rest = more;
    }
    true
}

/// Whether the byte is the sign of a shape, or a digit if that is `0`.
fn is_like(sign: u8, byte: u8) -> bool
    ensures { result ≡ (if sign == 48 then is_digit byte 10 else byte == sign) }
{
    if sign == b'0' {
        byte.is_ascii_digit()
    } else {
        byte == sign
    }
}

/// Whether a digit, `.` or `:`, and a digit begin the bytes. Mostly no digit does.
fn begins_point(bytes: &[u8]) -> bool
    ensures { result
        ≡ (begins_like (codes "0.0") bytes.now || begins_like (codes "0:0") bytes.now) }
{
    match bytes {
        [first, ..] if !first.is_ascii_digit() => false,
        _ => begins_like(b"0.0", bytes) || begins_like(b"0:0", bytes),
    }
}

/// Whether a digit, `.` or `:`, and a digit follow each other in the bytes.
fn has_point(bytes: &[u8]) -> bool
    ensures { result ≡ has_point bytes.now }
{
    let mut rest = bytes;
    while let [_, more @ ..] = rest {
        if begins_point(rest) {
            return true;
        }
        rest = more;
    }
    false
}

/// Whether the bytes have a time of day with no digit or `:` before it and no `:` after it.
fn has_time(bytes: &[u8]) -> bool
    ensures { result ≡ has_time false bytes.now }
{
    let mut within = false;
    let mut rest = bytes;
    while let [byte, more @ ..] = rest {
        if !within && begins_like(TIME, rest) && !begins_like(LONGER_TIME, rest) {
            return true;
        }
        within = byte.is_ascii_digit() || *byte == b':';
        rest = more;
    }
    false
}

/// Whether bytes end in a group in brackets that is a time stamp.
fn ends_in_stamp(bytes: &[u8]) -> bool
    ensures { result ≡ ends_in_stamp bytes.now }
{
    if !bytes.ends_with(b"]") {
        return false;
    }
    let (front, group) = cut_end(ByteClass::NoBracket, without_last(bytes));
    front.ends_with(b"[") && has_point(group)
}

/// Whether the bytes are nothing, or begin with a blank or a tab.
fn begins_blank(bytes: &[u8]) -> bool
    ensures { result ≡ begins_blank bytes.now }
{
    match bytes {
        [] => true,
        [byte, ..] => ByteClass::Blank.has(*byte),
    }
}

/// Whether a comma is among the bytes.
fn has_comma(bytes: &[u8]) -> bool
    ensures { result ≡ list_any (λ b. b == 44) bytes.now }
{
    bytes.iter().any(|byte| *byte == b',')
}

/// Whether a comma is among the bytes after the first one.
fn has_later_comma(bytes: &[u8]) -> bool
    ensures { result ≡ list_any (λ b. b == 44) (drop 1 bytes.now) }
{
    match bytes {
        [] => false,
        [_, more @ ..] => has_comma(more),
    }
}

/// Whether the bytes have two commas, and no blank, tab or `;`.
fn is_record(bytes: &[u8]) -> bool
    ensures { result ≡ is_record bytes.now }
{
    last_of(ByteClass::Record, bytes) == bytes.len()
        && has_later_comma(&bytes[first_of(ByteClass::NoComma, bytes)..])
}

/// Whether bytes, if they are from the line's start on, are the head of a record.
fn ends_record(at_start: bool, bytes: &[u8]) -> bool
    ensures { result ≡ ends_record at_start bytes.now }
{
    at_start && bytes.ends_with(b";") && is_record(without_last(bytes))
}

/// Whether a prefix may end between these bytes, which are from the line's start on or not.
fn ends_prefix(at_start: bool, front: &[u8], after: &[u8]) -> bool
    ensures { result ≡ ends_prefix at_start front.now after.now }
{
    ends_record(at_start, front)
        || (front.ends_with(b":") && end_of(ByteClass::Word, without_last(front)) == KERNEL)
        || ends_in_stamp(front)
        || (begins_blank(after) && has_time(end_of(ByteClass::NoBlank, front)))
}

/// The place of the prefix's end, or 0 without a prefix.
#[tactic(auto, using(crate::proofs::PlaceLemmas::prefix_at, std::proofs::lemmas::List::take_rest))]
pub(crate) fn prefix_end(at_start: bool, bytes: &[u8]) -> usize
    ensures is { result ≡ prefix_end at_start bytes.now }
    ensures within { result ≤ length bytes.now }
{
    let mut end = bytes.len();
    while end > 0 {
        if ends_prefix(at_start, &bytes[..end], &bytes[end..]) {
            return end;
        }
        end -= 1;
    }
    end
}

/// Whether a digit is among the bytes.
fn has_digit(bytes: &[u8]) -> bool
    ensures { result ≡ list_any (λ b. is_digit b 10) bytes.now }
{
    bytes.iter().any(|byte| byte.is_ascii_digit())
}

/// How long a run of a kind is with a byte before it and the one that closes it, or 0 without them.
fn closed(kind: ByteClass, close: &[u8], bytes: &[u8]) -> usize
    ensures { result ≡ closed kind close.now bytes.now }
{
    let n = first_of(kind, bytes);
    if n != 0 && bytes[n..].starts_with(close) {
        n + 2
    } else {
        0
    }
}

/// How long an escape sequence of colours is that has these bytes after its ESC, or 0.
fn colour(bytes: &[u8]) -> usize
    ensures { result ≡ colour bytes.now }
{
    match bytes {
        [b'[', more @ ..] => {
            let n = first_of(ByteClass::Colour, more);
            if more[n..].starts_with(b"m") {
                n + 3
            } else {
                0
            }
        }
        _ => 0,
    }
}

/// The length of the item that the bytes begin with, if such items may begin a line, or 0.
fn lead_item(bytes: &[u8]) -> usize
    ensures { result ≡ lead_item bytes.now }
{
    match bytes {
        [] => 0,
        [b' ' | b'\t' | b'\r' | b'?' | b'>', ..] => 1,
        [b'\x1b', more @ ..] => colour(more),
        [b'=', more @ ..] if more.starts_with(b">") => 2,
        [b'#', more @ ..] if begins_like(b"0", more) => first_of(ByteClass::Digit, more) + 1,
        [b'<', more @ ..] => closed(ByteClass::Tag, b">", more),
        [b'[', more @ ..] if has_digit(&more[..first_of(ByteClass::Group, more)]) => {
            closed(ByteClass::Group, b"]", more)
        }
        _ => 0,
    }
}

/// Whether the bytes are items that may come before a line's first address.
#[tactic(auto, using(crate::proofs::PlaceLemmas::leads))]
pub(crate) fn is_lead(bytes: &[u8]) -> bool
    ensures { result ≡ is_lead 0 bytes.now }
{
    let mut rest = bytes;
    while !rest.is_empty() {
        let length = lead_item(rest);
        if length == 0 {
            return false;
        }
        if length > rest.len() {
            return false;
        }
        rest = &rest[length..];
    }
    true
}

/// Whether blanks, `#` and a digit begin the bytes.
pub(crate) fn begins_numbered(bytes: &[u8]) -> bool
    ensures { result ≡ begins_numbered bytes.now }
{
    begins_like(b"#0", &bytes[first_of(ByteClass::Blank, bytes)..])
}
