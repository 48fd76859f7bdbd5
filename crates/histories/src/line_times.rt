//! The time of a line of a log, as printk, perf, ftrace, trace-cmd and journalctl write it.
//!
//! ```text
//!     [   52.104290] BUG: unable to handle              in brackets, after blanks
//!       perf  1234 [002]    42.519426: page-faults:     after a gap, and before a `:`
//!     42.519426 do_one                                  the first word
//! ```
//!
//! The first of these is the time of the line. It has 6 or 9 decimals, so that no version or rate
//! is taken for one.
ghost use Rattle.std.specs.Prelude.{◌≡◌, ◌<◌, ◌+◌, Some, drop, length, slice_index};
ghost use Rattle.std.specs.Option.{option_or};
ghost use Rattle.memchr.specs.Find.{IsFirstByte, is_byte};
ghost use Rattle.histories.specs.LineTimes.{after_point, before_next, first_time, line_time};
ghost use Rattle.histories.specs.LineTimes.{may_end, time_after, time_here};
ghost use Rattle.histories.specs.Times.{begins_digit};

use crate::times::timestamp_in;
use memchr::memchr;
use texts::digit_of;

/// What is before a place of a line.
#[derive(Clone, Copy, Debug, Drop)]
pub(crate) struct Before {
    /// Only blanks and tabs, from the beginning of the line on.
    is_first: bool,
    /// The beginning of the line, or a blank or tab.
    is_gap: bool,
    /// A `[`, and then only blanks.
    is_open: bool,
}

/// What is before the next place, if this byte is between.
fn before_next(before: Before, byte: u8) -> Before
    ensures { result ≡ before_next before byte }
{
    let is_gap = byte == b' ' || byte == b'\t';
    Before {
        is_first: before.is_first && is_gap,
        is_gap,
        is_open: byte == b'[' || (before.is_open && byte == b' '),
    }
}

/// Whether a TIME that began here may end before these bytes.
fn may_end(before: Before, rest: &[u8]) -> bool
    ensures { result ≡ may_end before rest.now }
{
    match rest {
        [] => before.is_first,
        [byte, ..] => {
            (before.is_open && *byte == b']')
                || (before.is_gap && *byte == b':')
                || (before.is_first
                    && (*byte == b' ' || *byte == b'\t' || *byte == b'\r' || *byte == b'\n'))
        }
    }
}

/// The time that begins here with a digit, if one does, in nanoseconds.
fn time_from_digit(before: Before, bytes: &[u8]) -> Option<u64>
    ensures { result ≡ time_here before bytes.now }
{
    let time = timestamp_in(bytes)?;
    if (time.decimals == 6 || time.decimals == 9) && may_end(before, &bytes[time.length..]) {
        Some(time.nanoseconds)
    } else {
        None
    }
}

/// Whether the first byte is a digit.
fn begins_digit(bytes: &[u8]) -> bool
    ensures { result ≡ begins_digit bytes.now }
{
    match bytes {
        [] => false,
        [byte, ..] => digit_of(*byte) < 10,
    }
}

/// The time that begins here, if one does, in nanoseconds.
#[tactic(auto, using(crate::proofs::PointLemmas::no_digit))]
fn time_here(before: Before, bytes: &[u8]) -> Option<u64>
    ensures { result ≡ time_here before bytes.now }
{
    if begins_digit(bytes) {
        time_from_digit(before, bytes)
    } else {
        None
    }
}

/// The first time that begins before the first `.` of the bytes, which is at this place.
fn time_before_point(before: Before, bytes: &[u8], point: usize) -> Option<u64>
    requires { IsFirstByte (is_byte 46) bytes.now (Some point) }
    ensures { option_or result (first_time after_point (drop (point + 1) bytes.now))
        ≡ first_time before bytes.now }
{
    if point == 0 {
        return None;
    }
    if digit_of(bytes[point - 1]) >= 10 {
        return None;
    }
    first_up_to(before, bytes, point)
}

/// The first time that begins before this place, at which the bytes have a `.`.
fn first_up_to(before: Before, bytes: &[u8], point: usize) -> Option<u64>
    requires within { point < length bytes.now }
    requires point { slice_index bytes.now point ≡ 46 }
    ensures { option_or result (first_time after_point (drop (point + 1) bytes.now))
        ≡ first_time before bytes.now }
{
    let mut before = before;
    let mut i = 0;
    while i < point {
        if before.is_gap || before.is_open {
            if let Some(time) = time_here(before, &bytes[i..]) {
                return Some(time);
            }
        }
        before = before_next(before, bytes[i]);
        i += 1;
    }
    None
}

/// The time that a line has itself, in nanoseconds. Each `.` of the line is sought, and only the
/// bytes up to one that follows a digit are looked at one by one.
#[tactic(auto, using(crate::proofs::PointLemmas::no_times))]
pub fn line_time(line: &[u8]) -> Option<u64>
    ensures { result ≡ line_time line.now }
{
    let mut before = Before {
        is_first: true,
        is_gap: true,
        is_open: false,
    };
    let mut rest = line;
    while let Some(point) = memchr(b'.', rest) {
        if let Some(time) = time_before_point(before, rest, point) {
            return Some(time);
        }
        before = Before {
            is_first: false,
            is_gap: false,
            is_open: false,
        };
        rest = &rest[point + 1..];
    }
    None
}

/// The time of the last line of a log so far.
#[derive(Clone, Copy, Debug, Drop)]
pub struct LogTime {
    pub nanoseconds: u64,
    /// Whether a line so far has a time itself.
    pub is_known: bool,
}

impl LogTime {
    ghost use Rattle.histories.specs.LineTimes.{before_log};

    /// The time before the first line: 0.
    pub fn new() -> LogTime
        ensures { result ≡ before_log }
    {
        LogTime {
            nanoseconds: 0,
            is_known: false,
        }
    }

    /// The time of the next line: its own, which may also be lower, or else this one.
    pub fn after(self, line: &[u8]) -> LogTime
        ensures { result ≡ time_after self line.now }
    {
        match line_time(line) {
            Some(time) => LogTime {
                nanoseconds: time,
                is_known: true,
            },
            None => self,
        }
    }
}
