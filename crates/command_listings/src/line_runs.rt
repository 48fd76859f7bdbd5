//! Which lines of a log one listing of a history names.
//!
//! ```text
//!     line    [ 2.1] at A   [ 2.4] text   at B   [ 8.0] text   [ 8.2] at C
//!     time    2.1           2.4           2.4    8.0           8.2
//!             |------- a run that the listing at 2.1 names --| another listing, if there is one
//! ```
//!
//! A line without an address is named by any listing, since there is nothing to name.
ghost use Rattle.std.specs.Prelude.{◌≡◌, ◌++◌, [], true, IfNone, IfOk, List, None, ℕ};
ghost use Rattle.std.specs.Cow.{cow_slice_items};
ghost use Rattle.std.specs.Option.{option_map};
ghost use Rattle.logs.specs.Lines.{unless_long};
ghost use Rattle.command_listings.specs.LineRuns.{IsRun, IsRunAfter, ended_in, first_times, is_at};
ghost use Rattle.command_listings.specs.LineRuns.{is_untimed, may_name, times_after, times_behind};

use histories::{History, ListingAt, LogTime};
use logs::{Annotator, cut_line, has_address};
use std::alloc::{AllocError, Global};
use std::borrow::CowSlice;

/// What is known of the times of a log so far.
#[derive(Clone, Copy, Debug, Drop)]
pub struct LogTimes {
    /// The time of the last line.
    pub last: LogTime,
    /// Whether a line with an address came while no line had a time.
    pub is_asked: bool,
}

impl LogTimes {
    /// Before the first line.
    pub(crate) fn new() -> LogTimes
        ensures { result ≡ first_times }
    {
        LogTimes {
            last: LogTime::new(),
            is_asked: false,
        }
    }

    /// After a line that is not too long to be named.
    fn after(self, is_narrow: bool, line: &[u8]) -> LogTimes
        ensures { result ≡ times_after is_narrow self line.now }
    {
        let last = self.last.after(line);
        let is_asked = self.is_asked || (!last.is_known && has_address(is_narrow, line));
        LogTimes { last, is_asked }
    }

    /// Whether no line has a time, and one has an address.
    pub(crate) fn is_untimed(self) -> bool
        ensures { result ≡ is_untimed self }
    {
        self.is_asked && !self.last.is_known
    }
}

/// The beginning of some bytes that a listing names.
#[derive(Drop)]
pub(crate) struct Run<'b> {
    /// The lines that it names, and all of the bytes if it names each line that ends in them.
    pub named: &'b [u8],
    /// The other bytes.
    pub left: &'b [u8],
    /// What is known of times after the lines that it names.
    pub times: LogTimes,
    /// The time of the first line that it does not name, in nanoseconds.
    pub other: Option<u64>,
}

/// What is known of times after a line, unless it is one that another listing names: then its time,
/// in nanoseconds. A line that is too long to be named is none.
pub(crate) fn times_if_named(
    history: &History<'_>,
    listing: &ListingAt<'_>,
    is_narrow: bool,
    times: LogTimes,
    line: Option<CowSlice<'_, u8>>,
) -> Result<LogTimes, u64>
    ensures { (whole : List ℕ) → option_map cow_slice_items line.entry ≡ unless_long whole
        → IfOk result (λ t. (may_name history.now is_narrow listing.now.count times whole ≡ true)
        × (t ≡ times_behind is_narrow times whole)) }
{
    let Some(line) = line else {
        return Ok(times);
    };
    let next = times.after(is_narrow, line.as_slice());
    let time = next.last.nanoseconds;
    if history.is_at(listing, time) || !has_address(is_narrow, line.as_slice()) {
        Ok(next)
    } else {
        Err(time)
    }
}

/// The beginning of a block that a listing names, after the lines that an annotator was given.
pub(crate) fn run_in<'b>(
    alloc: Global,
    history: &History<'_>,
    listing: &ListingAt<'_>,
    is_narrow: bool,
    annotator: &Annotator,
    times: LogTimes,
    block: &'b [u8],
) -> Result<Run<'b>, AllocError>
    ensures parts { IfOk result (λ r. block.now ≡ r.named.now ++ r.left.now) }
    ensures none { IfOk result (λ r. IfNone r.other (r.left.now ≡ [])) }
    ensures run { IfOk result (λ r. IsRunAfter history.now is_narrow listing.now.count
        annotator.now times r.times r.named.now) }
{
    let Some((line, more)) = cut_line(block) else {
        return Ok(all_named(block, times));
    };
    let whole = annotator.ended_line(alloc, line)?;
    match times_if_named(history, listing, is_narrow, times, whole) {
        Ok(next) => {
            let later = later_lines(alloc, history, listing, is_narrow, next, more)?;
            Ok(Run {
                named: &block[..line.len() + later.named.len()],
                ..later
            })
        }
        Err(time) => Ok(Run {
            named: &block[..0],
            left: block,
            times,
            other: Some(time),
        }),
    }
}

/// All of the bytes, in which no line ends that another listing names.
fn all_named(bytes: &[u8], times: LogTimes) -> Run<'_>
    ensures named { result.named.now ≡ bytes.now }
    ensures left { result.left.now ≡ [] }
    ensures none { result.other ≡ None }
    ensures times { result.times ≡ times }
{
    Run {
        named: bytes,
        left: &[],
        times,
        other: None,
    }
}

/// The beginning of bytes that a listing names, if they begin with a whole line.
fn later_lines<'b>(
    alloc: Global,
    history: &History<'_>,
    listing: &ListingAt<'_>,
    is_narrow: bool,
    times: LogTimes,
    bytes: &'b [u8],
) -> Result<Run<'b>, AllocError>
    ensures parts { IfOk result (λ r. bytes.now ≡ r.named.now ++ r.left.now) }
    ensures none { IfOk result (λ r. IfNone r.other (r.left.now ≡ [])) }
    ensures run { IfOk result (λ r. IsRun history.now is_narrow listing.now.count
        times r.times (ended_in r.named.now)) }
{
    let nothing_open = Annotator::new(alloc);
    let mut times = times;
    let mut rest = bytes;
    while let Some((line, more)) = cut_line(rest) {
        let whole = nothing_open.ended_line(alloc, line)?;
        match times_if_named(history, listing, is_narrow, times, whole) {
            Ok(next) => times = next,
            Err(time) => {
                return Ok(Run {
                    named: &bytes[..bytes.len() - rest.len()],
                    left: rest,
                    times,
                    other: Some(time),
                });
            }
        }
        rest = more;
    }
    Ok(all_named(bytes, times))
}
