//! The outcomes of the changes, compared with the log.

ghost use Rattle.std.specs.Prelude.{◌≡◌, ◌↔◌, ◌+◌, ◌<◌, IsTrue, length, min};
ghost use Rattle.std.specs.Prelude.{zip};
ghost use Rattle.std.specs.List.{range_with_len};
ghost use Rattle.shared_lookup.specs.Checks.{AreTallied, IsTalliedBy};
ghost use Rattle.shared_lookup.specs.Counts.{CountsUpTo};
ghost use Rattle.shared_lookup.specs.Servings.{AreAsLong, IsLogged, IsWrongChange};
ghost use Rattle.shared_lookup.specs.Servings.{IsWrongEntry};
ghost use Rattle.shared_lookup.specs.Servings.{entries};

use crate::changes::Change;
use modules::Catalog;
use order_laws::Refusal;
use table_updates::Update;

/// Whether the entry of a generation is one that the catalog gives for a change.
fn is_logged(c: &Catalog<'_>, log: &[Update], change: Change, generation: u64) -> bool
    ensures { IsTrue result ↔ IsLogged c.now log.now change generation }
{
    if generation == 0 {
        return false;
    }
    match log.get((generation - 1) as usize) {
        Some(update) => change.gives(c, update),
        None => false,
    }
}

/// Whether a change was accepted without such an entry.
fn is_wrong(c: &Catalog<'_>, log: &[Update], change: Change, outcome: Result<u64, Refusal>) -> bool
    ensures { IsTrue result ↔ IsWrongChange c.now log.now (change, outcome) }
{
    match outcome {
        Ok(generation) => !is_logged(c, log, change, generation),
        Err(_) => false,
    }
}

/// How many changes of one list were accepted without an entry in the log; it stays at the greatest
/// number.
fn wrong_in_list(
    c: &Catalog<'_>,
    log: &[Update],
    changes: &[Change],
    outcomes: &[Result<u64, Refusal>],
) -> u64
    requires { length outcomes.now ≡ length changes.now }
    ensures { CountsUpTo (IsWrongChange c.now log.now) (zip changes.now outcomes.now) result }
{
    let mut wrong = 0u64;
    for place in 0..changes.len() {
        if is_wrong(c, log, changes[place], outcomes[place]) {
            wrong = wrong.saturating_add(1);
        }
    }
    wrong
}

/// How many of the accepted changes of all lists the log has no entry for; it stays at the greatest
/// number.
pub(crate) fn wrong_changes(
    c: &Catalog<'_>,
    log: &[Update],
    changes: &[Vec<Change>],
    outcomes: &[Vec<Result<u64, Refusal>>],
) -> u64
    requires { AreAsLong changes.now outcomes.now }
    ensures { CountsUpTo (IsWrongChange c.now log.now)
        (zip (entries changes.now) (entries outcomes.now)) result }
{
    let mut wrong = 0u64;
    for place in 0..changes.len() {
        let here = wrong_in_list(c, log, &changes[place], &outcomes[place]);
        wrong = wrong.saturating_add(here);
    }
    wrong
}

/// Counts the accepted changes of one list at the entries of their generations, but for the first
/// `from` entries; each count stays at the greatest number.
fn tally(outcomes: &[Result<u64, Refusal>], from: usize, times: &mut [u8])
    ensures length { length times.new ≡ length times.old }
    ensures tallied { IsTalliedBy from outcomes.now times.old times.new }
{
    for outcome in outcomes {
        let place = match outcome {
            Ok(generation) if *generation > from as u64 => *generation - from as u64 - 1,
            _ => continue,
        };
        if place < times.len() as u64 {
            times[place as usize] = times[place as usize].saturating_add(1);
        }
    }
}

/// For each of the entries of the log after the first `from` ones how many accepted changes have
/// its generation; it stays at the greatest number.
fn tally_all(outcomes: &[Vec<Result<u64, Refusal>>], from: usize, times: &mut [u8])
    ensures length { length times.new ≡ length times.old }
    ensures tallied { AreTallied from (entries outcomes.now) times.new }
{
    times.fill(0);
    for list in outcomes {
        tally(list.as_slice(), from, times);
    }
}

/// How many of the entries after the first `from` ones, as many as there are times, are not the
/// entry of exactly one accepted change; it stays at the greatest number.
fn wrong_behind(outcomes: &[Vec<Result<u64, Refusal>>], from: usize, times: &mut [u8]) -> u64
    ensures length { length times.new ≡ length times.old }
    ensures counted { CountsUpTo (IsWrongEntry (entries outcomes.now))
        (range_with_len from (length times.old)) result }
{
    tally_all(outcomes, from, times);
    let mut wrong = 0u64;
    for time in times.iter() {
        if *time != 1 {
            wrong = wrong.saturating_add(1);
        }
    }
    wrong
}

/// How many of the first entries of the log are not the entry of exactly one accepted change; it
/// stays at the greatest number. Takes as many entries at a time as there are
/// times: all at once, if these are as many as the changes.
pub(crate) fn wrong_entries(
    count: usize,
    outcomes: &[Vec<Result<u64, Refusal>>],
    times: &mut [u8],
) -> u64
    requires { 0 < length times.old }
    ensures { CountsUpTo (IsWrongEntry (entries outcomes.now)) (range_with_len 0 count) result }
{
    let mut wrong = 0u64;
    let mut from = 0;
    while from < count {
        let length = times.len().min(count - from);
        let here = wrong_behind(outcomes, from, &mut times[..length]);
        wrong = wrong.saturating_add(here);
        from += length;
    }
    wrong
}
