//! What came back, checked against the log.

ghost use Rattle.std.specs.Prelude.{◌≡◌, ◌<◌, IfOk, count_by, length};
ghost use Rattle.shared_lookup.specs.Checks.{is_wrong_answer};
ghost use Rattle.shared_lookup.specs.Servings.{AreAsLong, EachIsFoundIn, IsWrongCount, entries};

use crate::changes::Change;
use crate::ledgers::Ledger;
use crate::outcomes::{wrong_changes, wrong_entries};
use crate::replays::wrong_answers;
use crate::served::Answer;
use modules::Catalog;
use order_laws::Refusal;
use std::alloc::Global;

/// How many answers are wrong, by a replay of the log. Refused by [`Refusal::OutOfMemory`] alone.
fn replayed(alloc: Global, ledger: &Ledger, answers: &[Vec<Answer>]) -> Result<u64, Refusal>
    ensures count { IfOk result (λ n.
        n ≡ count_by (is_wrong_answer ledger.now.log) (entries answers.now)) }
{
    let mut table = ledger.blank(alloc)?;
    wrong_answers(alloc, &mut table, ledger.log(), answers)
}

/// How many are wrong of the answers, of the accepted changes and of the entries of the log; it
/// stays at the greatest number.
///
/// No answer is wrong once each reader has met the writer. The replay sees it once more, from what
/// came back alone; without memory for it, what the readers know decides.
pub(crate) fn wrong_count(
    alloc: Global,
    ledger: &Ledger,
    c: &Catalog<'_>,
    changes: &[Vec<Change>],
    outcomes: &[Vec<Result<u64, Refusal>>],
    answers: &[Vec<Answer>],
    times: &mut [u8],
) -> u64
    requires same { AreAsLong changes.now outcomes.now }
    requires found { EachIsFoundIn ledger.now.log answers.now }
    requires some { 0 < length times.old }
    ensures { IsWrongCount c.now changes.now outcomes.now answers.now ledger.now.log result }
{
    let log = ledger.log();
    let of_answers = replayed(alloc, ledger, answers).unwrap_or(0);
    let of_changes = wrong_changes(c, log, changes, outcomes);
    let of_entries = wrong_entries(log.len(), outcomes, times);
    of_answers
        .saturating_add(of_changes)
        .saturating_add(of_entries)
}
