//! The answers of the readers, checked by one replay of the log.
//!
//! The answers are referred to in the order of their generations, and a second table goes through
//! the log once: before each answer it is brought to the answer's generation, and the key is looked
//! up there. No answer is copied: it takes eight times the memory of a reference.

ghost use Rattle.std.specs.Prelude.{◌≡◌, ◌≤◌, ◌++◌, [], take, length, count_by, IfOk, IfErr, OnOk};
ghost use Rattle.std.specs.List.Sorted.{IsPermutation};
ghost use Rattle.order_laws.specs.declared.refusals.Refusal.TheVariants.{OutOfMemory};
ghost use Rattle.shared_lookup.specs.Checks.{AreReferredInOrder, HasReplayed, answers_at};
ghost use Rattle.shared_lookup.specs.Checks.{is_wrong_answer, with_log};
ghost use Rattle.shared_lookup.specs.Ledgers.{AreAccepted, HasNothingPending, ledger_of};
ghost use Rattle.shared_lookup.specs.Servings.{entries};

use crate::gates::Open;
use crate::resting::{apply, find};
use crate::served::Answer;
use latch_table::Writer;
use order_laws::{HalfOpen, Refusal};
use std::alloc::{AllocError, Global};
use table_updates::Update;

/// Adds a reference to each answer of a list.
fn refer_to<'a>(all: &mut Vec<&'a Answer>, list: &'a [Answer]) -> Result<(), AllocError>
    ensures { OnOk result (answers_at all.new.items ≡ answers_at all.old.items ++ list.now) }
{
    for answer in list {
        all.push(answer)?;
    }
    Ok(())
}

/// References to the answers of all lists, one list after another.
fn flattened(alloc: Global, answers: &[Vec<Answer>]) -> Result<Vec<&Answer>, AllocError>
    ensures { IfOk result (λ all. answers_at all.items ≡ entries answers.now) }
{
    let count = answers
        .iter()
        .fold(0usize, |count, list| count.saturating_add(list.len()));
    let mut all = Vec::with_capacity(alloc, count)?;
    for list in answers {
        refer_to(&mut all, list.as_slice())?;
    }
    Ok(all)
}

/// References to the answers of all lists, by rising generation.
fn by_generation(alloc: Global, answers: &[Vec<Answer>]) -> Result<Vec<&Answer>, AllocError>
    ensures permutation { IfOk result (λ all.
        IsPermutation (entries answers.now) (answers_at all.items)) }
    ensures ordered { IfOk result (λ all. AreReferredInOrder all.items) }
{
    let mut all = flattened(alloc, answers)?;
    all.sort_unstable_by_key(|answer| answer.generation);
    Ok(all)
}

/// Brings a table that has made the first `done` updates of the log on to the first `count`.
fn replay_up_to(
    table: &mut Writer<HalfOpen>,
    log: &[Update],
    done: usize,
    count: usize,
) -> Result<(), Refusal>
    requires rests { HasNothingPending table.old }
    requires done { table.old.history ≡ take done log.now }
    requires further { done ≤ count }
    requires within { count ≤ length log.now }
    requires accepted { AreAccepted (with_log log.now (ledger_of table.old)) }
    ensures replayed { OnOk result (HasReplayed (take count log.now) table.old table.new) }
    ensures refusal { IfErr result (λ e. e ≡ OutOfMemory) }
{
    for update in &log[done..count] {
        apply(table, &Open, 0, update.copy()?)?;
    }
    Ok(())
}

/// Whether an answer is wrong, of a generation that is not below the `done` updates of the log that
/// the table has made. Returns with it how many it has made then.
fn is_wrong(
    table: &mut Writer<HalfOpen>,
    log: &[Update],
    done: usize,
    answer: &Answer,
) -> Result<(bool, usize), Refusal>
    requires rests { HasNothingPending table.old }
    requires done { table.old.history ≡ take done log.now }
    requires within { done ≤ length log.now }
    requires further { done ≤ answer.now.generation }
    requires accepted { AreAccepted (with_log log.now (ledger_of table.old)) }
    ensures wrong { IfOk result (λ r. r.0 ≡ is_wrong_answer log.now answer.now) }
    ensures done { IfOk result (λ r. (r.1 ≤ length log.now) × (r.1 ≤ answer.now.generation)
        × HasReplayed (take r.1 log.now) table.old table.new) }
    ensures refusal { IfErr result (λ e. e ≡ OutOfMemory) }
{
    if answer.generation > log.len() as u64 {
        return Ok((true, done));
    }
    let count = answer.generation as usize;
    replay_up_to(table, log, done, count)?;
    let found = find(table, answer.key);
    Ok((answer.item != found, count))
}

/// How many answers are wrong, of answers in order, by a table that has made no update.
#[tactic(auto, using(crate::proofs::CheckLemmas::count_referred))]
fn wrong_in_order(
    table: &mut Writer<HalfOpen>,
    log: &[Update],
    answers: &[&Answer],
) -> Result<u64, Refusal>
    requires rests { HasNothingPending table.old }
    requires blank { table.old.history ≡ [] }
    requires accepted { AreAccepted (with_log log.now (ledger_of table.old)) }
    requires ordered { AreReferredInOrder answers.now }
    ensures count { IfOk result (λ n.
        n ≡ count_by (is_wrong_answer log.now) (answers_at answers.now)) }
    ensures refusal { IfErr result (λ e. e ≡ OutOfMemory) }
{
    let mut done = 0;
    let mut wrong = 0;
    for answer in answers {
        let (here, now) = is_wrong(table, log, done, answer)?;
        done = now;
        if here {
            wrong += 1;
        }
    }
    Ok(wrong)
}

/// How many answers of these lists are wrong, by a table that has made no update.
pub(crate) fn wrong_answers(
    alloc: Global,
    table: &mut Writer<HalfOpen>,
    log: &[Update],
    answers: &[Vec<Answer>],
) -> Result<u64, Refusal>
    requires rests { HasNothingPending table.old }
    requires blank { table.old.history ≡ [] }
    requires accepted { AreAccepted (with_log log.now (ledger_of table.old)) }
    ensures count { IfOk result (λ n.
        n ≡ count_by (is_wrong_answer log.now) (entries answers.now)) }
    ensures refusal { IfErr result (λ e. e ≡ OutOfMemory) }
{
    let ordered = by_generation(alloc, answers)?;
    wrong_in_order(table, log, ordered.as_slice())
}
