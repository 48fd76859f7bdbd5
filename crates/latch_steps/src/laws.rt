//! What holds of every run, whatever the events and whatever steps the writer chose.

ghost use Rattle.latch_steps.specs.Promises.{AllRunsAreSafe, AllRunsAreQuiet, AllPlainRunsAreExact};
ghost use Rattle.latch_steps.specs.Promises.{AllRunsAreRemembered, PlainCommandsRunPlainly};

use order_laws::TreeOrder;

/// Each lookup that returns gives the lookup of the table that was current at a moment between its
/// start and its last load, and names that table by its generation.
#[tactic(auto, using(crate::proofs::SafeRunLemmas::safe))]
pub fn every_run_is_safe<O: TreeOrder>()
    ensures { AllRunsAreSafe O.order }
{}

/// An item that a lookup returned answers from memory, by one load of word 0: if this names the
/// generation of that lookup, the item is for each key in it the lookup of the table that is
/// current at that load, even in the middle of an update.
#[tactic(auto, using(crate::proofs::SafeRunLemmas::remembers))]
pub fn every_answer_is_remembered<O: TreeOrder>()
    ensures { AllRunsAreRemembered O.order }
{}

/// A lookup that the writer leaves alone returns at its first attempt, within four loads for each
/// item of the table and three; and no lookup tries again more often than the writer flips between
/// its start and its last load.
#[tactic(auto, using(crate::proofs::QuietRunLemmas::quiet))]
pub fn every_run_is_quiet<O: TreeOrder>()
    ensures { AllRunsAreQuiet O.order }
{}

/// If each update is ended at once and each lookup is read to its end at once, each lookup that
/// returns gives the lookup of the table after all updates accepted before it, with their
/// generation, at its first attempt and within four loads for each item of that table and three.
#[tactic(auto, using(crate::proofs::PlainRunLemmas::exact_where_plain))]
pub fn every_plain_run_is_exact<O: TreeOrder>()
    ensures { AllPlainRunsAreExact O.order }
{}

/// Commands that come one after another in this way make such a run.
#[tactic(auto, using(crate::proofs::PlainRunLemmas::commands_plain))]
pub fn plain_commands_run_plainly<O: TreeOrder>()
    ensures { PlainCommandsRunPlainly O.order }
{}
