//! The readers that came back meet the writer.
//!
//! What a reader knew when it gave its last answer is a beginning of what it knows once it has met
//! the writer, which is the whole log. So all its answers are answers of the log, and the changes
//! that were made beside a reader follow the log.

ghost use Rattle.std.specs.Prelude.{◌≡◌, ◌≤◌, [], length, Some, IfSome, vec_capacity};
ghost use mathlib.Core.List.{IsPrefix};
ghost use Rattle.shared_lookup.specs.Readers.{EachHasLooked, HasMet, known_by};
ghost use Rattle.shared_lookup.specs.Followings.{EachFollowsLog};
ghost use Rattle.shared_lookup.specs.Servings.{EachHasOutcome, EachIsAnswered, EachIsFoundIn};
ghost use Rattle.shared_lookup.specs.Threads.{AreAllMade, AreHeard};

use crate::changes::Change;
use crate::ledgers::Ledger;
use crate::served::Answer;
use crate::threads::{ChangeResults, LookupResults, Outcomes};
use latch_table::Reader;
use modules::Catalog;
use order_laws::HalfOpen;

/// The ledger and the reader, once they have met, if there is a reader.
fn met(ledger: Ledger, seat: Option<Reader<HalfOpen>>) -> (Ledger, Option<Reader<HalfOpen>>)
    requires { IfSome seat (λ r. r.place ≡ ledger.place) }
    ensures same { result.0 ≡ ledger }
    ensures known { IsPrefix (known_by seat) ledger.log }
    ensures reader { HasMet ledger.log seat result.1 }
{
    match seat {
        Some(reader) => {
            let (ledger, reader) = ledger.meet(reader);
            (ledger, Some(reader))
        }
        None => (ledger, None),
    }
}

/// The ledger, once it has met the reader, if there is one, which is dropped.
fn settled(ledger: Ledger, seat: Option<Reader<HalfOpen>>) -> Ledger
    requires { IfSome seat (λ r. r.place ≡ ledger.place) }
    ensures same { result ≡ ledger }
    ensures known { IsPrefix (known_by seat) ledger.log }
{
    met(ledger, seat).0
}

/// Each reader meets the ledger's writer. Adds the answers of each list, whether it ended and its
/// reader to three lists.
pub(crate) fn meet_all(
    ledger: Ledger,
    keys: &[Vec<u64>],
    heard: Vec<LookupResults>,
    mut answers: Vec<Vec<Answer>>,
    mut ended: Vec<bool>,
    mut readers: Vec<Option<Reader<HalfOpen>>>,
) -> (
    Ledger,
    Vec<Vec<Answer>>,
    Vec<bool>,
    Vec<Option<Reader<HalfOpen>>>,
)
    requires heard { AreHeard (Some ledger.place) keys.now heard.items }
    requires blank { (answers.items ≡ []) × (ended.items ≡ []) × (readers.items ≡ []) }
    requires long { length keys.now ≤ vec_capacity answers }
    requires told { length keys.now ≤ vec_capacity ended }
    requires back { length keys.now ≤ vec_capacity readers }
    ensures same { result.0 ≡ ledger }
    ensures answered { EachIsAnswered keys.now result.1.items result.2.items }
    ensures found { EachIsFoundIn ledger.log result.1.items }
    ensures looked { EachHasLooked ledger.log result.1.items result.3.items }
{
    let mut ledger = ledger;
    for found in heard {
        let LookupResults {
            answers: list,
            ended: end,
            seat,
        } = found;
        let (same, reader) = met(ledger, seat);
        ledger = same;
        answers.push_reserved(list);
        ended.push_reserved(end);
        readers.push_reserved(reader);
    }
    (ledger, answers, ended, readers)
}

/// The reader beside each list of changes meets the ledger's writer. Adds the outcomes of each list
/// to a list.
pub(crate) fn settle_all(
    ledger: Ledger,
    _c: &Catalog<'_>,
    changes: &[Vec<Change>],
    all: Vec<ChangeResults>,
    mut outcomes: Vec<Outcomes>,
) -> (Ledger, Vec<Outcomes>)
    requires made { AreAllMade (Some ledger.place) (Some ledger) _c.now changes.now all.items }
    requires blank { outcomes.items ≡ [] }
    requires long { length changes.now ≤ vec_capacity outcomes }
    ensures same { result.0 ≡ ledger }
    ensures outcomes { EachHasOutcome _c.now changes.now result.1.items }
    ensures follow { EachFollowsLog _c.now ledger changes.now result.1.items }
{
    let mut ledger = ledger;
    for made in all {
        let ChangeResults {
            outcomes: list,
            seat,
        } = made;
        ledger = settled(ledger, seat);
        outcomes.push_reserved(list);
    }
    (ledger, outcomes)
}
