//! What each event of a run came to, and how it is reported.

use crate::events::Event;
use crate::replies::{NextLoad, Reply};

/// What an event came to.
#[derive(Clone, Copy, Debug, PartialEq, Eq, Drop)]
pub struct Outcome<K> {
    /// How many events there are with it.
    pub number: u64,
    /// What it loaded, if it is a load of a pending lookup.
    pub load: Option<NextLoad<K>>,
    /// What it replied.
    pub reply: Reply<K>,
    /// The sequence after it.
    pub sequence: u64,
}

/// How the events of a run are reported, one after another.
pub trait Report<K> {
    ghost use Rattle.latch_steps.specs.declared.events.Event.{Event};
    ghost use Rattle.latch_steps.specs.declared.reports.Outcome.{Outcome};

    /// What takes the reports.
    type Sink;

    /// What the report of an event makes of it.
    ghost reports: { Self → Self.Sink → Event K → Outcome K → Self.Sink → Type 0 };

    /// Reports an event, and what it came to.
    fn report(&self, to: &mut Self::Sink, event: &Event<K>, outcome: &Outcome<K>)
        ensures { reports self.now to.old event.now outcome.now to.new };
}
