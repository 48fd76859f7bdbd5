//! What one actor does in one step.

ghost use Rattle.std.specs.Prelude.{◌≡◌, IfOk, IfErr};

use order_laws::Refusal;
use table_updates::Update;

/// One step of the writer or of a reader. Readers are told apart by a number.
#[derive(Debug, PartialEq, Eq, Drop)]
pub enum Event<K> {
    /// The writer begins an update. No word changes.
    Begin(Update),
    /// The writer makes one store.
    Write,
    /// A reader begins a lookup of this key.
    Start(u32, K),
    /// A reader makes one load.
    Read(u32),
}

impl<K: Copy> Event<K> {
    /// A copy of the event. Refused by [`Refusal::OutOfMemory`] alone.
    pub fn copy(&self) -> Result<Event<K>, Refusal>
        ensures same { IfOk result (λ e. e ≡ self.now) }
        ensures refusal { IfErr result (λ why. why ≡ Refusal.OutOfMemory) }
    {
        Ok(match self {
            Event::Begin(update) => Event::Begin(update.copy()?),
            Event::Write => Event::Write,
            Event::Start(reader, key) => Event::Start(*reader, *key),
            Event::Read(reader) => Event::Read(*reader),
        })
    }
}
