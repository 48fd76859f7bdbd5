//! What a writer is asked to do.

ghost use Rattle.std.specs.Prelude.{◌≡◌, ◌↔◌, IsTrue};
ghost use Rattle.modules.specs.Loads.{GivesOrLacksMemory};
ghost use Rattle.shared_lookup.specs.Changes.{asked, number_of_change, IsUpdateFor};

use modules::{Catalog, Held};
use order_laws::Refusal;
use table_updates::Update;

/// A change of what is loaded, by the number of the module in the catalog.
#[derive(Clone, Copy, Debug, PartialEq, Eq, Drop)]
pub enum Change {
    /// All regions of the module are put in.
    Load(u64),
    /// All of them that are held are taken out.
    Unload(u64),
    /// The init regions are taken out.
    DropInit(u64),
}

impl Change {
    /// The number of the module.
    pub fn number(self) -> u64
        ensures { result ≡ number_of_change self }
    {
        match self {
            Change::Load(number) | Change::Unload(number) | Change::DropInit(number) => number,
        }
    }

    /// The update that the catalog gives for this change, by what of the module is held.
    pub(crate) fn asked(self, c: &Catalog<'_>, held: Held) -> Result<Update, Refusal>
        ensures { GivesOrLacksMemory (asked c.now self held) result }
    {
        match self {
            Change::Load(number) => c.load(number, held),
            Change::Unload(number) => c.unload(number, held),
            Change::DropInit(number) => c.drop_init(number, held),
        }
    }

    /// Whether the catalog gives this update for the change, whatever is held. It takes no memory.
    pub(crate) fn gives(self, c: &Catalog<'_>, update: &Update) -> bool
        ensures { IsTrue result ↔ IsUpdateFor c.now self update.now }
    {
        match self {
            Change::Load(number) => c.gives_load(number, update),
            Change::Unload(number) => c.gives_unload(number, update),
            Change::DropInit(number) => c.gives_drop_init(number, update),
        }
    }
}
