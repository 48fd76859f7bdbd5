//! Catalogs by generation and by stamp.

ghost use Rattle.std.specs.Prelude.{◌≡◌, ◌↔◌, ◌≤◌, ◌<◌, ◌++◌, [], ◌∷◌, nat_le, All, IfOk, IsTrue};
ghost use Rattle.std.specs.Prelude.{OnOk, vec_len, vec_capacity};
ghost use Rattle.std.specs.Option.{option_copied};
ghost use Rattle.modules.specs.Index.{IsSplitBy};
ghost use Rattle.follower.specs.Catalogs.{DropsOldest, Forgets, number_of, standing_at, start_by};

use modules::IndexedCatalog;
use std::alloc::{AllocError, Global};
use std::marker::Model;
use std::sync::Arc;

/// A catalog that several owners share.
#[derive(Drop)]
pub struct SharedCatalog<'a> {
    shared: Arc<IndexedCatalog<'a>, Global>,
}

impl<'a> Model for SharedCatalog<'a> {
    ghost use Rattle.std.specs.Arc.{arc_value};
    ghost use Rattle.modules.specs.Entries.{CatalogEntries};

    ghost Value = { CatalogEntries };

    ghost view = { λ c. arc_value c.shared };
}

impl<'a> SharedCatalog<'a> {
    /// Makes a catalog one that owners can share. Refused only when out of memory.
    pub fn new(alloc: Global, catalog: IndexedCatalog<'a>) -> Result<SharedCatalog<'a>, AllocError>
        ensures { IfOk result (λ c. c ≡ catalog.entry) }
    {
        Ok(SharedCatalog {
            shared: Arc::new(alloc, catalog)?,
        })
    }

    /// One owner more of this catalog.
    pub fn share(&self) -> Result<SharedCatalog<'a>, AllocError>
        ensures { IfOk result (λ c. c ≡ self.now) }
    {
        Ok(SharedCatalog {
            shared: Arc::try_clone(&self.shared)?,
        })
    }

    /// The catalog with its index.
    pub fn indexed(&self) -> &IndexedCatalog<'a>
        ensures { result.now ≡ self.now }
    {
        &self.shared
    }
}

/// A moment: a generation of the table, or a stamp by the caller's clock.
#[derive(Clone, Copy, Debug, Drop)]
pub enum Moment {
    Generation(u64),
    Stamp(u64),
}

/// A catalog, and when it was shown.
#[derive(Drop)]
pub struct DatedCatalog<'a> {
    /// The last generation before the update that showed it.
    pub previous: u64,
    /// The caller's stamp of that moment.
    pub since: u64,
    /// A number of the caller's.
    pub tag: u64,
    pub catalog: SharedCatalog<'a>,
}

impl DatedCatalog<'_> {
    /// Whether the catalog was shown at or before the moment.
    fn has_begun(&self, moment: Moment) -> bool
        ensures { result ≡ nat_le (start_by moment self.now) (number_of moment) }
    {
        match moment {
            Moment::Generation(generation) => self.previous < generation,
            Moment::Stamp(at) => self.since <= at,
        }
    }
}

/// Catalogs in the order in which they were shown. One is current from its own generation and stamp
/// up to the next one's, the last from its own on.
#[derive(Drop)]
pub struct Catalogs<'a> {
    dated: Vec<DatedCatalog<'a>>,
}

impl<'a> Model for Catalogs<'a> {
    ghost use Rattle.std.specs.Global.{Vec};
    ghost use Rattle.follower.specs.declared.catalogs.DatedCatalog.{DatedCatalog};
    ghost use Rattle.follower.specs.Catalogs.{AreInOrder};

    ghost Value = { Vec DatedCatalog };

    ghost view = { λ c. c.dated };

    ghost invariant = { λ c. AreInOrder c.dated.items };
}

impl<'a> Catalogs<'a> {
    /// No catalogs.
    pub fn new(alloc: Global) -> Catalogs<'a>
        ensures { result.items ≡ [] }
    {
        Catalogs {
            dated: Vec::new(alloc),
        }
    }

    /// Makes room for one catalog more.
    pub fn reserve_one(&mut self) -> Result<(), AllocError>
        ensures same { self.new.items ≡ self.old.items }
        ensures room { OnOk result (vec_len self.new < vec_capacity self.new) }
    {
        self.dated.reserve(1)
    }

    /// Whether no catalog has a stamp above this one.
    pub fn may_begin(&self, since: u64) -> bool
        ensures { IsTrue result ↔ All (λ d. d.since ≤ since) self.now.items }
    {
        self.dated.last().is_none_or(|newest| newest.since <= since)
    }

    /// Keeps a catalog that was shown after the others, and whose stamp is not below theirs. Takes
    /// no memory: there is room.
    pub fn keep_reserved(&mut self, dated: DatedCatalog<'a>)
        requires later { All (λ d. d.previous < dated.previous) self.old.items }
        requires since { All (λ d. d.since ≤ dated.since) self.old.items }
        requires room { vec_len self.old < vec_capacity self.old }
        ensures { self.new.items ≡ self.old.items ++ dated.entry ∷ [] }
    {
        self.dated.push_reserved(dated);
    }

    /// The current catalog at a moment, if there is one: the last that was shown at or before it.
    pub fn of(&self, moment: Moment) -> Option<&DatedCatalog<'a>>
        ensures { option_copied result ≡ standing_at self.now.items moment }
    {
        match self.begun_by(moment) {
            0 => None,
            begun => Some(&self.dated[begun - 1]),
        }
    }

    /// Drops the oldest catalog if the next one was shown at or before the moment, and returns its
    /// tag: at that moment and later ones the current catalog stays as it was.
    pub fn forget(&mut self, moment: Moment) -> Option<u64>
        ensures { Forgets moment self.old.items self.new.items result }
    {
        if self.begun_by(moment) < 2 {
            return None;
        }
        self.drop_oldest()
    }

    /// Drops the oldest catalog, if there is one, and returns its tag.
    pub fn drop_oldest(&mut self) -> Option<u64>
        ensures { DropsOldest self.old.items self.new.items result }
    {
        if self.dated.is_empty() {
            return None;
        }
        let oldest = self.dated.remove(0);
        Some(oldest.tag)
    }

    /// How many catalogs were shown at or before the moment.
    fn begun_by(&self, moment: Moment) -> usize
        ensures { IsSplitBy (start_by moment) self.now.items (number_of moment) result }
    {
        self.dated.partition_point(|dated| dated.has_begun(moment))
    }
}
