//! A region of addresses, and those that lie apart, in the order of their first addresses.

ghost use Rattle.std.specs.Prelude.{◌≡◌, ◌<◌, ℕ, Bool, true, ◌&&◌, List, [], OnOk};
ghost use Rattle.std.specs.List.{list_all};
ghost use Rattle.modules.specs.Regions.{holds, is_apart};

use crate::buckets::Addressed;
use std::alloc::{AllocError, Global};
use std::collections::BTreeMap;
use std::marker::Model;

/// The addresses from a first one up to an end that is excluded. There is at least one. A contract
/// sees the pair of both.
#[derive(Clone, Copy, Debug, PartialEq, Eq, Drop)]
pub struct Region {
    start: u64,
    end: u64,
}

impl Model for Region {
    ghost use Rattle.std.specs.Prelude.{ℕ, ◌<◌};

    ghost Value = { ℕ × ℕ };

    ghost view = { λ r. (r.start, r.end) };

    ghost invariant = { λ r. r.start < r.end };

    ghost inverse = { λ r. record { start = r.0; end = r.1 } };
}

impl Region {
    /// The region from `start` up to `end`, which is excluded.
    pub fn new(start: u64, end: u64) -> Region
        requires { start < end }
        ensures { result ≡ (start, end) }
    {
        Region { start, end }
    }

    /// Its first address.
    pub fn start(self) -> u64
        ensures { result ≡ self.0 }
    {
        self.start
    }

    /// Its end, which is excluded.
    pub fn end(self) -> u64
        ensures { result ≡ self.1 }
    {
        self.end
    }

    /// Whether the address lies in it.
    pub(crate) fn holds(self, addr: u64) -> bool
        ensures { result ≡ holds self addr }
    {
        self.start <= addr && addr < self.end
    }

    /// Whether no address lies in both.
    pub(crate) fn is_apart(self, other: Region) -> bool
        ensures { result ≡ is_apart self other }
    {
        self.end <= other.start || other.end <= self.start
    }
}

impl Addressed for Region {
    ghost addr_of = { λ r. r.0 };

    fn addr(&self) -> u64 {
        self.start
    }
}

/// Whether no address lies in the region and in one of the others.
pub(crate) fn is_apart_from(region: Region, others: &[Region]) -> bool
    ensures { result ≡ list_all (is_apart region) others.now }
{
    others.iter().all(|other| region.is_apart(*other))
}

/// Regions by their first addresses. They lie apart, so that one neighbour shows whether a further
/// region is apart from all of them.
#[derive(Drop)]
pub(crate) struct Regions {
    ends: BTreeMap<u64, u64>,
}

impl Model for Regions {
    ghost use Rattle.std.specs.Prelude.{List, ℕ};
    ghost use Rattle.modules.specs.Regions.{IsSpread};

    ghost Value = { List (ℕ × ℕ) };

    ghost view = { λ r. r.ends.entries };

    ghost invariant = { λ r. IsSpread r.ends.entries };
}

impl Regions {
    pub(crate) fn new(alloc: Global) -> Regions
        ensures { result ≡ [] }
    {
        Regions {
            ends: BTreeMap::new(alloc),
        }
    }

    /// Whether the region lies apart from all of these.
    pub(crate) fn is_apart(&self, region: Region) -> bool
        ensures { result ≡ list_all (is_apart region) self.now }
    {
        match self.ends.range(..region.end).next_back() {
            Some((_, last_end)) => *last_end <= region.start,
            None => true,
        }
    }

    /// Takes the region in. An error leaves these as they were.
    #[tactic(auto, using(crate::proofs::SpreadLemmas::one_more))]
    pub(crate) fn insert(&mut self, region: Region) -> Result<(), AllocError>
        requires { list_all (is_apart region) self.old ≡ true }
        ensures { OnOk result ((p : ℕ × ℕ → Bool)
            → list_all p self.new ≡ (p region && list_all p self.old)) }
    {
        self.ends.insert(region.start, region.end)?;
        Ok(())
    }
}
