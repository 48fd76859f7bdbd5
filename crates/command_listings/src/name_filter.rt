//! Which names symbols may have.
//!
//! A log may have any word after an address, and mostly no symbol is called so. Not to go through
//! symbols for it, the name of each symbol has a mark at a number of its bytes. A word without one
//! is no symbol's name:
//!
//! ```text
//!     symbols    do_one -> 3    do_two -> 7    do_alias -> 3
//!     marks      . . . x . . . x
//!     words      worker: -> 5, no name         do_six -> 7, perhaps one
//! ```
ghost use Rattle.std.specs.Prelude.{◌≡◌, ◌<◌, ℕ, List, true, IfOk};
ghost use Rattle.command_listings.specs.NameFilters.{HaveMarks, HoldsNames, has_mark, number_of};

use modules::{Catalog, Symbol};
use std::alloc::{AllocError, Global};
use std::marker::Model;

/// How many numbers names have.
pub(crate) const NUMBERS: usize = 1 << 20;

/// By which a name's bytes are multiplied, one after the other: Knuth's factor for 64 bits.
const FACTOR: u64 = 0x5851_f42d_4c95_7f2d;

/// A mark at the number of each name that a symbol has.
#[derive(Drop)]
pub(crate) struct NameFilter {
    marks: Vec<bool>,
}

impl Model for NameFilter {
    ghost use Rattle.std.specs.Prelude.{◌≡◌, Bool, List, length};

    ghost Value = { List Bool };

    ghost view = { λ f. f.marks.items };

    ghost invariant = { λ f. length f.marks.items ≡ 1048576 };
}

/// The number of a name: the highest bits of what its bytes make.
#[tactic(auto, unfolding(crate::specs::NameFilters::number_of))]
pub(crate) fn number_of(name: &[u8]) -> usize
    ensures is { result ≡ number_of name.now }
    ensures below { result < 1048576 }
{
    let mut bits = 0u64;
    let mut rest = name;
    while let [byte, more @ ..] = rest {
        bits = bits.wrapping_add(u64::from(*byte)).wrapping_mul(FACTOR);
        rest = more;
    }
    (bits >> 44) as usize
}

impl NameFilter {
    /// No name has a mark.
    fn new(alloc: Global) -> Result<NameFilter, AllocError> {
        let mut marks = Vec::new(alloc);
        marks.resize(NUMBERS, false)?;
        Ok(NameFilter { marks })
    }

    /// The names of all symbols of a catalog.
    pub(crate) fn of(alloc: Global, catalog: &Catalog) -> Result<NameFilter, AllocError>
        ensures { IfOk result (λ f. HoldsNames f catalog.now) }
    {
        let mut filter = NameFilter::new(alloc)?;
        for number in 0..=catalog.len() {
            if let Some(module) = catalog.module(number) {
                filter.mark_all(module.symbols());
            }
        }
        Ok(filter)
    }

    /// Puts a mark for the name of each of the symbols.
    fn mark_all(&mut self, symbols: &[Symbol])
        ensures marked { HaveMarks self.new symbols.now }
        ensures kept { (name : List ℕ)
            → has_mark self.old name ≡ true → has_mark self.new name ≡ true }
    {
        for symbol in symbols {
            self.mark(symbol.name());
        }
    }

    /// Puts a mark for a name.
    #[tactic(auto, using(crate::proofs::FilterLemmas::mark_put, crate::proofs::FilterLemmas::mark_kept))]
    fn mark(&mut self, name: &[u8])
        ensures marked { has_mark self.new name.now ≡ true }
        ensures kept { (other : List ℕ)
            → has_mark self.old other ≡ true → has_mark self.new other ≡ true }
    {
        self.marks[number_of(name)] = true;
    }

    /// Whether a name has a mark. If not, no symbol has it.
    pub(crate) fn has(&self, name: &[u8]) -> bool
        ensures { result ≡ has_mark self.now name.now }
    {
        self.marks[number_of(name)]
    }
}
