//! The catalog that the addresses of a log are answered from.
//!
//! Each word that a log has itself after an address, and that is not the answer's name, is sought
//! among the symbols at the address. So that symbols are not asked for each word, it is found once
//! for a log which names they may have, from its second block on: for one it does not pay to go
//! through all symbols. The kernel's symbols are linked by their names only for a log that may say
//! the sizes of functions.
ghost use Rattle.std.specs.Prelude.{◌≡◌, false};
ghost use Rattle.modules.specs.Items.{item_of_address};
ghost use Rattle.command_listings.specs.LogAnswers.{is_reached};
ghost use Rattle.command_listings.specs.NameFilters.{IsNoName};
ghost use Rattle.command_listings.specs.Sizes.{has_size_by};

use crate::kernel_names::{KernelNames, has_size_among};
use crate::name_filter::NameFilter;
use modules::{Catalog, IndexedCatalog};
use order_laws::Item;
use std::alloc::{AllocError, Global};
use std::marker::Model;

/// An indexed catalog, with what is known of its symbols.
#[derive(Drop)]
pub(crate) struct LogIndex<'i, 'c> {
    index: &'i IndexedCatalog<'c>,
    /// Whether it was asked for a block already.
    is_begun: bool,
    /// Which names symbols may have, once it is known.
    filter: Option<NameFilter>,
    /// The links of the kernel's symbols by their names, once a size may be asked for.
    names: Option<KernelNames>,
}

impl<'i, 'c> Model for LogIndex<'i, 'c> {
    ghost use Rattle.modules.specs.Entries.{CatalogEntries};
    ghost use Rattle.command_listings.specs.LogIndexes.{IsKnown};

    ghost Value = { CatalogEntries };

    ghost view = { λ i. i.index.now };

    ghost invariant = { λ i. IsKnown i.index.now i.filter i.names };
}

impl<'i, 'c> LogIndex<'i, 'c> {
    /// Nothing is known of the symbols yet.
    pub(crate) fn new(index: &'i IndexedCatalog<'c>) -> LogIndex<'i, 'c>
        ensures { result ≡ index.now }
    {
        LogIndex {
            index,
            is_begun: false,
            filter: None,
            names: None,
        }
    }

    /// The catalog.
    pub(crate) fn catalog(&self) -> &Catalog<'c>
        ensures { result.now ≡ self.now }
    {
        self.index.catalog()
    }

    /// The region that an address lies in.
    pub(crate) fn find(&self, addr: u64) -> Option<Item>
        ensures { result ≡ item_of_address self.now addr }
    {
        self.index.find(addr)
    }

    /// Whether a symbol may have the name.
    #[tactic(auto, using(crate::proofs::FilterLemmas::no_name))]
    pub(crate) fn may_be_name(&self, name: &[u8]) -> bool
        ensures { result ≡ false → IsNoName self.now name.now }
    {
        match &self.filter {
            Some(filter) => filter.has(name),
            None => true,
        }
    }

    /// Whether an address is not below the first region.
    pub(crate) fn reaches(&self, addr: u64) -> bool
        ensures { result ≡ is_reached self.now addr }
    {
        is_reached(self.index, addr)
    }

    /// Finds what pays for one block more of a log. No answer changes.
    pub(crate) fn prepare(&mut self, alloc: Global, is_silent: bool) -> Result<(), AllocError>
        ensures { self.new ≡ self.old }
    {
        if self.is_begun {
            self.mark_names(alloc);
        }
        self.is_begun = true;
        if is_silent {
            Ok(())
        } else {
            self.link_names(alloc)
        }
    }

    /// Finds which names symbols may have, unless it is known or there is no memory for it. No
    /// answer changes.
    pub(crate) fn mark_names(&mut self, alloc: Global)
        ensures { self.new ≡ self.old }
    {
        if self.filter.is_none() {
            self.filter = NameFilter::of(alloc, self.index.catalog()).ok();
        }
    }

    /// Links the symbols of the kernel itself by their names, unless they are. No answer changes.
    fn link_names(&mut self, alloc: Global) -> Result<(), AllocError>
        ensures { self.new ≡ self.old }
    {
        if self.names.is_some() {
            return Ok(());
        }
        if let Some(kernel) = self.index.catalog().module(0) {
            self.names = Some(KernelNames::of(alloc, kernel.symbols())?);
        }
        Ok(())
    }

    /// Whether one of the functions of the kernel itself with this name has this size, if there is
    /// one with this name. If they are not linked by their names, all are gone through.
    pub(crate) fn has_size(&self, name: &[u8], size: u64) -> Option<bool>
        ensures { result ≡ has_size_by self.now name.now size }
    {
        let symbols = self.index.catalog().module(0)?.symbols();
        match &self.names {
            Some(names) => names.has_size(self.index, symbols, name, size),
            None => has_size_among(self.index, symbols, name, size),
        }
    }
}

/// Whether an address is not below the first region of a catalog.
#[tactic(auto, using(crate::proofs::RangeLemmas::none_reached, crate::proofs::RangeLemmas::reached_by_first))]
fn is_reached(index: &IndexedCatalog<'_>, addr: u64) -> bool
    ensures { result ≡ is_reached index.now addr }
{
    let items = index.items();
    if items.is_empty() {
        return false;
    }
    items[0].a <= addr
}
