//! A catalog that handles share, with the symbols by name once a call has asked for a name, and the
//! parts of its listing, of which a change leaves most as they are.

ghost use Rattle.std.specs.Prelude.{◌≡◌, IfOk, slice_get};
ghost use Rattle.std.specs.Option.{option_copied, option_map};
ghost use Rattle.latchsym_ffi.specs.ByNumber.{place_of_name};

use follower::SharedCatalog;
use modules::{Catalog, IndexedCatalog, NamedSymbol, SharedListing, SymbolNames};
use std::alloc::{AllocError, Global};
use std::marker::Model;
use std::sync::Arc;

/// The parts of a listing that several catalogs share.
#[derive(Drop)]
pub(crate) struct KeptListing {
    shared: Arc<SharedListing<'static>, Global>,
}

impl Model for KeptListing {
    ghost use Rattle.std.specs.Arc.{arc_value};
    ghost use Rattle.modules.specs.ListingParts.{ListingParts};

    ghost Value = { ListingParts };

    ghost view = { λ l. arc_value l.shared };
}

impl KeptListing {
    fn new(alloc: Global, listing: SharedListing<'static>) -> Result<KeptListing, AllocError>
        ensures { IfOk result (λ l. l ≡ listing.entry) }
    {
        Ok(KeptListing {
            shared: Arc::new(alloc, listing)?,
        })
    }

    /// One owner more of this listing.
    fn share(&self) -> Result<KeptListing, AllocError>
        ensures { IfOk result (λ l. l ≡ self.now) }
    {
        Ok(KeptListing {
            shared: Arc::try_clone(&self.shared)?,
        })
    }
}

/// The parts of a listing to be shared, if there is one.
fn kept(
    alloc: Global,
    listing: Option<SharedListing<'static>>,
) -> Result<Option<KeptListing>, AllocError>
    ensures { IfOk result (λ l. l ≡ listing.entry) }
{
    match listing {
        Some(listing) => Ok(Some(KeptListing::new(alloc, listing)?)),
        None => Ok(None),
    }
}

/// One owner more of a listing, if there is one.
fn shared_of(listing: &Option<KeptListing>) -> Result<Option<KeptListing>, AllocError>
    ensures { IfOk result (λ l. l ≡ listing.now) }
{
    match listing {
        Some(listing) => Ok(Some(listing.share()?)),
        None => Ok(None),
    }
}

/// A catalog of listings whose bytes C keeps until its last handle is closed.
#[derive(Drop)]
pub struct OpenCatalog {
    shared: SharedCatalog<'static>,
    /// The parts of the listing of symbols, if no listing of modules is beside it.
    listing: Option<KeptListing>,
    names: Option<SymbolNames<'static>>,
}

impl Model for OpenCatalog {
    ghost use Rattle.std.specs.Prelude.{IfSome};
    ghost use Rattle.modules.specs.SymbolNames.{IsNamesOf};
    ghost use Rattle.latchsym_ffi.specs.HeldCatalogs.{HeldCatalog};

    ghost Value = { HeldCatalog };

    ghost view = { λ c. record { entries = c.shared; listing = c.listing } };

    ghost invariant = { λ c. IfSome c.names (IsNamesOf c.shared) };
}

impl OpenCatalog {
    /// Makes a catalog one that handles can share, with the parts of its listing.
    pub(crate) fn new(
        alloc: Global,
        catalog: IndexedCatalog<'static>,
        listing: Option<SharedListing<'static>>,
    ) -> Result<OpenCatalog, AllocError>
        ensures { IfOk result
            (λ c. c ≡ record { entries = catalog.entry; listing = listing.entry }) }
    {
        Ok(OpenCatalog {
            shared: SharedCatalog::new(alloc, catalog)?,
            listing: kept(alloc, listing)?,
            names: None,
        })
    }

    /// One owner more of this catalog.
    pub(crate) fn share(&self) -> Result<OpenCatalog, AllocError>
        ensures { IfOk result (λ c. c ≡ self.now) }
    {
        Ok(OpenCatalog {
            shared: self.shared.share()?,
            listing: shared_of(&self.listing)?,
            names: None,
        })
    }

    /// The catalog as other owners share it.
    pub(crate) fn shared(&self) -> &SharedCatalog<'static>
        ensures { result.now ≡ self.now.entries }
    {
        &self.shared
    }

    /// The catalog with its index.
    pub(crate) fn indexed(&self) -> &IndexedCatalog<'static>
        ensures { result.now ≡ self.now.entries }
    {
        self.shared.indexed()
    }

    /// The catalog without its index.
    pub(crate) fn catalog(&self) -> &Catalog<'static>
        ensures { result.now ≡ self.now.entries }
    {
        self.indexed().catalog()
    }

    /// The parts of its listing of symbols, if no listing of modules is beside it.
    pub(crate) fn listing(&self) -> Option<&SharedListing<'static>>
        ensures { option_copied result ≡ self.now.listing }
    {
        match &self.listing {
            Some(listing) => Some(&listing.shared),
            None => None,
        }
    }

    /// The n-th symbol of a name in the order of the catalog, if there is one: the number of its
    /// module, and its place there. The first call sorts the symbols by name.
    pub(crate) fn place_of(
        &mut self,
        alloc: Global,
        name: &[u8],
        from: usize,
    ) -> Result<Option<(u64, usize)>, AllocError>
        ensures place { IfOk result (λ r. r ≡ place_of_name self.old.entries name.now from) }
        ensures same { self.new ≡ self.old }
    {
        let names = match self.names.take() {
            Some(names) => names,
            None => SymbolNames::of(alloc, self.shared.indexed().catalog())?,
        };
        let place = place_in(names.named(name), from);
        self.names = Some(names);
        Ok(place)
    }
}

/// The number of the module and the place in it of the symbol at a place.
fn place_in(named: &[NamedSymbol<'static>], from: usize) -> Option<(u64, usize)>
    ensures { result ≡ option_map (λ s. (s.number, s.place)) (slice_get named.now from) }
{
    let symbol = named.get(from)?;
    Some((symbol.number, symbol.place))
}
