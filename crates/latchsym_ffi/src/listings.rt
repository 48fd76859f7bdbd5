//! The struct of C that has the listings.

ghost use Rattle.std.specs.Prelude.{◌≡◌, [], true, unwrap_or, All, IfOk};
ghost use Rattle.std.specs.Option.{option_copied};
ghost use Rattle.texts.specs.Said.{GivesInGrammar};
ghost use Rattle.modules.specs.Lines.{region_fits};
ghost use Rattle.listing.specs.Opening.{listed_in, listings_of};
ghost use Rattle.latchsym_ffi.specs.Listings.{bounds_if_any, is_change, is_understood};
ghost use Rattle.latchsym_ffi.specs.Listings.{kernel_in};
ghost use Rattle.latchsym_ffi.specs.Listings.{text_if_any, texts_in};

use listing::Listings;
use modules::KernelBounds;
use std::alloc::Global;
use texts::LineFault;

/// How many bytes the struct has, which it says itself first: a later version may have more.
const SIZE: usize = 96;

/// The bytes of the listings, as C hands them in. Those that are not given have no byte, and one of
/// modules is there only if `has_modules` is not 0.
#[repr(C)]
#[derive(Clone, Copy, Drop)]
pub struct CatalogListings {
    pub size: usize,
    pub kallsyms: &'static [u8],
    pub modules: &'static [u8],
    pub regions: &'static [u8],
    /// The name of the symbol at the kernel's first address.
    pub start: &'static [u8],
    /// The name of the symbol at its end.
    pub end: &'static [u8],
    pub has_modules: u32,
}

/// A text, which is none if it has no byte.
fn if_any(text: &'static [u8]) -> Option<&'static [u8]>
    ensures { option_copied result ≡ text_if_any text.now }
{
    if text.is_empty() { None } else { Some(text) }
}

/// The names of both bounds of the kernel, which are none if neither has a byte.
fn bounds_if_any(start: &'static [u8], end: &'static [u8]) -> Option<KernelBounds<'static>>
    ensures { result ≡ bounds_if_any start.now end.now }
{
    if start.is_empty() && end.is_empty() {
        None
    } else {
        Some(KernelBounds { start, end })
    }
}

impl CatalogListings {
    /// Whether the struct is one of this version, and has no byte of a listing that it says is not
    /// there.
    pub(crate) fn is_understood(&self) -> bool
        ensures { result ≡ is_understood self.now }
    {
        self.size == SIZE
            && (self.has_modules != 0 || self.modules.is_empty() && self.regions.is_empty())
    }

    /// Whether it has a change of a listing of symbols: it is understood, and has no listing of
    /// modules.
    pub(crate) fn is_change(&self) -> bool
        ensures { result ≡ is_change self.now }
    {
        self.is_understood() && self.has_modules == 0
    }

    /// The names of both bounds of the kernel, if they are given.
    pub(crate) fn kernel(&self) -> Option<KernelBounds<'static>>
        ensures { result ≡ kernel_in self.now }
    {
        bounds_if_any(self.start, self.end)
    }

    /// The listings that it has. Each line of the listing of regions must be understood.
    pub(crate) fn listings(&self, alloc: Global) -> Result<Listings<'static>, LineFault>
        ensures listings { GivesInGrammar listed_in result (listings_of (texts_in self.now)) }
        ensures fit { IfOk result
            (λ l. All (λ r. region_fits r ≡ true) (unwrap_or (listed_in l).regions [])) }
    {
        let modules = if self.has_modules == 0 {
            None
        } else {
            Some(self.modules)
        };
        Listings::of(alloc, modules, self.kallsyms, if_any(self.regions))
    }
}
