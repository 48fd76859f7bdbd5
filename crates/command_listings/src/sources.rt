//! Which listings are read.
use modules::KernelBounds;

/// The listings, and between which symbols the kernel itself lies.
#[derive(Debug, Drop)]
pub struct Sources<'a> {
    /// The files of the listings.
    pub files: ListingFiles<'a>,
    /// What the file of the symbols has.
    pub symbols: SymbolSource,
    /// The names of the symbols that bound the kernel's own region, if they are given.
    pub kernel: Option<KernelBounds<'a>>,
}

/// What a file of symbols has.
#[derive(Clone, Copy, Debug, PartialEq, Eq, Drop)]
pub enum SymbolSource {
    /// A listing.
    Listing,
    /// A history, of whose listings one is taken.
    History {
        /// The time of this listing, in nanoseconds; without it the last one is taken.
        time: Option<u64>,
    },
}

/// The files of listings.
#[derive(Debug, Drop)]
pub struct ListingFiles<'a> {
    /// The listing of modules; if there is none, the symbols give the places of modules.
    pub modules: Option<&'a str>,
    /// The listing of symbols.
    pub kallsyms: &'a str,
    /// The listing of regions, if there is one.
    pub regions: Option<&'a str>,
}
