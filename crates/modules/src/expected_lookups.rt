//! Whether to make a module's symbols ready pays for the lookups that are expected.

use crate::marks::PAGE;
use crate::symbols::Symbol;

/// How often the symbols of a module are gone through before to copy them by rising address costs
/// less.
const MOST_SCANS: usize = 8;

/// For how many symbols one search without buckets costs less than to put them into buckets.
const SYMBOLS_A_SEARCH: usize = 64;

/// How many of the addresses lie in the pages from the first to the last of the symbols.
fn count_near(addrs: &[u64], symbols: &[Symbol]) -> usize {
    let least = symbols.iter().map(|symbol| symbol.addr).min().unwrap_or(0);
    let greatest = symbols.iter().map(|symbol| symbol.addr).max().unwrap_or(0);
    addrs
        .iter()
        .filter(|addr| least / PAGE <= **addr / PAGE && **addr / PAGE <= greatest / PAGE)
        .count()
}

/// The addresses that a catalog is asked about. Its answers do not depend on what is said here, but
/// the time that they take does.
#[derive(Clone, Copy, Drop)]
pub enum ExpectedLookups<'q> {
    /// Any, and any number of them.
    Any,
    /// Mostly these.
    These(&'q [u64]),
}

impl ExpectedLookups<'_> {
    /// Whether it costs less to put the symbols into buckets than to seek each address in the whole
    /// list.
    pub(crate) fn pays_buckets(self, symbols: usize) -> bool {
        match self {
            ExpectedLookups::Any => true,
            ExpectedLookups::These(addrs) => addrs.len() > symbols / SYMBOLS_A_SEARCH,
        }
    }

    /// Whether to copy the symbols by rising address costs less than to go through them for each of
    /// the addresses that lie in the pages from the first to the last of them. They are counted
    /// only if that costs less than the copies.
    pub(crate) fn pays_copies(self, symbols: &[Symbol]) -> bool {
        match self {
            ExpectedLookups::Any => true,
            ExpectedLookups::These(addrs) => {
                addrs.len() > symbols.len() || count_near(addrs, symbols) > MOST_SCANS
            }
        }
    }
}
