//! What is known of several addresses, in one call.

ghost use Rattle.std.specs.Prelude.{◌≡◌, ◌≢◌, length, map};
ghost use Rattle.std.specs.Option.{option_map};
ghost use Rattle.latchsym_ffi.specs.Batches.{told_at, told_of};
ghost use Rattle.latchsym_ffi.specs.Finding.{shown_seen};

use crate::answers::{BAD_LENGTH, DONE};
use crate::finding::{CatalogAnswer, RegionAndSymbol, description_of, seek_next};
use modules::{Catalog, Finder, IndexedCatalog, MOST_EXPECTED};

/// The answer for one of several addresses: what a search for it alone writes and returns.
#[repr(C)]
#[derive(Clone, Copy, Drop)]
pub struct CodedAnswer {
    pub answer: CatalogAnswer,
    pub code: u32,
}

/// The answer for what a search found.
fn told(catalog: &Catalog<'static>, seen: Option<RegionAndSymbol<'_>>) -> CodedAnswer
    ensures { result ≡ told_of catalog.now (option_map shown_seen seen.entry) }
{
    let description = description_of(catalog, seen);
    CodedAnswer {
        answer: description.answer,
        code: description.code,
    }
}

/// Looks each address up, and writes its answer at its place, if there are as many places.
pub(crate) fn answer_in_order(
    catalog: &IndexedCatalog<'static>,
    addrs: &[u64],
    out: &mut [CodedAnswer],
) -> u32
    ensures told { result ≡ 0 → out.new ≡ map (told_at catalog.now) addrs.now }
    ensures done { length out.old ≡ length addrs.now → result ≡ 0 }
    ensures room { length out.old ≢ length addrs.now → result ≡ 102 }
    ensures refused { result ≢ 0 → out.new ≡ out.old }
{
    if out.len() != addrs.len() {
        return BAD_LENGTH;
    }
    answer_all(catalog, addrs, out);
    DONE
}

/// Looks each address up, and writes its answer at its place.
fn answer_all(catalog: &IndexedCatalog<'static>, addrs: &[u64], out: &mut [CodedAnswer])
    requires { length out.old ≡ length addrs.now }
    ensures { out.new ≡ map (told_at catalog.now) addrs.now }
{
    let mut finder = Finder::new(catalog);
    for place in 0..addrs.len() {
        if place % MOST_EXPECTED == 0 {
            finder.expect(&addrs[place..]);
        }
        out[place] = told(catalog.catalog(), seek_next(&mut finder, addrs[place]));
    }
}
