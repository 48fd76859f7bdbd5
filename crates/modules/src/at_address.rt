//! Whether one of a module's symbols has an address and a name.
//!
//! If symbols are listed by rising address, the ones at one address lie side by side, so that no
//! others need to be gone through:
//!
//! ```text
//! symbols:   10 a   20 b   20 c   20 d   40 e
//! at 20:            20 b   20 c   20 d
//! ```

ghost use Rattle.std.specs.Prelude.{◌≡◌, ℕ, List};
ghost use Rattle.modules.specs.AtAddress.{lists_symbol};
ghost use Rattle.modules.specs.Index.{IsFirstOf, IsRising};

use crate::buckets::{is_first, split_at};
use crate::symbols::{Symbol, first_back};

/// How many symbols are below the address, of symbols by rising address. Mostly `end` of them are
/// not above it.
fn first_from(symbols: &[Symbol], end: usize, addr: u64) -> usize
    requires { IsRising symbols.now }
    ensures { IsFirstOf symbols.now addr result }
{
    if is_first(symbols, end, addr) {
        end
    } else {
        first_back(symbols, end.saturating_sub(1), addr)
    }
}

/// The symbols at the address, of symbols by rising address. `near` is tried first, as the place of
/// the first symbol above the address.
#[tactic(auto, using(crate::proofs::AtAddressLemmas::within_range))]
fn all_at<'s, 'a>(symbols: &'s [Symbol<'a>], near: usize, addr: u64) -> &'s [Symbol<'a>]
    requires { IsRising symbols.now }
    ensures { (name : List ℕ)
        → lists_symbol symbols.now addr name ≡ lists_symbol result.now addr name }
{
    let end = split_at(symbols, near, addr);
    let first = first_from(symbols, end, addr);
    &symbols[first..end]
}

/// Whether one of the symbols, which are listed by rising address, has the address and the name.
/// The place `near` is tried first.
pub(crate) fn lists_in_order(symbols: &[Symbol], near: usize, addr: u64, name: &[u8]) -> bool
    requires { IsRising symbols.now }
    ensures { result ≡ lists_symbol symbols.now addr name.now }
{
    lists_in_any_order(all_at(symbols, near, addr), addr, name)
}

/// Whether one of the symbols, in any order, has the address and the name.
pub(crate) fn lists_in_any_order(symbols: &[Symbol], addr: u64, name: &[u8]) -> bool
    ensures { result ≡ lists_symbol symbols.now addr name.now }
{
    symbols
        .iter()
        .any(|symbol| symbol.addr == addr && symbol.name() == name)
}
