//! The lines of a listing, each with its module. A line whose address is hidden has one too.
ghost use Rattle.std.specs.Prelude.{◌≡◌};
ghost use Rattle.std.specs.Option.{option_copied};
ghost use Rattle.histories.specs.ListingLines.{is_of_kernel, module_of};

use listing::module_of_line;
use memchr::memchr;

/// The module of a line, if it is well formed and has one. Most lines have no tab, and are read no
/// further.
#[tactic(auto, using(crate::proofs::LineLemmas::without_tab))]
pub(crate) fn module_in(line: &[u8]) -> Option<&[u8]>
    ensures { option_copied result ≡ module_of line.now }
{
    let tab = memchr(b'\t', line)?;
    module_of_line(line, Some(tab))?
}

/// Whether a line is well formed and has no module.
pub(crate) fn is_of_kernel(line: &[u8]) -> bool
    ensures { result ≡ is_of_kernel line.now }
{
    match module_of_line(line, memchr(b'\t', line)) {
        Some(module) => module.is_none(),
        None => false,
    }
}
