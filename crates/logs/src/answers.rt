//! What a log's addresses are answered by.
ghost use Rattle.std.specs.Prelude.{◌≡◌, false, true, IfOk, option_map};
ghost use Rattle.logs.specs.Answering.{Answering};

use crate::own_names::NamedReadings;
use std::alloc::AllocError;

/// What the addresses of a log are answered by.
///
/// An address has two readings: as a caller's, which is looked up one byte lower, and as it is.
pub trait Answers {
    ghost answering: { Self → Answering };

    /// Whether the log is of a 32-bit kernel.
    fn is_narrow(&self) -> bool
        ensures { result ≡ (answering self.now).is_narrow };

    /// Prepares what bytes of a log may ask for, unless they say nothing of the kernel that wrote
    /// it. No answer changes.
    fn prepare(&mut self, is_silent: bool) -> Result<(), AllocError>
        ensures { answering self.new ≡ answering self.old };

    /// The text that is inserted for an address, if one is, if its place asks for this reading.
    fn text_of(&self, is_caller: bool, addr: u64) -> Result<Option<Vec<u8>>, AllocError>
        ensures { IfOk result
            (λ o. option_map (λ v. v.items) o ≡ (answering self.now).text is_caller addr) };

    /// Which readings have the name, as their symbol's or another symbol's at its address.
    fn named_readings(&self, addr: u64, name: &[u8]) -> NamedReadings
        ensures caller { result.as_caller ≡ (answering self.now).is_alias true addr name.now }
        ensures exact { result.as_it_is ≡ (answering self.now).is_alias false addr name.now };

    /// Whether the symbol of a reading, or another one at its address, has the name.
    fn is_alias(&self, is_caller: bool, addr: u64, name: &[u8]) -> bool
        ensures { result ≡ (answering self.now).is_alias is_caller addr name.now };

    /// Whether a reading lies `offset` bytes above its symbol.
    fn is_offset(&self, is_caller: bool, addr: u64, offset: u64) -> bool
        ensures { result ≡ (answering self.now).is_offset is_caller addr offset };

    /// Whether data begins at the address.
    fn is_data(&self, addr: u64) -> bool
        ensures { result ≡ (answering self.now).is_data addr };

    /// Whether one of the functions of the kernel itself with this name has this size, if there is
    /// one with this name.
    fn has_size(&self, name: &[u8], size: u64) -> Result<Option<bool>, AllocError>
        ensures { IfOk result (λ o. o ≡ (answering self.now).has_size name.now size) };

    /// Whether the address is not below all that the listing has.
    fn is_in_range(&self, addr: u64) -> bool
        ensures { result ≡ (answering self.now).is_in_range addr };
}
