//! Files of addresses.
//!
//! Each line is an address, is empty, or is a comment that begins with `#`.
ghost use Rattle.std.specs.Prelude.{◌≡◌, ◌≢◌, ◌≤◌, ◌<◌, Err, IfSome, IsErrOf};
ghost use Rattle.texts.specs.Counted.{device_of, failures_of, Rose};
ghost use Rattle.texts.specs.Said.{Gives};
ghost use Rattle.listing.specs.Addresses.{address_in_line, address_of_text, addresses_of};
ghost use Rattle.listing.specs.Addresses.{is_blank_end, sixteen_digits, without_blank_end};

use std::alloc::{AllocError, Global};
use std::io::Read;
use texts::{Counted, Form, LineFault, entries_in, hexadecimal, number, read_whole};

/// The form of a line that is an address.
#[derive(Drop)]
struct AddressForm;

impl<'a> Form<'a> for AddressForm {
    type Entry = u64;

    ghost entry_of = { λ _ line. address_in_line line };

    fn entry(&self, line: &'a [u8]) -> Result<Option<u64>, AllocError> {
        Ok(address_in_line(line))
    }
}

/// The address that a line is.
fn address_in_line(line: &[u8]) -> Option<u64>
    ensures { result ≡ address_in_line line.now }
{
    address_of_text(without_blank_end(line))
}

/// The address that a text is: what just 16 hexadecimal digits write, as the kernel does, or else a
/// number, decimal or hexadecimal after `0x`.
pub fn address_of_text(text: &[u8]) -> Option<u64>
    ensures { result ≡ address_of_text text.now }
{
    match sixteen_digits(text) {
        Some(addr) => Some(addr),
        None => number(text),
    }
}

/// The hexadecimal digits of an address without `0x`: those that the kernel writes.
const DIGITS: usize = 16;

/// The number that just 16 hexadecimal digits write.
fn sixteen_digits(text: &[u8]) -> Option<u64>
    ensures { result ≡ sixteen_digits text.now }
{
    if text.len() != DIGITS {
        return None;
    }
    hexadecimal(text)
}

/// The text without the blanks, tabs and carriage returns that it ends in.
fn without_blank_end(text: &[u8]) -> &[u8]
    ensures { result.now ≡ without_blank_end text.now }
{
    let mut end = text.len();
    while end > 0 && is_blank_end(text[end - 1]) {
        end -= 1;
    }
    &text[..end]
}

/// Whether a line may end in the byte after its address.
fn is_blank_end(byte: u8) -> bool
    ensures { result ≡ is_blank_end byte }
{
    byte == b' ' || byte == b'\t' || byte == b'\r'
}

/// Reads a file of addresses, in their order.
///
/// Each line is 16 hexadecimal digits, or a NUMBER (as [`number`] reads it), after which blanks,
/// tabs and carriage returns may come; or it is passed over: it is empty, or a comment that begins
/// with `#`. No line, also no comment, has more than [`LONGEST_LINE`](texts::LONGEST_LINE) bytes.
/// Bytes after the last line's end are a line too. A file of no bytes has no address.
pub fn read_addresses<R: Read>(
    alloc: Global,
    reader: &mut Counted<R>,
) -> Result<Vec<u64>, LineFault>
    ensures addresses { IfSome (R.remaining (device_of reader.old))
        (λ bytes. Gives (λ addresses. addresses.items) result (addresses_of bytes)) }
    ensures read { IsErrOf result LineFault.Read
        → Rose (failures_of reader.old) (failures_of reader.new) }
    ensures none_failed { result ≢ Err LineFault.Read
        → failures_of reader.new ≡ failures_of reader.old }
    ensures never_falls { failures_of reader.old ≤ failures_of reader.new }
{
    let bytes = read_whole(alloc, reader)?;
    entries_in(alloc, &AddressForm, 1, &bytes)
}
