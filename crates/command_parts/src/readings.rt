//! Files that are read whole, by their places in the order in which they are read.
ghost use Rattle.std.specs.Prelude.{◌≡◌, IfOk, IfSome, option_map};
ghost use Rattle.texts.specs.Counted.{device_of, failures_of};
ghost use Rattle.command_parts.specs.Readings.{IsReadAs, failures_in, known_text};

use crate::fault::Fault;
use order_laws::Refusal;
use std::alloc::Global;
use std::io::Read;
use texts::{Counted, ReadFault, read_whole};

/// The place of the listing of modules among the files that are read.
pub const MODULES_PLACE: u64 = 0;

/// The place of the listing of symbols.
pub const KALLSYMS_PLACE: u64 = 1;

/// The place of the listing of regions.
pub const REGIONS_PLACE: u64 = 2;

/// Reads the file at a place of the order in which they are read, if there is one.
pub(crate) fn read_if_given<R: Read>(
    alloc: Global,
    reader: &mut Option<Counted<R>>,
    place: u64,
) -> Result<Option<Vec<u8>>, Fault>
    ensures bytes { IfOk result (λ text. IfSome (known_text R.remaining reader.old)
        (λ left. option_map (λ t. t.items) text ≡ left)) }
    ensures read { IsReadAs place (failures_in reader.old) (failures_in reader.new) result }
{
    match reader {
        Some(reader) => Ok(Some(read_at(alloc, reader, place)?)),
        None => Ok(None),
    }
}

/// Reads the file at a place of the order in which they are read.
pub fn read_at<R: Read>(
    alloc: Global,
    reader: &mut Counted<R>,
    place: u64,
) -> Result<Vec<u8>, Fault>
    ensures bytes { IfOk result
        (λ bytes. IfSome (R.remaining (device_of reader.old)) (λ left. bytes.items ≡ left)) }
    ensures read { IsReadAs place (failures_of reader.old) (failures_of reader.new) result }
{
    match read_whole(alloc, reader) {
        Ok(bytes) => Ok(bytes),
        Err(ReadFault::OutOfMemory) => Err(Fault::Refused(Refusal::OutOfMemory)),
        Err(ReadFault::Read) => Err(Fault::Read { place }),
    }
}
