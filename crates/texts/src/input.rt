//! Input that is read whole.
ghost use Rattle.std.specs.Prelude.{◌≡◌, ◌≢◌, ◌≤◌, Err, IfOk, IfSome, IsErrOf};
ghost use Rattle.texts.specs.Counted.{device_of, failures_of, Rose};

use crate::{BLOCK, Counted, ReadFault};
use std::alloc::Global;
use std::io::Read;

/// Reads all that a reader has left. The first call that fails ends it, even if it was interrupted.
pub fn read_whole<R: Read>(alloc: Global, reader: &mut Counted<R>) -> Result<Vec<u8>, ReadFault>
    ensures bytes { IfOk result
        (λ bytes. IfSome (R.remaining (device_of reader.old)) (λ left. bytes.items ≡ left)) }
    ensures read { IsErrOf result ReadFault.Read
        → Rose (failures_of reader.old) (failures_of reader.new) }
    ensures none_failed { result ≢ Err ReadFault.Read
        → failures_of reader.new ≡ failures_of reader.old }
    ensures never_falls { failures_of reader.old ≤ failures_of reader.new }
{
    let mut bytes = Vec::new(alloc);
    let mut room = Vec::new(alloc);
    room.resize(BLOCK, 0)?;
    let block = room.as_mut_slice();
    loop {
        let count = match reader.read(block) {
            Ok(count) => count,
            Err(_) => return Err(ReadFault::Read),
        };
        if count == 0 {
            return Ok(bytes);
        }
        bytes.extend_from_slice(&block[..count])?;
    }
}
