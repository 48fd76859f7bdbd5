//! Text that goes to a writer, by blocks, until a call of it fails. After the first failure text is
//! dropped, so callers need not check, and what was written is a beginning of what was said:
//!
//! ```text
//!     said         0x2000 do_one+0x8/0x1f00⏎ 0x2008 do_one+0x10/0x1f00⏎ ..
//!     written      0x2000 do_one+0x8/0x1f00⏎ 0x20|     this call failed
//!
//!     no failure   0x2000 do_one+0x8/0x1f00⏎|0x2008 do_one+0x
//!                  taken by the writer      |kept back until its room is full, or a flush
//! ```
//!
//! It takes no memory after it was opened.
ghost use Rattle.std.specs.Prelude.{◌≡◌, ◌+◌, ◌≤◌, ◌++◌, [], IfOk, IfSome, IsTrue, decimal};
ghost use Rattle.std.specs.Prelude.{drop, false, length, take, vec_capacity, vec_len};
ghost use Rattle.std.specs.Io.KnownBytes.{Appends};
ghost use Rattle.texts.specs.Device.{error_kept, is_broken, writer_in};
ghost use Rattle.texts.specs.Exact.{hexadecimal};

use crate::device::Device;
use crate::exact::{LONGEST_HEXADECIMAL, write_hexadecimal};
use itoa::write_digits;
use std::alloc::{AllocError, Global};
use std::io;
use std::io::Write;

/// A writer, the bytes that are kept back for it, and whether a call of it failed.
///
/// A failed call is an error of any kind, one that was interrupted too, or a write of at least one
/// byte that takes none. After it the writer is not called again. Whether a call failed, and with
/// which error, is what the device inside knows: nothing else has a say in it.
#[derive(Drop)]
pub struct Output<W> {
    device: Device<W>,
    kept: Vec<u8>,
}

impl<W> Output<W> {
    ghost use Rattle.texts.specs.Output.{IsOpenedOver, error_in, has_failed, writer_of};

    /// The writer, with no call made. It is called for each text that is said.
    pub fn new(alloc: Global, device: W) -> Output<W>
        ensures { IsOpenedOver device result }
    {
        Output {
            device: Device::new(device),
            kept: Vec::new(alloc),
        }
    }

    /// The writer, with no call made. It is called when there is no room left for what is kept
    /// back, `capacity` bytes, and at a flush.
    pub fn with_capacity(alloc: Global, capacity: usize, device: W) -> Result<Output<W>, AllocError>
    where
        W: Drop,
        ensures { IfOk result (IsOpenedOver device) }
    {
        let kept = Vec::with_capacity(alloc, capacity)?;
        Ok(Output {
            device: Device::new(device),
            kept,
        })
    }

    /// Whether a call of the writer failed.
    #[inline(always)]
    pub fn has_failed(&self) -> bool
        ensures { result ≡ has_failed self.now }
    {
        self.device.has_failed()
    }

    /// The error that the failed call gave. A write that takes nothing gives none.
    pub fn error(&self) -> Option<io::Error>
        ensures { result ≡ error_in self.now }
    {
        self.device.error()
    }

    /// The writer alone. What is kept back is lost.
    pub fn into_inner(self) -> W
        ensures { result ≡ writer_of self }
    {
        self.device.into_inner()
    }

    /// Whether no call failed, and there is room to keep back this many bytes more.
    #[inline(always)]
    fn has_room(&self, bytes: usize) -> bool
        ensures sound { IsTrue result → has_failed self.now ≡ false }
        ensures room { IsTrue result → vec_len self.now.kept + bytes ≤ vec_capacity self.now.kept }
    {
        !self.has_failed() && bytes <= self.kept.capacity() - self.kept.len()
    }
}

impl<W: Write> Output<W> {
    ghost use Rattle.texts.specs.Output.{Delivers, Says, TookAll, has_failed, kept_back};

    /// Says bytes. Mostly there is room to keep them back: the rest is a function apart, so that
    /// this is inlined.
    #[inline(always)]
    pub fn put(&mut self, bytes: &[u8])
        ensures { Says W.contents self.old self.new bytes.now }
    {
        if self.has_room(bytes.len()) {
            append(&mut self.kept, bytes);
        } else {
            self.put_through(bytes);
        }
    }

    /// Says bytes after the writer was given what is kept back. Those that its room cannot hold go
    /// to the writer as they are.
    #[inline(never)]
    fn put_through(&mut self, bytes: &[u8])
        ensures { Says W.contents self.old self.new bytes.now }
    {
        if bytes.len() >= self.kept.capacity() {
            self.put_past(bytes);
            return;
        }
        self.write_kept();
        if self.has_failed() {
            return;
        }
        append(&mut self.kept, bytes);
    }

    /// Says bytes, and keeps none of them back.
    fn put_past(&mut self, bytes: &[u8])
        ensures { Says W.contents self.old self.new bytes.now }
    {
        self.write_kept();
        if self.has_failed() {
            return;
        }
        write_all(&mut self.device, bytes);
    }

    /// Gives the writer what is kept back.
    fn write_kept(&mut self)
        ensures said { Says W.contents self.old self.new [] }
        ensures empty { has_failed self.new ≡ false → kept_back self.new ≡ [] }
        ensures room { vec_capacity self.new.kept ≡ vec_capacity self.old.kept }
    {
        if self.kept.is_empty() || self.has_failed() {
            return;
        }
        let taken = write_all(&mut self.device, self.kept.as_slice());
        remove_front(&mut self.kept, taken);
    }

    /// Says bytes, keeps nothing back, and lets the writer keep nothing back. They go to the writer
    /// as they are, so that a long text is not copied.
    pub fn deliver(&mut self, bytes: &[u8])
        ensures { Delivers W.contents self.old self.new bytes.now }
    {
        self.put_past(bytes);
        self.flush()
    }

    /// Keeps nothing back, and lets the writer keep nothing back.
    pub fn flush(&mut self)
        ensures { Delivers W.contents self.old self.new [] }
    {
        self.write_kept();
        if self.has_failed() {
            return;
        }
        let _ = self.device.flush();
    }

    /// Keeps nothing back, and returns the writer if no call of it failed.
    pub fn finish(mut self) -> Option<W>
    where
        W: Drop,
        ensures { IfSome result (TookAll W.contents self) }
    {
        self.flush();
        if self.has_failed() {
            return None;
        }
        Some(self.into_inner())
    }

    /// Says `0x` and the number in lower case hexadecimal without leading zeros, `0x0` for zero.
    pub fn put_hexadecimal(&mut self, n: u64)
        ensures { Says W.contents self.old self.new (hexadecimal n) }
    {
        let mut buffer = [0u8; LONGEST_HEXADECIMAL];
        let start = write_hexadecimal(n, &mut buffer);
        self.put(&buffer[start..]);
    }

    /// Says the number in decimal, without leading zeros. All copies have one length, which costs
    /// less, and the bytes after the digits are cut off.
    pub fn put_decimal(&mut self, n: u64)
        ensures { Says W.contents self.old self.new (decimal n) }
    {
        let mut digits = [0u8; 2 * MOST_DIGITS];
        let start = write_digits(n, &mut digits, MOST_DIGITS);
        if self.has_room(MOST_DIGITS) {
            let end = self.kept.len() + (MOST_DIGITS - start);
            append(&mut self.kept, &digits[start..start + MOST_DIGITS]);
            self.kept.truncate(end);
        } else {
            self.put_through(&digits[start..MOST_DIGITS]);
        }
    }
}

/// Calls the writer until it has taken all of these bytes or a call failed, and returns how many it
/// took. It is apart from the device, so that no failure can be said here but by a call.
fn write_all<W: Write>(device: &mut Device<W>, bytes: &[u8]) -> usize
    requires sound { is_broken device.old ≡ false }
    ensures bound { result ≤ length bytes.now }
    ensures taken { Appends (W.contents (writer_in device.old))
        (W.contents (writer_in device.new)) (take result bytes.now) }
    ensures all { is_broken device.new ≡ false → result ≡ length bytes.now }
    ensures error { is_broken device.new ≡ false → error_kept device.new ≡ error_kept device.old }
{
    let mut taken = 0;
    while taken < bytes.len() {
        match device.write(&bytes[taken..]) {
            Ok(more) if more > 0 => taken += more,
            _ => return taken,
        }
    }
    taken
}

/// The most digits of a decimal number.
const MOST_DIGITS: usize = 20;

/// Appends bytes that there is room for.
#[inline(always)]
fn append(kept: &mut Vec<u8>, bytes: &[u8])
    requires { vec_len kept.old + length bytes.now ≤ vec_capacity kept.old }
    ensures { kept.new.items ≡ kept.old.items ++ bytes.now }
{
    let Ok(()) = kept.extend_from_slice(bytes) else {
        unreachable!()
    };
}

/// Removes the first `count` bytes.
fn remove_front(kept: &mut Vec<u8>, count: usize)
    requires { count ≤ vec_len kept.old }
    ensures items { kept.new.items ≡ drop count kept.old.items }
    ensures room { vec_capacity kept.new ≡ vec_capacity kept.old }
{
    let len = kept.len();
    kept.as_mut_slice().copy_within(count..len, 0);
    kept.truncate(len - count);
}
