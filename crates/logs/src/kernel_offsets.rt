//! What a log says itself of the place of its kernel.
//!
//! A kernel that was moved at boot prints in a panic how far it was moved, and from what address:
//!
//! ```text
//! Kernel Offset: 0x1a600000 from 0xffffffff81000000 (relocation range: ...)
//!                ^^^^^^^^^^      ^^^^^^^^^^^^^^^^^^
//!                offset          from
//! ```
//!
//! The first such text of a log counts.
ghost use Rattle.std.specs.Prelude.{◌≡◌};
ghost use Rattle.logs.specs.KernelOffsets.{kernel_offset_at, kernel_offset_in, kernel_place};
ghost use Rattle.logs.specs.KernelOffsets.{from_at, number_at};

use crate::places::{ByteClass, first_of};
use memchr::memmem;
use texts::hexadecimal;

/// The text before the offset.
pub(crate) const OFFSET: &[u8] = b"Kernel Offset: 0x";
/// The text between the offset and the address from which the kernel was moved.
const FROM: &[u8] = b" from 0x";

/// The place of a log's kernel.
#[derive(Clone, Copy, Debug, PartialEq, Eq, Drop)]
pub struct KernelOffset {
    /// By how many bytes it was moved.
    pub offset: u64,
    /// The address from which it was moved.
    pub from: u64,
}

impl KernelOffset {
    /// The address at which it lay, modulo 2^64.
    pub fn place(self) -> u64
        ensures { result ≡ kernel_place self }
    {
        self.from.wrapping_add(self.offset)
    }
}

/// What the first place says of it that says so, if one does.
#[tactic(auto, using(crate::proofs::KernelOffsetLemmas::none_without_head))]
pub fn kernel_offset_in(log: &[u8]) -> Option<KernelOffset>
    ensures { result ≡ kernel_offset_in log.now }
{
    match memmem::find(log, OFFSET) {
        Some(_) => kernel_offset_apart(log),
        None => None,
    }
}

/// This, sought byte by byte.
#[tactic(auto, using(crate::proofs::KernelOffsetLemmas::said_here))]
fn kernel_offset_apart(log: &[u8]) -> Option<KernelOffset>
    ensures { result ≡ kernel_offset_in log.now }
{
    let mut rest = log;
    while !rest.is_empty() {
        if let Some(offset) = kernel_offset_at(rest) {
            return Some(offset);
        }
        rest = &rest[1..];
    }
    None
}

/// What the bytes say of it that begin a text, if they do.
fn kernel_offset_at(text: &[u8]) -> Option<KernelOffset>
    ensures { result ≡ kernel_offset_at text.now }
{
    if !text.starts_with(OFFSET) {
        return None;
    }
    let digits = &text[OFFSET.len()..];
    let offset = number_at(digits)?;
    from_at(offset, &digits[first_of(ByteClass::Hexadecimal, digits)..])
}

/// This of the bytes after the offset.
fn from_at(offset: u64, text: &[u8]) -> Option<KernelOffset>
    ensures { result ≡ from_at offset text.now }
{
    if !text.starts_with(FROM) {
        return None;
    }
    let from = number_at(&text[FROM.len()..])?;
    Some(KernelOffset { offset, from })
}

/// The number that the hexadecimal digits write which begin a text: 1 to 16 of them.
fn number_at(text: &[u8]) -> Option<u64>
    ensures { result ≡ number_at text.now }
{
    hexadecimal(&text[..first_of(ByteClass::Hexadecimal, text)])
}
