//! Texts that are read and written: lines and words, numbers, what lines say, readers whose failed
//! calls are counted, and outputs that a failed call ends.
//!
//! A text is read whole, then cut into lines, and a line into words, in time linear in its length.
//!
//! A fault of input or output may be reported only if a call of the device failed. So a reader is
//! called through [`Counted`] and a writer through [`Output`], and each contract that speaks of a
//! fault speaks of what these count or keep.
//!
//! A caller has a form of lines, reads a text by it, and says its answers to an output:
//!
//! ```text
//! struct NumberForm;
//!
//! impl<'a> Form<'a> for NumberForm {
//!     type Entry = u64;
//!     ghost entry_of = { λ _ line. number_of line };
//!
//!     fn entry(&self, line: &'a [u8]) -> Result<Option<u64>, AllocError> {
//!         Ok(number(line))
//!     }
//! }
//!
//! let mut reader = Counted::new(rt.stdin());
//! let bytes = read_whole(alloc, &mut reader)?;
//! // Err(LineFault::BadLine(4)) if line 4 is the first that is not a number
//! let numbers = entries_in(alloc, &NumberForm, 1, &bytes)?;
//!
//! let mut output = Output::with_capacity(alloc, BLOCK, rt.stdout())?;
//! for n in &numbers {
//!     output.put_hexadecimal(*n);
//!     output.put(b"\n");
//! }
//! let done = output.finish().is_some(); // false if a call of the device failed
//! ```
#![tactic(auto)]

mod counted;
mod device;
mod exact;
mod faults;
mod input;
mod lines;
mod numbers;
mod output;
mod said;

pub use counted::{BLOCK, Counted};
pub use faults::{LineFault, ReadFault};
pub use input::read_whole;
pub use lines::{LONGEST_LINE, cut_line, cut_word, words_in};
pub use numbers::{
    count, decimal, digit_of, hexadecimal, number, number_up_to, short_number, sixteen_digits,
};
pub use output::Output;
pub use said::{Form, NextEntry, entries_in, is_too_long, next_entry_in};
