//! A log that is written again with the text of the answer after each address, line by line.
#![tactic(auto)]

mod address_words;
mod annotation;
mod annotator;
mod answers;
mod contexts;
mod kernel_offsets;
mod kernel_reports;
mod line;
mod log_names;
mod own_names;
mod places;
mod said_names;
mod unnamed;
mod words;

pub use address_words::{AddressWord, WordPlace};
pub use annotation::{Findings, LogFault, annotate, annotate_text, keep_head};
pub use annotator::{Annotator, cut_line, put_now};
pub use answers::Answers;
pub use contexts::{First, LogContext};
pub use kernel_offsets::{KernelOffset, kernel_offset_in};
pub use kernel_reports::{KernelReport, says_nothing};
pub use log_names::LogNames;
pub use own_names::NamedReadings;
pub use unnamed::{Unanswered, has_address};
pub use words::Word;
