//! What a log says itself of the kernel that wrote it: its place, and the sizes of its functions.
//!
//! ```text
//! RIP: 0010:do_one+0x8/0x1f00        do_one has 0x1f00 bytes
//!           ~~~~~~    ~~~~~~
//! ext4_a+0x18/0x30 [ext4]            a function of a module: it counts for nothing
//! ```
//!
//! If functions have other sizes in a listing, it is one of another build.
//!
//! What no line of a block may say is sought in the block, and not again in each of its lines.
ghost use Rattle.std.specs.Prelude.{◌≡◌, IfOk, IsTrue};
ghost use Rattle.std.specs.Option.{option_or};
ghost use Rattle.logs.specs.KernelOffsets.{kernel_offset_in};
ghost use Rattle.logs.specs.KernelReports.{Lacks, SaysAtMost, SaysNothing, begins_module};
ghost use Rattle.logs.specs.KernelReports.{function_at, is_of_another_build};
ghost use Rattle.logs.specs.KernelReports.{nothing_said, reported, size_behind, size_behind_digits};
ghost use Rattle.logs.specs.KernelReports.{size_in, with_function, with_functions, with_place};
ghost use Rattle.logs.specs.KernelReports.{with_size};

use crate::answers::Answers;
use crate::kernel_offsets::{KernelOffset, OFFSET, kernel_offset_in};
use crate::places::{ByteClass, end_of, first_of};
use crate::words::digits_between;
use memchr::{memchr, memchr_iter, memmem};
use std::alloc::AllocError;
use std::marker::Model;

/// The name and the size of a function, as a log says them.
#[derive(Debug, Drop)]
pub(crate) struct FunctionSize<'a> {
    pub(crate) name: &'a [u8],
    pub(crate) size: u64,
}

impl<'a> Model for FunctionSize<'a> {
    ghost use Rattle.logs.specs.KernelReports.{SizeOfFunction};

    ghost Value = { SizeOfFunction };

    ghost view = { λ f. record { name = f.name.now; size = f.size } };
}

/// What bytes of a log say at most of the kernel that wrote it, as far as it is known.
#[derive(Clone, Copy, Debug, Drop)]
pub enum Said {
    Nothing,
    /// How long functions are.
    Sizes,
    /// That, and the place of the kernel.
    All,
}

impl Said {
    /// What these bytes say at most: nothing, if it is known that they are silent.
    pub(crate) fn of(bytes: &[u8], is_silent: bool) -> Said
        requires { IsTrue is_silent → SaysNothing bytes.now }
        ensures { SaysAtMost result bytes.now }
    {
        if is_silent {
            Said::Nothing
        } else if lacks_offset(bytes) {
            Said::Sizes
        } else {
            Said::All
        }
    }
}

/// What a log says of its kernel. Each count stays at the greatest `u64`.
#[derive(Clone, Copy, Debug, PartialEq, Eq, Drop)]
pub struct KernelReport {
    /// Its place, by the first line that gives it.
    pub offset: Option<KernelOffset>,
    /// The texts with the name and the size of a function that the listing has.
    pub functions: u64,
    /// The functions that the listing has with other sizes only.
    pub resized: u64,
}

impl KernelReport {
    /// Nothing is said.
    pub(crate) fn none() -> KernelReport
        ensures { result ≡ nothing_said }
    {
        KernelReport {
            offset: None,
            functions: 0,
            resized: 0,
        }
    }

    /// Whether the listing is one of another build: two functions or more have another size.
    pub fn is_of_another_build(self) -> bool
        ensures { result ≡ is_of_another_build self }
    {
        self.resized >= 2
    }

    /// One more function that the listing has, of this size or of another one.
    fn with_size(self, is_same: bool) -> KernelReport
        ensures { result ≡ with_size is_same self }
    {
        let functions = self.functions.saturating_add(1);
        if is_same {
            KernelReport { functions, ..self }
        } else {
            KernelReport {
                functions,
                resized: self.resized.saturating_add(1),
                ..self
            }
        }
    }

    /// One function more, if the listing has it.
    fn with_function<A: Answers>(
        self,
        answers: &A,
        function: FunctionSize<'_>,
    ) -> Result<KernelReport, AllocError>
        ensures { IfOk result
            (λ r. r ≡ with_function (A.answering answers.now) self function.entry) }
    {
        match answers.has_size(function.name, function.size)? {
            Some(is_same) => Ok(self.with_size(is_same)),
            None => Ok(self),
        }
    }

    /// The function more whose name ends at a place of a line, if one does.
    fn with_place<A: Answers>(
        self,
        answers: &A,
        line: &[u8],
        place: usize,
    ) -> Result<KernelReport, AllocError>
        ensures { IfOk result
            (λ r. r ≡ with_place (A.answering answers.now) line.now self place) }
    {
        match function_at(line, place) {
            Some(function) => self.with_function(answers, function),
            None => Ok(self),
        }
    }

    /// The functions of a line more.
    #[tactic(auto, using(crate::proofs::KernelReportLemmas::places_then, std::proofs::Common::append_assoc))]
    fn with_functions<A: Answers>(
        self,
        answers: &A,
        line: &[u8],
    ) -> Result<KernelReport, AllocError>
        ensures { IfOk result
            (λ r. r ≡ with_functions (A.answering answers.now) line.now self) }
    {
        let mut report = self;
        for place in memchr_iter(b'+', line) {
            report = report.with_place(answers, line, place)?;
        }
        Ok(report)
    }

    /// The place of the kernel, as these lines say it or else one more.
    #[tactic(auto, using(crate::proofs::KernelReportLemmas::none_said))]
    fn offset_with(self, line: &[u8], said: Said) -> Option<KernelOffset>
        requires { SaysAtMost said line.now }
        ensures { result ≡ option_or self.offset (kernel_offset_in line.now) }
    {
        if self.offset.is_some() {
            return self.offset;
        }
        match said {
            Said::Nothing | Said::Sizes => None,
            Said::All => kernel_offset_in(line),
        }
    }

    /// What a line says more, which says no more than this.
    pub(crate) fn with_line<A: Answers>(
        self,
        answers: &A,
        line: &[u8],
        said: Said,
    ) -> Result<KernelReport, AllocError>
        requires { SaysAtMost said line.now }
        ensures { IfOk result
            (λ r. r ≡ reported (A.answering answers.now) line.now self) }
    {
        let offset = self.offset_with(line, said);
        KernelReport { offset, ..self }.with_functions(answers, line)
    }
}

/// Whether it is plain that no line of these bytes says the place of its kernel or the length of a
/// function.
pub fn says_nothing(bytes: &[u8]) -> bool
    ensures { IsTrue result → SaysNothing bytes.now }
{
    lacks(bytes, b"/0x") && lacks_offset(bytes)
}

/// Whether it is plain that the bytes say nothing of the place of their kernel. A line has mostly
/// no `K`.
#[tactic(auto, using(crate::proofs::KernelReportLemmas::lacks_without_letter))]
fn lacks_offset(bytes: &[u8]) -> bool
    ensures { IsTrue result → Lacks bytes.now OFFSET.now }
{
    match memchr(b'K', bytes) {
        Some(_) => lacks(bytes, OFFSET),
        None => true,
    }
}

/// Whether a text occurs nowhere in the bytes.
fn lacks(bytes: &[u8], text: &[u8]) -> bool
    ensures { IsTrue result → Lacks bytes.now text.now }
{
    match memmem::find(bytes, text) {
        Some(_) => false,
        None => true,
    }
}

/// The function whose name ends at a place of a line, if its size is said there.
#[tactic(auto, using(crate::proofs::KernelReportLemmas::none_behind))]
fn function_at(line: &[u8], place: usize) -> Option<FunctionSize<'_>>
    ensures { result ≡ function_at line.now place }
{
    if place > line.len() {
        return None;
    }
    let name = end_of(ByteClass::Function, &line[..place]);
    if name.is_empty() {
        return None;
    }
    let size = size_behind(&line[place..])?;
    Some(FunctionSize { name, size })
}

/// The size of a text that begins with `+0xOFF/0xSIZE`.
fn size_behind(text: &[u8]) -> Option<u64>
    ensures { result ≡ size_behind text.now }
{
    if text.starts_with(b"+0x") {
        size_behind_digits(&text[3..])
    } else {
        None
    }
}

/// The size of a text that begins with the digits of an offset and `/0xSIZE`.
fn size_behind_digits(text: &[u8]) -> Option<u64>
    ensures { result ≡ size_behind_digits text.now }
{
    let count = first_of(ByteClass::Hexadecimal, text);
    if count > 0 && text[count..].starts_with(b"/0x") {
        size_in(&text[count + 3..])
    } else {
        None
    }
}

/// The size that the digits at the beginning of a text write, unless it is of a module's function.
fn size_in(text: &[u8]) -> Option<u64>
    ensures { result ≡ size_in text.now }
{
    let count = first_of(ByteClass::Hexadecimal, text);
    if begins_module(&text[count..]) {
        None
    } else {
        digits_between(1, 16, &text[..count])
    }
}

/// Whether ` [MODULE]` begins a text.
fn begins_module(text: &[u8]) -> bool
    ensures { result ≡ begins_module text.now }
{
    text.starts_with(b" [") && first_of(ByteClass::Word, &text[2..]) > 0
}
