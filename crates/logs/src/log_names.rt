//! Names that a log has itself after its addresses, as `NAME+0xOFF/0xSIZE`.
//!
//! The kernel that wrote the log knew its own symbols. So if many of its names are others than the
//! answers have, the listing is one of another boot:
//!
//! ```text
//! [<ffffffff81000108>] ? do_one+0x8/0x1f00
//!                     ~~~^^^^^^
//! ```
ghost use Rattle.std.specs.Prelude.{◌≡◌, ◌++◌, codes, nat_eq, IfOk};
ghost use Rattle.std.specs.List.{starts_with};
ghost use Rattle.std.specs.Option.{option_copied};
ghost use Rattle.logs.specs.KernelReports.{SaysAtMost};
ghost use Rattle.logs.specs.LogNames.{agrees, is_of_another_boot, is_unnamed, no_names};
ghost use Rattle.logs.specs.LogNames.{with_address, with_line, with_name, with_one};
ghost use Rattle.logs.specs.SaidNames.{name_said};

use crate::address_words::AddressWord;
use crate::answers::Answers;
use crate::kernel_reports::{KernelReport, Said};
use crate::said_names::SaidName;
use crate::words::begins_with;
use std::alloc::AllocError;

/// How many addresses a log has, and what was found of them. Each count stays at the greatest
/// `u64`.
#[derive(Clone, Copy, Debug, PartialEq, Eq, Drop)]
pub struct LogNames {
    /// The address words of the log that the listing could hold.
    pub addresses: u64,
    /// The address words that have an answer.
    pub named: u64,
    /// Those that have one, and after them in the log its symbol or another one at that address.
    pub agreeing: u64,
    /// Those that have one, and after them in the log another name.
    pub disagreeing: u64,
    /// What it says of its kernel.
    pub kernel: KernelReport,
}

impl LogNames {
    /// Nothing is counted.
    pub(crate) fn none() -> LogNames
        ensures { result ≡ no_names }
    {
        LogNames {
            addresses: 0,
            named: 0,
            agreeing: 0,
            disagreeing: 0,
            kernel: KernelReport::none(),
        }
    }

    /// Whether the log is of another boot than the listing: five names or more do not agree, and
    /// these are more than those that do.
    pub fn is_of_another_boot(self) -> bool
        ensures { result ≡ is_of_another_boot self }
    {
        self.disagreeing >= 5 && self.disagreeing > self.agreeing
    }

    /// Whether the log has addresses that the listing could hold, and none of them has a name.
    pub fn is_unnamed(self) -> bool
        ensures { result ≡ is_unnamed self }
    {
        self.addresses > 0 && self.named == 0
    }

    /// One name more that agrees, or that does not.
    fn with_name(self, agrees: bool) -> LogNames
        ensures { result ≡ with_name agrees self }
    {
        if agrees {
            LogNames {
                agreeing: self.agreeing.saturating_add(1),
                ..self
            }
        } else {
            LogNames {
                disagreeing: self.disagreeing.saturating_add(1),
                ..self
            }
        }
    }

    /// One address more, if the listing could hold it.
    fn with_one(self, is_in_range: bool) -> LogNames
        ensures { result ≡ with_one is_in_range self }
    {
        if is_in_range {
            LogNames {
                addresses: self.addresses.saturating_add(1),
                ..self
            }
        } else {
            self
        }
    }

    /// What a line says of its kernel more, which says no more of it than this.
    #[tactic(auto, using(crate::proofs::KernelReportLemmas::nothing_reported))]
    pub(crate) fn with_line<A: Answers>(
        self,
        answers: &A,
        line: &[u8],
        said: Said,
    ) -> Result<LogNames, AllocError>
        requires { SaysAtMost said line.now }
        ensures { IfOk result
            (λ names. names ≡ with_line (A.answering answers.now) line.now self) }
    {
        match said {
            Said::Nothing => Ok(self),
            Said::Sizes | Said::All => {
                let kernel = self.kernel.with_line(answers, line, said)?;
                Ok(LogNames { kernel, ..self })
            }
        }
    }

    /// One address more, with its answer's text if it has one, and what the log
    /// says of it itself.
    pub(crate) fn with_address<A: Answers>(
        self,
        answers: &A,
        taken: AddressWord,
        rest: &[u8],
        said: Option<&SaidName<'_>>,
        text: Option<&[u8]>,
    ) -> LogNames
        requires { option_copied said ≡ name_said rest.now }
        ensures { result ≡ with_address (A.answering answers.now) taken rest.now
            (option_copied text.entry) self }
    {
        let one = self.with_one(answers.is_in_range(taken.value));
        match text {
            None => one,
            Some(text) => {
                let names = LogNames {
                    named: one.named.saturating_add(1),
                    ..one
                };
                match said {
                    Some(said) if said.distance.has_size => {
                        names.with_name(agrees(answers, taken, text, said.name))
                    }
                    _ => names,
                }
            }
        }
    }
}

/// Whether a name agrees with the answer, which has this text.
fn agrees<A: Answers>(answers: &A, taken: AddressWord, text: &[u8], name: &[u8]) -> bool
    ensures { result ≡ agrees (A.answering answers.now) taken text.now name.now }
{
    tells(text, name) || answers.is_alias(taken.is_caller, taken.value, name)
}

/// Whether the text of an answer begins with a blank, the name and `+`.
#[tactic(auto, using(crate::proofs::TextLemmas::starts_with_both))]
fn tells(text: &[u8], name: &[u8]) -> bool
    ensures { result ≡ starts_with nat_eq text.now (codes " " ++ name.now ++ codes "+") }
{
    text.starts_with(b" ") && begins_with(&text[1..], name, b"+")
}
