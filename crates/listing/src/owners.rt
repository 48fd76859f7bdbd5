//! Names that symbols have in the place of a module's, and that no listing of modules has.
//!
//! The kernel makes code as it runs, and lists it under names that are no modules': programs of
//! BPF, and the pages of ftrace and of kprobes.
//!
//! ```text
//! ffffffffc0500000 t bpf_prog_6deef7357e7b4530<tab>[bpf]
//! ffffffffc0402000 t ftrace_trampoline<tab>[__builtin__ftrace]
//! ffffffffc0404000 t kprobe_insn_page<tab>[__builtin__kprobes]
//! ```
ghost use Rattle.std.specs.Prelude.{◌≡◌};
ghost use Rattle.texts.specs.Lines.{lines_of};
ghost use Rattle.listing.specs.ModuleListing.{modules_in};
ghost use Rattle.listing.specs.Owners.{is_owner, owner_called, owner_name, unlisted_owner};

use crate::overlaps::is_listed_name;
use modules::{NameTest, SymbolLines};

const BPF: &[u8] = b"bpf";

const FTRACE: &[u8] = b"__builtin__ftrace";

const KPROBES: &[u8] = b"__builtin__kprobes";

/// What has symbols and is no module.
#[derive(Clone, Copy, Debug, PartialEq, Eq, Drop)]
pub enum Owner {
    /// Programs of BPF.
    Bpf,
    /// The trampolines of ftrace.
    Ftrace,
    /// The pages of kprobes.
    Kprobes,
}

impl Owner {
    /// What symbols call it.
    pub fn name(self) -> &'static [u8]
        ensures { result.now ≡ owner_name self }
    {
        match self {
            Owner::Bpf => BPF,
            Owner::Ftrace => FTRACE,
            Owner::Kprobes => KPROBES,
        }
    }

    /// The one that is called so.
    fn called(name: &[u8]) -> Option<Owner>
        ensures { result ≡ owner_called name.now }
    {
        if BPF == name {
            Some(Owner::Bpf)
        } else if FTRACE == name {
            Some(Owner::Ftrace)
        } else if KPROBES == name {
            Some(Owner::Kprobes)
        } else {
            None
        }
    }

    /// Whether it is the one that was found.
    pub(crate) fn is(self, found: Option<Owner>) -> bool
        ensures { result ≡ is_owner self found }
    {
        match (self, found) {
            (Owner::Bpf, Some(Owner::Bpf)) => true,
            (Owner::Ftrace, Some(Owner::Ftrace)) => true,
            (Owner::Kprobes, Some(Owner::Kprobes)) => true,
            _ => false,
        }
    }
}

/// Which names are of such owners and of no module that a text lists.
#[derive(Drop)]
struct Unlisted<'t> {
    modules: &'t [u8],
}

impl<'t> NameTest for Unlisted<'t> {
    ghost use Rattle.texts.specs.Lines.{lines_of};
    ghost use Rattle.listing.specs.ModuleListing.{modules_in};
    ghost use Rattle.listing.specs.Owners.{is_unlisted};

    ghost passes = { λ t. is_unlisted (modules_in (lines_of t.modules.now)) };

    fn passes(&self, name: &[u8]) -> bool {
        Owner::called(name).is_some() && !is_listed_name(self.modules, name)
    }
}

/// The owner of the first of the symbols that has such a name, and one that no module has in this
/// text.
pub(crate) fn unlisted_owner(modules: &[u8], symbols: &SymbolLines) -> Option<Owner>
    ensures { result ≡ unlisted_owner (modules_in (lines_of modules.now)) symbols.now }
{
    Owner::called(symbols.first_owner(&Unlisted { modules })?)
}
