//! The lines of the listings that a catalog is built from.

ghost use Rattle.std.specs.Prelude.{◌≡◌, true};
ghost use Rattle.modules.specs.Lines.{fits, module_line_region, region_fits, region_line_region};
ghost use Rattle.modules.specs.Lines.{is_region, start_bounds, text_bounds, usual_bounds};
ghost use Rattle.modules.specs.Parts.{is_core, is_init, is_of};

use crate::regions::Region;
use crate::symbol_texts::name_in;
use std::marker::Model;

/// Whether there is a region of `size` bytes at `base`: at least one byte, not at 0, and
/// none past the greatest `u64`.
fn is_region(base: u64, size: u64) -> bool
    ensures { result ≡ is_region base size }
{
    base != 0 && size != 0 && size <= u64::MAX - base
}

/// A line of the listing of modules, in the form of /proc/modules: a module and its region.
#[derive(Debug, Drop)]
pub struct ModuleLine<'a> {
    /// The module's name, any bytes of the text that was read.
    pub name: &'a [u8],
    /// The first address of its region.
    pub base: u64,
    /// How many bytes its region has.
    pub size: u64,
}

impl<'a> Model for ModuleLine<'a> {
    ghost use Rattle.modules.specs.Listed.{ListedModule};

    ghost Value = { ListedModule };

    ghost view = { λ l. record { name = l.name.now; base = l.base; size = l.size } };
}

impl<'a> ModuleLine<'a> {
    /// Whether the line is a region's: the base is not 0, the size is not 0, and the base
    /// plus the size is at most the greatest `u64`.
    pub fn fits(&self) -> bool
        ensures { result ≡ fits self.now }
    {
        is_region(self.base, self.size)
    }

    /// The first address of its region and the excluded end.
    pub(crate) fn region(&self) -> Region
        requires { fits self.now ≡ true }
        ensures { result ≡ module_line_region self.now }
    {
        Region::new(self.base, self.base + self.size)
    }
}

/// A part of a module.
#[derive(Clone, Copy, Debug, Default, PartialEq, Eq, Drop)]
pub enum Part {
    /// What stays while the module is loaded.
    #[default]
    Core,
    /// What its start alone needs.
    Init,
}

impl Part {
    pub(crate) fn is_core(self) -> bool
        ensures { result ≡ is_core self }
    {
        matches!(self, Part::Core)
    }

    pub(crate) fn is_init(self) -> bool
        ensures { result ≡ is_init self }
    {
        matches!(self, Part::Init)
    }

    /// Whether it is one of the parts that are asked for.
    pub(crate) fn is_of(self, core: bool, init: bool) -> bool
        ensures { result ≡ is_of core init self }
    {
        match self {
            Part::Core => core,
            Part::Init => init,
        }
    }
}

/// A line of the listing of regions: a region of a module.
#[derive(Debug, Drop)]
pub struct RegionLine<'a> {
    /// The module's name, any bytes of the text that was read.
    pub name: &'a [u8],
    /// Which part of the module the region is.
    pub part: Part,
    /// The region's first address.
    pub base: u64,
    /// How many bytes it has.
    pub size: u64,
}

impl<'a> Model for RegionLine<'a> {
    ghost use Rattle.modules.specs.Listed.{ListedRegion};

    ghost Value = { ListedRegion };

    ghost view = { λ l. record { name = l.name.now; part = l.part; base = l.base; size = l.size } };
}

impl<'a> RegionLine<'a> {
    /// Whether the line is a region's: the base is not 0, the size is not 0, and the base
    /// plus the size is at most the greatest `u64`.
    pub fn fits(&self) -> bool
        ensures { result ≡ region_fits self.now }
    {
        is_region(self.base, self.size)
    }

    /// The region's first address and the excluded end.
    pub(crate) fn region(&self) -> Region
        requires { region_fits self.now ≡ true }
        ensures { result ≡ region_line_region self.now }
    {
        Region::new(self.base, self.base + self.size)
    }
}

/// A line of the listing of symbols, in the form of /proc/kallsyms.
#[derive(Debug, Drop)]
pub struct SymbolLine<'a> {
    /// The symbol's address.
    pub addr: u64,
    /// What the listing says of the symbol after its address: a letter, a blank, and the name.
    pub text: &'a [u8],
    /// The name of its module; none for a symbol of the kernel itself.
    pub module: Option<&'a [u8]>,
}

impl<'a> Model for SymbolLine<'a> {
    ghost use Rattle.std.specs.Prelude.{Option};
    ghost use Rattle.std.specs.Option.{option_copied};
    ghost use Rattle.modules.specs.Listed.{ListedSymbol};
    ghost use Rattle.modules.specs.SymbolTexts.{letter_in, name_in};

    ghost Value = { ListedSymbol };

    ghost view = { λ l. record {
      addr = l.addr;
      letter = letter_in l.text.now;
      name = name_in l.text.now;
      owner = option_copied l.module;
    } };
}

impl<'a> SymbolLine<'a> {
    /// The symbol's name, any bytes.
    #[inline(always)]
    pub fn name(&self) -> &'a [u8]
        ensures { result.now ≡ self.now.name }
    {
        name_in(self.text)
    }
}

/// The names of the two symbols that bound a region of the kernel itself.
#[derive(Debug, Drop)]
pub struct KernelBounds<'a> {
    /// The name of the symbol at its first address.
    pub start: &'a [u8],
    /// The name of the symbol at its end, which is excluded.
    pub end: &'a [u8],
}

impl<'a> Model for KernelBounds<'a> {
    ghost use Rattle.modules.specs.Listed.{BoundNames};

    ghost Value = { BoundNames };

    ghost view = { λ n. record { start = n.start.now; end = n.end.now } };
}

impl KernelBounds<'static> {
    /// The names around the whole kernel: `_stext` and `_end`.
    pub fn usual() -> KernelBounds<'static>
        ensures { result ≡ usual_bounds }
    {
        KernelBounds {
            start: b"_stext",
            end: b"_end",
        }
    }

    /// Those around the kernel's code.
    pub(crate) fn of_text() -> KernelBounds<'static>
        ensures { result ≡ text_bounds }
    {
        KernelBounds {
            start: b"_stext",
            end: b"_etext",
        }
    }

    /// Those around the code that its start alone needs.
    pub(crate) fn of_start() -> KernelBounds<'static>
        ensures { result ≡ start_bounds }
    {
        KernelBounds {
            start: b"_sinittext",
            end: b"_einittext",
        }
    }
}
