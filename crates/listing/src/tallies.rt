//! How many lines of listings are used and how many are not, as rows of names and counts, and as
//! text.

ghost use Rattle.std.specs.Prelude.{◌≡◌, ◌+◌, ◌≤◌, ◌<◌, ◌∷◌, ◌++◌, [], flat_map, length};
ghost use Rattle.texts.specs.Output.{Says};
ghost use Rattle.listing.specs.Tallies.{counts_text, found_tally, modules_tally, regions_tally};
ghost use Rattle.listing.specs.Tallies.{row_text, rows_of, symbols_tally, tally_line};

use crate::causes::{Cause, Counts};
use crate::module_listing::{ModuleCounts, SkippedModule};
use crate::opening::OpenedCatalog;
use crate::symbol_listing::{SkippedSymbol, SymbolCounts};
use arrayvec::ArrayVec;
use modules::BuildCounts;
use std::io::Write;
use std::marker::Model;
use texts::Output;

// what is listed, and what else is counted
const MODULES: &str = "modules";

const SYMBOLS: &str = "symbols";

const REGIONS: &str = "regions";

const OVERLAP: &str = "overlap";

const DOUBLE: &str = "double";

const STRAY: &str = "stray";

/// The most rows of a tally, which a listing of modules has.
const MOST_ROWS: usize = 7;

/// How many lines went somewhere, or how many regions were found.
#[derive(Default, Drop)]
pub struct Row {
    pub name: &'static str,
    pub count: u64,
}

impl Model for Row {
    ghost use Rattle.std.specs.Prelude.{ℕ, List};

    ghost Value = { List ℕ × ℕ };

    ghost view = { λ r. (r.name.now, r.count) };
}

/// How many lines of a listing are used, and how many are not, by cause.
#[derive(Drop)]
pub struct LineTally {
    /// What is listed.
    pub title: &'static str,
    /// How many are kept.
    pub kept: u64,
    /// What else is counted, in the order in which it is written.
    pub rows: ArrayVec<Row, MOST_ROWS>,
}

impl Model for LineTally {
    ghost use Rattle.listing.specs.Tallies.{Tally};

    ghost Value = { Tally };

    ghost view = { λ t. record { title = t.title.now; kept = t.kept; rows = t.rows.items } };
}

impl LineTally {
    /// With no row yet.
    fn new(title: &'static str, kept: u64) -> LineTally
        ensures { result ≡ record { title = title.now; kept = kept; rows = [] } }
    {
        LineTally {
            title,
            kept,
            rows: ArrayVec::new(),
        }
    }

    /// Adds a row.
    fn add(&mut self, name: &'static str, count: u64)
        requires { length self.old.rows < MOST_ROWS }
        ensures { self.new
            ≡ record self.old { rows = self.old.rows ++ (name.now, count) ∷ [] } }
    {
        self.rows.push(Row { name, count });
    }

    /// Adds a row for each of these causes.
    fn add_causes<C: Cause<N>, const N: usize>(&mut self, causes: &[C], counts: &Counts<C, N>)
        requires { length self.old.rows + length causes.now ≤ MOST_ROWS }
        ensures { self.new ≡ record self.old {
          rows =
              self.old.rows ++ rows_of C.place_of C.name_of counts.now.by_place causes.now;
        } }
    {
        for cause in causes {
            self.add(cause.name(), counts.count(*cause));
        }
    }
}

/// How many lines of all listings are used, and how many are not, by cause.
#[derive(Drop)]
pub struct LineTallies {
    pub modules: LineTally,
    pub symbols: LineTally,
    /// If there is a listing of regions.
    pub regions: Option<LineTally>,
}

impl Model for LineTallies {
    ghost use Rattle.listing.specs.Tallies.{Tallies};

    ghost Value = { Tallies };

    ghost view = { λ t. record {
      modules = t.modules;
      symbols = t.symbols;
      regions = t.regions;
    } };
}

impl OpenedCatalog<'_> {
    ghost use Rattle.listing.specs.Tallies.{tallies_of};

    /// How many lines of the listings are used, and how many are not, by cause; of symbols alone,
    /// how many modules and regions they say.
    pub fn tallies(&self) -> LineTallies
        ensures { result ≡ tallies_of self.now }
    {
        LineTallies {
            modules: match &self.skipped_modules {
                Some(skipped) => modules_tally(skipped, &self.built),
                None => found_tally(&self.built),
            },
            symbols: symbols_tally(&self.skipped_symbols, self.built.symbols, self.built.stray),
            regions: if self.has_regions {
                Some(regions_tally(&self.built))
            } else {
                None
            },
        }
    }
}

/// Of a listing of modules: the accepted ones, and the others by the cause for which they were
/// skipped. Causes in a line's content come before causes in its form; the first of these is that
/// it is long.
fn modules_tally(skipped: &ModuleCounts, built: &BuildCounts) -> LineTally
    ensures { result ≡ modules_tally skipped.now.by_place built.now }
{
    let (of_content, of_form) = SkippedModule::all().split_at(SkippedModule::Long.place());
    let mut tally = LineTally::new(MODULES, built.modules);
    tally.add_causes(of_content, skipped);
    tally.add(OVERLAP, built.overlap);
    tally.add(DOUBLE, built.double);
    tally.add_causes(of_form, skipped);
    tally
}

/// Of a listing of symbols: the kept ones, and the others by the cause for which they were skipped.
fn symbols_tally(skipped: &SymbolCounts, kept: u64, stray: u64) -> LineTally
    ensures { result ≡ symbols_tally skipped.now.by_place kept stray }
{
    let (of_content, of_form) = SkippedSymbol::all().split_at(SkippedSymbol::Long.place());
    let mut tally = LineTally::new(SYMBOLS, kept);
    tally.add_causes(of_content, skipped);
    tally.add(STRAY, stray);
    tally.add_causes(of_form, skipped);
    tally
}

/// Of a listing of regions: the lines that an accepted module has its regions from, and the others.
fn regions_tally(built: &BuildCounts) -> LineTally
    ensures { result ≡ regions_tally built.now }
{
    let mut tally = LineTally::new(REGIONS, built.regions);
    tally.add(STRAY, built.stray_regions);
    tally
}

/// How many modules a listing of symbols alone has, and how many regions these have.
fn found_tally(built: &BuildCounts) -> LineTally
    ensures { result ≡ found_tally built.now }
{
    let mut tally = LineTally::new(MODULES, built.modules);
    tally.add(REGIONS, built.regions);
    tally
}

/// Writes a line for each listing.
pub fn put_counts<W: Write>(writer: &mut Output<W>, tallies: &LineTallies)
    ensures { Says W.contents writer.old writer.new (counts_text tallies.now) }
{
    put_tally(writer, &tallies.modules);
    put_tally(writer, &tallies.symbols);
    if let Some(regions) = &tallies.regions {
        put_tally(writer, regions);
    }
}

/// Writes `TITLE KEPT`, ` NAME COUNT` for each row, and a line's end.
#[tactic(auto, unfolding(crate::specs::Tallies::tally_line))]
fn put_tally<W: Write>(writer: &mut Output<W>, tally: &LineTally)
    ensures { Says W.contents writer.old writer.new (tally_line tally.now) }
{
    writer.put(tally.title.as_bytes());
    writer.put(b" ");
    writer.put_decimal(tally.kept);
    put_rows(writer, &tally.rows);
    writer.put(b"\n");
}

/// Writes ` NAME COUNT` for each row.
fn put_rows<W: Write>(writer: &mut Output<W>, rows: &[Row])
    ensures { Says W.contents writer.old writer.new (flat_map row_text rows.now) }
{
    for row in rows {
        put_row(writer, row);
    }
}

/// Writes ` NAME COUNT`.
#[tactic(auto, unfolding(crate::specs::Tallies::row_text))]
fn put_row<W: Write>(writer: &mut Output<W>, row: &Row)
    ensures { Says W.contents writer.old writer.new (row_text row.now) }
{
    writer.put(b" ");
    writer.put(row.name.as_bytes());
    writer.put(b" ");
    writer.put_decimal(row.count);
}
