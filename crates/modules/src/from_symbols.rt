//! The modules of a listing of symbols alone, and their regions.
//!
//! A sweep over the marks of the lines gives the regions, each with the number of its module. They
//! are dealt out by number, and a module takes its own at its first kept line, so that the modules
//! are in the order of these:
//!
//! ```text
//! lines:   a1 ext4   a2 nfs   a1 bpf   a3 ext4        a1 < a2 < a3
//! regions: [a1 .. a2) ext4    [a2 .. a3) nfs    [a3 .. ) ext4
//! modules: ext4, nfs                                  no line of bpf is kept
//! ```

ghost use Rattle.std.specs.Prelude.{◌≡◌, ◌<◌, ◌≤◌, ◌-◌, ◌^◌, [], All, IfOk, length, List, Option};
ghost use Rattle.std.specs.List.{flat_map};
ghost use Rattle.modules.specs.Accepted.{accepted_with};
ghost use Rattle.modules.specs.FromSymbols.{IsFromSymbols};
ghost use Rattle.modules.specs.LineMarks.{AreLeft, is_kept_mark, kept_numbers, modules_numbered};
ghost use Rattle.modules.specs.Listed.{BoundNames, ListedSymbol};
ghost use Rattle.modules.specs.ListingParts.{parts_of};
ghost use Rattle.modules.specs.Marks.{AreLaid};

use crate::gathering::empty_lists;
use crate::line_marks::marks_of;
use crate::marks::{Mark, region_at, regions_of_marks};
use crate::names::Names;
use crate::placing::PlacedModule;
use crate::regions::Region;
use crate::shared_listings::SharedListing;
use order_laws::Item;
use std::alloc::{AllocError, Global};
use std::mem;

/// Whether the address of a mark is its owner's.
fn is_kept(items: &[Item], mark: Mark) -> bool
    requires { AreLaid items.now }
    ensures { result ≡ is_kept_mark items.now mark }
{
    region_at(items, mark.addr).is_some_and(|item| item.tag == mark.owner)
}

/// The regions of each number below `count`, by number.
#[tactic(auto, using(crate::proofs::TakenLemmas::left_more))]
fn regions_by_number(
    alloc: Global,
    items: &[Item],
    count: usize,
) -> Result<Vec<Vec<Region>>, AllocError>
    requires valid { All (λ i. i.a < i.b) items.now }
    requires within { All (λ i. i.tag < count) items.now }
    ensures { IfOk result (λ v. AreLeft count items.now [] v.items) }
{
    let mut lists = empty_lists(alloc, count)?;
    for item in items {
        lists[item.tag as usize].push(Region::new(item.a, item.b))?;
    }
    Ok(lists)
}

/// The modules in the order of their first kept lines. At that line a module takes its regions, so
/// that its later lines find none, and nothing is asked of them.
fn modules_in_order<'a>(
    alloc: Global,
    numbers: &Names<'a>,
    marks: &[Mark],
    items: &[Item],
) -> Result<Vec<PlacedModule<'a>>, AllocError>
    requires laid { AreLaid items.now }
    requires numbered { All (λ i. (0 < i.tag) × (i.tag ≤ length numbers.now)) items.now }
    requires owned { All (λ m. m.owner ≤ length numbers.now) marks.now }
    ensures { IfOk result (λ v. v.items
        ≡ modules_numbered numbers.now items.now (kept_numbers items.now marks.now)) }
{
    let mut lists = regions_by_number(alloc, items, numbers.count())?;
    let mut modules = Vec::new(alloc);
    for mark in marks {
        let owner = mark.owner as usize;
        if !lists[owner].is_empty() && is_kept(items, *mark) {
            let regions = mem::replace(&mut lists[owner], Vec::new(alloc));
            let name = numbers.name_of(mark.owner);
            modules.push(PlacedModule::in_rising(alloc, name, regions)?)?;
        }
    }
    Ok(modules)
}

/// The modules that the lines have, in the order of their first kept lines.
pub(crate) fn modules_of<'a>(
    alloc: Global,
    listing: &SharedListing<'a>,
) -> Result<Vec<PlacedModule<'a>>, AllocError>
    ensures found { IfOk result (λ v. (names : Option BoundNames) (lines : List ListedSymbol)
        → listing.now ≡ parts_of names lines
        → IsFromSymbols names lines (accepted_with listing.now.kernel v.items)) }
    ensures few { IfOk result
        (λ v. length (flat_map (λ m. m.regions) v.items) < 2 ^ 64 - 2) }
{
    let numbers = Names::of_runs(alloc, &listing.runs)?;
    let marks = marks_of(alloc, &listing.kernel, &listing.runs, &numbers)?;
    let items = regions_of_marks(alloc, Vec::from_slice(alloc, marks.as_slice())?)?;
    modules_in_order(alloc, &numbers, marks.as_slice(), items.as_slice())
}
