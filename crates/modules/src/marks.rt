//! Regions of addresses from marks alone: each mark says from which address on whose addresses they
//! are. They go on to the next mark if that one has this owner too and is near, and else to the
//! end of the page or to the next mark, whichever comes first.
//!
//! ```text
//! pages:    |         |         |         |         |
//! marks:      a1  a2         a3   b1          kernel
//!             |   |          |    |           |
//! regions:    [ a               ) [ b     )
//!                 | < REACH  |
//! ```

ghost use Rattle.std.specs.Prelude.{◌≡◌, ◌≢◌, ◌≤◌, ◌<◌, ◌+◌, ◌-◌, ◌^◌, ◌⊎◌, ◌↔◌, ℕ, All, IfOk};
ghost use Rattle.std.specs.Prelude.{true, OnOk};
ghost use Rattle.std.specs.List.Sorted.{IsNonDecreasingBy};
ghost use Rattle.order_laws.specs.Orders.{half_open};
ghost use Rattle.order_laws.specs.Tables.{look};
ghost use Rattle.modules.specs.Marks.{AreLaid, AreRegions, HoldsFor};
ghost use Rattle.modules.specs.Owners.{is_in_page, reach};

use crate::buckets::split_of;
use order_laws::Item;
use std::alloc::{AllocError, Global};

/// How many addresses a page has.
pub(crate) const PAGE: u64 = 4096;

/// How far apart two marks of one owner lie at least if nothing between them is the owner's.
const REACH: u64 = 1048576;

/// An address, and the number of its owner: 0 is the kernel itself.
#[derive(Clone, Copy, Debug, Drop)]
pub(crate) struct Mark {
    pub(crate) addr: u64,
    pub(crate) owner: u64,
}

/// Puts a piece of a region after the regions. One that begins at the end of the last region, and
/// has its owner, makes that region longer.
fn put(items: &mut Vec<Item>, piece: Item) -> Result<(), AllocError>
    requires valid { piece.a < piece.b }
    requires laid { AreLaid items.old.items }
    requires behind { All (λ i. i.b ≤ piece.a) items.old.items }
    ensures laid { OnOk result (AreLaid items.new.items) }
    ensures ends { OnOk result (All (λ i. i.b ≤ piece.b) items.new.items) }
    ensures holds { OnOk result ((owner addr : ℕ) → HoldsFor items.new.items owner addr
        ↔ (HoldsFor items.old.items owner addr
        ⊎ ((piece.tag ≡ owner) × (piece.a ≤ addr) × (addr < piece.b)))) }
{
    match items.pop() {
        None => items.push(piece)?,
        Some(last) if last.b == piece.a && last.tag == piece.tag => items.push(Item {
            a: last.a,
            b: piece.b,
            tag: last.tag,
        })?,
        Some(last) => {
            items.push(last)?;
            items.push(piece)?;
        }
    }
    Ok(())
}

/// The end of the page that an address lies in. The last page ends at the greatest address, which
/// no region holds.
fn end_of_page(addr: u64) -> u64
    ensures bounds { (addr ≤ result) × (result ≤ 2 ^ 64 - 1) }
    ensures exact { (x : ℕ) → addr ≤ x → x < 2 ^ 64 - 1
        → (is_in_page addr x ≡ true) ↔ (x < result) }
{
    (addr - addr % PAGE + (PAGE - 1)).saturating_add(1)
}

/// The end of the addresses that a mark has below the next one.
fn end_before(mark: Mark, next: Mark) -> u64
    requires { mark.addr ≤ next.addr }
    ensures bounds { (mark.addr ≤ result) × (result ≤ next.addr) }
    ensures exact { (x : ℕ) → mark.addr ≤ x → x < next.addr → (x < result)
        ↔ ((is_in_page mark.addr x ≡ true)
        ⊎ ((next.owner ≡ mark.owner) × (next.addr < mark.addr + reach))) }
{
    if next.owner == mark.owner && next.addr - mark.addr < REACH {
        next.addr
    } else {
        next.addr.min(end_of_page(mark.addr))
    }
}

/// Puts the addresses from a mark's own up to this end after the regions, if they are a module's.
fn cover(items: &mut Vec<Item>, mark: Mark, end: u64) -> Result<(), AllocError>
    requires below { mark.addr ≤ end }
    requires laid { AreLaid items.old.items }
    requires behind { All (λ i. i.b ≤ mark.addr) items.old.items }
    ensures laid { OnOk result (AreLaid items.new.items) }
    ensures ends { OnOk result (All (λ i. i.b ≤ end) items.new.items) }
    ensures holds { OnOk result ((owner addr : ℕ) → HoldsFor items.new.items owner addr
        ↔ (HoldsFor items.old.items owner addr
        ⊎ ((mark.owner ≢ 0) × (mark.owner ≡ owner) × (mark.addr ≤ addr) × (addr < end)))) }
{
    if mark.owner == 0 || end <= mark.addr {
        return Ok(());
    }
    put(
        items,
        Item {
            a: mark.addr,
            b: end,
            tag: mark.owner,
        },
    )
}

/// The regions of marks by rising address. Of equal addresses the first mark counts.
fn regions_of_rising(alloc: Global, marks: &[Mark]) -> Result<Vec<Item>, AllocError>
    requires { IsNonDecreasingBy (λ m. m.addr) marks.now }
    ensures { IfOk result (λ v. AreRegions marks.now v.items) }
{
    let mut items = Vec::new(alloc);
    if marks.is_empty() {
        return Ok(items);
    }
    let mut from = marks[0];
    for mark in marks {
        if from.addr < mark.addr {
            cover(&mut items, from, end_before(from, *mark))?;
            from = *mark;
        }
    }
    cover(&mut items, from, end_of_page(from.addr))?;
    Ok(items)
}

/// The regions of marks, with their owners as tags. Of equal addresses the mark that is listed
/// first counts.
pub(crate) fn regions_of_marks(alloc: Global, marks: Vec<Mark>) -> Result<Vec<Item>, AllocError>
    ensures { IfOk result (λ v. AreRegions marks.items v.items) }
{
    let mut marks = marks;
    marks.sort_by_key(|mark| mark.addr)?;
    let items = regions_of_rising(alloc, marks.as_slice())?;
    Ok(items)
}

/// The region that an address lies in, of regions by rising address.
#[tactic(auto, using(crate::proofs::LaidLemmas::laid_search))]
pub(crate) fn region_at(items: &[Item], addr: u64) -> Option<Item>
    requires { AreLaid items.now }
    ensures { result ≡ look half_open addr items.now }
{
    let split = split_of(items, addr);
    if split == 0 {
        return None;
    }
    let item = items[split - 1];
    if addr < item.b { Some(item) } else { None }
}
