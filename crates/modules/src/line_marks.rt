//! The marks of a listing of symbols: one of each region of the kernel itself, at its first
//! address, and one of each line of a module that is outside the kernel's regions.
//!
//! One mark is for all lines in a region of the kernel: nothing from below reaches over its
//! first address, and no module has an address inside.
//!
//! ```text
//! runs:   none          "ext4"   none   "nfs"
//! lines:  _stext  ...   a1  a2   ...    a3
//! marks:  kernel        a1  a2          a3
//! ```

ghost use Rattle.std.specs.Prelude.{◌≡◌, ◌++◌, ◌∷◌, [], IfOk, OnOk};
ghost use Rattle.modules.specs.LineMarks.{is_free, kernel_marks, line_marks, marks_of};
ghost use Rattle.modules.specs.LineMarks.{symbol_marks};
ghost use Rattle.modules.specs.SharedRuns.{lines_of_one, lines_of_shared};

use crate::marks::Mark;
use crate::names::Names;
use crate::placing::lies_in_any;
use crate::regions::Region;
use crate::shared_listings::SharedRun;
use crate::symbols::Symbol;
use std::alloc::{AllocError, Global};

/// Whether a line of a module at this address may say whose an address is.
fn is_free(kernel: &[Region], addr: u64) -> bool
    ensures { result ≡ is_free kernel.now addr }
{
    !lies_in_any(kernel, addr) && addr < u64::MAX
}

/// Puts the marks of the lines of a module after these.
fn push_marks(
    marks: &mut Vec<Mark>,
    kernel: &[Region],
    symbols: &[Symbol],
    owner: u64,
) -> Result<(), AllocError>
    ensures { OnOk result (marks.new.items
        ≡ marks.old.items ++ symbol_marks kernel.now owner symbols.now) }
{
    for symbol in symbols {
        if is_free(kernel, symbol.addr) {
            marks.push(Mark {
                addr: symbol.addr,
                owner,
            })?;
        }
    }
    Ok(())
}

/// Puts the marks of a run after these.
fn push_run(
    marks: &mut Vec<Mark>,
    kernel: &[Region],
    run: &SharedRun,
    numbers: &Names,
) -> Result<(), AllocError>
    ensures { OnOk result (marks.new.items
        ≡ marks.old.items ++ line_marks kernel.now numbers.now (lines_of_one run.now)) }
{
    push_marks(
        marks,
        kernel,
        run.symbols.table().as_slice(),
        numbers.number_of(run.module),
    )
}

/// The marks of the kernel itself.
fn kernel_marks(alloc: Global, kernel: &[Region]) -> Result<Vec<Mark>, AllocError>
    ensures { IfOk result (λ v. v.items ≡ kernel_marks kernel.now) }
{
    kernel
        .iter()
        .map(|region| Mark {
            addr: region.start(),
            owner: 0,
        })
        .collect(alloc)
}

/// The marks of the kernel itself, and then of the lines of modules as they are listed.
#[tactic(auto, using(crate::proofs::LineMarkLemmas::one_run_more))]
pub(crate) fn marks_of(
    alloc: Global,
    kernel: &[Region],
    runs: &[SharedRun],
    numbers: &Names,
) -> Result<Vec<Mark>, AllocError>
    ensures { IfOk result (λ v. v.items
        ≡ marks_of kernel.now numbers.now (lines_of_shared runs.now)) }
{
    let mut marks = kernel_marks(alloc, kernel)?;
    for run in runs {
        push_run(&mut marks, kernel, run, numbers)?;
    }
    Ok(marks)
}
