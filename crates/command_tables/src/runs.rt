//! From the bytes of a script and of the listings to the lines that its run writes.
//!
//! The lines of the script are put into a list for each writer and a list for each reader. Each
//! list is done by a thread of its own, all at once, over one table. What came back is checked
//! against the log of the table's updates before the first byte is written.
ghost use Rattle.std.specs.Prelude.{◌≡◌, [], Some, true, unwrap_or, All};
ghost use Rattle.std.specs.List.{list_any};
ghost use Rattle.texts.specs.Counted.{device_of, failures_of};
ghost use Rattle.run_files.specs.Scripts.{has_actor, script_of};
ghost use Rattle.modules.specs.Lines.{region_fits};
ghost use Rattle.listing.specs.Opening.{listed_in};
ghost use Rattle.command_parts.specs.OpenedCatalogs.{known_given, listing_failures, texts_in};
ghost use Rattle.command_parts.specs.Readings.{last_failures};
ghost use Rattle.command_tables.specs.Inputs.{failures_behind, inputs_of, inputs_with};
ghost use Rattle.command_tables.specs.Inputs.{known_inputs};
ghost use Rattle.command_tables.specs.Runs.{AnswersLines, AnswersRun, TellsServed, script_known};
ghost use Rattle.command_tables.specs.Runs.{status_of};

use crate::assignments::{Assignments, assign};
use crate::run_texts::put_run;
use command_parts::{
    FAILED, Fault, Finished, ListingReaders, ListingTexts, SUCCEEDED, read_at, read_given,
    with_notes,
};
use listing::{Listings, open};
use modules::{Catalog, ExpectedLookups, KernelBounds};
use order_laws::Refusal;
use run_files::{ModuleName, ScriptLine, read_script};
use shared_lookup::{Open, Served, serve};
use std::alloc::Global;
use std::io::{Read, Write};
use std::sync::Wait;
use std::thread::Threads;
use texts::{Counted, Output};

/// The place of the script among the files that are read.
const SCRIPT_PLACE: u64 = 3;

/// Does what a script for `count` readers says, over a table that is empty at first, and writes a
/// line for each refused change and each lookup and the line of the totals. The kernel's own region
/// lies between the symbols of these names. Returns what is noted of the listings, and the
/// program's status, 1 if an answer was not right at its generation or a change is not in the log
/// as it was accepted.
///
/// All is read, done and checked before the first byte is written, so every fault but a failed
/// write leaves the writer as it was. Refused when out of memory, even if a reader's thread was not
/// started or has not all its answers. docs/FORMATS.md has the files and the lines.
pub fn run_engine<T: Threads + Wait + Sync, M: Read, K: Read, R: Read, S: Read, W: Write>(
    rt: &T,
    alloc: Global,
    listings: &mut ListingReaders<M, K, R>,
    script: &mut Counted<S>,
    kernel: &KernelBounds<'_>,
    count: u32,
    writer: &mut Output<W>,
) -> Result<Finished, Fault>
    ensures { AnswersRun W.contents kernel.now count
        (known_inputs (script_known count (S.remaining (device_of script.old)))
        (known_given M.remaining K.remaining R.remaining listings.old))
        (failures_behind (listing_failures listings.old listings.new)
        (failures_of script.old) (failures_of script.new)) writer.old writer.new result }
{
    let texts = read_given(alloc, listings)?;
    run_over(rt, alloc, &texts, script, kernel, count, writer)
}

/// Does what a script for `readers` readers says, over listings with these texts.
fn run_over<T: Threads + Wait + Sync, S: Read, W: Write>(
    rt: &T,
    alloc: Global,
    texts: &ListingTexts,
    script: &mut Counted<S>,
    kernel: &KernelBounds<'_>,
    readers: u32,
    writer: &mut Output<W>,
) -> Result<Finished, Fault>
    ensures { AnswersRun W.contents kernel.now readers
        (inputs_of (script_known readers (S.remaining (device_of script.old)))
        (texts_in texts.now))
        (last_failures (failures_of script.old) (failures_of script.new))
        writer.old writer.new result }
{
    let listings = texts.listings(alloc)?;
    let text = read_at(alloc, script, SCRIPT_PLACE)?;
    run_with(rt, alloc, &listings, &text, kernel, readers, writer)
}

/// Does what the text of a script for `readers` readers says, over these listings. Mapping symbols
/// are kept.
fn run_with<T: Threads + Wait + Sync, W: Write>(
    rt: &T,
    alloc: Global,
    listings: &Listings<'_>,
    script: &[u8],
    kernel: &KernelBounds<'_>,
    readers: u32,
    writer: &mut Output<W>,
) -> Result<Finished, Fault>
    requires { All (λ r. region_fits r ≡ true) (unwrap_or (listed_in listings.now).regions []) }
    ensures { AnswersRun W.contents kernel.now readers
        (Some (inputs_with (listed_in listings.now) (script_of readers script.now))) []
        writer.old writer.new result }
{
    let lines = match read_script(alloc, script, readers) {
        Ok(lines) => lines,
        Err(fault) => return Err(Fault::of_lines(SCRIPT_PLACE, fault)),
    };
    let opened = open(alloc, listings, Some(kernel), true, ExpectedLookups::Any)?;
    let status = run_lines(rt, alloc, &opened.catalog, lines, readers, writer);
    with_notes(status, opened.notes)
}

/// Does what these lines of a script for `readers` readers say, writes the lines of what came back,
/// and returns the program's status, 1 if something is wrong. The lines themselves go once each
/// writer and each reader has its list, so that they are not held beside what comes back.
fn run_lines<T: Threads + Wait + Sync, W: Write>(
    rt: &T,
    alloc: Global,
    catalog: &Catalog<'_>,
    lines: Vec<ScriptLine<'_>>,
    readers: u32,
    writer: &mut Output<W>,
) -> Result<u8, Fault>
    requires { All (λ l. has_actor readers l ≡ true) lines.items }
    ensures { AnswersLines W.contents catalog.now readers lines.entry.items writer.old writer.new
        result }
{
    let assigned = assign(alloc, catalog, &lines, readers);
    give_back(lines);
    let Assignments {
        changes,
        names,
        keys,
    } = assigned?;
    let served = serve(rt, alloc, &Open, catalog, changes, keys)?;
    tell(writer, catalog, &names, &served)
}

/// Frees the lines, shrinking their block first: freeing a large block raises glibc's mmap
/// threshold, and the readers' lists would then grow by copies in the heap.
fn give_back(lines: Vec<ScriptLine<'_>>) {
    let mut lines = lines;
    lines.truncate(1);
    lines.shrink_to_fit();
}

/// Writes the lines of what came back, from writers whose changes are of modules of these names and
/// from readers, and returns the program's status, 1 if something is wrong. Refused as out of
/// memory if some list of addresses ended early.
fn tell<W: Write>(
    writer: &mut Output<W>,
    catalog: &Catalog<'_>,
    names: &[Vec<ModuleName<'_>>],
    served: &Served,
) -> Result<u8, Fault>
    ensures { TellsServed W.contents catalog.now names.now served.now
        writer.old writer.new result }
{
    if has_ended(&served.ended) {
        return Err(Fault::Refused(Refusal::OutOfMemory));
    }
    put_run(writer, catalog, names, served);
    if writer.has_failed() {
        return Err(Fault::Write);
    }
    Ok(status_of(served.wrong))
}

/// Whether some list of addresses ended out of memory.
fn has_ended(ended: &[bool]) -> bool
    ensures { result ≡ list_any (λ e. e) ended.now }
{
    ended.iter().any(|ended| *ended)
}

/// The program's status: 1 if an answer or a change is wrong.
fn status_of(wrong: u64) -> u8
    ensures { result ≡ status_of wrong }
{
    if wrong == 0 { SUCCEEDED } else { FAILED }
}
