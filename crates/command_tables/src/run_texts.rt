//! The lines that a run of a script writes, byte for byte, with no memory taken.
ghost use Rattle.std.specs.Prelude.{◌+◌, ◌≡◌, flat_map, min};
ghost use Rattle.texts.specs.Output.{Delivers, Says};
ghost use Rattle.command_tables.specs.RunTexts.{answered_text, answers_text, change_text};
ghost use Rattle.command_tables.specs.RunTexts.{count_of_answers, refusals_text, run_text};
ghost use Rattle.command_tables.specs.RunTexts.{totals_text, writer_text};

use crate::lookup_texts::put_count;
use listing::{AddressRule, answer_of, put_answer};
use modules::Catalog;
use order_laws::Refusal;
use run_files::ModuleName;
use shared_lookup::{Answer, Served};
use std::io::Write;
use texts::Output;

// what is between the numbers of a line
const REFUSED: &[u8] = b"refused ";

const ARROW: &[u8] = b" -> ";

const GENERATION: &[u8] = b" gen ";

const CHECKED: &[u8] = b"checked ";

const WRONG: &[u8] = b" wrong ";

const SEQUENCE: &[u8] = b" seq ";

/// Writes what came back from the writers, whose changes are of modules of these names, and from
/// the readers; and lets the writer keep nothing back.
pub fn put_run<W: Write>(
    writer: &mut Output<W>,
    catalog: &Catalog<'_>,
    names: &[Vec<ModuleName<'_>>],
    served: &Served,
)
    ensures { Delivers W.contents writer.old writer.new
        (run_text catalog.now names.now served.now) }
{
    put_refusals(writer, names, &served.changes);
    put_found(writer, catalog, &served.answers);
    let checked = checked_in(&served.answers);
    put_totals(writer, checked, served.wrong, served.log.len() as u64);
    writer.flush();
}

/// Writes the refused changes of each writer, numbered from 1.
fn put_refusals<W: Write>(
    writer: &mut Output<W>,
    names: &[Vec<ModuleName<'_>>],
    outcomes: &[Vec<Result<u64, Refusal>>],
)
    ensures { Says W.contents writer.old writer.new (refusals_text names.now outcomes.now) }
{
    for place in 0..names.len().min(outcomes.len()) {
        put_writer(writer, place as u64 + 1, &names[place], &outcomes[place]);
    }
}

/// Writes the refused changes of the writer with this number.
fn put_writer<W: Write>(
    writer: &mut Output<W>,
    number: u64,
    names: &[ModuleName<'_>],
    outcomes: &[Result<u64, Refusal>],
)
    ensures { Says W.contents writer.old writer.new
        (writer_text number names.now outcomes.now) }
{
    for place in 0..names.len().min(outcomes.len()) {
        put_change(writer, number, &names[place], &outcomes[place]);
    }
}

/// Writes `refused W N NAME` and a line's end for a change that was refused.
#[tactic(auto, unfolding(crate::specs::RunTexts::change_text))]
fn put_change<W: Write>(
    writer: &mut Output<W>,
    number: u64,
    name: &ModuleName<'_>,
    outcome: &Result<u64, Refusal>,
)
    ensures { Says W.contents writer.old writer.new
        (change_text number (name.now, outcome.now)) }
{
    let Err(refusal) = outcome else {
        return;
    };
    put_count(writer, REFUSED, number);
    put_count(writer, b" ", u64::from(refusal.number()));
    writer.put(b" ");
    writer.put(name.bytes);
    writer.put(b"\n");
}

/// Writes the answers of each reader.
fn put_found<W: Write>(writer: &mut Output<W>, catalog: &Catalog<'_>, answers: &[Vec<Answer>])
    ensures { Says W.contents writer.old writer.new
        (flat_map (answers_text catalog.now) answers.now) }
{
    for list in answers {
        put_list(writer, catalog, list);
    }
}

/// Writes the answers of a reader.
fn put_list<W: Write>(writer: &mut Output<W>, catalog: &Catalog<'_>, answers: &[Answer])
    ensures { Says W.contents writer.old writer.new
        (flat_map (answered_text catalog.now) answers.now) }
{
    for answer in answers {
        put_answered(writer, catalog, answer);
    }
}

/// Writes `R ADDR -> TEXT gen J` and a line's end.
#[tactic(auto, unfolding(crate::specs::RunTexts::answered_text))]
fn put_answered<W: Write>(writer: &mut Output<W>, catalog: &Catalog<'_>, answer: &Answer)
    ensures { Says W.contents writer.old writer.new (answered_text catalog.now answer.now) }
{
    writer.put_decimal(u64::from(answer.reader) + 1);
    writer.put(b" ");
    writer.put_hexadecimal(answer.key);
    writer.put(ARROW);
    let known = answer_of(catalog, AddressRule::AS_GIVEN, answer.item, answer.key);
    put_answer(writer, &known);
    put_count(writer, GENERATION, answer.generation);
    writer.put(b"\n");
}

/// How many answers there are in all lists; it stays at the greatest number.
fn checked_in(answers: &[Vec<Answer>]) -> u64
    ensures { result ≡ count_of_answers answers.now }
{
    let mut checked = 0u64;
    for list in answers {
        checked = checked.saturating_add(list.len() as u64);
    }
    checked
}

/// Writes `checked C wrong D seq K gen J` and a line's end. A table begins at sequence 0.
#[tactic(auto, unfolding(crate::specs::RunTexts::totals_text))]
fn put_totals<W: Write>(writer: &mut Output<W>, checked: u64, wrong: u64, updates: u64)
    ensures { Says W.contents writer.old writer.new (totals_text checked wrong updates) }
{
    put_count(writer, CHECKED, checked);
    put_count(writer, WRONG, wrong);
    put_count(writer, SEQUENCE, updates.saturating_mul(2));
    put_count(writer, GENERATION, updates);
    writer.put(b"\n");
}
