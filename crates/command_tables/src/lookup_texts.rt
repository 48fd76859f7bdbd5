//! The lines that a lookup of addresses writes, byte for byte, with no memory taken.
ghost use Rattle.std.specs.Prelude.{◌++◌, flat_map};
ghost use Rattle.texts.specs.Output.{Delivers, Says};
ghost use Rattle.command_tables.specs.LookupTexts.{answer_line, count_text, counts_by};
ghost use Rattle.command_tables.specs.LookupTexts.{known_line, line_by};

use crate::table::AddressAnswer;
use command_parts::{AnswerForm, put_json_counts, put_json_line};
use listing::{AddressRule, LineTallies, SymbolAnswer, answer_of, put_answer, put_counts};
use modules::Catalog;
use std::io::Write;
use texts::Output;

/// Writes the line of each answer, in order and in this form, for addresses that are taken by this
/// rule, and the counts, if the form has them; and lets the writer keep nothing back.
pub fn put_lookup<W: Write>(
    writer: &mut Output<W>,
    catalog: &Catalog,
    rule: AddressRule,
    form: AnswerForm,
    answers: &[AddressAnswer],
    tallies: &LineTallies,
)
    ensures { Delivers W.contents writer.old writer.new
        (flat_map (line_by form catalog.now rule) answers.now ++ counts_by form tallies.now) }
{
    put_answers(writer, catalog, rule, form, answers);
    put_counts_by(writer, form, tallies);
    writer.flush();
}

/// Writes the line of each answer.
fn put_answers<W: Write>(
    writer: &mut Output<W>,
    catalog: &Catalog,
    rule: AddressRule,
    form: AnswerForm,
    answers: &[AddressAnswer],
)
    ensures { Says W.contents writer.old writer.new
        (flat_map (line_by form catalog.now rule) answers.now) }
{
    for answer in answers {
        let known = answer_of(catalog, rule, answer.item, answer.addr);
        put_line(writer, form, answer.addr, &known);
    }
}

/// Writes the line of an address with this answer.
#[inline(always)]
#[tactic(auto, unfolding(crate::specs::LookupTexts::known_line))]
fn put_line<W: Write>(writer: &mut Output<W>, form: AnswerForm, addr: u64, known: &SymbolAnswer)
    ensures { Says W.contents writer.old writer.new (known_line form addr known.now) }
{
    if form.json {
        put_json_line(writer, addr, known)
    } else {
        put_answer_line(writer, addr, known)
    }
}

/// Writes `ADDR TEXT` and a line's end.
#[inline(always)]
#[tactic(auto, unfolding(crate::specs::LookupTexts::answer_line))]
fn put_answer_line<W: Write>(writer: &mut Output<W>, addr: u64, known: &SymbolAnswer)
    ensures { Says W.contents writer.old writer.new (answer_line addr known.now) }
{
    writer.put_hexadecimal(addr);
    writer.put(b" ");
    put_answer(writer, known);
    writer.put(b"\n");
}

/// Writes the counts of the listings, if the form has them.
#[tactic(auto, unfolding(crate::specs::LookupTexts::counts_by))]
fn put_counts_by<W: Write>(writer: &mut Output<W>, form: AnswerForm, tallies: &LineTallies)
    ensures { Says W.contents writer.old writer.new (counts_by form tallies.now) }
{
    if form.counts {
        if form.json {
            put_json_counts(writer, tallies)
        } else {
            put_counts(writer, tallies)
        }
    }
}

/// Writes a word, with the blanks around it, and a count.
pub fn put_count<W: Write>(writer: &mut Output<W>, word: &[u8], count: u64)
    ensures { Says W.contents writer.old writer.new (count_text word.now count) }
{
    writer.put(word);
    writer.put_decimal(count);
}
