//! The commands of a trace.
ghost use Rattle.std.specs.Prelude.{◌≡◌, ◌∷◌, map, IfOk};
ghost use Rattle.texts.specs.Lines.{words_of};
ghost use Rattle.run_files.specs.Batch.{batch_of};
ghost use Rattle.run_files.specs.Commands.{batch_command, command_by, command_of, erase_of};
ghost use Rattle.run_files.specs.Commands.{insert_of, read_of, start_of, write_of};

use crate::batch::batch_in;
use crate::header::Version;
use latch_steps::Command;
use order_laws::Item;
use std::alloc::{AllocError, Global};
use table_updates::{Entries, Update};
use texts::{Form, count, cut_word, number, short_number, words_in};

/// The form of a line after the header, in a trace of this version.
#[derive(Clone, Copy)]
pub(crate) struct CommandForm {
    pub(crate) alloc: Global,
    pub(crate) version: Version,
}

impl<'a> Form<'a> for CommandForm {
    type Entry = Command<u64>;

    ghost entry_of = { λ form line. command_by form.version line };

    #[tactic(auto, using(crate::proofs::FormLemmas::verb_alone))]
    fn entry(&self, line: &'a [u8]) -> Result<Option<Command<u64>>, AllocError> {
        let (verb, Some(arguments)) = cut_word(line) else {
            return Ok(None);
        };
        if self.version.has_batches() && verb == b"batch".as_slice() {
            return batch_command(self.alloc, arguments);
        }
        Ok(short_command_in(verb, arguments))
    }
}

/// `batch E I ..`
fn batch_command(alloc: Global, arguments: &[u8]) -> Result<Option<Command<u64>>, AllocError>
    ensures { IfOk result (λ command. command ≡ batch_command (batch_of (words_of arguments.now))) }
{
    let Some(batch) = batch_in(alloc, arguments)? else {
        return Ok(None);
    };
    Ok(Some(Command::Begin(Update::Batch {
        erase: Entries::new(batch.erase)?,
        insert: Entries::new(batch.insert)?,
    })))
}

/// The command of a verb, if it has no more arguments than a line of fixed length.
#[tactic(auto, using(crate::proofs::FormLemmas::command_long))]
fn short_command_in(verb: &[u8], arguments: &[u8]) -> Option<Command<u64>>
    ensures { result ≡ command_of (verb.now ∷ words_of arguments.now) }
{
    let arguments = words_in::<3>(arguments)?;
    if verb == b"insert".as_slice() {
        insert_in(&arguments)
    } else if verb == b"erase".as_slice() {
        erase_in(&arguments)
    } else if verb == b"write".as_slice() {
        write_in(&arguments)
    } else if verb == b"start".as_slice() {
        start_in(&arguments)
    } else if verb == b"read".as_slice() {
        read_in(&arguments)
    } else {
        None
    }
}

/// `insert LO HI TAG`
fn insert_in(arguments: &[&[u8]]) -> Option<Command<u64>>
    ensures { result ≡ insert_of (map (λ w. w.now) arguments.now) }
{
    let [low, high, tag] = arguments else {
        return None;
    };
    let item = Item {
        a: number(low)?,
        b: number(high)?,
        tag: number(tag)?,
    };
    Some(Command::Begin(Update::Insert(item)))
}

/// `erase LO`
fn erase_in(arguments: &[&[u8]]) -> Option<Command<u64>>
    ensures { result ≡ erase_of (map (λ w. w.now) arguments.now) }
{
    let [low] = arguments else {
        return None;
    };
    Some(Command::Begin(Update::Erase(number(low)?)))
}

/// `write flip`, `write end` and `write K`
fn write_in(arguments: &[&[u8]]) -> Option<Command<u64>>
    ensures { result ≡ write_of (map (λ w. w.now) arguments.now) }
{
    let [steps] = arguments else {
        return None;
    };
    if *steps == b"flip".as_slice() {
        Some(Command::WriteFlip)
    } else if *steps == b"end".as_slice() {
        Some(Command::WriteEnd)
    } else {
        Some(Command::Write(count(steps)?))
    }
}

/// `start R ADDR`
fn start_in(arguments: &[&[u8]]) -> Option<Command<u64>>
    ensures { result ≡ start_of (map (λ w. w.now) arguments.now) }
{
    let [reader, key] = arguments else {
        return None;
    };
    Some(Command::Start(short_number(reader)?, number(key)?))
}

/// `read R K`
fn read_in(arguments: &[&[u8]]) -> Option<Command<u64>>
    ensures { result ≡ read_of (map (λ w. w.now) arguments.now) }
{
    let [reader, loads] = arguments else {
        return None;
    };
    Some(Command::Read(short_number(reader)?, count(loads)?))
}
