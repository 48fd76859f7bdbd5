//! The rule of the shared words, and what a seat learns by each step on them.
ghost use Rattle.table_updates.specs.declared.updates.Update.TheVariants.{Erase};

use crate::knowledge::{Knowledge, Origin};
use atomic_table::{Join, Play, Shared, Split, Table, TableRule};
use order_laws::TreeOrder;
use std::alloc::Global;
use std::marker::{Brand, PhantomData};

/// The rule: the stable copy holds the table after the updates that were shown, and what each seat
/// knows is true.
pub struct Latched<O> {
    order: PhantomData<O>,
}

impl<O: TreeOrder> TableRule<(), Knowledge, Origin> for Latched<O> {
    ghost use Rattle.latch_table.specs.Rule.{KnowledgeHolds, capacity_in, base_in};
    ghost use Rattle.latch_table.specs.Seats.{first_knowledge};

    ghost holds = { λ from. KnowledgeHolds O.order (capacity_in from) (base_in from) };

    ghost first = { first_knowledge };
}

/// The words of a table, and those words as its seats reach them.
pub type WordTable<O> = Table<(), Knowledge, Origin, Latched<O>, Global>;

pub type Words<O> = Shared<(), Knowledge, Origin, Latched<O>>;

/// A reader loads the sequence.
pub struct LoadSequence<O> {
    order: PhantomData<O>,
}

impl<O: TreeOrder> Play<(), Knowledge> for LoadSequence<O> {
    ghost use Rattle.latch_table.specs.Rule.{sequence_loaded};

    ghost then = { sequence_loaded O.order };
}

/// A reader loads another word.
pub struct LoadWord;

impl Play<(), Knowledge> for LoadWord {
    ghost use Rattle.latch_table.specs.Rule.{word_loaded};

    ghost then = { word_loaded };
}

/// The writer makes the first load of a lookup.
pub struct BeginLookup;

impl Play<(), Knowledge> for BeginLookup {
    ghost use Rattle.latch_table.specs.Rule.{lookup_begun};

    ghost then = { lookup_begun };
}

/// The writer loads a word.
pub struct WriterLoad;

impl Play<(), Knowledge> for WriterLoad {
    ghost use Rattle.latch_table.specs.Rule.{writer_loaded};

    ghost then = { writer_loaded };
}

/// The writer copies a word, and its seat knows no more than before.
pub struct CopyWord;

impl Play<(), Knowledge> for CopyWord {
    ghost use Rattle.latch_table.specs.Rule.{word_copied};

    ghost then = { word_copied };
}

/// Which update the writer begins.
pub trait NamesUpdate {
    ghost use Rattle.table_updates.specs.declared.updates.Update.{Update};

    ghost update: { Update };
}

impl NamesUpdate for Brand {
    ghost update = { Erase 0 };
}

/// The writer begins an update. A seat learns only at a step on a word, so this one loads the
/// sequence.
pub struct TakeUpdate<O, J> {
    order: PhantomData<O>,
    update: PhantomData<J>,
}

impl<O: TreeOrder, J: NamesUpdate> Play<(), Knowledge> for TakeUpdate<O, J> {
    ghost use Rattle.latch_table.specs.Rule.{update_taken};

    ghost then = { update_taken O.order J.update };
}

/// The writer stores a word: outside the stable copy, or as a flip.
pub struct StoreWord;

impl Play<(), Knowledge> for StoreWord {
    ghost use Rattle.latch_table.specs.Rule.{word_stored};

    ghost then = { word_stored };
}

/// The writer's seat parts with a new reader.
pub struct NewReader;

impl Split<Knowledge> for NewReader {
    ghost use Rattle.latch_table.specs.Seats.{new_reader_knowledge};

    ghost left = { λ v. v };

    ghost right = { new_reader_knowledge };
}

/// A reader meets the writer.
pub struct Meeting;

impl Join<Knowledge> for Meeting {
    ghost use Rattle.latch_table.specs.Seats.{joined_knowledge, no_knowledge};

    ghost both = { joined_knowledge };

    ghost spent = { no_knowledge };
}

impl Split<Knowledge> for Meeting {
    ghost use Rattle.latch_table.specs.Seats.{writer_alone, reader_alone};

    ghost left = { writer_alone };

    ghost right = { reader_alone };
}
