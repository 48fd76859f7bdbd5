//! Opening a table.

ghost use Rattle.std.specs.Prelude.{◌≡◌, [], length, IfOk, IfErr, All, vec_len};
ghost use Rattle.std.specs.Arc.{arc_value};
ghost use Rattle.word_layout.specs.Layouts.{capacity_of};
ghost use Rattle.word_layout.specs.Words.{words_for};
ghost use Rattle.latch_core.specs.Latches.{opening_latch};
ghost use Rattle.latch_table.specs.declared.knowledge.Origin.TheVariants.{Start};
ghost use Rattle.latch_table.specs.Rule.{Opens};
ghost use Rattle.latch_table.specs.Seats.{first_knowledge, writer_of, writer_knowledge};
ghost use Rattle.latch_table.specs.Writers.{new_writer, MayOpenWith, RefusesOpening};
ghost use Rattle.latch_table.specs.Readers.{new_reader};

use crate::knowledge::{Origin, TableSeat};
use crate::readers::Reader;
use crate::rule::{NewReader, WordTable};
use crate::writers::Writer;
use latch_core::WriterCore;
use order_laws::{Refusal, TreeOrder};
use std::alloc::{AllocError, Global};
use std::sync::Arc;
use word_layout::Layout;

/// The most readers of a table.
pub const MOST_READERS: u32 = 64;

/// A row of words, with its first seat and its readers.
pub(crate) struct BuiltTable<O: TreeOrder> {
    pub(crate) table: Arc<WordTable<O>, Global>,
    pub(crate) seat: TableSeat,
    pub(crate) readers: Vec<Reader<O>>,
}

/// A row of these words, with `readers` readers.
pub(crate) fn build<O: TreeOrder>(
    alloc: Global,
    l: Layout,
    from: &Origin,
    words: &[u64],
    readers: u32,
) -> Result<BuiltTable<O>, AllocError>
    requires sized { length words.now ≡ words_for (capacity_of l) }
    requires writer { first_knowledge from.now
        ≡ writer_knowledge (writer_of (first_knowledge from.now)) }
    requires same { (writer_of (first_knowledge from.now)).capacity ≡ capacity_of l }
    requires rule { Opens O.order from.now words.now }
    ensures seat { IfOk result (λ b. (b.seat.table_id ≡ (arc_value b.table).shared.table_id)
        × (b.seat.table_id.words ≡ words_for (capacity_of l))
        × (b.seat.me ≡ (first_knowledge from.now, []))) }
    ensures readers { IfOk result (λ b. (vec_len b.readers ≡ readers)
        × All (λ x. x ≡ new_reader b.seat.table_id (first_knowledge from.now)) b.readers.items) }
{
    let (table, mut seat) = WordTable::<O>::of_words(alloc, words, from)?;
    let table = Arc::new(alloc, table)?;
    let mut all = Vec::with_capacity(alloc, readers as usize)?;
    for _ in 0..readers {
        let place = table.shared.split_seat::<NewReader>(&mut seat);
        all.push(Reader::new(Arc::try_clone(&table)?, place, l, None))?;
    }
    Ok(BuiltTable {
        table,
        seat,
        readers: all,
    })
}

/// The words before any update: the sequence at its start, and all others 0.
fn opening_words(alloc: Global, l: Layout, start: u64) -> Result<Vec<u64>, AllocError>
    ensures { IfOk result (λ words. words.items ≡ (opening_latch (capacity_of l) start).words) }
{
    let mut words = vec![in alloc; 0; l.words()]?;
    words[0] = start;
    Ok(words)
}

/// An empty table, with its sequence at `start`: its writer, and `readers` readers.
///
/// The start is a sequence. Refused by [`Refusal::BadCapacity`] if it is odd or above the
/// layout's limit, or the readers are not 1 to 64; and else by [`Refusal::OutOfMemory`].
pub fn open<O: TreeOrder>(
    alloc: Global,
    l: Layout,
    start: u64,
    readers: u32,
) -> Result<(Writer<O>, Vec<Reader<O>>), Refusal>
    ensures may { IfOk result (λ r. MayOpenWith l start readers) }
    ensures writer { IfOk result (λ r. r.0 ≡ new_writer r.0.place l start readers) }
    ensures readers { IfOk result (λ r. (vec_len r.1 ≡ readers)
        × All (λ x. x ≡ new_reader r.0.place (first_knowledge (Start l start))) r.1.items) }
    ensures refusal { IfErr result (RefusesOpening l start readers) }
{
    if readers == 0 || readers > MOST_READERS {
        return Err(Refusal::BadCapacity);
    }
    let core = WriterCore::<O>::open(alloc, l, start)?;
    let words = opening_words(alloc, l, start)?;
    let built = build::<O>(alloc, l, &Origin::Start(l, start), &words, readers)?;
    let BuiltTable {
        table,
        seat,
        readers: all,
    } = built;
    let writer = Writer {
        table,
        seat,
        core,
        readers,
    };
    Ok((writer, all))
}
