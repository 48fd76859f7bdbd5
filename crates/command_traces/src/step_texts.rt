//! The lines that the steps of a trace write, an object of JSON each, byte for byte, with no memory
//! taken.
ghost use Rattle.std.specs.Prelude.{◌≡◌, ◌==◌, ◌++◌, if◌then◌else◌, codes, flat_map};
ghost use Rattle.texts.specs.Output.{Says};
ghost use Rattle.command_parts.specs.Json.{json_number};
ghost use Rattle.command_traces.specs.StepTexts.{answer_members, begun_members, done_members};
ghost use Rattle.command_traces.specs.StepTexts.{event_text, json_item, json_list, json_tag};
ghost use Rattle.command_traces.specs.StepTexts.{load_members, loaded_members, loaded_word};
ghost use Rattle.command_traces.specs.StepTexts.{opening_text, order_text, plain_load_members};
ghost use Rattle.command_traces.specs.StepTexts.{read_members, reader_members, refused_member};
ghost use Rattle.command_traces.specs.StepTexts.{started_members, stored_members, update_members};
ghost use Rattle.command_traces.specs.StepTexts.{version_number, word_members, written_members};

use command_parts::{put_json_count, put_json_number};
use latch_steps::{Event, NextLoad, Outcome, Reply, Returned};
use order_laws::{Item, Refusal};
use run_files::{Header, Version};
use std::io;
use std::io::Write;
use table_updates::Update;
use texts::Output;
use word_layout::Store;

// the names of members, and the values that are texts
const OPENING: &[u8] = b"{\"event\":0,\"line\":1,\"kind\":\"open\",\"version\":";

const ORDER: &[u8] = b",\"order\":";

const CAPACITY: &[u8] = b",\"capacity\":";

const SEQUENCE: &[u8] = b",\"sequence\":";

const CLOSED: &[u8] = b"\"closed\"";

const HALF_OPEN: &[u8] = b"\"halfopen\"";

const NULL: &[u8] = b"null";

const EVENT_NUMBER: &[u8] = b"{\"event\":";

const LINE: &[u8] = b",\"line\":";

const KIND: &[u8] = b",\"kind\":";

const BEGIN: &[u8] = b"\"begin\"";

const STEPS: &[u8] = b",\"steps\":";

const REFUSED_BEGIN: &[u8] = b"\"refusal\",\"of\":\"begin\"";

const ERASE: &[u8] = b",\"erase\":";

const INSERT: &[u8] = b",\"insert\":";

const ITEM_A: &[u8] = b"{\"a\":";

const ITEM_B: &[u8] = b",\"b\":";

const TAG: &[u8] = b",\"tag\":";

const FLIP: &[u8] = b"\"flip\"";

const STORED: &[u8] = b"\"store\"";

const WORD: &[u8] = b",\"word\":";

const VALUE: &[u8] = b",\"value\":";

const START: &[u8] = b"\"start\"";

const REFUSED_START: &[u8] = b"\"refusal\",\"of\":\"start\"";

const READER: &[u8] = b",\"reader\":";

const ADDRESS: &[u8] = b",\"address\":\"";

const RETRY: &[u8] = b"\"retry\"";

const RETURN: &[u8] = b"\"return\"";

const REFUSED_LOAD: &[u8] = b"\"refusal\",\"of\":\"load\",\"reader\":";

const LOAD: &[u8] = b"\"load\",\"reader\":";

const LOADS: &[u8] = b",\"loads\":";

const TRIES: &[u8] = b",\"tries\":";

const GENERATION: &[u8] = b",\"generation\":";

const REFUSED: &[u8] = b",\"refused\":";

/// Writes the line of the opening.
#[tactic(auto, unfolding(crate::specs::StepTexts::opening_text))]
pub fn put_opening<W: Write>(writer: &mut Output<W>, header: &Header)
    ensures { Says W.contents writer.old writer.new (opening_text header.now) }
{
    let version = version_number(header.version);
    put_json_count(writer, OPENING, version);
    writer.put(ORDER);
    writer.put(order_text(header.closed));
    put_json_count(writer, CAPACITY, u64::from(header.capacity));
    put_json_count(writer, SEQUENCE, header.start);
    writer.put(b"}\n");
}

fn version_number(version: Version) -> u64
    ensures { result ≡ version_number version }
{
    match version {
        Version::First => 1,
        Version::Second => 2,
        Version::Third => 3,
    }
}

fn order_text(closed: bool) -> &'static [u8]
    ensures { result.now ≡ order_text closed }
{
    if closed { CLOSED } else { HALF_OPEN }
}

/// Writes the line of an event that a command on this line of the trace asked for.
#[tactic(auto, unfolding(crate::specs::StepTexts::event_text))]
pub fn put_event<W: Write>(
    writer: &mut Output<W>,
    line: u64,
    event: &Event<u64>,
    outcome: &Outcome<u64>,
)
    ensures { Says W.contents writer.old writer.new (event_text line event.now outcome.now) }
{
    put_json_count(writer, EVENT_NUMBER, outcome.number);
    put_json_count(writer, LINE, line);
    writer.put(KIND);
    put_done(writer, outcome.load, event, &outcome.reply);
    put_json_count(writer, SEQUENCE, outcome.sequence);
    writer.put(b"}\n");
}

/// Writes what an event did, from its kind on.
fn put_done<W: Write>(
    writer: &mut Output<W>,
    load: Option<NextLoad<u64>>,
    event: &Event<u64>,
    reply: &Reply<u64>,
)
    ensures { Says W.contents writer.old writer.new (done_members load event.now reply.now) }
{
    match event {
        Event::Begin(update) => put_begun(writer, update, reply),
        Event::Write => put_written(writer, reply),
        Event::Start(reader, key) => put_started(writer, *reader, *key, reply),
        Event::Read(reader) => put_read(writer, *reader, load, reply),
    }
}

/// Writes what the writer began.
fn put_begun<W: Write>(writer: &mut Output<W>, update: &Update, reply: &Reply<u64>)
    ensures { Says W.contents writer.old writer.new (begun_members update.now reply.now) }
{
    match reply {
        Reply::Begun(left) => {
            writer.put(BEGIN);
            put_update(writer, update);
            put_json_count(writer, STEPS, *left);
        }
        Reply::Refused(why) => {
            writer.put(REFUSED_BEGIN);
            put_update(writer, update);
            put_refused(writer, *why);
        }
        _ => writer.put(NULL),
    }
}

/// Writes what an update erases, and what it inserts.
#[tactic(auto, unfolding(crate::specs::StepTexts::update_members))]
fn put_update<W: Write>(writer: &mut Output<W>, update: &Update)
    ensures { Says W.contents writer.old writer.new (update_members update.now) }
{
    match update {
        Update::Insert(item) => put_lists(writer, &[], &[*item]),
        Update::Erase(a) => put_lists(writer, &[*a], &[]),
        Update::Batch { erase, insert } => put_lists(writer, erase.as_slice(), insert.as_slice()),
    }
}

/// Writes these first words as erased, and these items as inserted.
fn put_lists<W: Write>(writer: &mut Output<W>, erased: &[u64], inserted: &[Item])
    ensures { Says W.contents writer.old writer.new
        (ERASE.now ++ json_list json_number erased.now
        ++ INSERT.now ++ json_list json_item inserted.now) }
{
    writer.put(ERASE);
    put_list(writer, erased);
    writer.put(INSERT);
    put_list(writer, inserted);
}

/// What has a value of JSON.
trait Json {
    ghost use Rattle.std.specs.Prelude.{ℕ, List};
    ghost use Rattle.texts.specs.Output.{Says};

    /// The value as text.
    ghost json_of: { Self → List ℕ };

    /// Writes the value.
    fn put<W: Write>(&self, writer: &mut Output<W>)
        ensures { Says W.contents writer.old writer.new (json_of self.now) };
}

impl Json for u64 {
    ghost json_of = { json_number };

    fn put<W: Write>(&self, writer: &mut Output<W>) {
        put_json_number(writer, *self);
    }
}

impl Json for Item {
    ghost json_of = { json_item };

    fn put<W: Write>(&self, writer: &mut Output<W>) {
        put_item(writer, *self);
    }
}

/// Writes values as a list.
fn put_list<T: Json, W: Write>(writer: &mut Output<W>, values: &[T])
    ensures { Says W.contents writer.old writer.new (json_list T.json_of values.now) }
{
    let [first, rest @ ..] = values else {
        return writer.put(b"[]");
    };
    writer.put(b"[");
    first.put(writer);
    put_further(writer, rest);
    writer.put(b"]");
}

/// Writes each of the values after a comma.
fn put_further<T: Json, W: Write>(writer: &mut Output<W>, values: &[T])
    ensures { Says W.contents writer.old writer.new
        (flat_map (λ x. codes "," ++ T.json_of x) values.now) }
{
    for value in values {
        writer.put(b",");
        value.put(writer);
    }
}

#[tactic(auto, unfolding(crate::specs::StepTexts::json_item))]
fn put_item<W: Write>(writer: &mut Output<W>, item: Item)
    ensures { Says W.contents writer.old writer.new (json_item item) }
{
    put_json_count(writer, ITEM_A, item.a);
    put_json_count(writer, ITEM_B, item.b);
    put_json_count(writer, TAG, item.tag);
    writer.put(b"}");
}

/// Writes what the writer stored.
fn put_written<W: Write>(writer: &mut Output<W>, reply: &Reply<u64>)
    ensures { Says W.contents writer.old writer.new (written_members reply.now) }
{
    match reply {
        Reply::Wrote(store) => put_stored(writer, *store),
        _ => writer.put(NULL),
    }
}

#[tactic(auto, unfolding(crate::specs::StepTexts::stored_members))]
fn put_stored<W: Write>(writer: &mut Output<W>, store: Store)
    ensures { Says W.contents writer.old writer.new (stored_members store) }
{
    writer.put(store_kind(store));
    put_word(writer, store.word, store.value);
}

/// A store to word 0 is a flip.
fn store_kind(store: Store) -> &'static [u8]
    ensures { result.now ≡ (if store.word == 0 then FLIP.now else STORED.now) }
{
    if store.word == 0 { FLIP } else { STORED }
}

/// Writes a word and what it holds.
fn put_word<W: Write>(writer: &mut Output<W>, word: usize, value: u64)
    ensures { Says W.contents writer.old writer.new (word_members word value) }
{
    put_json_count(writer, WORD, word as u64);
    put_json_count(writer, VALUE, value);
}

/// Writes what a reader began.
fn put_started<W: Write>(writer: &mut Output<W>, reader: u32, key: u64, reply: &Reply<u64>)
    ensures { Says W.contents writer.old writer.new (started_members reader key reply.now) }
{
    match reply {
        Reply::Started => {
            writer.put(START);
            put_reader(writer, reader, key);
        }
        Reply::Refused(why) => {
            writer.put(REFUSED_START);
            put_reader(writer, reader, key);
            put_refused(writer, *why);
        }
        _ => writer.put(NULL),
    }
}

/// Writes a reader, and the key of its lookup.
#[tactic(auto, unfolding(crate::specs::StepTexts::reader_members))]
fn put_reader<W: Write>(writer: &mut Output<W>, reader: u32, key: u64)
    ensures { Says W.contents writer.old writer.new (reader_members reader key) }
{
    put_json_count(writer, READER, u64::from(reader));
    writer.put(ADDRESS);
    writer.put_hexadecimal(key);
    writer.put(b"\"");
}

/// Writes what a reader loaded, and what this came to.
fn put_read<W: Write>(
    writer: &mut Output<W>,
    reader: u32,
    load: Option<NextLoad<u64>>,
    reply: &Reply<u64>,
)
    ensures { Says W.contents writer.old writer.new (read_members reader load reply.now) }
{
    match reply {
        Reply::Loaded => put_plain_load(writer, reader, load),
        Reply::Retried => {
            writer.put(RETRY);
            put_load(writer, reader, load);
        }
        Reply::Returned(returned) => {
            writer.put(RETURN);
            put_load(writer, reader, load);
            put_answer(writer, returned);
        }
        Reply::Refused(why) => {
            put_json_count(writer, REFUSED_LOAD, u64::from(reader));
            put_refused(writer, *why);
        }
        _ => writer.put(NULL),
    }
}

/// Writes a load after which its attempt goes on.
#[tactic(auto, unfolding(crate::specs::StepTexts::plain_load_members))]
fn put_plain_load<W: Write>(writer: &mut Output<W>, reader: u32, load: Option<NextLoad<u64>>)
    ensures { Says W.contents writer.old writer.new (plain_load_members reader load) }
{
    put_json_count(writer, LOAD, u64::from(reader));
    put_loaded_word(writer, load);
}

/// Writes what a reader loads, if it may load something.
fn put_loaded_word<W: Write>(writer: &mut Output<W>, load: Option<NextLoad<u64>>)
    ensures { Says W.contents writer.old writer.new (loaded_word load) }
{
    if let Some(load) = load {
        put_word(writer, load.word, load.value);
    }
}

/// Writes the load of a reader, if it has one.
fn put_load<W: Write>(writer: &mut Output<W>, reader: u32, load: Option<NextLoad<u64>>)
    ensures { Says W.contents writer.old writer.new (loaded_members reader load) }
{
    if let Some(load) = load {
        put_next_load(writer, reader, load);
    }
}

#[tactic(auto, unfolding(crate::specs::StepTexts::load_members))]
fn put_next_load<W: Write>(writer: &mut Output<W>, reader: u32, load: NextLoad<u64>)
    ensures { Says W.contents writer.old writer.new (load_members reader load) }
{
    put_reader(writer, reader, load.key);
    put_word(writer, load.word, load.value);
    put_json_count(writer, LOADS, load.loads);
    put_json_count(writer, TRIES, load.attempts);
}

/// Writes what a lookup found, and its generation.
#[tactic(auto, unfolding(crate::specs::StepTexts::answer_members))]
fn put_answer<W: Write>(writer: &mut Output<W>, returned: &Returned<u64>)
    ensures { Says W.contents writer.old writer.new (answer_members returned.now) }
{
    writer.put(TAG);
    put_tag(writer, returned.answer);
    put_json_count(writer, GENERATION, returned.generation);
}

fn put_tag<W: Write>(writer: &mut Output<W>, answer: Option<Item>)
    ensures { Says W.contents writer.old writer.new (json_tag answer) }
{
    match answer {
        Some(item) => put_json_number(writer, item.tag),
        None => writer.put(NULL),
    }
}

/// Writes why something was refused.
#[tactic(auto, unfolding(crate::specs::StepTexts::refused_member))]
fn put_refused<W: Write>(writer: &mut Output<W>, why: Refusal)
    ensures { Says W.contents writer.old writer.new (refused_member why) }
{
    put_json_count(writer, REFUSED, u64::from(why.number()));
}
