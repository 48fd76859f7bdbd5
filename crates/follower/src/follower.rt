//! A table that has the regions of the catalog shown last.

ghost use Rattle.std.specs.Prelude.{◌≡◌, ℕ, ◌-◌, ◌<◌, ◌≤◌, [], All, IfErr, IfOk, IfSome, OnErr, vec_len};
ghost use Rattle.std.specs.Option.{option_copied};
ghost use Rattle.order_laws.specs.Orders.{half_open};
ghost use Rattle.latch_table.specs.declared.knowledge.Origin.TheVariants.{Start};
ghost use Rattle.latch_table.specs.Adding.{AddsReader, RefusesReader};
ghost use Rattle.latch_table.specs.Enlarging.{Enlarges, RefusesEnlarging};
ghost use Rattle.latch_table.specs.Readers.{new_reader};
ghost use Rattle.latch_table.specs.Replacing.{RefusesReplacing};
ghost use Rattle.latch_table.specs.Seats.{first_knowledge};
ghost use Rattle.latch_table.specs.Writers.{MayOpenWith, RefusesOpening, new_writer};
ghost use Rattle.follower.specs.Catalogs.{DropsOldest, Forgets, standing_at};
ghost use Rattle.follower.specs.declared.catalogs.Moment.TheVariants.{Generation as At};
ghost use Rattle.follower.specs.Following.{BeginsToShow, IsBegun, IsFollowed, IsShownAt};
ghost use Rattle.follower.specs.Following.{BeginsMoment, Notes, NotesGoneAny, RefusesMoment};
ghost use Rattle.follower.specs.Following.{RefusesToShow, Shows, dated_as, generation_of};
ghost use Rattle.follower.specs.Noted.{AreSameFrom, noted_at, without_gone};

use crate::catalogs::{Catalogs, DatedCatalog, Moment, SharedCatalog};
use crate::code::NotedCode;
use crate::noted::{DatedCode, NotedCodes, NotedTime};
use latch_table::{Reader, Writer, open};
use order_laws::{HalfOpen, Item, Refusal};
use std::alloc::{AllocError, Global};
use std::marker::Model;
use table_updates::Update;
use word_layout::Layout;

/// Why a catalog is not shown.
#[derive(Clone, Copy, Debug, PartialEq, Eq, Drop)]
pub enum NotShown {
    /// Its stamp is below the stamp of a catalog that was shown before.
    StampFalls,
    /// The table refuses its regions, or memory ran out.
    Refused(Refusal),
}

impl From<Refusal> for NotShown {
    ghost use Rattle.follower.specs.declared.follower.NotShown.TheVariants.{Refused};

    ghost from_gives = { λ refusal why. why ≡ Refused refusal };

    fn from(refusal: Refusal) -> NotShown {
        NotShown::Refused(refusal)
    }
}

impl From<AllocError> for NotShown {
    ghost use Rattle.order_laws.specs.declared.refusals.Refusal.TheVariants.{OutOfMemory};
    ghost use Rattle.follower.specs.declared.follower.NotShown.TheVariants.{Refused};

    ghost from_gives = { λ _ why. why ≡ Refused OutOfMemory };

    fn from(_error: AllocError) -> NotShown {
        NotShown::Refused(Refusal::OutOfMemory)
    }
}

/// The one writer of a table, the catalogs that it showed, and the code that was noted.
#[derive(Drop)]
pub struct Follower<'a> {
    writer: Writer<HalfOpen>,
    catalogs: Catalogs<'a>,
    codes: NotedCodes<'a>,
}

impl<'a> Model for Follower<'a> {
    ghost use Rattle.follower.specs.Following.{Followed, IsFollowed};

    ghost Value = { Followed };

    ghost view = { λ f. record {
      writer = f.writer;
      catalogs = f.catalogs.items;
      noted = f.codes.items;
    } };

    ghost invariant = { λ f. IsFollowed f.writer f.catalogs.items };
}

/// Begins the update after which the table has these items, and returns the generation before it.
#[tactic(auto, using(crate::proofs::FollowingLemmas::begun_so))]
fn begin_replacing(writer: &mut Writer<HalfOpen>, items: &[Item]) -> Result<u64, Refusal>
    ensures begun { IfOk result (λ previous. IsBegun writer.old items.now writer.new previous) }
    ensures unchanged { OnErr result (writer.new ≡ writer.old) }
    ensures refused { IfErr result (RefusesReplacing half_open writer.old items.now) }
{
    writer.begin_replace(items)?.leave();
    // (no flip is made yet)
    Ok(writer.generation())
}

/// Begins an update that changes nothing of the table, and returns the generation before it.
#[tactic(auto, using(crate::proofs::FollowingLemmas::moment_begun_so))]
fn begin_moment(alloc: Global, writer: &mut Writer<HalfOpen>) -> Result<u64, Refusal>
    ensures begun { IfOk result (λ previous. BeginsMoment writer.old writer.new previous) }
    ensures unchanged { OnErr result (writer.new ≡ writer.old) }
    ensures refused { IfErr result (RefusesMoment writer.old) }
{
    let update = Update::batch(alloc, &[], &[])?;
    writer.begin(update)?.leave();
    // (no flip is made yet)
    Ok(writer.generation())
}

/// Keeps a catalog, and begins the update after which the table has its regions: so the catalog is
/// found by the generation of this update before a reader can give that.
fn begin_to_show<'a>(
    writer: &mut Writer<HalfOpen>,
    catalogs: &mut Catalogs<'a>,
    catalog: &SharedCatalog<'a>,
    since: u64,
    tag: u64,
) -> Result<(), NotShown>
    requires followed { IsFollowed writer.old catalogs.old.items }
    ensures begun { IfOk result (λ _. BeginsToShow (dated_as catalog.now since tag writer.old)
        writer.old writer.new catalogs.old.items catalogs.new.items) }
    ensures unchanged { OnErr result ((writer.new ≡ writer.old)
        × (catalogs.new.items ≡ catalogs.old.items)) }
    ensures refused { IfErr result
        (RefusesToShow catalog.now since writer.old catalogs.old.items) }
{
    if !catalogs.may_begin(since) {
        return Err(NotShown::StampFalls);
    }
    catalogs.reserve_one()?;
    let catalog = catalog.share()?;
    let previous = begin_replacing(writer, catalog.indexed().items())?;
    catalogs.keep_reserved(DatedCatalog {
        previous,
        since,
        tag,
        catalog,
    });
    Ok(())
}

impl<'a> Follower<'a> {
    /// An empty table with its sequence at `start`, this many readers, and no catalog.
    ///
    /// Refused as [`latch_table::open`] refuses.
    pub fn open(
        alloc: Global,
        l: Layout,
        start: u64,
        readers: u32,
    ) -> Result<(Follower<'a>, Vec<Reader<HalfOpen>>), Refusal>
        ensures may { IfOk result (λ r. MayOpenWith l start readers) }
        ensures writer { IfOk result
            (λ r. r.0.writer ≡ new_writer r.0.writer.place l start readers) }
        ensures catalogs { IfOk result (λ r. (r.0.catalogs ≡ []) × (r.0.noted ≡ [])) }
        ensures readers { IfOk result (λ r. (vec_len r.1 ≡ readers)
            × All (λ x. x ≡ new_reader r.0.writer.place (first_knowledge (Start l start)))
            r.1.items) }
        ensures refusal { IfErr result (RefusesOpening l start readers) }
    {
        let (writer, readers) = open::<HalfOpen>(alloc, l, start, readers)?;
        let catalogs = Catalogs::new(alloc);
        let codes = NotedCodes::new(alloc);
        Ok((
            Follower {
                writer,
                catalogs,
                codes,
            },
            readers,
        ))
    }

    /// Shows the regions of a catalog in place of those in the table, in one whole update, and
    /// keeps the catalog with `since`, the caller's stamp of now, and the caller's tag. Returns the
    /// generation of the update.
    ///
    /// Refused by [`NotShown::StampFalls`], else as [`Writer::begin_replace`] refuses the regions.
    /// A refusal changes nothing.
    pub fn show(
        &mut self,
        catalog: &SharedCatalog<'a>,
        since: u64,
        tag: u64,
    ) -> Result<u64, NotShown>
        ensures shown { IfOk result (Shows catalog.now since tag self.old self.new) }
        ensures unchanged { OnErr result (self.new ≡ self.old) }
        ensures refused { IfErr result
            (RefusesToShow catalog.now since self.old.writer self.old.catalogs) }
    {
        catalog.indexed().catalog().stays_sound();
        begin_to_show(&mut self.writer, &mut self.catalogs, catalog, since, tag)?;
        Ok(self.writer.finish())
    }

    /// The current catalog at a moment, if it is not forgotten. An answer of a reader is named by
    /// the catalog of its generation: for each address it has the region that the table then had.
    pub fn catalog_at(&self, moment: Moment) -> Option<&DatedCatalog<'a>>
        ensures stands { option_copied result ≡ standing_at self.now.catalogs moment }
        ensures shown { (generation : ℕ) → moment ≡ At generation
            → generation ≤ generation_of self.now.writer
            → IfSome result (λ d. IsShownAt self.now.writer generation d.now.catalog) }
    {
        self.catalogs.of(moment)
    }

    /// Notes code that the caller knows of itself, with `since`, the caller's stamp of the moment
    /// from which on it is there. The table stays as it is, in an update of its own, from whose
    /// generation on the code is there. Returns this generation.
    ///
    /// Refused by [`Refusal::SequenceSpent`] and [`Refusal::OutOfMemory`]; a refusal changes
    /// nothing.
    pub fn note(&mut self, alloc: Global, code: NotedCode<'a>, since: u64) -> Result<u64, Refusal>
        ensures noted { IfOk result (Notes code.entry since self.old self.new) }
        ensures unchanged { OnErr result (self.new ≡ self.old) }
        ensures refused { IfErr result (RefusesMoment self.old.writer) }
    {
        self.codes.reserve_one()?;
        let previous = begin_moment(alloc, &mut self.writer)?;
        self.codes.keep_reserved(DatedCode {
            code,
            begun: NotedTime { previous, since },
            gone: None,
        });
        Ok(self.writer.finish())
    }

    /// Notes that the code which begins at an address is gone, with the caller's stamp of that
    /// moment; of several the one noted last. Returns the generation from which on it is gone;
    /// none, and nothing changes, if no code begins there that was not gone already.
    ///
    /// Refused as [`Follower::note`] is.
    pub fn note_gone(
        &mut self,
        alloc: Global,
        start: u64,
        since: u64,
    ) -> Result<Option<u64>, Refusal>
        ensures gone { IfOk result (NotesGoneAny start since self.old self.new) }
        ensures unchanged { OnErr result (self.new ≡ self.old) }
        ensures refused { IfErr result (RefusesMoment self.old.writer) }
    {
        let Some(place) = self.codes.place_at(start) else {
            return Ok(None);
        };
        let previous = begin_moment(alloc, &mut self.writer)?;
        self.codes.end(place, NotedTime { previous, since });
        Ok(Some(self.writer.finish()))
    }

    /// The code that was noted and there at a moment, and has the address: of several the one noted
    /// last. It goes before what the catalog of the moment has.
    pub fn code_at(&self, moment: Moment, addr: u64) -> Option<&DatedCode<'a>>
        ensures { option_copied result ≡ noted_at self.now.noted moment addr }
    {
        self.codes.at(moment, addr)
    }

    /// Drops the oldest catalog if the next one was shown at or before the moment, and returns its
    /// tag. No answer of a generation from this one on needs it, nor a stamp that is not below.
    ///
    /// Code that was gone by the moment is dropped, too.
    pub fn forget(&mut self, moment: Moment) -> Option<u64>
        ensures forgotten { Forgets moment self.old.catalogs self.new.catalogs result }
        ensures noted { self.new.noted ≡ without_gone moment self.old.noted }
        ensures same { AreSameFrom moment self.old.noted self.new.noted }
        ensures writer { self.new.writer ≡ self.old.writer }
    {
        self.codes.forget(moment);
        self.catalogs.forget(moment)
    }

    /// Drops the oldest catalog, if there is one, and returns its tag.
    pub fn drop_oldest(&mut self) -> Option<u64>
        ensures dropped { DropsOldest self.old.catalogs self.new.catalogs result }
        ensures others { (self.new.writer ≡ self.old.writer) × (self.new.noted ≡ self.old.noted) }
    {
        self.catalogs.drop_oldest()
    }

    /// One more reader of the table ([`Writer::add_reader`]).
    pub fn add_reader(&mut self) -> Result<Reader<HalfOpen>, Refusal>
        ensures added { IfOk result (AddsReader self.old.writer self.new.writer) }
        ensures refusal { IfErr result (RefusesReader self.old.writer) }
        ensures unchanged { OnErr result (self.new ≡ self.old) }
        ensures others { (self.new.catalogs ≡ self.old.catalogs)
            × (self.new.noted ≡ self.old.noted) }
    {
        self.writer.add_reader()
    }

    /// How many readers the table has.
    pub fn readers(&self) -> u32
        ensures { result ≡ self.now.writer.readers }
    {
        self.writer.readers()
    }

    /// Goes on with the nodes of a layout ([`Writer::move_to`]), and hands out the readers of the
    /// new words. The old readers keep the table as it is: they see no catalog that is shown from
    /// now on. The catalogs stay, each at its generation and its stamp.
    pub fn move_to(&mut self, alloc: Global, l: Layout) -> Result<Vec<Reader<HalfOpen>>, Refusal>
        ensures enlarged { IfOk result
            (λ all. Enlarges self.old.writer l self.new.writer all.items) }
        ensures refusal { IfErr result (RefusesEnlarging self.old.writer l) }
        ensures unchanged { OnErr result (self.new ≡ self.old) }
        ensures others { (self.new.catalogs ≡ self.old.catalogs)
            × (self.new.noted ≡ self.old.noted) }
    {
        self.writer.move_to(alloc, l)
    }

    /// Gives up a reader of the table, and counts one fewer ([`Writer::take_back`]).
    pub fn take_back(&mut self, reader: Reader<HalfOpen>)
        requires { 0 < self.old.writer.readers }
        ensures writer { self.new.writer
            ≡ record self.old.writer { readers = self.old.writer.readers - 1 } }
        ensures others { (self.new.catalogs ≡ self.old.catalogs)
            × (self.new.noted ≡ self.old.noted) }
    {
        self.writer.take_back(reader);
    }
}
