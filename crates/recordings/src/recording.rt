//! What is written of the events of a block, and what is carried on to the next.
//!
//! ```text
//!     events          module_load: xfs          module_free: nf
//!     listing read    ext4 has fewer lines: its start was freed once it had run
//!
//!     written         change 7.360695           change 7.401100
//!                     the lines of xfs          gone nf
//!                     the lines of ext4
//!                     ^ after the first change what no event names
//! ```
//!
//! Carried on are the lines that each module has in the history so far. After events were lost the
//! listing is written whole.
ghost use Rattle.std.specs.Prelude.{◌≡◌, is_some, IfOk};
ghost use Rattle.std.specs.List.{fold};
ghost use Rattle.std.specs.Option.{option_copied, option_map_or};
ghost use Rattle.recordings.specs.Changes.{texts};
ghost use Rattle.recordings.specs.Recordings.{after_block, after_event, after_line, after_listing};
ghost use Rattle.recordings.specs.Recordings.{after_module, asks, at_time, change_of};
ghost use Rattle.recordings.specs.Recordings.{change_with};
ghost use Rattle.recordings.specs.Recordings.{first_carried, is_listed_by, is_silent, modules_now};
ghost use Rattle.recordings.specs.Recordings.{named_in, needs, other_names, own_text, with_change};
ghost use Rattle.recordings.specs.Recordings.{with_listing};

use crate::change_texts::{put_all_gone, put_among, put_header, put_own};
use crate::changes::{changed_names, modules_after};
use crate::events::{Event, EventKind, EventLine};
use crate::listing_texts::RecordedListing;
use crate::module_lines::{ModuleLines, modules_in, text_of};
use std::alloc::{AllocError, Global};
use std::marker::Model;

/// What is carried on from one block to the next.
#[derive(Drop)]
pub struct Recording {
    /// The lines of the modules in the history so far, if it has a listing.
    pub(crate) modules: Option<Vec<ModuleLines>>,
    /// Whether events were lost, and none came after them.
    pub(crate) is_lost: bool,
    /// The last time that was written, in nanoseconds and as it was written.
    pub(crate) time: u64,
    pub(crate) time_text: Vec<u8>,
}

impl Model for Recording {
    ghost use Rattle.std.specs.Option.{option_map};
    ghost use Rattle.recordings.specs.Recordings.{CarriedOn};

    ghost Value = { CarriedOn };

    ghost view = { λ r. record {
      modules = option_map (λ m. m.items) r.modules;
      is_lost = r.is_lost;
      time = r.time;
      time_text = r.time_text.items;
    } };
}

/// A block: the modules that its events name, and the listing that was read after it.
#[derive(Drop)]
pub struct Block<'b> {
    pub(crate) names: Vec<&'b [u8]>,
    pub(crate) listing: Option<&'b RecordedListing>,
}

impl<'b> Model for Block<'b> {
    ghost use Rattle.std.specs.Option.{option_copied};
    ghost use Rattle.recordings.specs.Changes.{texts};
    ghost use Rattle.recordings.specs.Recordings.{BlockRead};

    ghost Value = { BlockRead };

    ghost view = { λ b. record {
      names = texts b.names.items;
      listing = option_copied b.listing;
    } };
}

/// What was written of a block so far, and what is carried on.
#[derive(Drop)]
pub struct BlockPart {
    pub(crate) recording: Recording,
    /// Whether a change was written.
    pub(crate) has_change: bool,
    pub(crate) text: Vec<u8>,
}

impl Model for BlockPart {
    ghost use Rattle.recordings.specs.Recordings.{BlockWritten};

    ghost Value = { BlockWritten };

    ghost view = { λ p. record {
      carried = p.recording;
      has_change = p.has_change;
      text = p.text.items;
    } };
}

/// The modules that the events of lines name.
fn named_in<'a>(alloc: Global, said: &[EventLine<'a>]) -> Result<Vec<&'a [u8]>, AllocError>
    ensures { IfOk result (λ names. texts names.items ≡ named_in said.now) }
{
    let mut names = Vec::new(alloc);
    let mut rest = said;
    while let [line, more @ ..] = rest {
        if let Some(event) = &line.event {
            names.push(event.module)?;
        }
        rest = more;
    }
    Ok(names)
}

/// A change: its lines after its header, and those that modules have after it.
#[derive(Drop)]
pub(crate) struct Change {
    text: Vec<u8>,
    modules: Vec<ModuleLines>,
}

impl Model for Change {
    ghost use Rattle.recordings.specs.Recordings.{ChangeWritten};

    ghost Value = { ChangeWritten };

    ghost view = { λ c. record { text = c.text.items; modules = c.modules.items } };
}

/// Whether an event asks for the listing, after the first listing or not, and after events were
/// lost or not.
fn asks(has_listing: bool, is_lost: bool, event: &Event<'_>) -> bool
    ensures { result ≡ asks has_listing is_lost event.now }
{
    is_lost
        || match event.kind {
            EventKind::Mark => true,
            EventKind::MarkOf | EventKind::Loaded => has_listing,
            EventKind::Freed => false,
        }
}

/// Whether an event is a mark of a module that has these lines and had them before.
fn is_silent(
    alloc: Global,
    event: &Event<'_>,
    own: &[u8],
    old: &[ModuleLines],
) -> Result<bool, AllocError>
    ensures { IfOk result (λ b. b ≡ is_silent event.now own.now old.now) }
{
    if event.kind != EventKind::MarkOf {
        return Ok(false);
    }
    Ok(own == text_of(alloc, old, event.module)?.as_slice())
}

impl<'b> Block<'b> {
    /// The lines of the modules in the listing.
    fn modules_now(&self) -> &'b [ModuleLines]
        ensures { result.now ≡ modules_now self.now }
    {
        match self.listing {
            Some(listing) => &listing.modules,
            None => &[],
        }
    }

    /// The lines that the module of an event has after it.
    fn own_text(&self, alloc: Global, event: &Event<'_>) -> Result<Vec<u8>, AllocError>
        ensures { IfOk result (λ own. own.items ≡ own_text self.now event.now) }
    {
        if event.kind == EventKind::Freed {
            return Ok(Vec::new(alloc));
        }
        text_of(alloc, self.modules_now(), event.module)
    }

    /// The modules that no event of the block names and that have changed, for its first change.
    fn other_names<'m>(
        &'m self,
        alloc: Global,
        has_change: bool,
        old: &'m [ModuleLines],
    ) -> Result<Vec<&'m [u8]>, AllocError>
        ensures { IfOk result (λ names. texts names.items
            ≡ other_names self.now has_change old.now) }
    {
        if has_change || self.listing.is_none() {
            return Ok(Vec::new(alloc));
        }
        changed_names(alloc, &self.names, self.modules_now(), old)
    }

    /// The change of an event, if it makes one.
    fn change_of(
        &self,
        alloc: Global,
        event: &Event<'_>,
        has_change: bool,
        old: &[ModuleLines],
    ) -> Result<Option<Change>, AllocError>
        ensures { IfOk result
            (λ change. change ≡ change_of self.now event.now has_change old.now) }
    {
        let own = self.own_text(alloc, event)?;
        if is_silent(alloc, event, &own, old)? {
            return Ok(None);
        }
        Ok(Some(self.change_with(alloc, event, &own, has_change, old)?))
    }

    /// The change of an event whose module has these lines now.
    fn change_with(
        &self,
        alloc: Global,
        event: &Event<'_>,
        own: &[u8],
        has_change: bool,
        old: &[ModuleLines],
    ) -> Result<Change, AllocError>
        ensures { IfOk result (λ change. change
            ≡ change_with self.now event.now own.now has_change old.now) }
    {
        let now = self.modules_now();
        let others = self.other_names(alloc, has_change, old)?;
        let mut text = Vec::new(alloc);
        put_own(&mut text, event.module, own)?;
        put_among(&mut text, &others, now)?;
        put_all_gone(alloc, &mut text, &others, now)?;
        let modules = modules_after(alloc, event.module, own, &others, now, old)?;
        Ok(Change { text, modules })
    }
}

impl Recording {
    /// Before all events.
    pub(crate) fn new(alloc: Global) -> Recording
        ensures { result ≡ first_carried }
    {
        Recording {
            modules: None,
            is_lost: false,
            time: 0,
            time_text: Vec::new(alloc),
        }
    }

    /// Whether an event of these lines asks for the listing.
    pub(crate) fn needs(&self, said: &[EventLine<'_>]) -> bool
        ensures { result ≡ needs (is_some self.now.modules) self.now.is_lost said.now }
    {
        let has_listing = self.modules.is_some();
        let mut is_lost = self.is_lost;
        let mut rest = said;
        while let [line, more @ ..] = rest {
            if let Some(event) = &line.event {
                if asks(has_listing, is_lost, event) {
                    return true;
                }
            }
            is_lost = is_lost || line.is_lost;
            rest = more;
        }
        false
    }

    /// Whether an event is written as the whole listing.
    fn is_listed_by(&self, event: &Event<'_>) -> bool
        ensures { result ≡ is_listed_by self.now event.now }
    {
        self.is_lost || event.kind == EventKind::Mark
    }

    /// With the time that is written for an event: its own, unless a later one was written before.
    fn at_time(mut self, event: &Event<'_>) -> Result<Recording, AllocError>
        ensures { IfOk result (λ recording. recording ≡ at_time self event.now) }
    {
        if event.time < self.time {
            return Ok(self);
        }
        self.time = event.time;
        self.time_text.clear();
        self.time_text.extend_from_slice(event.time_text)?;
        Ok(self)
    }

    /// What is written of the lines of a block, and what is carried on.
    pub(crate) fn after_block<'b>(
        self,
        alloc: Global,
        said: &'b [EventLine<'b>],
        listing: Option<&'b RecordedListing>,
    ) -> Result<BlockPart, AllocError>
        ensures { IfOk result
            (λ part. part ≡ after_block said.now (option_copied listing.entry) self) }
    {
        let names = named_in(alloc, said)?;
        let block = Block { names, listing };
        let part = BlockPart {
            recording: self,
            has_change: false,
            text: Vec::new(alloc),
        };
        part.after_lines(alloc, &block, said)
    }
}

impl BlockPart {
    /// After these lines.
    fn after_lines(
        self,
        alloc: Global,
        block: &Block<'_>,
        said: &[EventLine<'_>],
    ) -> Result<BlockPart, AllocError>
        ensures { IfOk result (λ part. part ≡ fold (after_line block.now) self said.now) }
    {
        let mut part = self;
        let mut rest = said;
        while let [line, more @ ..] = rest {
            part = part.after_line(alloc, block, line)?;
            rest = more;
        }
        Ok(part)
    }

    /// After one line more.
    fn after_line(
        self,
        alloc: Global,
        block: &Block<'_>,
        line: &EventLine<'_>,
    ) -> Result<BlockPart, AllocError>
        ensures { IfOk result (λ part. part ≡ after_line block.now self line.now) }
    {
        let mut part = match &line.event {
            Some(event) => self.after_event(alloc, block, event)?,
            None => self,
        };
        part.recording.is_lost = part.recording.is_lost || line.is_lost;
        Ok(part)
    }

    /// After one event more.
    fn after_event(
        self,
        alloc: Global,
        block: &Block<'_>,
        event: &Event<'_>,
    ) -> Result<BlockPart, AllocError>
        ensures { IfOk result (λ part. part ≡ after_event block.now self event.now) }
    {
        if self.recording.is_listed_by(event) {
            self.after_listing(alloc, block, event)
        } else {
            self.after_module(alloc, block, event)
        }
    }

    /// After an event that is written as the whole listing.
    fn after_listing(
        self,
        alloc: Global,
        block: &Block<'_>,
        event: &Event<'_>,
    ) -> Result<BlockPart, AllocError>
        ensures { IfOk result (λ part. part ≡ after_listing block.now self event.now) }
    {
        match block.listing {
            Some(listing) => self.with_listing(alloc, listing, event),
            None => Ok(self),
        }
    }

    /// After an event of a module; before the first listing nothing is written of it.
    fn after_module(
        self,
        alloc: Global,
        block: &Block<'_>,
        event: &Event<'_>,
    ) -> Result<BlockPart, AllocError>
        ensures { IfOk result (λ part. part
            ≡ option_map_or (after_module block.now self event.now) self.carried.modules self) }
    {
        let Some(old) = &self.recording.modules else {
            return Ok(self);
        };
        match block.change_of(alloc, event, self.has_change, old)? {
            Some(change) => self.with_change(change, event),
            None => Ok(self),
        }
    }

    /// After the whole listing is written for an event.
    fn with_listing(
        self,
        alloc: Global,
        listing: &RecordedListing,
        event: &Event<'_>,
    ) -> Result<BlockPart, AllocError>
        ensures { IfOk result (λ part. part
            ≡ with_listing (at_time self.carried event.now) listing.now self) }
    {
        let mut recording = self.recording.at_time(event)?;
        let mut text = self.text;
        put_header(&mut text, b"listing ", &recording.time_text)?;
        text.extend_from_slice(&listing.text)?;
        recording.modules = Some(modules_in(alloc, &listing.text)?);
        recording.is_lost = false;
        Ok(BlockPart {
            recording,
            has_change: self.has_change,
            text,
        })
    }

    /// After a change is written for an event.
    fn with_change(self, change: Change, event: &Event<'_>) -> Result<BlockPart, AllocError>
        ensures { IfOk result (λ part. part
            ≡ with_change (at_time self.carried event.now) change self) }
    {
        let mut recording = self.recording.at_time(event)?;
        let mut text = self.text;
        put_header(&mut text, b"change ", &recording.time_text)?;
        text.extend_from_slice(&change.text)?;
        recording.modules = Some(change.modules);
        Ok(BlockPart {
            recording,
            has_change: true,
            text,
        })
    }
}
