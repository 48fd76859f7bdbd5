//! The files of a log that lasts and of its listings.

ghost use Rattle.std.specs.Prelude.{◌≡◌};
ghost use Rattle.command_parts.specs.declared.fault.Fault.TheVariants.{Refused};

use crate::jobs::{FileSource, error_of_listings, open_files};
use command_listings::{LOG_PLACE, LastingLog, ListingFiles, Unlisted};
use command_parts::{Fault, ListingReaders, ListingTexts, read_given};
use order_laws::Refusal;
use std::alloc::Global;
use std::io::Read;
use texts::Counted;

/// The readers of a log that lasts and of its listings. The files of the listings are opened by
/// their names each time that these are read, but for the first: then they are open.
#[derive(Drop)]
pub struct FollowedFiles<'f, 'a, F: FileSource> {
    files: &'f F,
    names: &'f ListingFiles<'a>,
    listings: &'f mut ListingReaders<F::File, F::File, F::File>,
    log: &'f mut Counted<F::File>,
    /// Whether the listings that are open were read.
    is_read: bool,
}

impl<'f, 'a, F: FileSource> FollowedFiles<'f, 'a, F> {
    ghost use Rattle.std.specs.Prelude.{◌≡◌, false};

    /// These readers, of files with these names. The listings that are open were not read.
    pub fn new(
        files: &'f F,
        names: &'f ListingFiles<'a>,
        listings: &'f mut ListingReaders<F::File, F::File, F::File>,
        log: &'f mut Counted<F::File>,
    ) -> FollowedFiles<'f, 'a, F>
        ensures files { result.files.now ≡ files.now }
        ensures names { result.names.now ≡ names.now }
        ensures listings { result.listings.now ≡ listings.entry.now }
        ensures log { result.log.now ≡ log.entry.now }
        ensures unread { result.is_read ≡ false }
    {
        FollowedFiles {
            files,
            names,
            listings,
            log,
            is_read: false,
        }
    }
}

impl<'f, 'a, F: FileSource> FollowedFiles<'f, 'a, F> {
    ghost use Rattle.std.specs.Prelude.{◌≡◌, true};

    /// These readers, of files with these names. The listings are opened each time that they are
    /// read, also the first: so they are as they are after what was read of the log.
    pub fn reopened(
        files: &'f F,
        names: &'f ListingFiles<'a>,
        listings: &'f mut ListingReaders<F::File, F::File, F::File>,
        log: &'f mut Counted<F::File>,
    ) -> FollowedFiles<'f, 'a, F>
        ensures files { result.files.now ≡ files.now }
        ensures names { result.names.now ≡ names.now }
        ensures log { result.log.now ≡ log.entry.now }
        ensures read { result.is_read ≡ true }
    {
        let is_read = true;
        FollowedFiles {
            files,
            names,
            listings,
            log,
            is_read,
        }
    }
}

impl<'f, 'a, F: FileSource> LastingLog for FollowedFiles<'f, 'a, F> {
    ghost use Rattle.std.specs.Prelude.{None, if◌then◌else◌};
    ghost use Rattle.texts.specs.Counted.{device_of};
    ghost use Rattle.command_parts.specs.OpenedCatalogs.{known_given};
    ghost use Rattle.latchsym.specs.Files.{given_by};

    ghost seen = { λ s. record {
      events = None;
      left = F.File.remaining (device_of s.log.now);
      next = if s.is_read then given_by (F.file_text s.files.now) s.names.now
          else known_given F.File.remaining F.File.remaining F.File.remaining s.listings.now;
      later = given_by (F.file_text s.files.now) s.names.now;
    } };

    fn read_block(&mut self, room: &mut [u8]) -> Result<usize, Fault> {
        match self.log.read(room) {
            Ok(count) => Ok(count),
            Err(_) => Err(Fault::Read { place: LOG_PLACE }),
        }
    }

    fn read_listings(&mut self, alloc: Global) -> Result<ListingTexts, Unlisted> {
        if self.is_read {
            match open_files(self.files, self.names) {
                Ok(listings) => *self.listings = listings,
                Err(refusal) => return Err(refused(refusal)),
            }
        }
        self.is_read = true;
        match read_given(alloc, self.listings) {
            Ok(texts) => Ok(texts),
            Err(fault) => Err(Unlisted {
                fault,
                error: error_of_listings(self.listings, fault),
            }),
        }
    }
}

/// That listings were not opened.
fn refused(refusal: Refusal) -> Unlisted
    ensures { result.fault ≡ Refused refusal }
{
    Unlisted {
        fault: Fault::Refused(refusal),
        error: None,
    }
}
