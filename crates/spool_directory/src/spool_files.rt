//! The files of a journal as a storage of lines.
ghost use Rattle.std.specs.Prelude.{◌≡◌, [], IfOk, OnOk, OnErr};
ghost use Rattle.journal.specs.File.{KeepsPlayed};

use crate::clock::{millis_of, now};
use crate::directory::Directory;
use crate::draft::DraftFile;
use crate::fault::SpoolFault;
use crate::listing::Listing;
use crate::opening::SpoolDirectory;
use crate::playing::FileEnd;
use crate::watching::WatchedFile;
use crate::writer::{JournalWriter, Tail};
use base_types::JobId;
use journal::{JournaledEngine, Storage, StoredLines, paused_printers};
use std::io;

/// How the files of a directory are kept.
#[derive(Clone, Copy)]
pub struct SpoolOptions<'a> {
    /// Whether lines count as stored only once they are on the disk.
    pub sync: bool,
    /// Whether files that the journal doesn't need any more get another name, and aren't removed.
    pub keep: bool,
    /// Whether jobs that devices had in hand are submitted again.
    pub reprint: bool,
    /// The version of the server.
    pub version: &'a str,
}

/// The files of the journal of a server that has started.
#[derive(Drop)]
pub struct SpoolFiles<'a> {
    writer: JournalWriter<'a>,
    /// The lines of the journal, without the first lines of its files.
    pub stored: StoredLines,
}

/// The place in a journal after which another file goes on.
#[derive(Clone, Copy)]
pub(crate) struct JournalPlace {
    /// The number of the base, and its beginning in ms since the beginning of 1970.
    pub(crate) base: u32,
    pub(crate) begun: u64,
    /// The number of the last file, and its end.
    pub(crate) last: u32,
    pub(crate) ending: FileEnd,
}

/// Cuts off what follows the last turn of the last file.
pub(crate) fn cut(directory: Directory<'_>, place: JournalPlace) -> io::Result<()> {
    if place.ending.is_torn() {
        directory.cut(place.last, place.ending.whole)?;
    }
    Ok(())
}

impl<'a> SpoolFiles<'a> {
    /// The files with this last file.
    fn over(
        opened: SpoolDirectory<'a>,
        options: SpoolOptions<'a>,
        started: u64,
        base: u32,
        begun: u64,
        tail: Tail,
        stored: StoredLines,
    ) -> SpoolFiles<'a>
        ensures { result.stored ≡ stored }
    {
        let writer = JournalWriter {
            opened,
            options,
            started,
            base,
            begun,
            tail,
            torn: false,
            failing: false,
            watch: WatchedFile::new(),
        };
        SpoolFiles { writer, stored }
    }

    /// The files of a journal that begins with a base. All other files of the directory are let go.
    pub(crate) fn begin(
        opened: SpoolDirectory<'a>,
        listing: &Listing,
        base: DraftFile<'_>,
        options: SpoolOptions<'a>,
    ) -> Result<SpoolFiles<'a>, SpoolFault>
        ensures { IfOk result (λ files. files.stored.lines ≡ base.entry.stored.lines) }
    {
        let directory = opened.directory;
        let began = base.began();
        let (published, stored) = base.publish();
        match published {
            Ok(tail) => {
                let number = tail.number;
                directory.clear(listing, number, options.keep);
                Ok(SpoolFiles::over(opened, options, began, number, began, tail, stored))
            }
            Err(error) => Err(directory.refused("write to", directory.path, error)),
        }
    }

    /// The files of a journal that goes on after a place. Files before its base are let go.
    pub(crate) fn go_on(
        opened: SpoolDirectory<'a>,
        listing: &Listing,
        place: JournalPlace,
        next: DraftFile<'_>,
        options: SpoolOptions<'a>,
    ) -> Result<SpoolFiles<'a>, SpoolFault>
        ensures { IfOk result (λ files. files.stored.lines ≡ next.entry.stored.lines) }
    {
        let directory = opened.directory;
        let started = next.began();
        let (published, stored) = next.publish();
        match published {
            Ok(tail) => {
                directory.clear(listing, place.base, options.keep);
                Ok(SpoolFiles::over(
                    opened,
                    options,
                    started,
                    place.base,
                    place.begun,
                    tail,
                    stored,
                ))
            }
            Err(error) => Err(directory.refused("write to", directory.path, error)),
        }
    }

    /// The last moment in ms since the beginning of 1970 at which a base was begun.
    pub fn begun(&self) -> u64 {
        self.writer.begun
    }

    /// The age of the base in ms, by the system's clock; 0 where the clock was set back.
    pub fn age(&self) -> io::Result<u64> {
        let time = now(self.writer.opened.directory.rt)?;
        Ok(millis_of(time).saturating_sub(self.writer.begun))
    }

    /// Begins the journal anew with a base of these settings, whose first job gets the id `first`. The engine, which is
    /// to have taken no turn, pauses the printers that are paused in the engine before. The files before the base are
    /// let go. An error leaves the journal as it was.
    pub fn begin_anew(
        &mut self,
        settings_text: &[u8],
        first: JobId,
        before: &JournaledEngine,
        engine: &mut JournaledEngine,
    ) -> Result<(), SpoolFault>
        ensures anew { OnOk result (KeepsPlayed [] engine.old self.new.stored.lines engine.new) }
        ensures kept { OnErr result (self.new.stored.lines ≡ self.old.stored.lines) }
    {
        let directory = self.writer.opened.directory;
        let Ok(paused) = paused_printers(directory.alloc(), before) else {
            return Err(SpoolFault::OutOfMemory);
        };
        let begun = DraftFile::base(
            directory,
            self.writer.tail.number,
            settings_text,
            first,
            self.writer.options.version,
        );
        let mut base = match begun {
            Ok(base) => base,
            Err(error) => return Err(directory.refused("write to", directory.path, error)),
        };
        if let Err(fault) = directory.pause(&paused, engine, &mut base) {
            return Err(base.abandon(fault));
        }
        let began = base.began();
        let (published, stored) = base.publish();
        match published {
            Ok(tail) => {
                self.writer.begin_anew(tail, began);
                self.stored = stored;
                Ok(())
            }
            Err(error) => Err(directory.refused("write to", directory.path, error)),
        }
    }
}

impl Storage for SpoolFiles<'_> {
    ghost stored = { λ files. files.stored.lines };

    fn append(&mut self, lines: &[u8]) -> bool {
        if !self.writer.append(lines) {
            return false;
        }
        self.stored.append(lines);
        true
    }
}
