//! The playing of a journal's files.
ghost use Rattle.std.specs.Prelude.{IfOk, OnOk};
ghost use Rattle.settings_file.specs.Settings.{MeetsLimits};
ghost use Rattle.spool_directory.specs.Starting.{IsPlaying, GoesOn};

use crate::directory::Directory;
use crate::fault::SpoolFault;
use crate::head::{BaseHead, length_of, read_base};
use crate::trouble::{ReadTrouble, bad_line, play_trouble};
use journal::Resumption;
use recordings::LineReader;
use settings_file::{SettingsFault, explain, read_settings_bytes};
use std::alloc::{AllocError, Global};
use std::fs::File;
use std::io;

/// The end of a file that was played.
#[derive(Clone, Copy)]
pub(crate) struct FileEnd {
    /// The number of bytes up to the end of the last turn.
    pub(crate) whole: u64,
    /// The number of bytes of the file.
    pub(crate) length: u64,
}

/// Files of a journal that were played.
#[derive(Drop)]
pub(crate) struct PlayedFiles {
    pub(crate) resumption: Resumption,
    pub(crate) head: BaseHead,
    /// The numbers of the base and of the last file.
    pub(crate) base: u32,
    pub(crate) last: u32,
    /// The end of the last file.
    pub(crate) ending: FileEnd,
}

impl FileEnd {
    /// Returns whether bytes follow the last turn.
    pub(crate) fn is_torn(self) -> bool {
        self.whole < self.length
    }
}

/// The fault of the settings of a file.
fn settings_trouble(alloc: Global, path: &str, text: &[u8], fault: &SettingsFault) -> ReadTrouble {
    if matches!(fault, SettingsFault::OutOfMemory) {
        return ReadTrouble::from(AllocError);
    }
    match explain(alloc, path, text) {
        Ok(Some(sentence)) => ReadTrouble::Settings(sentence),
        _ => ReadTrouble::from(AllocError),
    }
}

/// An engine that has taken no turn of a base.
fn resume(alloc: Global, path: &str, head: &BaseHead) -> Result<Resumption, ReadTrouble>
    ensures { IfOk result IsPlaying }
{
    match read_settings_bytes(alloc, &head.settings) {
        Ok(settings) => Ok(Resumption::new(alloc, settings, head.first)?),
        Err(fault) => Err(settings_trouble(alloc, path, &head.settings, &fault)),
    }
}

/// Returns whether a line of a turn's end follows a line feed.
fn holds_turn(bytes: &[u8]) -> bool {
    let turn = b"\nturn ".as_slice();
    bytes.windows(turn.len()).any(|part| part == turn)
}

/// Plays the turns after the first lines of a file, which have `start` bytes. Returns the number of bytes up to the
/// end of the last turn. Octets that are fewer than their line states are refused where they hold a turn's end: a
/// number was changed then, and not the last write cut short.
pub(crate) fn play_turns(
    alloc: Global,
    lines: &mut LineReader<'_, File>,
    version: &[u8],
    start: u64,
    resumption: &mut Resumption,
) -> Result<u64, ReadTrouble>
    ensures { OnOk result (GoesOn resumption.old resumption.new) }
{
    let mut line = Vec::new(alloc);
    let (mut passed, mut whole) = (start, start);
    for _ in 0..u64::MAX {
        let number = lines.passed().saturating_add(1);
        if !lines.read_whole(&mut line)? {
            return if holds_turn(&line) {
                Err(bad_line(number))
            } else {
                Ok(whole)
            };
        }
        if let Err(fault) = resumption.play(number, &line) {
            return Err(play_trouble(alloc, number, version, &fault));
        }
        passed = passed.saturating_add(length_of(&line));
        if line.starts_with(b"turn ") {
            whole = passed;
        }
    }
    Ok(whole)
}

/// The number of bytes of a file.
pub(crate) fn length_of_file(file: &File) -> io::Result<u64> {
    Ok(file.metadata()?.len())
}

/// Plays the turns of a base after its first lines. Gives the number of bytes, too, up to the end of the last turn.
fn play_from(
    alloc: Global,
    path: &str,
    head: &BaseHead,
    lines: &mut LineReader<'_, File>,
) -> Result<(Resumption, u64), ReadTrouble>
    ensures { IfOk result (λ played. IsPlaying played.0) }
{
    let mut resumption = match resume(alloc, path, head) {
        Ok(resumption) => resumption,
        Err(trouble) => return Err(trouble),
    };
    match play_turns(alloc, lines, &head.version, head.length, &mut resumption) {
        Ok(whole) => Ok((resumption, whole)),
        Err(trouble) => Err(trouble),
    }
}

/// Plays the base with a number.
fn play_base(
    alloc: Global,
    path: &str,
    number: u32,
    file: &mut File,
) -> Result<PlayedFiles, ReadTrouble>
    ensures { IfOk result (λ played. IsPlaying played.resumption) }
{
    let length = length_of_file(file)?;
    let mut lines = LineReader::new(alloc, file)?;
    let head = read_base(alloc, &mut lines)?;
    match play_from(alloc, path, &head, &mut lines) {
        Ok((resumption, whole)) => Ok(PlayedFiles {
            resumption,
            head,
            base: number,
            last: number,
            ending: FileEnd { whole, length },
        }),
        Err(trouble) => Err(trouble),
    }
}

impl Directory<'_> {
    /// Plays the base with a number.
    pub(crate) fn play_base(&self, number: u32) -> Result<PlayedFiles, SpoolFault>
        ensures { IfOk result (λ played. IsPlaying played.resumption) }
    {
        let directory = *self;
        let Ok(path) = directory.trace_path(number) else {
            return Err(SpoolFault::OutOfMemory);
        };
        let mut file = directory.open_trace(number)?;
        match play_base(directory.alloc(), &path, number, &mut file) {
            Ok(played) => Ok(played),
            Err(trouble) => Err(directory.fault(number, trouble)),
        }
    }
}
