//! The writer of a log, which doesn't make the server wait for a pipe that is full.
ghost use Rattle.std.specs.Prelude.{◌≤◌, length};

use std::alloc::Global;
use std::cmp::min;
use std::io::Write;

/// The number of bytes in one write: as many as a pipe takes in one segment.
const SEGMENT: usize = 4_096;

/// A writer of the lines of a log. Lines that the output doesn't take at once are dropped. Once there is
/// room, a line with the number of dropped lines is written. The output has to return an error for a write
/// that would wait.
#[derive(Drop)]
pub struct LogWriter<'a, W: Write> {
    alloc: Global,
    output: &'a mut W,
    /// The number of dropped lines that wasn't written yet.
    lost: u64,
    /// Whether the last line was cut: its end is missing.
    cut: bool,
}

/// The length of the longest prefix of whole lines that one write has; of the first line, if that is longer.
fn prefix(text: &[u8]) -> usize
    ensures { result ≤ length text.now }
{
    let most = min(text.len(), SEGMENT);
    let place = text[..most].iter().rposition(|byte| *byte == b'\n');
    let Some(last) = place else {
        return match text.iter().position(|byte| *byte == b'\n') {
            Some(first) => min(text.len(), first.saturating_add(1)),
            None => text.len(),
        };
    };
    min(most, last.saturating_add(1))
}

/// The number of lines.
fn lines_in(text: &[u8]) -> u64 {
    text.iter().filter(|byte| **byte == b'\n').count() as u64
}

impl<'a, W: Write> LogWriter<'a, W> {
    /// Creates the writer of an output.
    pub fn new(alloc: Global, output: &'a mut W) -> LogWriter<'a, W> {
        LogWriter {
            alloc,
            output,
            lost: 0,
            cut: false,
        }
    }

    /// Writes lines, each with its line feed.
    pub fn put(&mut self, text: &[u8]) {
        let mut rest = text;
        for _ in 0..text.len() {
            if rest.is_empty() {
                return;
            }
            let (lines, others) = rest.split_at(prefix(rest));
            rest = others;
            if !self.writes_lost() || !self.writes(lines) {
                self.lost = self.lost.saturating_add(lines_in(lines));
            }
        }
    }

    /// Ends a line that was cut, and writes the number of dropped lines. Returns whether that was written, or
    /// wasn't needed.
    fn writes_lost(&mut self) -> bool {
        if self.lost == 0 {
            return true;
        }
        let lost = self.lost;
        let end = if self.cut { "\n" } else { "" };
        let Ok(line) = format!(in self.alloc; "{end}{lost} lines of the log lost\n") else {
            return false;
        };
        let written = self.output.write(line.as_bytes()).is_ok();
        if written {
            self.lost = 0;
            self.cut = false;
        }
        written
    }

    /// Writes bytes in segments. Returns whether all of them were taken.
    fn writes(&mut self, lines: &[u8]) -> bool {
        let mut begun = false;
        for segment in lines.chunks(SEGMENT) {
            match self.output.write(segment) {
                Ok(count) if count == segment.len() => begun = true,
                Ok(_) => {
                    self.cut = true;
                    return false;
                }
                Err(_) => {
                    self.cut = begun;
                    return false;
                }
            }
        }
        true
    }
}
