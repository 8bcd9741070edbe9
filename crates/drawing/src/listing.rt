//! The jobs of each lane in words, for a terminal, and the meanings of the fillings.

use crate::chart::{Bar, Chart, Ending, Lane, Mark};
use crate::ending::{SHOWN, edge_of, words_of};
use crate::length::{ShortTime, digits_of};
use crate::page::Page;
use crate::row::filling_of;
use crate::terminal::{WIDTH, put_name};
use std::fmt;

/// A line under way: its page, its end, and the indentation of its continuation.
#[derive(Drop)]
struct ListingLine {
    page: Page,
    end: usize,
    indent: usize,
}

impl ListingLine {
    /// Starts a line with a name filled up to this number of columns.
    fn new(page: Page, name: &[u8], columns: usize) -> ListingLine {
        ListingLine {
            page: put_name(page, name, columns),
            end: columns,
            indent: columns,
        }
    }

    /// Makes room for this number of columns: starts a new line where the line has no room.
    fn with_room(self, columns: usize) -> ListingLine {
        if self.end.saturating_add(columns) <= WIDTH {
            return self;
        }
        ListingLine::new(self.page.put_letter('\n'), b"", self.indent)
    }

    /// Appends the two spaces before an entry of this number of letters, in a new line where the line
    /// has no room for the entry. The caller appends the letters next.
    fn begin_entry(self, letters: usize) -> ListingLine {
        let columns = letters.saturating_add(2);
        let line = self.with_room(columns);
        ListingLine {
            page: line.page.put("  "),
            end: line.end.saturating_add(columns),
            indent: line.indent,
        }
    }

    /// Appends a text of the entry under way.
    fn put(self, text: &str) -> ListingLine {
        ListingLine {
            page: self.page.put(text),
            end: self.end,
            indent: self.indent,
        }
    }

    /// Appends a value of the entry under way.
    fn put_shown<T: fmt::Display + Drop>(self, value: T) -> ListingLine {
        ListingLine {
            page: self.page.put_shown(value),
            end: self.end,
            indent: self.indent,
        }
    }

    /// Appends an entry where `is_wanted` is set.
    fn put_entry_if(self, is_wanted: bool, entry: &str) -> ListingLine {
        if is_wanted {
            return self.begin_entry(entry.len()).put(entry);
        }
        self
    }

    /// Ends the line, and returns the page.
    fn ended(self) -> Page {
        self.page.put_letter('\n')
    }
}

/// The number of letters of the entry of a job.
fn letters_of(number: u32, time: ShortTime, words: &str) -> usize {
    let letters = digits_of(u64::from(number))
        .saturating_add(1)
        .saturating_add(time.letters());
    if words.is_empty() {
        return letters;
    }
    letters.saturating_add(1).saturating_add(words.len())
}

/// Appends the number of a job, a time in ms and, after a space, the words, if there are any.
fn put_entry(line: ListingLine, number: u32, millis: u64, words: &str) -> ListingLine {
    let time = ShortTime(millis);
    let line = line
        .begin_entry(letters_of(number, time, words))
        .put_shown(number)
        .put(" ")
        .put_shown(time);
    if words.is_empty() {
        return line;
    }
    line.put(" ").put(words)
}

/// Appends the entry of a bar: a job with its length and ending, or an arrival with its moment.
fn put_job(line: ListingLine, bar: &Bar) -> ListingLine {
    match bar.mark {
        Mark::Wait => line,
        Mark::Job(job) => put_entry(line, job.number, bar.length(), words_of(job.ending)),
        Mark::Came(number) => put_entry(line, number, bar.start, ""),
    }
}

/// Appends the jobs of a lane, from the first to the last.
pub(crate) fn put_jobs(page: Page, lane: &Lane, indent: usize) -> Page {
    let mut line = ListingLine::new(page, lane.name.as_bytes(), indent);
    for bar in &lane.bars {
        line = put_job(line, bar);
    }
    line.put_entry_if(lane.jobs() == 0, "no job").ended()
}

/// Appends the number of jobs of a lane.
pub(crate) fn put_count(page: Page, lane: &Lane, indent: usize) -> Page {
    let jobs = lane.jobs();
    let line = ListingLine::new(page, lane.name.as_bytes(), indent)
        .put("  ")
        .put_shown(jobs);
    line.put(if jobs == 1 { " job" } else { " jobs" }).ended()
}

/// Appends the filling of the class at a place, and its meaning.
fn put_class(line: ListingLine, place: usize, priority: u8) -> ListingLine {
    let letters = digits_of(u64::from(priority)).saturating_add("# priority ".len());
    line.begin_entry(letters)
        .put_shown(char::from(filling_of(place)))
        .put(" priority ")
        .put_shown(priority)
}

/// Appends the fillings of the classes and their meanings.
fn put_classes(line: ListingLine, classes: &[u8]) -> ListingLine {
    let mut line = line;
    for (place, priority) in classes.iter().enumerate() {
        line = put_class(line, place, *priority);
    }
    line
}

/// Appends the end of a bar that shows an ending, and its meaning.
fn put_ending(line: ListingLine, ending: Ending) -> ListingLine {
    let words = words_of(ending);
    line.begin_entry(words.len().saturating_add(2))
        .put_shown(char::from(edge_of(ending)))
        .put(" ")
        .put(words)
}

/// Appends the ends of bars that the chart has, and their meanings.
fn put_endings(line: ListingLine, chart: &Chart) -> ListingLine {
    let mut line = line;
    for &ending in &SHOWN {
        if chart.has_ending(ending) {
            line = put_ending(line, ending);
        }
    }
    line
}

/// Appends the meaning of the digits of waiting jobs, if there are any.
fn put_most_waiting(line: ListingLine, most: u64) -> ListingLine {
    if most == 0 {
        return line;
    }
    let letters = digits_of(most).saturating_add("waiting 1-9: 9 is ".len());
    line.begin_entry(letters)
        .put("waiting 1-9: 9 is ")
        .put_shown(most)
}

/// Appends the characters of a chart and their meanings, where at most this many jobs wait.
pub(crate) fn put_fillings(page: Page, chart: &Chart, most: u64, indent: usize) -> Page {
    let line = put_classes(ListingLine::new(page, b"", indent), &chart.classes);
    put_most_waiting(put_endings(line, chart), most)
        .put_entry_if(chart.has_arrivals(), "1-9 jobs came, + more")
        .put_entry_if(chart.waits(), "/ not free")
        .ended()
}
