//! A text under way.

use std::alloc::{AllocError, Global};
use std::fmt;

/// A text under way, which remembers that memory was refused: nothing is appended from then on.
///
/// Each function that appends to a page takes the page and returns it: calls may be chained.
#[derive(Drop)]
pub struct Page {
    text: String,
    is_refused: bool,
}

impl Page {
    /// A page without any text.
    pub fn new(alloc: Global) -> Page {
        Page {
            text: String::new(alloc),
            is_refused: false,
        }
    }

    /// Marks the page as refused: nothing more is appended.
    pub fn refused(self) -> Page {
        let mut page = self;
        page.is_refused = true;
        page
    }

    /// Appends a text.
    pub fn put(self, text: &str) -> Page {
        let mut page = self;
        page.is_refused = page.is_refused || page.text.push_str(text).is_err();
        page
    }

    /// Appends a letter.
    pub fn put_letter(self, letter: char) -> Page {
        let mut page = self;
        page.is_refused = page.is_refused || page.text.push(letter).is_err();
        page
    }

    /// Appends a value as its `Display` writes it.
    pub fn put_shown<T: fmt::Display + Drop>(self, value: T) -> Page {
        let mut page = self;
        page.is_refused = page.is_refused || write!(page.text, "{value}").is_err();
        page
    }

    /// Appends a text, and after it a number.
    pub(crate) fn put_number(self, before: &str, number: u64) -> Page {
        self.put(before).put_shown(number)
    }

    /// Appends a text, and after it a length to this many decimal places.
    fn put_rounded(self, before: &str, length: f64, places: usize) -> Page {
        let mut page = self.put(before);
        page.is_refused = page.is_refused || write!(page.text, "{length:.places$}").is_err();
        page
    }

    /// Appends a text, and after it a length to a tenth.
    pub(crate) fn put_length(self, before: &str, length: f64) -> Page {
        self.put_rounded(before, length, 1)
    }

    /// Appends a text, and after it a length without decimal places.
    pub(crate) fn put_whole_length(self, before: &str, length: f64) -> Page {
        self.put_rounded(before, length, 0)
    }

    /// Returns the text. The only error is out of memory, also at an earlier append.
    pub fn finish(self) -> Result<String, AllocError> {
        if self.is_refused {
            Err(AllocError)
        } else {
            Ok(self.text)
        }
    }
}
