//! HTML, written.
use quotes::Escaped;
use std::alloc::{AllocError, Global};
use std::fmt;

/// A document that is being written. Once memory was refused nothing more is appended.
///
/// Each function appends to the document and returns it, so that calls can be chained.
#[derive(Drop)]
pub(crate) struct Html {
    alloc: Global,
    written: String,
    is_refused: bool,
}

/// The escape of a character in texts and attributes, if it needs one there.
fn reference_to(letter: char) -> Option<&'static str> {
    match letter {
        '&' => Some("&amp;"),
        '<' => Some("&lt;"),
        '>' => Some("&gt;"),
        '"' => Some("&quot;"),
        '\'' => Some("&#39;"),
        _ => None,
    }
}

impl Html {
    /// Creates an empty document.
    pub(crate) fn new(alloc: Global) -> Html {
        Html {
            alloc,
            written: String::new(alloc),
            is_refused: false,
        }
    }

    /// Appends markup of these sources.
    pub(crate) fn markup(self, markup: &'static str) -> Html {
        self.push(markup)
    }

    /// Appends a value as text.
    pub(crate) fn text<T: fmt::Display + Drop>(self, value: T) -> Html {
        let alloc = self.alloc;
        match format!(in alloc; "{value}") {
            Ok(text) => self.escaped(&text),
            Err(_) => self.refused(),
        }
    }

    /// Appends bytes of people as text, with what doesn't print escaped as in a literal.
    pub(crate) fn bytes(self, bytes: &[u8]) -> Html {
        self.text(Escaped(bytes))
    }

    /// Appends an attribute with a value.
    pub(crate) fn attribute<T: fmt::Display + Drop>(self, name: &'static str, value: T) -> Html {
        self.push(" ").push(name).push("=\"").text(value).push("\"")
    }

    /// Returns the document. The only error is out of memory, also at an earlier append.
    pub(crate) fn finish(self) -> Result<String, AllocError> {
        if self.is_refused {
            Err(AllocError)
        } else {
            Ok(self.written)
        }
    }

    /// Appends a text with each character escaped that means something in HTML.
    fn escaped(self, text: &str) -> Html {
        let mut html = self;
        for letter in text.chars() {
            html = match reference_to(letter) {
                Some(reference) => html.push(reference),
                None => html.letter(letter),
            };
        }
        html
    }

    /// Appends a character.
    fn letter(self, letter: char) -> Html {
        let mut html = self;
        html.is_refused = html.is_refused || html.written.push(letter).is_err();
        html
    }

    /// Appends a text as it is.
    fn push(self, text: &str) -> Html {
        let mut html = self;
        html.is_refused = html.is_refused || html.written.push_str(text).is_err();
        html
    }

    /// Marks the document as refused.
    pub(crate) fn refused(self) -> Html {
        let mut html = self;
        html.is_refused = true;
        html
    }
}
