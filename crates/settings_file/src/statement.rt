//! The statements of a text of TOML: headers of tables, and entries with the text of the value.
use std::alloc::Global;
use toml_parser::text::{first, skip_blank, skip_ws};
use toml_parser::{dotted_key, quoted, starts_string};

/// The content of a statement.
#[derive(Drop)]
pub(crate) enum Content<'a> {
    /// The header of the table of a name; `None` if the name has dots.
    Header(Option<String>),
    /// A key (`None` if it has dots), and its value as the text writes it.
    Entry { key: Option<String>, value: &'a str },
}

/// A statement, and its line, counted from 1.
#[derive(Drop)]
pub(crate) struct Statement<'a> {
    pub(crate) line: usize,
    pub(crate) content: Content<'a>,
}

/// A text, with the rest that isn't read.
#[derive(Drop)]
pub(crate) struct Statements<'a> {
    alloc: Global,
    text: &'a str,
    rest: &'a str,
}

impl<'a> Statements<'a> {
    /// Creates the iterator over the statements of a text.
    pub(crate) fn of(alloc: Global, text: &'a str) -> Statements<'a> {
        Statements {
            alloc,
            text,
            rest: text,
        }
    }

    /// Returns the next statement. `None` at the end, if memory is refused, or if the text can't be read
    /// further.
    pub(crate) fn next(&mut self) -> Option<Statement<'a>> {
        let start = skip_blank(self.rest, true);
        let line = line_at(self.text, start);
        let (content, rest) = match start.strip_prefix("[") {
            Some(inner) => header(self.alloc, inner)?,
            None => entry(self.alloc, start)?,
        };
        self.rest = rest;
        Some(Statement { line, content })
    }
}

/// The line, counted from 1, at which this rest of a text begins.
fn line_at(text: &str, rest: &str) -> usize {
    let count = text.len().saturating_sub(rest.len());
    let prefix = text.as_bytes().get(..count).unwrap_or(&[]);
    1 + prefix.iter().filter(|byte| **byte == b'\n').count()
}

/// The key, if it has no dots.
fn simple_key(key: toml_parser::Key) -> Option<String> {
    if key.path.is_empty() {
        Some(key.last)
    } else {
        None
    }
}

/// Reads a header after its first bracket. Returns it and the rest after it.
fn header<'a>(alloc: Global, inner: &'a str) -> Option<(Content<'a>, &'a str)> {
    let inner = inner.strip_prefix("[").unwrap_or(inner);
    let (key, after) = dotted_key(alloc, skip_ws(inner)).ok()?;
    let after = after.strip_prefix("]")?;
    let after = after.strip_prefix("]").unwrap_or(after);
    Some((Content::Header(simple_key(key)), after))
}

/// Reads an entry. Returns it and the rest after it.
fn entry<'a>(alloc: Global, start: &'a str) -> Option<(Content<'a>, &'a str)> {
    let (key, after) = dotted_key(alloc, start).ok()?;
    let value = skip_ws(after.strip_prefix("=")?);
    let rest = after_value(alloc, value)?;
    let count = value.len().saturating_sub(rest.len());
    let value = value.get(..count)?;
    Some((
        Content::Entry {
            key: simple_key(key),
            value,
        },
        rest,
    ))
}

/// The rest after a value: a list or a table as a whole, a string, or a word.
fn after_value<'a>(alloc: Global, value: &'a str) -> Option<&'a str> {
    let mut rest = value;
    let mut depth = 0;
    for _segment in 0..value.len() {
        rest = after_segment(alloc, rest, &mut depth)?;
        if depth == 0 {
            return Some(rest);
        }
        rest = skip_blank(rest, true);
    }
    None
}

/// The rest after a bracket, a separator, a string or a word. `depth` is the number of open brackets, before
/// and after it.
fn after_segment<'a>(alloc: Global, rest: &'a str, depth: &mut usize) -> Option<&'a str> {
    if starts_string(rest) {
        return Some(quoted(alloc, rest).ok()?.1);
    }
    match first(rest) {
        b'[' | b'{' => *depth = depth.checked_add(1)?,
        b']' | b'}' => *depth = depth.checked_sub(1)?,
        b',' | b'=' => {}
        _ => return after_word(rest),
    }
    rest.get(1..)
}

/// The rest after a word, which ends at a separator, a bracket, a blank or a comment.
fn after_word(rest: &str) -> Option<&str> {
    let count = rest
        .bytes()
        .position(|byte| b",=[]{}# \t\r\n".contains(&byte))
        .unwrap_or(rest.len());
    rest.get(count..)
}
