//! Elements of SVG, written part by part.

use crate::page::Page;

/// A drawing under way: its elements, and the lower end of the lowest element.
#[derive(Drop)]
pub(crate) struct SvgDrawing {
    pub(crate) page: Page,
    pub(crate) bottom: f64,
}

impl Page {
    /// Appends a byte of a text as SVG reads it: letters of ASCII as they are, each other byte as `?`.
    fn put_escaped_byte(self, byte: u8) -> Page {
        match byte {
            b'&' => self.put("&amp;"),
            b'<' => self.put("&lt;"),
            b'>' => self.put("&gt;"),
            b' '..=b'~' => self.put_letter(char::from(byte)),
            _ => self.put_letter('?'),
        }
    }

    /// Appends a text as SVG reads it.
    fn put_escaped(self, text: &[u8]) -> Page {
        let mut page = self;
        for byte in text {
            page = page.put_escaped_byte(*byte);
        }
        page
    }

    /// Appends the begin of a path that starts at this place.
    pub(crate) fn begin_path(self, x: f64, y: f64) -> Page {
        self.put_length("<path d=\"M", x).put_length(" ", y)
    }

    /// Appends the begin of a text at this place, up to its other attributes.
    pub(crate) fn place_text(self, x: f64, y: f64) -> Page {
        self.put_length("<text x=\"", x)
            .put_length("\" y=\"", y)
            .put("\"")
    }

    /// Appends the begin of a text at this place, with further attributes.
    pub(crate) fn begin_text(self, x: f64, y: f64, attributes: &str) -> Page {
        self.place_text(x, y).put(attributes).put(">")
    }

    /// Appends the end of a text.
    pub(crate) fn end_text(self) -> Page {
        self.put("</text>\n")
    }

    /// Appends a text at this place, with further attributes.
    pub(crate) fn put_text(self, x: f64, y: f64, attributes: &str, text: &[u8]) -> Page {
        self.begin_text(x, y, attributes)
            .put_escaped(text)
            .end_text()
    }
}
