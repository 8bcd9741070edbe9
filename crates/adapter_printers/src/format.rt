//! The format of a document, by its first bytes or as given.

/// The format of a document.
#[derive(Clone, Copy)]
pub enum Format {
    Pdf,
    PostScript,
    /// PCL, or PJL with any language in it.
    Pcl,
    PwgRaster,
    AppleRaster,
    Jpeg,
    Png,
    Text,
    /// Any other format.
    Octets,
}

/// The first bytes of documents, with their formats.
const PREFIXES: [(&[u8], Format); 12] = [
    (b"%PDF-", Format::Pdf),
    (b"%!", Format::PostScript),
    (b"\x1b%-12345X", Format::Pcl),
    (b"\x1bE", Format::Pcl),
    (b"\x1b&", Format::Pcl),
    (b"\x1b*", Format::Pcl),
    (b"\x1b(", Format::Pcl),
    (b"\x1b)", Format::Pcl),
    (b"RaS2", Format::PwgRaster),
    (b"UNIRAST", Format::AppleRaster),
    (b"\xff\xd8\xff", Format::Jpeg),
    (b"\x89PNG", Format::Png),
];

/// All formats.
const ALL: [Format; 9] = [
    Format::Pdf,
    Format::PostScript,
    Format::Pcl,
    Format::PwgRaster,
    Format::AppleRaster,
    Format::Jpeg,
    Format::Png,
    Format::Text,
    Format::Octets,
];

/// The number of bytes that are examined to decide whether a document is text.
const LOOKED_AT: usize = 512;

impl Format {
    /// The format of a document with these first bytes.
    pub fn sniffed(bytes: &[u8]) -> Format {
        for &(prefix, format) in &PREFIXES {
            if bytes.starts_with(prefix) {
                return format;
            }
        }
        let prefix = &bytes[..bytes.len().min(LOOKED_AT)];
        if !prefix.is_empty() && prefix.iter().all(|byte| is_text(*byte)) {
            Format::Text
        } else {
            Format::Octets
        }
    }

    /// The format of a media type, without regard to the case of letters; any unknown one is `Octets`.
    fn named(media_type: &str) -> Format {
        for &format in &ALL {
            if format.media_type().eq_ignore_ascii_case(media_type) {
                return format;
            }
        }
        Format::Octets
    }

    /// The media type of the format.
    pub fn media_type(self) -> &'static str {
        match self {
            Format::Pdf => "application/pdf",
            Format::PostScript => "application/postscript",
            Format::Pcl => "application/vnd.hp-PCL",
            Format::PwgRaster => "image/pwg-raster",
            Format::AppleRaster => "image/urf",
            Format::Jpeg => "image/jpeg",
            Format::Png => "image/png",
            Format::Text => "text/plain",
            Format::Octets => "application/octet-stream",
        }
    }

    /// The ending of files of the format.
    pub fn ending(self) -> &'static str {
        match self {
            Format::Pdf => "pdf",
            Format::PostScript => "ps",
            Format::Pcl => "pcl",
            Format::PwgRaster => "pwg",
            Format::AppleRaster => "urf",
            Format::Jpeg => "jpg",
            Format::Png => "png",
            Format::Text => "txt",
            Format::Octets => "bin",
        }
    }
}

/// The media type of all documents, as given.
#[derive(Drop)]
pub struct MediaType {
    pub name: String,
}

impl MediaType {
    /// The ending of files of the media type.
    pub(crate) fn ending(&self) -> &'static str {
        Format::named(self.name.as_str()).ending()
    }
}

/// Returns whether a byte may be in a text.
fn is_text(byte: u8) -> bool {
    matches!(byte, 9 | 10 | 12 | 13 | 32..=126 | 128..=255)
}
