//! The syntaxes of attribute values.
ghost use Rattle.std.specs.Prelude.{◌≡◌};
ghost use Rattle.ipp_operations.specs.Syntax.{has_tag};

use ipp_codec::ValueTag;

/// The syntax of an attribute's values (RFC 8011, section 5.1).
#[derive(Clone, Copy)]
pub(crate) enum Syntax {
    Integer,
    Boolean,
    /// A name, with or without a language.
    Name,
    Keyword,
    /// A keyword, or a name without a language.
    KeywordOrName,
    Uri,
    MimeMediaType,
}

impl Syntax {
    /// Returns whether a tag is of the syntax.
    pub fn has_tag(self, tag: ValueTag) -> bool
        ensures { result ≡ has_tag self tag }
    {
        match self {
            Syntax::Integer => tag == ValueTag::INTEGER,
            Syntax::Boolean => tag == ValueTag::BOOLEAN,
            Syntax::Name => tag == ValueTag::NAME || tag == ValueTag::NAME_WITH_LANGUAGE,
            Syntax::Keyword => tag == ValueTag::KEYWORD,
            Syntax::KeywordOrName => tag == ValueTag::KEYWORD || tag == ValueTag::NAME,
            Syntax::Uri => tag == ValueTag::URI,
            Syntax::MimeMediaType => tag == ValueTag::MIME_MEDIA_TYPE,
        }
    }
}
