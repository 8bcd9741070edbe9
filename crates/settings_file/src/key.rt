//! The keys of the settings.
ghost use Rattle.std.specs.Prelude.{◌≡◌};
ghost use Rattle.settings_file.specs.Fault.{key_name};

/// A key of the settings.
#[derive(Clone, Copy, Debug, PartialEq, Eq)]
pub enum Key {
    Version,
    UriBase,
    Operators,
    Device,
    Printer,
    Name,
    RateOne,
    RateTwo,
    Setup,
    Media,
    Formats,
    Finishings,
    Devices,
    MediaDefault,
    FormatDefault,
}

impl Key {
    /// The key as a text writes it.
    pub fn name(self) -> &'static str
        ensures { result.now ≡ key_name self }
    {
        match self {
            Key::Version => "version",
            Key::UriBase => "uri_base",
            Key::Operators => "operators",
            Key::Device => "device",
            Key::Printer => "printer",
            Key::Name => "name",
            Key::RateOne => "rate_one",
            Key::RateTwo => "rate_two",
            Key::Setup => "setup",
            Key::Media => "media",
            Key::Formats => "formats",
            Key::Finishings => "finishings",
            Key::Devices => "devices",
            Key::MediaDefault => "media_default",
            Key::FormatDefault => "format_default",
        }
    }
}
