//! The offer of a printer (RFC 8011, sections 5.2 and 5.4): its devices' formats, media, sides and
//! finishings, and its defaults. A request's values are looked up in the lists that are shown as supported.
ghost use Rattle.std.specs.Prelude.{◌≡◌, ◌==◌, ◌&&◌, find, map, IfOk, IsSome, OnOk, Contains};
ghost use Rattle.std.specs.Option.{option_copied};
ghost use Rattle.std.specs.List.{slice_get};
ghost use Rattle.std.specs.Str.{bytes_eq};
ghost use Rattle.base_types.specs.Sides.{sides_keyword};
ghost use Rattle.printer_objects.specs.DocumentFormat.{is_same_format};
ghost use Rattle.printer_objects.specs.Together.{with_entries, distinct};
ghost use Rattle.printer_objects.specs.Offer.{listed_at, listed_of, formats_of, media_of, ready_media_of, is_two_sided, prints_two_sided, sides_of, finishes_so, offers_finishing, finishings_of, format_named, medium_named, sides_named, finishing_named};
ghost use Rattle.printer_objects.specs.Finishing.{finishing_code};

use crate::document_format::is_same_format;
use crate::finishing::Finishing;
use crate::together::{Listed, add_listed, add_once};
use base_types::{DeviceId, DeviceNow, Medium, Sides, Text};
use settings_file::PrinterSettings;
use std::alloc::{AllocError, Global};
use std::marker::Model;

/// A printer and its devices now.
#[derive(Drop)]
struct Fleet<'a> {
    /// All devices, in the order of the settings.
    devices: &'a [DeviceNow],
    printer: &'a PrinterSettings,
}

impl<'a> Model for Fleet<'a> {
    ghost use Rattle.printer_objects.specs.Offer.{OfferRecord};

    ghost Value = { OfferRecord };

    ghost view = { λ o. record { devices = o.devices.now; printer = o.printer.now } };
}

/// The offer of a printer, by the state of its devices now. In clauses it is a record of the printer and of all
/// devices.
#[derive(Drop)]
pub struct Offer<'a> {
    fleet: Fleet<'a>,
    /// The document formats of the printer. They stay while the server runs.
    formats: &'a [Text],
}

impl<'a> Model for Offer<'a> {
    ghost use Rattle.std.specs.Prelude.{◌≡◌};
    ghost use Rattle.printer_objects.specs.Offer.{OfferRecord, formats_of};

    ghost Value = { OfferRecord };

    ghost view = { λ o. o.fleet };

    ghost invariant = { λ o. o.formats.now ≡ formats_of o.fleet };
}

/// The document formats of a printer: those of its devices in order, then its default, each once. `devices` are
/// all devices of the settings. The only error is out of memory.
#[tactic(auto, unfolding(crate::specs::Offer::formats_of))]
pub fn printer_formats(
    alloc: Global,
    devices: &[DeviceNow],
    printer: &PrinterSettings,
) -> Result<Vec<Text>, AllocError>
    ensures { IfOk result (λ formats. formats.items ≡ formats_of (record { devices = devices.now; printer = printer.now })) }
{
    let fleet = Fleet { devices, printer };
    let mut formats = fleet.listed(alloc, Listed::Formats)?;
    add_once(alloc, &mut formats, &printer.format_default)?;
    Ok(formats)
}

impl<'a> Fleet<'a> {
    /// The settings of the printer.
    fn printer(&self) -> &'a PrinterSettings
        ensures { result.now ≡ self.now.printer }
    {
        self.printer
    }

    /// The places of the printer's devices.
    fn places(&self) -> &'a [DeviceId]
        ensures { result.now ≡ self.now.printer.devices }
    {
        let printer = self.printer;
        printer.devices.devices()
    }

    /// The device at a place.
    fn device(&self, place: DeviceId) -> Option<&'a DeviceNow>
        ensures { option_copied result ≡ slice_get self.now.devices place }
    {
        self.devices.get(place.place())
    }

    /// The entries of the printer's devices, in order, each once. The only error is out of memory.
    fn listed(&self, alloc: Global, listed: Listed) -> Result<Vec<Text>, AllocError>
        ensures { IfOk result (λ found. found.items ≡ distinct (listed_of listed self.now)) }
    {
        let mut found = Vec::new(alloc);
        let places = self.places();
        for place in places {
            self.add_listed_at(alloc, &mut found, listed, *place)?;
        }
        Ok(found)
    }

    /// Adds the entries of the device at a place, if there is one.
    fn add_listed_at(
        &self,
        alloc: Global,
        found: &mut Vec<Text>,
        listed: Listed,
        place: DeviceId,
    ) -> Result<(), AllocError>
        ensures { OnOk result (found.new.items ≡ with_entries found.old.items (listed_at listed self.now place)) }
    {
        match self.device(place) {
            Some(device) => add_listed(alloc, found, listed, device),
            None => Ok(()),
        }
    }
}

impl<'a> Offer<'a> {
    /// The offer of a printer. `devices` are all devices of the settings, and `formats` those of
    /// [`printer_formats`].
    pub fn new(
        devices: &'a [DeviceNow],
        printer: &'a PrinterSettings,
        formats: &'a [Text],
    ) -> Offer<'a>
        requires { formats.now ≡ formats_of (record { devices = devices.now; printer = printer.now }) }
        ensures { result ≡ record { devices = devices.now; printer = printer.now } }
    {
        Offer {
            fleet: Fleet { devices, printer },
            formats,
        }
    }

    /// The settings of the printer.
    pub fn printer(&self) -> &'a PrinterSettings
        ensures { result.now ≡ self.now.printer }
    {
        self.fleet.printer()
    }

    /// The document formats: those of the printer's devices in order, then its default, each once.
    pub fn formats(&self) -> &'a [Text]
        ensures { result.now ≡ formats_of self.now }
    {
        self.formats
    }

    /// The media, loaded or not: those of the printer's devices in order, then its default, each once. The
    /// only error is out of memory.
    #[tactic(auto, unfolding(crate::specs::Offer::media_of))]
    pub fn media(&self, alloc: Global) -> Result<Vec<Text>, AllocError>
        ensures { IfOk result (λ media. media.items ≡ media_of self.now) }
    {
        let mut media = self.listed(alloc, Listed::Media)?;
        add_once(alloc, &mut media, self.default_medium())?;
        Ok(media)
    }

    /// The loaded media of the printer's devices, each once. The only error is out of memory.
    pub fn ready_media(&self, alloc: Global) -> Result<Vec<Text>, AllocError>
        ensures { IfOk result (λ media. media.items ≡ ready_media_of self.now) }
    {
        self.listed(alloc, Listed::LoadedMedia)
    }

    /// The sides: one-sided, and both two-sided ways if some device of the printer prints two-sided.
    #[tactic(auto, unfolding(crate::specs::Offer::sides_of))]
    pub fn sides(&self) -> &'static [Sides]
        ensures { result.now ≡ sides_of self.now }
    {
        if self.prints_two_sided() {
            &[Sides::One, Sides::LongEdge, Sides::ShortEdge]
        } else {
            &[Sides::One]
        }
    }

    /// The finishings that some device of the printer has, by rising number. The only error is out of memory.
    #[tactic(auto, unfolding(crate::specs::Offer::finishings_of))]
    pub fn finishings(&self, alloc: Global) -> Result<Vec<Finishing>, AllocError>
        ensures { IfOk result (λ finishings. finishings.items ≡ finishings_of self.now) }
    {
        let mut found = Vec::new(alloc);
        for finishing in Finishing::all() {
            if self.has_finishing(finishing) {
                found.push(finishing)?;
            }
        }
        Ok(found)
    }

    /// The first of the printer's formats that is equal to the requested one. Each format that the printer
    /// shows is found.
    #[tactic(auto, using(crate::proofs::ListedOnce::find_offered, crate::proofs::Taken::format_taken), unfolding(crate::specs::Offer::format_named, crate::specs::Offer::formats_of))]
    pub fn format_named(&self, asked: &[u8]) -> Option<&'a Text>
        ensures found { option_copied result ≡ format_named self.now asked.now }
        ensures taken { Contains (formats_of self.now) asked.now → IsSome result }
    {
        let default = self.default_format();
        match self.first_format(asked) {
            Some(format) => Some(format),
            None if is_same_format(asked, default.as_bytes()) => Some(default),
            None => None,
        }
    }

    /// The medium of a name. Each medium that the printer shows is found.
    #[tactic(auto, using(crate::proofs::ListedOnce::find_offered, crate::proofs::Taken::medium_taken), unfolding(crate::specs::Offer::medium_named, crate::specs::Offer::media_of))]
    pub fn medium_named(&self, name: &[u8]) -> Option<&'a Text>
        ensures found { option_copied result ≡ medium_named self.now name.now }
        ensures taken { Contains (media_of self.now) name.now → IsSome result }
    {
        let default = self.default_medium();
        match self.first_medium(name) {
            Some(medium) => Some(medium),
            None if name == default.as_bytes() => Some(default),
            None => None,
        }
    }

    /// The sides of a keyword.
    #[tactic(auto, unfolding(crate::specs::Offer::sides_named))]
    pub fn sides_named(&self, keyword: &[u8]) -> Option<Sides>
        ensures { result ≡ sides_named self.now keyword.now }
    {
        sides_among(self.sides(), keyword).copied()
    }

    /// The finishing of a number. Each finishing that the printer shows is found.
    #[tactic(auto, using(crate::proofs::Searches::find_kept, crate::proofs::Taken::finishing_taken), unfolding(crate::specs::Offer::finishing_named, crate::specs::Offer::finishings_of))]
    pub fn finishing_named(&self, number: u32) -> Option<Finishing>
        ensures found { result ≡ finishing_named self.now number }
        ensures taken { Contains (map finishing_code (finishings_of self.now)) number → IsSome result }
    {
        self.finishing_among(&Finishing::all(), number).copied()
    }

    /// The format of a document without document-format.
    pub fn default_format(&self) -> &'a Text
        ensures { result.now ≡ self.now.printer.format_default }
    {
        let printer = self.printer();
        &printer.format_default
    }

    /// The medium of a job without media.
    pub fn default_medium(&self) -> &'a Text
        ensures { result.now ≡ self.now.printer.media_default }
    {
        let printer = self.printer();
        &printer.media_default
    }

    /// The places of the printer's devices.
    fn places(&self) -> &'a [DeviceId]
        ensures { result.now ≡ self.now.printer.devices }
    {
        self.fleet.places()
    }

    /// The device at a place.
    fn device(&self, place: DeviceId) -> Option<&'a DeviceNow>
        ensures { option_copied result ≡ slice_get self.now.devices place }
    {
        self.fleet.device(place)
    }

    /// The entries of the printer's devices, in order, each once. The only error is out of memory.
    fn listed(&self, alloc: Global, listed: Listed) -> Result<Vec<Text>, AllocError>
        ensures { IfOk result (λ found. found.items ≡ distinct (listed_of listed self.now)) }
    {
        self.fleet.listed(alloc, listed)
    }

    /// Returns whether some device of the printer prints two-sided.
    fn prints_two_sided(&self) -> bool
        ensures { result ≡ prints_two_sided self.now }
    {
        self.places().iter().any(|place| self.is_two_sided(*place))
    }

    /// Returns whether the device at a place prints two-sided.
    fn is_two_sided(&self, place: DeviceId) -> bool
        ensures { result ≡ is_two_sided (slice_get self.now.devices place) }
    {
        match self.device(place) {
            Some(device) => device.rate_two.is_some(),
            None => false,
        }
    }

    /// Returns whether some device of the printer has the finishing.
    fn has_finishing(&self, finishing: Finishing) -> bool
        ensures { result ≡ offers_finishing self.now finishing }
    {
        self.places()
            .iter()
            .any(|place| self.finishes_so(finishing, *place))
    }

    /// Returns whether the device at a place has the finishing.
    fn finishes_so(&self, finishing: Finishing, place: DeviceId) -> bool
        ensures { result ≡ finishes_so finishing (slice_get self.now.devices place) }
    {
        match self.device(place) {
            Some(device) => finishing.is_in(device.finishings),
            None => false,
        }
    }

    /// The first of the finishings that the printer has and that has the number.
    fn finishing_among<'b>(&self, all: &'b [Finishing], number: u32) -> Option<&'b Finishing>
        ensures { option_copied result ≡ find (λ f. offers_finishing self.now f && (number == finishing_code f)) all.now }
    {
        all.iter().find(|finishing| self.has_finishing(**finishing) && number == finishing.code())
    }

    /// The first format of the printer's devices that is equal to the requested one.
    fn first_format(&self, asked: &[u8]) -> Option<&'a Text>
        ensures { option_copied result ≡ find (is_same_format asked.now) (listed_of Listed.Formats self.now) }
    {
        let places = self.places();
        for place in places {
            if let Some(format) = self.format_at(*place, asked) {
                return Some(format);
            }
        }
        None
    }

    /// The first format of the device at a place that is equal to the requested one.
    fn format_at(&self, place: DeviceId, asked: &[u8]) -> Option<&'a Text>
        ensures { option_copied result ≡ find (is_same_format asked.now) (listed_at Listed.Formats self.now place) }
    {
        let device = self.device(place)?;
        format_among(&device.formats, asked)
    }

    /// The first medium of a name of the printer's devices.
    fn first_medium(&self, name: &[u8]) -> Option<&'a Text>
        ensures { option_copied result ≡ find (bytes_eq name.now) (listed_of Listed.Media self.now) }
    {
        let places = self.places();
        for place in places {
            if let Some(medium) = self.medium_at(*place, name) {
                return Some(medium);
            }
        }
        None
    }

    /// The first medium of a name of the device at a place.
    fn medium_at(&self, place: DeviceId, name: &[u8]) -> Option<&'a Text>
        ensures { option_copied result ≡ find (bytes_eq name.now) (listed_at Listed.Media self.now place) }
    {
        let device = self.device(place)?;
        medium_among(&device.media, name)
    }
}

/// The first of the formats that is equal to the requested one.
fn format_among<'a>(formats: &'a [Text], asked: &[u8]) -> Option<&'a Text>
    ensures { option_copied result ≡ find (is_same_format asked.now) formats.now }
{
    formats
        .iter()
        .find(|format| is_same_format(asked, format.as_bytes()))
}

/// The name of the first of the media with that name.
#[tactic(auto, using(crate::proofs::Searches::find_mapped))]
fn medium_among<'a>(media: &'a [Medium], name: &[u8]) -> Option<&'a Text>
    ensures { option_copied result ≡ find (bytes_eq name.now) (map (λ m. m.name) media.now) }
{
    match medium_of_name(media, name) {
        Some(medium) => Some(&medium.name),
        None => None,
    }
}

/// The first of the media with a name.
fn medium_of_name<'a>(media: &'a [Medium], name: &[u8]) -> Option<&'a Medium>
    ensures { option_copied result ≡ find (λ m. bytes_eq name.now m.name) media.now }
{
    media.iter().find(|medium| name == medium.name.as_bytes())
}

/// The first of the sides with a keyword.
fn sides_among<'a>(sides: &'a [Sides], keyword: &[u8]) -> Option<&'a Sides>
    ensures { option_copied result ≡ find (λ s. bytes_eq keyword.now (sides_keyword s)) sides.now }
{
    sides
        .iter()
        .find(|sides| keyword == sides.keyword().as_bytes())
}
