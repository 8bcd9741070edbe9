//! The attributes of a printer, with their values.
ghost use Rattle.std.specs.Prelude.{◌≡◌, IfOk, Some};
ghost use Rattle.printer_objects.specs.PrinterShown.{printer_shown, printer_attributes};

use crate::attribute::{
    MILLIS_PER_SECOND, english, enumerated, keyword, known_text, number, text, time, yes,
};
use crate::finishing::NO_FINISHING;
use crate::job_shown::uri_of_printer;
use crate::named::named;
use crate::offer::Offer;
use crate::offered::{
    copies, formats, hold_untils, media, offered_finishings, operations, ready_media, sides,
};
use crate::operation::Operation;
use crate::printer_attribute::PrinterAttribute;
use crate::requested::has_group;
use crate::state::{printer_reason, printer_state};
use base_types::{Hold, Limits, Moment, Sides, Text};
use ipp_codec::{Attribute, Group, GroupTag, ValueTag};
use job_objects::Printer;
use std::alloc::{AllocError, Global};
use std::marker::Model;

/// The data of a printer's attributes. In clauses it is a record of the referents of these fields.
#[derive(Drop)]
pub struct PrinterShown<'a> {
    pub printer: &'a Printer,
    /// The printer's settings and offer.
    pub offer: &'a Offer<'a>,
    /// The beginning of the URIs of printers and jobs.
    pub uri_base: &'a Text,
    /// Whether some job keeps the printer busy ([`crate::keeps_busy`]).
    pub busy: bool,
    /// The number of unfinished jobs of the printer.
    pub queued: usize,
    /// The moment of the request.
    pub moment: Moment,
}

impl<'a> Model for PrinterShown<'a> {
    ghost use Rattle.printer_objects.specs.PrinterShown.{ShownPrinter};

    ghost Value = { ShownPrinter };

    ghost view = { λ s. record {
      paused = s.printer.now;
      offer = s.offer.now;
      uri_base = s.uri_base.now;
      busy = s.busy;
      queued = s.queued;
      moment = s.moment;
    } };
}

/// The printer group of a response: the requested attributes of a printer, in the table's order. The only
/// error is out of memory.
pub fn printer_attributes(
    alloc: Global,
    shown: &PrinterShown<'_>,
    requested: &[Text],
) -> Result<Group, AllocError>
    ensures { IfOk result (λ group. group ≡ printer_attributes shown.now requested.now) }
{
    let count = requested.len().min(PrinterAttribute::COUNT);
    let mut group = Group::with_capacity(alloc, GroupTag::PRINTER, count)?;
    let by_group = has_group(requested);
    let named = named(requested);
    let table = PrinterAttribute::all();
    for place in 0..PrinterAttribute::COUNT {
        let which = table[place];
        if which.is_wanted(by_group, named[place], requested) {
            group.push(which.shown(alloc, shown)?)?;
        }
    }
    Ok(group)
}

impl PrinterAttribute {
    /// The attribute of a printer, with its values.
    fn shown(self, alloc: Global, shown: &PrinterShown<'_>) -> Result<Attribute, AllocError>
        ensures { IfOk result (λ attribute. attribute ≡ printer_shown shown.now self) }
    {
        let name = self.name();
        let offer = shown.offer;
        let settings = offer.printer();
        match self {
            PrinterAttribute::UriSupported => {
                uri_of_printer(alloc, name, shown.uri_base, &settings.name)
            }
            PrinterAttribute::UriSecuritySupported | PrinterAttribute::CompressionSupported => {
                Ok(keyword(alloc, name, "none"))
            }
            PrinterAttribute::UriAuthenticationSupported => {
                Ok(keyword(alloc, name, "requesting-user-name"))
            }
            PrinterAttribute::Name => text(alloc, name, ValueTag::NAME, settings.name.as_bytes()),
            PrinterAttribute::State => {
                let state = printer_state(shown.printer, shown.busy);
                Ok(enumerated(alloc, name, state.code()))
            }
            PrinterAttribute::StateReasons => {
                let reason = printer_reason(shown.printer, shown.busy);
                Ok(keyword(alloc, name, reason.keyword()))
            }
            PrinterAttribute::IppVersionsSupported => Ok(keyword(alloc, name, "1.1")),
            PrinterAttribute::OperationsSupported => operations(alloc, name, &Operation::all()),
            PrinterAttribute::MultipleDocumentJobsSupported | PrinterAttribute::IsAcceptingJobs => {
                Ok(yes(alloc, name))
            }
            PrinterAttribute::MultipleOperationTimeOut => {
                let seconds = Limits::INCOMING_JOB_TIME / MILLIS_PER_SECOND;
                Ok(number(alloc, name, seconds))
            }
            PrinterAttribute::CharsetConfigured | PrinterAttribute::CharsetSupported => {
                Ok(known_text(alloc, name, ValueTag::CHARSET, b"utf-8"))
            }
            PrinterAttribute::NaturalLanguageConfigured
            | PrinterAttribute::GeneratedNaturalLanguageSupported => Ok(english(alloc, name)),
            PrinterAttribute::DocumentFormatDefault => text(
                alloc,
                name,
                ValueTag::MIME_MEDIA_TYPE,
                settings.format_default.as_bytes(),
            ),
            PrinterAttribute::DocumentFormatSupported => formats(alloc, name, offer),
            PrinterAttribute::QueuedJobCount => Ok(number(alloc, name, shown.queued as u64)),
            PrinterAttribute::PdlOverrideSupported => Ok(keyword(alloc, name, "not-attempted")),
            PrinterAttribute::UpTime => Ok(time(alloc, name, Some(shown.moment))),
            PrinterAttribute::CopiesDefault => Ok(number(alloc, name, 1)),
            PrinterAttribute::CopiesSupported => copies(alloc, name),
            PrinterAttribute::HoldUntilDefault => {
                Ok(keyword(alloc, name, Hold::NoHold.keyword()))
            }
            PrinterAttribute::HoldUntilSupported => hold_untils(alloc, name),
            PrinterAttribute::PriorityDefault => {
                Ok(number(alloc, name, u64::from(Limits::DEFAULT_PRIORITY)))
            }
            PrinterAttribute::PrioritySupported => {
                Ok(number(alloc, name, u64::from(Limits::HIGHEST_PRIORITY)))
            }
            PrinterAttribute::MediaDefault => text(
                alloc,
                name,
                ValueTag::KEYWORD,
                settings.media_default.as_bytes(),
            ),
            PrinterAttribute::MediaSupported => media(alloc, name, offer),
            PrinterAttribute::MediaReady => ready_media(alloc, name, offer),
            PrinterAttribute::SidesDefault => Ok(keyword(alloc, name, Sides::One.keyword())),
            PrinterAttribute::SidesSupported => sides(alloc, name, offer.sides()),
            PrinterAttribute::FinishingsDefault => Ok(enumerated(alloc, name, NO_FINISHING)),
            PrinterAttribute::FinishingsSupported => offered_finishings(alloc, name, offer),
        }
    }
}
