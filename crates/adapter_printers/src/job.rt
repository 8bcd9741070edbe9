//! The options of a job, and those that a printer supports.
use crate::task_outcome::LeftOut;
use adapter_core::JobOrder;
use base_types::{Finishings, Sides, Text};
use ipp_codec::{GroupTag, MessageView};
use ipp_requests::{Ticket, copies_up_to, lists, lists_number};
use std::alloc::Global;

/// The format of any document.
const OCTETS: &str = "application/octet-stream";

/// The options of a job.
#[derive(Drop)]
pub(crate) struct JobWish {
    job: u32,
    copies: u32,
    sides: Sides,
    finishings: Finishings,
    /// The medium. `None` if memory for its name was refused.
    media: Option<Text>,
}

impl JobWish {
    /// The options of no job.
    pub(crate) fn none() -> JobWish {
        JobWish {
            job: 0,
            copies: 1,
            sides: Sides::One,
            finishings: Finishings::none(),
            media: None,
        }
    }

    /// The options of an order's job.
    pub(crate) fn of(alloc: Global, order: &JobOrder) -> JobWish {
        JobWish {
            job: order.job.number(),
            copies: order.copies,
            sides: order.sides,
            finishings: order.finishings,
            media: order.media.copied(alloc).ok(),
        }
    }

    /// The number of the job.
    pub(crate) fn job(&self) -> u32 {
        self.job
    }

    /// The ticket for a printer, with the options that it reports as supported.
    pub(crate) fn ticket<'a>(
        &'a self,
        name: &'a [u8],
        format: &'a str,
        printer: &MessageView<'_>,
    ) -> Ticket<'a> {
        Ticket {
            name,
            format: supported_format(format, printer).as_bytes(),
            copies: supported_copies(self.copies, printer),
            sides: supported_sides(self.sides, printer),
            media: self.supported_media(printer),
            finishings: supported_finishings(self.finishings, printer),
        }
    }

    /// The options that aren't in a ticket.
    pub(crate) fn left_out(&self, ticket: &Ticket<'_>) -> LeftOut {
        LeftOut {
            copies: ticket.copies.is_none(),
            sides: ticket.sides.is_none(),
            media: ticket.media.is_none(),
            finishings: ticket.finishings != self.finishings,
        }
    }

    /// The medium of the job, if the printer has it.
    fn supported_media<'a>(&'a self, printer: &MessageView<'_>) -> Option<&'a [u8]> {
        match &self.media {
            Some(name) => supported(name.as_bytes(), printer, b"media-supported"),
            None => None,
        }
    }
}

/// The word, if an attribute of the printer lists it.
fn supported<'a>(word: &'a [u8], printer: &MessageView<'_>, name: &[u8]) -> Option<&'a [u8]> {
    if lists(printer, GroupTag::PRINTER, name, word) {
        Some(word)
    } else {
        None
    }
}

/// The format, if the printer supports it; else the format of any document.
fn supported_format<'a>(format: &'a str, printer: &MessageView<'_>) -> &'a str {
    let name = b"document-format-supported";
    if lists(printer, GroupTag::PRINTER, name, format.as_bytes()) {
        format
    } else {
        OCTETS
    }
}

/// The number of copies, if the printer makes that many.
fn supported_copies(copies: u32, printer: &MessageView<'_>) -> Option<u32> {
    if copies <= copies_up_to(printer) {
        Some(copies)
    } else {
        None
    }
}

/// The keyword of the sides, if the printer supports it.
fn supported_sides(sides: Sides, printer: &MessageView<'_>) -> Option<&'static [u8]> {
    supported(sides.keyword().as_bytes(), printer, b"sides-supported")
}

/// The finishings that the printer supports.
fn supported_finishings(wanted: Finishings, printer: &MessageView<'_>) -> Finishings {
    Finishings {
        staple: wanted.staple && finishes(printer, 4),
        punch: wanted.punch && finishes(printer, 5),
        bind: wanted.bind && finishes(printer, 7),
    }
}

/// Returns whether the printer supports the finishing of a number (RFC 8011, section 5.2.6).
fn finishes(printer: &MessageView<'_>, number: u32) -> bool {
    lists_number(printer, GroupTag::PRINTER, b"finishings-supported", number)
}
