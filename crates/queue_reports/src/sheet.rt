//! What a page is made of.
use crate::html::Html;
use crate::times::ZonedTimes;
use base_types::{DeviceId, PrinterId};
use queue_views::{DeviceState, DeviceView, Figures, PrinterView, QueueView};
use std::alloc::Global;

/// The view of a page, and how it is shown.
#[derive(Clone, Copy)]
pub(crate) struct PageContext<'a> {
    pub(crate) alloc: Global,
    pub(crate) view: &'a QueueView,
    pub(crate) times: ZonedTimes<'a>,
    /// Whether the owners and titles of jobs are shown.
    pub(crate) names: bool,
}

impl<'a> PageContext<'a> {
    /// The device at a place.
    pub(crate) fn device(&self, id: DeviceId) -> Option<&'a DeviceView> {
        let view = self.view;
        view.devices.get(id.place())
    }

    /// The name of the device at a place; empty if there is none.
    pub(crate) fn device_name(&self, id: DeviceId) -> &'a [u8] {
        match self.device(id) {
            Some(device) => device.name.as_bytes(),
            None => b"",
        }
    }

    /// Returns whether a device is late with its job.
    pub(crate) fn is_late(&self, id: DeviceId) -> bool {
        match self.device(id) {
            Some(device) => matches!(device.state, DeviceState::Late { .. }),
            None => false,
        }
    }

    /// The printer at a place.
    pub(crate) fn printer(&self, id: PrinterId) -> Option<&'a PrinterView> {
        let view = self.view;
        view.printers.get(id.place())
    }

    /// Returns whether the view has several printers.
    pub(crate) fn has_several(&self) -> bool {
        self.view.printers.len() > 1
    }

    /// The figures of a printer on the page's day.
    pub(crate) fn figures(&self, id: PrinterId) -> Figures {
        self.view.figures(id, self.times.day_began())
    }

    /// Returns whether a printer has a device.
    pub(crate) fn is_used(&self, id: DeviceId) -> bool {
        self.view
            .printers
            .iter()
            .any(|printer| printer.devices.contains(&id))
    }

    /// Appends the heading of a part. Where the view has several printers, it is below the printer's.
    pub(crate) fn heading(&self, html: Html, heading: &'static str) -> Html {
        if self.has_several() {
            html.markup("<h3>").markup(heading).markup("</h3>\n")
        } else {
            html.markup("<h2>").markup(heading).markup("</h2>\n")
        }
    }

    /// Appends the cells of a job's owner and title, if they are shown.
    pub(crate) fn name_cells(&self, html: Html, owner: &[u8], title: &[u8]) -> Html {
        if !self.names {
            return html;
        }
        html.markup("<td class=\"name\"><bdi>")
            .bytes(owner)
            .markup("</bdi></td><td class=\"name wide\"><bdi>")
            .bytes(title)
            .markup("</bdi></td>")
    }

    /// Appends the heads of the columns of owners and titles, if they are shown.
    pub(crate) fn name_heads(&self, html: Html) -> Html {
        if self.names {
            html.markup("<th>Owner</th><th class=\"wide\">Title</th>")
        } else {
            html
        }
    }
}
