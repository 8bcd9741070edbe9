//! The page.
use crate::devices::put_devices;
use crate::finished::put_finished;
use crate::head::{Anchor, put_document_head, put_head};
use crate::html::Html;
use crate::plan::put_plan;
use crate::problems::put_problems;
use crate::sheet::PageContext;
use crate::times::ZonedTimes;
use crate::waiting::put_waiting;
use base_types::PrinterId;
use jiff::tz::TimeZone;
use queue_views::{PrinterView, QueueView};
use std::alloc::{AllocError, Global};

/// How a page is shown.
#[derive(Clone, Copy)]
pub struct PageOptions<'a> {
    /// The zone of its clock times.
    pub zone: TimeZone<'a>,
    /// Whether it shows the owners and titles of jobs.
    pub names: bool,
    /// The seconds after which a browser reads it again, if it should.
    pub refresh: Option<u32>,
    /// The time since which nothing new has come, in ms since the beginning of 1970, if the page is to show it.
    pub quiet_since: Option<u64>,
}

/// Returns the page of a view. The only error is out of memory.
pub fn write_page(
    alloc: Global,
    view: &QueueView,
    options: &PageOptions<'_>,
) -> Result<String, AllocError> {
    let sheet = PageContext {
        alloc,
        view,
        times: ZonedTimes::new(&view.clock, options.zone, view.moment.millis()),
        names: options.names,
    };
    let html = put_document_head(Html::new(alloc), &sheet, options.refresh).markup("<body>\n");
    let html = put_head(html, &sheet, options.quiet_since);
    let mut html = put_problems(html, &sheet);
    for (place, printer) in view.printers.iter().enumerate() {
        html = put_printer(html, &sheet, place, printer);
    }
    html.markup("</body>\n</html>\n").finish()
}

/// Appends the parts of a printer, in a section of its own if there are several.
fn put_printer(html: Html, sheet: &PageContext<'_>, place: usize, printer: &PrinterView) -> Html {
    if !sheet.has_several() {
        return put_parts(html, sheet, place, printer);
    }
    let html = html
        .markup("<section")
        .attribute("id", Anchor { place, link: false })
        .markup("><h2 class=\"printer\">")
        .bytes(printer.name.as_bytes())
        .markup("</h2>\n");
    put_parts(html, sheet, place, printer).markup("</section>\n")
}

/// Appends the devices, the plan and the jobs of a printer.
fn put_parts(html: Html, sheet: &PageContext<'_>, place: usize, printer: &PrinterView) -> Html {
    let id = PrinterId::new(place);
    let html = put_devices(html, sheet, printer);
    let html = put_plan(html, sheet, printer);
    let html = put_waiting(html, sheet, id);
    put_finished(html, sheet, id)
}
