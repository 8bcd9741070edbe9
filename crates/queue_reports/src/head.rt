//! The head of a page.
use crate::html::Html;
use crate::length::Length;
use crate::sheet::PageContext;
use crate::style::STYLE;
use crate::times::TimeDetail;
use base_types::PrinterId;
use queue_views::Figures;

/// Appends the head of the document. `refresh` are the s after which a browser reads the page again.
pub(crate) fn put_document_head(html: Html, sheet: &PageContext<'_>, refresh: Option<u32>) -> Html {
    let html = html.markup(
        "<!DOCTYPE html>\n<html lang=\"en\">\n<head>\n<meta charset=\"utf-8\">\n<meta name=\"viewport\" content=\"width=device-width, initial-scale=1\">\n",
    );
    let html = match refresh {
        Some(seconds) => html
            .markup("<meta http-equiv=\"refresh\"")
            .attribute("content", seconds)
            .markup(">\n"),
        None => html,
    };
    put_title(html.markup("<title>"), sheet)
        .markup("</title>\n<style>")
        .markup(STYLE)
        .markup("</style>\n</head>\n")
}

/// Appends the printers and the number of jobs that wait.
fn put_title(html: Html, sheet: &PageContext<'_>) -> Html {
    let mut html = html;
    let mut waiting = 0_u64;
    for (place, printer) in sheet.view.printers.iter().enumerate() {
        waiting = waiting.saturating_add(sheet.figures(PrinterId::new(place)).waiting);
        html = html
            .markup(if place > 0 { ", " } else { "" })
            .bytes(printer.name.as_bytes());
    }
    put_count(html.markup(": "), waiting)
}

/// Appends how many jobs wait.
fn put_count(html: Html, waiting: u64) -> Html {
    match waiting {
        0 => html.markup("no job waits"),
        1 => html.markup("1 job waits"),
        _ => html.text(waiting).markup(" jobs wait"),
    }
}

/// Appends the figures of a printer.
fn put_figures(html: Html, sheet: &PageContext<'_>, figures: Figures) -> Html {
    let day = if sheet.times.has_clock() {
        " to paper today"
    } else {
        " to paper since the start"
    };
    let html = put_count(html, figures.waiting);
    let html = match figures.mean {
        Some(mean) => html.markup(" · mean ").text(Length(mean)).markup(day),
        None => html,
    };
    html.markup(" · ").text(figures.printed).markup(" printed")
}

/// Appends the head that people see: the printers, their figures, and the page's moment. `quiet_since` is the time in ms
/// since the beginning of 1970 since which nothing new has come, if that is long ago.
pub(crate) fn put_head(html: Html, sheet: &PageContext<'_>, quiet_since: Option<u64>) -> Html {
    let html = html.markup("<header><h1>");
    let html = match sheet.view.printers.first() {
        Some(printer) if !sheet.has_several() => {
            let html = html.bytes(printer.name.as_bytes()).markup("</h1><p>");
            put_figures(html, sheet, sheet.figures(PrinterId::new(0))).markup("</p>")
        }
        _ => html
            .text(sheet.view.printers.len())
            .markup(" printers</h1>"),
    };
    let html = put_moment(html, sheet).markup("</header>\n");
    let html = put_quiet(html, sheet, quiet_since);
    if sheet.has_several() {
        put_printers(html, sheet)
    } else {
        html
    }
}

/// Appends the page's moment.
fn put_moment(html: Html, sheet: &PageContext<'_>) -> Html {
    let now = sheet.times.now();
    if !sheet.times.has_clock() {
        return html
            .markup("<p>")
            .text(sheet.times.at(now, TimeDetail::Seconds))
            .markup(" after the start</p>");
    }
    html.markup("<time")
        .attribute("datetime", sheet.times.at(now, TimeDetail::Machine))
        .markup(">as of ")
        .text(sheet.times.at(now, TimeDetail::Whole))
        .markup("</time>")
}

/// Appends that the page is old.
fn put_quiet(html: Html, sheet: &PageContext<'_>, since: Option<u64>) -> Html {
    match since {
        Some(since) => html
            .markup("<p class=\"problem old\">not updated since ")
            .text(sheet.times.of(since, TimeDetail::Seconds))
            .markup("</p>\n"),
        None => html,
    }
}

/// Appends a line for each printer.
fn put_printers(html: Html, sheet: &PageContext<'_>) -> Html {
    let mut html = html.markup("<ul class=\"printers\">\n");
    for (place, printer) in sheet.view.printers.iter().enumerate() {
        html = html
            .markup("<li><a")
            .attribute("href", Anchor { place, link: true })
            .markup(">")
            .bytes(printer.name.as_bytes())
            .markup("</a> ");
        html = put_figures(html, sheet, sheet.figures(PrinterId::new(place))).markup("</li>\n");
    }
    html.markup("</ul>\n")
}

/// The id of a printer's section, or the link to it.
#[derive(Clone, Copy)]
pub(crate) struct Anchor {
    pub(crate) place: usize,
    pub(crate) link: bool,
}

impl std::fmt::Display for Anchor {
    fn fmt<W: std::fmt::Write>(&self, f: &mut std::fmt::Formatter<W>) -> std::fmt::Result {
        let number = self.place.saturating_add(1);
        let hash = if self.link { "#" } else { "" };
        write!(f, "{hash}printer-{number}")
    }
}
