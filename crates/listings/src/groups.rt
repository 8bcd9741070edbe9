//! The groups of a printer, of a job, and of a list of jobs.
ghost use Rattle.std.specs.Prelude.{◌≡◌, ◌==◌, ◌&&◌, not, IfOk, count_by, map, slice_get};
ghost use Rattle.std.specs.List.{list_any};
ghost use Rattle.std.specs.Option.{option_map_or};
ghost use Rattle.job_objects.specs.JobState.{is_finished};
ghost use Rattle.printer_objects.specs.PrinterState.{is_busy_with};
ghost use Rattle.printer_objects.specs.JobShown.{job_attributes};
ghost use Rattle.listings.specs.Groups.{is_queued, job_group, job_groups, printer_group, shown_job, state_of_printer};

use crate::entry::Entry;
use crate::listing::listed;
use crate::wanted::Wanted;
use base_types::{Moment, PrinterId, Text};
use ipp_codec::Group;
use job_objects::{Job, Printer};
use print_room::PrintRoom;
use printer_objects::{
    JobAttribute, JobShown, Offer, PrinterShown, PrinterState, job_attributes, keeps_busy,
    printer_attributes, printer_state,
};
use settings_file::{PrinterSettings, Settings};
use spool::Spool;
use std::alloc::{AllocError, Global};

/// The printer group of a Get-Printer-Attributes (RFC 8011, section 4.2.5): the requested attributes of a
/// printer, with its offer.
///
/// The only error is out of memory.
pub fn printer_group<'a>(
    alloc: Global,
    room: &'a PrintRoom,
    printer: PrinterId,
    offer: &'a Offer<'a>,
    now: Moment,
    requested: &[Text],
) -> Result<Group, AllocError>
    ensures { IfOk result (λ group. group ≡ printer_group printer offer.now now requested.now room.now) }
{
    let running = Printer::new();
    let shown = PrinterShown {
        printer: printer_at(room.printers(), printer, &running),
        offer,
        uri_base: uri_base(room.settings()),
        busy: is_busy(room.spool(), printer),
        queued: queued(room.spool(), printer),
        moment: now,
    };
    printer_attributes(alloc, &shown, requested)
}

/// The beginning of the URIs of printers and jobs.
fn uri_base(settings: &Settings) -> &Text
    ensures { result.now ≡ settings.now.uri_base }
{
    &settings.uri_base
}

/// A printer of the room, or `otherwise` if there is no such printer.
fn printer_at<'a>(
    printers: &'a [Printer],
    printer: PrinterId,
    otherwise: &'a Printer,
) -> &'a Printer
    ensures { result.now ≡ option_map_or (λ p. p) (slice_get printers.now printer) otherwise.now }
{
    match printers.get(printer.place()) {
        Some(printer) => printer,
        None => otherwise,
    }
}

/// The state of a printer (RFC 8011, section 5.4.11).
pub fn state_of_printer(room: &PrintRoom, printer: PrinterId) -> PrinterState
    ensures { result ≡ state_of_printer printer room.now }
{
    let running = Printer::new();
    let shown = printer_at(room.printers(), printer, &running);
    printer_state(shown, is_busy(room.spool(), printer))
}

/// Returns whether some job of a printer is on a device.
fn is_busy(spool: &Spool, printer: PrinterId) -> bool
    ensures { result ≡ list_any (λ s. is_busy_with printer s.job) spool.now.jobs }
{
    spool
        .jobs()
        .iter()
        .any(|spooled| keeps_busy(spooled.job(), printer))
}

/// Returns the number of unfinished jobs of a printer.
fn queued(spool: &Spool, printer: PrinterId) -> usize
    ensures { result ≡ count_by (is_queued printer) spool.now.jobs }
{
    spool
        .jobs()
        .iter()
        .filter(|spooled| is_queued(spooled.job(), printer))
        .count()
}

/// Returns whether a job was sent to a printer and is unfinished.
fn is_queued(job: &Job, printer: PrinterId) -> bool
    ensures { result ≡ (job.now.needs.printer == printer) && not (is_finished job.now.state) }
{
    job.needs.printer == printer && !job.state.is_finished()
}

/// The job group of a Get-Job-Attributes (RFC 8011, section 4.3.4): the requested attributes of a job.
///
/// The only error is out of memory.
pub fn job_group(
    alloc: Global,
    room: &PrintRoom,
    job: &Job,
    now: Moment,
    requested: &[Text],
) -> Result<Group, AllocError>
    ensures { IfOk result (λ group. group ≡ job_group now requested.now room.now job.now) }
{
    let wanted = JobAttribute::wanted(alloc, requested)?;
    group_of(alloc, room, job, now, &wanted)
}

/// The group of a job with these attributes.
fn group_of(
    alloc: Global,
    room: &PrintRoom,
    job: &Job,
    now: Moment,
    attributes: &[JobAttribute],
) -> Result<Group, AllocError>
    ensures { IfOk result (λ group. group ≡ job_attributes (shown_job now room.now job.now) attributes.now) }
{
    let settings = room.settings();
    let printer = job.needs.printer;
    let nameless = Text::new(Vec::new(alloc));
    let shown = JobShown {
        job,
        uri_base: &settings.uri_base,
        printer_name: name_of(&settings.printers, printer, &nameless),
        printer_paused: room.is_paused(printer),
        moment: now,
    };
    job_attributes(alloc, &shown, attributes)
}

/// The name of a printer of the settings, or `otherwise` if there is no such printer.
fn name_of<'a>(printers: &'a [PrinterSettings], printer: PrinterId, otherwise: &'a Text) -> &'a Text
    ensures { result.now ≡ option_map_or (λ p. p.name) (slice_get printers.now printer) otherwise.now }
{
    match printers.get(printer.place()) {
        Some(printer) => &printer.name,
        None => otherwise,
    }
}

/// The job groups of a Get-Jobs (RFC 8011, section 4.2.6): one for each requested job, in the order of
/// [`listed`], each with the requested attributes.
///
/// The only error is out of memory.
pub fn job_groups(
    alloc: Global,
    room: &PrintRoom,
    wanted: &Wanted<'_>,
    now: Moment,
    requested: &[Text],
) -> Result<Vec<Group>, AllocError>
    ensures { IfOk result (λ groups. groups.items ≡ job_groups wanted.now now requested.now room.now) }
{
    let attributes = JobAttribute::wanted(alloc, requested)?;
    let listed = listed(alloc, room, wanted, now)?;
    groups_of(alloc, room, &listed, now, &attributes)
}

/// The group of each listed job, with these attributes.
fn groups_of(
    alloc: Global,
    room: &PrintRoom,
    listed: &[Entry<'_>],
    now: Moment,
    attributes: &[JobAttribute],
) -> Result<Vec<Group>, AllocError>
    ensures { IfOk result (λ groups. groups.items ≡ map (λ job. job_attributes (shown_job now room.now job) attributes.now) (map (λ e. e.job) listed.now)) }
{
    let mut groups = Vec::with_capacity(alloc, listed.len())?;
    for entry in listed {
        groups.push(group_of(alloc, room, entry.job(), now, attributes)?)?;
    }
    Ok(groups)
}
