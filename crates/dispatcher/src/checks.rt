//! The checks of a request, in order: its printer or its job, its document's form, its template, whether its
//! user is allowed to, whether the job's state allows it, and whether there is room for it. No check takes
//! memory.
ghost use Rattle.std.specs.Prelude.{◌≡◌, Ok, Err, MatchResult, option_map};
ghost use Rattle.std.specs.Option.{option_copied, option_and_then};
ghost use Rattle.spool.specs.Jobs.{job_at};
ghost use Rattle.dispatcher.specs.Checks.{by_operator, checked_format, format_of, is_compressed, named_job, named_printer, printer_of_job, refused, status_of, unsupported_attributes};
ghost use Rattle.dispatcher.specs.Target.{if_sent_to, job_of, printer_of};

use base_types::{JobId, PrinterId, Text};
use events::{DocumentForm, JobTarget, Status, Target};
use job_objects::Job;
use job_template::RequestAttributes;
use print_room::PrintRoom;
use printer_objects::Offer;
use settings_file::PrinterSettings;
use spool::SpoolRefusal;
use std::alloc::Global;

/// The status for the first check that fails, and the unsupported attributes, if they are the reason.
#[derive(Drop)]
pub(crate) struct Rejection {
    pub(crate) status: Status,
    pub(crate) unsupported: RequestAttributes,
}

/// A printer with its offer.
#[derive(Drop)]
pub(crate) struct NamedPrinter<'a> {
    pub(crate) id: PrinterId,
    pub(crate) offer: Offer<'a>,
}

/// A rejection with a status and no unsupported attributes.
pub(crate) fn refused(alloc: Global, status: Status) -> Rejection
    ensures { result ≡ refused status }
{
    Rejection {
        status,
        unsupported: RequestAttributes::new(alloc),
    }
}

/// The printer that a request names, or the rejection `NotFound`.
pub(crate) fn named_printer<'a>(
    alloc: Global,
    room: &'a PrintRoom,
    target: &Target,
) -> Result<NamedPrinter<'a>, Rejection>
    ensures { result ≡ named_printer target.now room.now }
{
    let printers = &room.settings().printers;
    match printer_of(printers, target) {
        Some(found) => Ok(NamedPrinter {
            id: found.0,
            offer: Offer::new(room.devices(), found.1, room.formats(found.0)),
        }),
        None => Err(refused(alloc, Status::NotFound)),
    }
}

/// The first printer that a request names, with its settings.
fn printer_of<'a>(
    printers: &'a [PrinterSettings],
    target: &Target,
) -> Option<(PrinterId, &'a PrinterSettings)>
    ensures { option_map (λ found. (found.0, found.1.now)) result ≡ printer_of target.now printers.now }
{
    for (place, printer) in printers.iter().enumerate() {
        if target.names(printer) {
            return Some((PrinterId::new(place), printer));
        }
    }
    None
}

/// The job that a request names, or the rejection `NotFound`.
pub(crate) fn named_job<'a>(
    alloc: Global,
    room: &'a PrintRoom,
    target: &JobTarget,
) -> Result<&'a Job, Rejection>
    ensures { MatchResult result (λ job. named_job target.now room.now ≡ Ok job.now) (λ refusal. named_job target.now room.now ≡ Err refusal) }
{
    match job_of(room, target) {
        Some(job) => Ok(job),
        None => Err(refused(alloc, Status::NotFound)),
    }
}

/// The job that the target names, if it is kept.
fn job_of<'a>(room: &'a PrintRoom, target: &JobTarget) -> Option<&'a Job>
    ensures { option_copied result ≡ job_of target.now room.now }
{
    match target {
        JobTarget::Numbered(id) => room.spool().get(*id),
        JobTarget::OfPrinter(target, id) => job_of_printer(room, target, *id),
        JobTarget::Unknown => None,
    }
}

/// The job of an id, if it was sent to the printer that the target names.
fn job_of_printer<'a>(room: &'a PrintRoom, target: &Target, id: JobId) -> Option<&'a Job>
    ensures { option_copied result ≡ option_and_then (λ found. option_and_then (if_sent_to found.0) (job_at id room.now.spool.jobs)) (printer_of target.now room.now.settings.printers) }
{
    let Some(found) = printer_of(&room.settings().printers, target) else {
        return None;
    };
    let job = room.spool().get(id)?;
    if job.needs.printer == found.0 {
        Some(job)
    } else {
        None
    }
}

/// The printer of a job.
pub(crate) fn printer_of_job<'a>(
    alloc: Global,
    room: &'a PrintRoom,
    job: &Job,
) -> Result<NamedPrinter<'a>, Rejection>
    ensures { result ≡ printer_of_job job.now room.now }
{
    let id = job.needs.printer;
    match room.settings().printers.get(id.place()) {
        Some(printer) => Ok(NamedPrinter {
            id,
            offer: Offer::new(room.devices(), printer, room.formats(id)),
        }),
        None => Err(refused(alloc, Status::NotFound)),
    }
}

/// The rejection for a refused change of a job.
pub(crate) fn refused_change(alloc: Global, cause: SpoolRefusal) -> Rejection
    ensures { result ≡ refused (status_of cause) }
{
    let status = match cause {
        SpoolRefusal::Busy => Status::Busy,
        SpoolRefusal::TooLarge => Status::TooLarge,
        SpoolRefusal::NotFound => Status::NotFound,
        SpoolRefusal::NotPossible => Status::NotPossible,
        SpoolRefusal::NotAuthorized => Status::NotAuthorized,
        SpoolRefusal::OutOfMemory => Status::TemporaryError,
    };
    refused(alloc, status)
}

/// Checks that the user is an operator.
pub(crate) fn by_operator(alloc: Global, room: &PrintRoom, name: &Text) -> Result<(), Rejection>
    ensures { result ≡ by_operator name.now room.now }
{
    if room.is_operator(name) {
        Ok(())
    } else {
        Err(refused(alloc, Status::NotAuthorized))
    }
}

/// The format of a document, as the settings spell it, or the rejection of a compressed document or an
/// unsupported format.
pub(crate) fn checked_format<'a>(
    alloc: Global,
    offer: &Offer<'a>,
    form: &DocumentForm,
) -> Result<&'a Text, Rejection>
    ensures { MatchResult result (λ format. checked_format form.now offer.now ≡ Ok format.now) (λ refusal. checked_format form.now offer.now ≡ Err refusal) }
{
    if is_compressed(&form.compression) {
        return Err(refused(alloc, Status::CompressionNotSupported));
    }
    match format_of(offer, &form.format) {
        Some(format) => Ok(format),
        None => Err(refused(alloc, Status::FormatNotSupported)),
    }
}

/// The requested format, if the printer has it; without a requested format the printer's default.
fn format_of<'a>(offer: &Offer<'a>, requested: &Option<Text>) -> Option<&'a Text>
    ensures { option_copied result ≡ format_of offer.now requested.now }
{
    match requested {
        Some(requested) => offer.format_named(requested.as_bytes()),
        None => Some(offer.default_format()),
    }
}

/// Returns whether a document is compressed (RFC 8011, section 4.2.1.1).
fn is_compressed(compression: &Option<Text>) -> bool
    ensures { result ≡ is_compressed compression.now }
{
    match compression {
        Some(compression) => compression.as_bytes() != b"none".as_slice(),
        None => false,
    }
}

/// The unsupported attributes of a job group. They are a rejection if `fidelity` is true.
pub(crate) fn unsupported_attributes(
    alloc: Global,
    offer: &Offer<'_>,
    fidelity: bool,
    template: RequestAttributes,
) -> Result<RequestAttributes, Rejection>
    ensures { result ≡ unsupported_attributes fidelity template offer.now }
{
    let mut unsupported = template;
    unsupported.make_unsupported(alloc, offer);
    if unsupported.breaks_fidelity(fidelity) {
        return Err(Rejection {
            status: Status::AttributesNotSupported,
            unsupported,
        });
    }
    Ok(unsupported)
}
