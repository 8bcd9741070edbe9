//! The text of a queue for an LPD client (RFC 1179, sections 5.3 and 5.4), and the byte that acknowledges a
//! job (section 6).
ghost use Rattle.std.specs.Prelude.{◌≡◌, ◌++◌, IfOk, OnOk, codes};
ghost use Rattle.std.specs.Fmt.{decimal};
ghost use Rattle.std.specs.List.{flat_map};
ghost use Rattle.ipp_operations.specs.QueueText.{ack_of, line_of, lines_of, long_line, long_start, printer_word, queue_text, reasons_word, short_line, shown, sizes_of, shown_byte, state_word, text_of};

use events::{LpdResponse, QueueEntry, QueueForm, QueueListing};
use job_objects::{JobReasons, JobState};
use printer_objects::PrinterState;
use std::alloc::{AllocError, Global};

/// The byte that accepts what an LPD client sent (RFC 1179, section 6).
pub const ACCEPTED: u8 = 0;

/// The byte that refuses what an LPD client sent (RFC 1179, section 6).
pub const REFUSED: u8 = 1;

/// The byte for an LPD client whose files are a whole job: [`ACCEPTED`] if the job was taken, else [`REFUSED`].
pub fn lpd_ack(answer: &LpdResponse) -> u8
    ensures { result ≡ ack_of answer.now }
{
    match answer {
        LpdResponse::Taken(true) => ACCEPTED,
        LpdResponse::Taken(false) => REFUSED,
        LpdResponse::Queue(_) | LpdResponse::NoQueue => REFUSED,
    }
}

/// The text for an LPD client that lists a queue. The only error is out of memory.
pub fn lpd_queue_text(alloc: Global, answer: &LpdResponse) -> Result<Vec<u8>, AllocError>
    ensures { IfOk result (λ text. text.items ≡ text_of answer.now) }
{
    match answer {
        LpdResponse::Queue(listing) => queue_text(alloc, listing),
        LpdResponse::NoQueue => Vec::from_slice(alloc, b"no queue\n"),
        LpdResponse::Taken(_) => Ok(Vec::new(alloc)),
    }
}

/// The text of a listing: the name and the state of the printer, and then its jobs.
fn queue_text(alloc: Global, listing: &QueueListing) -> Result<Vec<u8>, AllocError>
    ensures { IfOk result (λ text. text.items ≡ queue_text listing.now) }
{
    let mut text = Vec::from_slice(alloc, listing.name.as_bytes())?;
    text.extend_from_slice(b" ")?;
    text.extend_from_slice(printer_word(listing.state).as_bytes())?;
    text.extend_from_slice(b"\n")?;
    put_lines(alloc, &mut text, listing.form, &listing.jobs)?;
    Ok(text)
}

/// Appends a line for each job, or the line `no entries`.
fn put_lines(
    alloc: Global,
    text: &mut Vec<u8>,
    form: QueueForm,
    jobs: &[QueueEntry],
) -> Result<(), AllocError>
    ensures { OnOk result (text.new.items ≡ text.old.items ++ lines_of form jobs.now) }
{
    if jobs.is_empty() {
        text.extend_from_slice(b"no entries\n")?;
        return Ok(());
    }
    put_each(alloc, text, form, jobs)?;
    Ok(())
}

/// Appends a line for each job.
fn put_each(
    alloc: Global,
    text: &mut Vec<u8>,
    form: QueueForm,
    jobs: &[QueueEntry],
) -> Result<(), AllocError>
    ensures { OnOk result (text.new.items ≡ text.old.items ++ flat_map (line_of form) jobs.now) }
{
    for job in jobs {
        let line = line_of(alloc, form, job)?;
        text.extend_from_slice(&line)?;
    }
    Ok(())
}

/// The line of a job.
fn line_of(alloc: Global, form: QueueForm, job: &QueueEntry) -> Result<Vec<u8>, AllocError>
    ensures { IfOk result (λ line. line.items ≡ line_of form job.now) }
{
    match form {
        QueueForm::Short => short_line(alloc, job),
        QueueForm::Long => long_line(alloc, job),
    }
}

/// The line of a job in the short form.
fn short_line(alloc: Global, job: &QueueEntry) -> Result<Vec<u8>, AllocError>
    ensures { IfOk result (λ line. line.items ≡ short_line job.now) }
{
    let mut line = start_of(alloc, job)?;
    put_shown(alloc, &mut line, true, job.owner.as_bytes())?;
    put_octets(alloc, &mut line, job.octets)?;
    put_shown(alloc, &mut line, false, job.name.as_bytes())?;
    line.extend_from_slice(b"\n")?;
    Ok(line)
}

/// The beginning of both forms: the id and the state.
fn start_of(alloc: Global, job: &QueueEntry) -> Result<Vec<u8>, AllocError>
    ensures { IfOk result (λ start. start.items ≡ decimal job.now.id ++ (codes " " ++ (state_word job.now.state ++ codes " "))) }
{
    let number = job.id.number();
    let state = state_word(job.state);
    let start = format!(in alloc; "{number} {state} ")?;
    Vec::from_slice(alloc, start.as_bytes())
}

/// Appends a number of octets, with spaces around it.
fn put_octets(alloc: Global, line: &mut Vec<u8>, octets: usize) -> Result<(), AllocError>
    ensures { OnOk result (line.new.items ≡ line.old.items ++ (codes " " ++ (decimal octets ++ codes " "))) }
{
    let size = format!(in alloc; " {octets} ")?;
    line.extend_from_slice(size.as_bytes())?;
    Ok(())
}

/// The line of a job in the long form.
fn long_line(alloc: Global, job: &QueueEntry) -> Result<Vec<u8>, AllocError>
    ensures { IfOk result (λ line. line.items ≡ long_line job.now) }
{
    let mut line = long_start(alloc, job)?;
    put_shown(alloc, &mut line, true, job.owner.as_bytes())?;
    line.extend_from_slice(&sizes_of(alloc, job)?)?;
    put_shown(alloc, &mut line, false, job.name.as_bytes())?;
    line.extend_from_slice(b"\n")?;
    Ok(line)
}

/// The beginning of the long form, before the owner: the id, the state and its reasons.
#[tactic(auto, unfolding(crate::specs::QueueText::long_start))]
fn long_start(alloc: Global, job: &QueueEntry) -> Result<Vec<u8>, AllocError>
    ensures { IfOk result (λ start. start.items ≡ long_start job.now) }
{
    let mut start = start_of(alloc, job)?;
    put_reasons(&mut start, job.reasons)?;
    start.extend_from_slice(b" ")?;
    Ok(start)
}

/// The sizes of a job in the long form: its octets, its impressions and its copies.
#[tactic(auto, unfolding(crate::specs::QueueText::sizes_of))]
fn sizes_of(alloc: Global, job: &QueueEntry) -> Result<Vec<u8>, AllocError>
    ensures { IfOk result (λ words. words.items ≡ sizes_of job.now) }
{
    let octets = job.octets;
    let impressions = job.impressions;
    let copies = job.copies;
    let words = format!(in alloc; " {octets} {impressions} {copies} ")?;
    Vec::from_slice(alloc, words.as_bytes())
}

/// Appends the reasons of a job's state: one keyword, or two with a comma between.
fn put_reasons(line: &mut Vec<u8>, reasons: JobReasons) -> Result<(), AllocError>
    ensures { OnOk result (line.new.items ≡ line.old.items ++ reasons_word reasons) }
{
    line.extend_from_slice(reasons.first.keyword().as_bytes())?;
    if let Some(second) = reasons.second {
        line.extend_from_slice(b",")?;
        line.extend_from_slice(second.keyword().as_bytes())?;
    }
    Ok(())
}

/// Appends the written form of a name.
fn put_shown(
    alloc: Global,
    line: &mut Vec<u8>,
    one_word: bool,
    bytes: &[u8],
) -> Result<(), AllocError>
    ensures { OnOk result (line.new.items ≡ line.old.items ++ shown one_word bytes.now) }
{
    let written = shown(alloc, one_word, bytes)?;
    line.extend_from_slice(&written)?;
    Ok(())
}

/// The written form of a name.
fn shown(alloc: Global, one_word: bool, bytes: &[u8]) -> Result<Vec<u8>, AllocError>
    ensures { IfOk result (λ written. written.items ≡ shown one_word bytes.now) }
{
    let mut written = Vec::with_capacity(alloc, bytes.len())?;
    for byte in bytes {
        written.push(shown_byte(one_word, *byte))?;
    }
    Ok(written)
}

/// The written form of a byte: a control character is a question mark, and so is a space in a name that has
/// to be one word.
fn shown_byte(one_word: bool, byte: u8) -> u8
    ensures { result ≡ shown_byte one_word byte }
{
    if byte < b' ' || byte == 0x7F || (one_word && byte == b' ') {
        b'?'
    } else {
        byte
    }
}

/// The word of a printer's state.
fn printer_word(state: PrinterState) -> &'static str
    ensures { result.now ≡ printer_word state }
{
    match state {
        PrinterState::Idle => "idle",
        PrinterState::Processing => "processing",
        PrinterState::Stopped => "stopped",
    }
}

/// The word of a job's state. A listing has no finished jobs.
fn state_word(state: JobState) -> &'static str
    ensures { result.now ≡ state_word state }
{
    match state {
        JobState::Pending => "pending",
        JobState::PendingHeld => "pending-held",
        JobState::Processing => "processing",
        JobState::Stopped => "processing-stopped",
        JobState::Canceled => "canceled",
        JobState::Aborted => "aborted",
        JobState::Completed => "completed",
    }
}
