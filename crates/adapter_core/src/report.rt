//! The lines that a device sends.
ghost use Rattle.std.specs.Prelude.{◌≡◌, ◌∷◌, ◌++◌, IfOk, OnOk, OnErr};
ghost use Rattle.base_types.specs.Report.{report_of};
ghost use Rattle.adapter_core.specs.Reports.{report_line, hello_line, media_line, listed, number_line, pages_line};

use base_types::{Report, Text};
use std::alloc::{AllocError, Global};

/// Appends the line of a report; [`Report::Gone`] has none. The only error is out of memory, and nothing is
/// appended then.
pub fn write_report(alloc: Global, report: &Report, output: &mut Vec<u8>) -> Result<(), AllocError>
    ensures ok { OnOk result (output.new.items ≡ output.old.items ++ report_line (report_of report.now)) }
    ensures err { OnErr result (output.new.items ≡ output.old.items) }
{
    let line = report_text(alloc, report)?;
    output.extend_from_slice(&line)
}

/// The line of a report.
fn report_text(alloc: Global, report: &Report) -> Result<Vec<u8>, AllocError>
    ensures { IfOk result (λ line. line.items ≡ report_line (report_of report.now)) }
{
    match report {
        Report::Hello(name) => hello_text(alloc, name.as_bytes()),
        Report::Media(names) => media_text(alloc, names),
        Report::Ready => Vec::from_slice(alloc, b"READY\n"),
        Report::Stop => Vec::from_slice(alloc, b"STOP\n"),
        Report::Busy(time) => number_text(alloc, "BUSY", *time),
        Report::Pages { job, printed } => pages_text(alloc, *job, *printed),
        Report::Done { job } => number_text(alloc, "DONE", *job),
        Report::Fail { job } => number_text(alloc, "FAIL", *job),
        Report::Gone => Ok(Vec::new(alloc)),
    }
}

/// The line of a name.
fn hello_text(alloc: Global, name: &[u8]) -> Result<Vec<u8>, AllocError>
    ensures { IfOk result (λ line. line.items ≡ hello_line name.now) }
{
    let mut line = Vec::from_slice(alloc, b"HELLO ")?;
    line.extend_from_slice(name)?;
    line.extend_from_slice(b"\n")?;
    Ok(line)
}

/// The line of the media that are loaded.
fn media_text(alloc: Global, names: &[Text]) -> Result<Vec<u8>, AllocError>
    ensures { IfOk result (λ line. line.items ≡ media_line names.now) }
{
    let mut line = Vec::from_slice(alloc, b"MEDIA")?;
    put_names(&mut line, names)?;
    line.extend_from_slice(b"\n")?;
    Ok(line)
}

/// Appends names, the first after a space and each other after a comma.
fn put_names(line: &mut Vec<u8>, names: &[Text]) -> Result<(), AllocError>
    ensures { OnOk result (line.new.items ≡ line.old.items ++ listed 32 names.now) }
{
    let mut separator = b' ';
    for name in names {
        put_name(line, separator, name)?;
        separator = b',';
    }
    Ok(())
}

/// Appends a separator and a name.
fn put_name(line: &mut Vec<u8>, separator: u8, name: &Text) -> Result<(), AllocError>
    ensures { OnOk result (line.new.items ≡ line.old.items ++ (separator ∷ name.now)) }
{
    line.push(separator)?;
    line.extend_from_slice(name.as_bytes())
}

/// The line of a word and a number.
fn number_text(alloc: Global, word: &str, number: u32) -> Result<Vec<u8>, AllocError>
    ensures { IfOk result (λ line. line.items ≡ number_line word.now number) }
{
    let line = format!(in alloc; "{word} {number}\n")?;
    Vec::from_slice(alloc, line.as_bytes())
}

/// The line of the impressions that are printed of a job.
fn pages_text(alloc: Global, job: u32, printed: u32) -> Result<Vec<u8>, AllocError>
    ensures { IfOk result (λ line. line.items ≡ pages_line job printed) }
{
    let line = format!(in alloc; "PAGES {job} {printed}\n")?;
    Vec::from_slice(alloc, line.as_bytes())
}
