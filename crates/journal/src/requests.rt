//! The requests by which a job is submitted, and those of an operator.
use crate::client::Client;
use crate::saved_job::SavedJob;
use crate::unsent::Unsent;
use base_types::{Hold, JobId, Text};
use ipp_requests::{Creation, cancel_users_job, create_job, pause_printer, send_document};
use octets::{Document, Octets};
use std::alloc::{AllocError, Global};

/// The URI of the printer of a name, as requests to this server have it.
fn uri_of(alloc: Global, printer: &Text) -> Result<Vec<u8>, AllocError> {
    let mut uri = Vec::from_slice(alloc, b"ipp://localhost/printers/")?;
    uri.extend_from_slice(printer.as_bytes())?;
    Ok(uri)
}

/// The number of a job in a request.
fn number_of(id: JobId) -> i32 {
    id.number().cast_signed()
}

/// Adds a request with this message and document to what a client sends.
fn put_request(
    alloc: Global,
    client: &mut Client,
    message: &[u8],
    document: Option<&Octets>,
) -> Result<(), AllocError> {
    let octets = document.map_or(0, |octets| octets.len());
    let length = message.len().saturating_add(octets);
    let head = format!(in alloc;
        "POST / HTTP/1.1\r\nHost: localhost\r\nContent-Type: application/ipp\r\nContent-Length: {length}\r\n\r\n"
    )?;
    let mut bytes = Vec::from_slice(alloc, head.as_bytes())?;
    bytes.extend_from_slice(message)?;
    client.put(bytes)?;
    match document {
        Some(octets) => client.put_document(octets),
        None => Ok(()),
    }
}

/// The attributes with which a job was created.
fn creation_of(job: &SavedJob) -> Creation<'_> {
    Creation {
        user: job.owner.as_bytes(),
        name: job.name.as_bytes(),
        impressions: job.impressions,
        priority: u32::from(job.priority.level()),
        hold_until: Hold::held_where(job.held).keyword().as_bytes(),
        copies: job.copies,
        sides: job.sides.keyword().as_bytes(),
        media: job.media.as_bytes(),
        finishings: job.finishings,
    }
}

/// Adds the request that sends a document of a job, or none.
fn put_document(
    alloc: Global,
    client: &mut Client,
    job: &SavedJob,
    id: JobId,
    document: Option<&Document>,
    last: bool,
) -> Result<(), Unsent> {
    let uri = uri_of(alloc, &job.printer)?;
    let user = job.owner.as_bytes();
    let format = document.map(|document| document.format.as_bytes());
    let message = send_document(alloc, &uri, user, number_of(id), format, last)?;
    let octets = document.map(|document| &document.contents);
    put_request(alloc, client, &message, octets)?;
    Ok(())
}

/// A client that submits a job, which is to get the id `id`: by a Create-Job, and a Send-Document for each document.
pub(crate) fn submission(alloc: Global, job: &SavedJob, id: JobId) -> Result<Client, Unsent> {
    let mut client = Client::new(alloc);
    let uri = uri_of(alloc, &job.printer)?;
    let message = create_job(alloc, &uri, &creation_of(job))?;
    put_request(alloc, &mut client, &message, None)?;
    let count = job.documents.len();
    for place in 0..count {
        let last = place + 1 == count && !job.incoming;
        put_document(alloc, &mut client, job, id, job.documents.get(place), last)?;
    }
    if count == 0 && !job.incoming {
        put_document(alloc, &mut client, job, id, None, true)?;
    }
    Ok(client)
}

/// A client that cancels the job with an id in the name of a job's owner.
pub(crate) fn cancellation(alloc: Global, job: &SavedJob, id: JobId) -> Result<Client, Unsent> {
    let mut client = Client::new(alloc);
    let uri = uri_of(alloc, &job.printer)?;
    let message = cancel_users_job(alloc, &uri, job.owner.as_bytes(), number_of(id))?;
    put_request(alloc, &mut client, &message, None)?;
    Ok(client)
}

/// A client that pauses printers in an operator's name.
pub(crate) fn pauses(alloc: Global, printers: &[Text], operator: &Text) -> Result<Client, Unsent> {
    let mut client = Client::new(alloc);
    for printer in printers {
        let uri = uri_of(alloc, printer)?;
        let message = pause_printer(alloc, &uri, operator.as_bytes())?;
        put_request(alloc, &mut client, &message, None)?;
    }
    Ok(client)
}
