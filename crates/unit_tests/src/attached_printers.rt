//! The orders from the server to a device, the reports of an adapter, and the status messages of a printer
//! in PJL.
use adapter_core::{
    AdapterState, Order, OrderError, OrderItem, OrderReader, PjlReader, PjlStatus, write_report,
};
use base_types::{JobId, Report};
use std::alloc::{AllocError, Global};
use std::test::Fail;

/// A job of five octets, a cancel, and a line that the server never writes.
const STREAM: &[u8] = b"JOB 7 5 2 L iso_a4_210x297mm SB\nhelloCANCEL 7\nPRINT 8\n";

/// The items of the stream: each order in words, each octet, and the fault.
const ITEMS: &str = "job 7 5 2 true false true;hello cancel 7;fault";

/// A page, the end of a job, a jam, and a message of another kind.
const STATUSES: &[u8] =
    b"@PJL USTATUS PAGE\r\n3\r\n\x0c@PJL USTATUS JOB\r\nEND\r\nPAGES=3\r\n\x0c@PJL USTATUS DEVICE\r\nCODE=42000\r\n\x0cnonsense\x0c";

/// Appends the text of an order. The only error is out of memory.
fn add_order(alloc: Global, order: &Order, text: &mut String) -> Result<(), AllocError> {
    let line = match order {
        Order::Job(job) => {
            let id = job.job.number();
            let (octets, copies) = (job.octets, job.copies);
            let (staple, punch, bind) = (
                job.finishings.staple,
                job.finishings.punch,
                job.finishings.bind,
            );
            format!(in alloc; "job {id} {octets} {copies} {staple} {punch} {bind};")?
        }
        Order::Cancel(job) => {
            let id = job.number();
            format!(in alloc; " cancel {id};")?
        }
    };
    text.push_str(&line)
}

/// Appends the items that the reader has for now. The only error is out of memory.
fn add_items(alloc: Global, reader: &mut OrderReader, text: &mut String) -> Result<(), AllocError> {
    for _ in 0..4 {
        match reader.next_item() {
            Ok(None) => return Ok(()),
            Ok(Some(OrderItem::Order(order))) => add_order(alloc, &order, text)?,
            Ok(Some(OrderItem::Octets)) => {
                for octet in reader.part() {
                    text.push(char::from(*octet))?;
                }
            }
            Err(OrderError::OutOfMemory) => return Err(AllocError),
            Err(OrderError::Fault(_)) => return text.push_str("fault"),
        }
    }
    Ok(())
}

/// The items of a stream that comes in two segments, as a text. The only error is out of memory.
fn items_of(alloc: Global, first: &[u8], second: &[u8]) -> Result<String, AllocError> {
    let mut text = String::new(alloc);
    let mut reader = OrderReader::new(alloc);
    reader.feed(first)?;
    add_items(alloc, &mut reader, &mut text)?;
    reader.feed(second)?;
    add_items(alloc, &mut reader, &mut text)?;
    Ok(text)
}

#[test]
fn orders_in_two_segments(rt: HostRuntime) -> Result<(), Fail> {
    for &count in &[0, 5, 32, 35, 40, 46] {
        let (first, second) = STREAM.split_at(count);
        let text = items_of(rt.alloc(), first, second)?;
        assert!(rt; text.as_str() == ITEMS);
    }
    Ok(())
}

/// The octets that an adapter sends for a job of two copies, whose octets have all come, to a printer that
/// takes two octets at a time; and whether the adapter then reports the job as done.
fn printed(alloc: Global, job: JobId, cancels: bool) -> Result<(Vec<u8>, bool), AllocError> {
    let mut sent = Vec::new(alloc);
    let mut state = AdapterState::new(alloc);
    if state.job().is_some() {
        return Ok((sent, false));
    }
    state.order(job, 5, 2);
    if state.room() == Some(5) {
        state.take(b"hello")?;
    }
    if cancels {
        state.cancel(job);
    }
    for _ in 0..8 {
        send_two(&mut state, &mut sent)?;
    }
    let done = matches!(&state.finish(), Some(Report::Done { .. }));
    Ok((sent, done))
}

/// Sends at most two octets, and ends the copy if all of it is sent.
fn send_two(state: &mut AdapterState, sent: &mut Vec<u8>) -> Result<(), AllocError> {
    let due = state.due();
    let count = due.len().min(2);
    sent.extend_from_slice(&due[..count])?;
    if count > 0 {
        state.send(count);
    }
    if state.is_copy_sent() {
        state.end_copy();
    }
    Ok(())
}

#[test]
fn copies_one_after_the_other(rt: HostRuntime) -> Result<(), Fail> {
    let Some(job) = JobId::new(7) else {
        assert!(rt; false);
        return Ok(());
    };
    let (sent, done) = printed(rt.alloc(), job, false)?;
    assert!(rt; sent.as_slice() == b"hellohello".as_slice() && done);
    let (sent, done) = printed(rt.alloc(), job, true)?;
    assert!(rt; sent.is_empty() && !done);
    Ok(())
}

#[test]
fn reports_as_lines(rt: HostRuntime) -> Result<(), Fail> {
    let mut text = Vec::new(rt.alloc());
    write_report(rt.alloc(), &Report::Ready, &mut text)?;
    write_report(
        rt.alloc(),
        &Report::Pages {
            job: 7,
            printed: 12,
        },
        &mut text,
    )?;
    write_report(rt.alloc(), &Report::Done { job: 7 }, &mut text)?;
    assert!(rt; text.as_slice() == b"READY\nPAGES 7 12\nDONE 7\n".as_slice());
    Ok(())
}

#[test]
fn statuses_of_a_printer(rt: HostRuntime) -> Result<(), Fail> {
    let mut statuses = Vec::new(rt.alloc());
    let mut reader = PjlReader::new(rt.alloc());
    for byte in STATUSES {
        if let Some(status) = reader.take(*byte)? {
            statuses.push(status)?;
        }
    }
    let wanted = [
        PjlStatus::Page(3),
        PjlStatus::JobEnded,
        PjlStatus::Device(42_000),
        PjlStatus::Other,
    ];
    assert!(rt; statuses.as_slice() == wanted.as_slice());
    Ok(())
}
