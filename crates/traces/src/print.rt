//! The writers of the lines that a played trace prints for an event and for connections.
ghost use Rattle.std.specs.Prelude.{◌≡◌, ◌++◌, OnOk, Option, codes};
ghost use Rattle.std.specs.Option.{option_copied};
ghost use Rattle.std.specs.Fmt.{decimal};
ghost use Rattle.hex.specs.Hex.{encode_lower};
ghost use Rattle.traces.specs.Printed.{reply_line, cancel_line, class_words, stranded_words, plan_line, plan_lines, start_line, start_lines, dispatch_lines};
ghost use Rattle.traces.specs.Connections.{out_line, gone_line, peer_text, connection_text, connections_text};

use crate::peers::Connection;
use base_types::{Stranded, Text};
use events::Cancel;
use plan_prices::{Plan, PlannedClass};
use plan_text::{put_class_word, put_job_words, put_stranded_word, write_named_plan};
use print_room::Started;
use std::alloc::{AllocError, Global};
use wires::MemoryPeer;

/// Appends the line of a reply with these bytes.
pub fn put_reply(alloc: Global, output: &mut Vec<u8>, bytes: &[u8]) -> Result<(), AllocError>
    ensures { OnOk result (output.new.items ≡ output.old.items ++ reply_line bytes.now) }
{
    let digits = hex::encode(alloc, bytes)?;
    output.extend_from_slice(b"reply ")?;
    output.extend_from_slice(digits.as_bytes())?;
    output.extend_from_slice(b"\n")?;
    Ok(())
}

/// Appends the line of a cancel.
pub fn put_cancel(
    alloc: Global,
    output: &mut Vec<u8>,
    names: &[Text],
    cancel: Cancel,
) -> Result<(), AllocError>
    ensures { OnOk result (output.new.items ≡ output.old.items ++ cancel_line names.now cancel) }
{
    put_job_words(alloc, output, "cancel", names, cancel.job, cancel.device)?;
    output.extend_from_slice(b"\n")?;
    Ok(())
}

/// Appends the lines of a dispatch: the plan's line, its text if `texts` is true, and a line for each job
/// that starts.
pub fn put_dispatch(
    alloc: Global,
    output: &mut Vec<u8>,
    texts: bool,
    names: &[Text],
    plan: Option<&Plan>,
    started: &[Started],
) -> Result<(), AllocError>
    ensures { OnOk result (output.new.items ≡ output.old.items ++ dispatch_lines texts names.now (option_copied plan.entry) started.now) }
{
    put_plan_made(alloc, output, texts, names, plan)?;
    put_starts(alloc, output, names, started)?;
    Ok(())
}

fn put_plan_made(
    alloc: Global,
    output: &mut Vec<u8>,
    texts: bool,
    names: &[Text],
    plan: Option<&Plan>,
) -> Result<(), AllocError>
    ensures { OnOk result (output.new.items ≡ output.old.items ++ plan_lines texts names.now (option_copied plan.entry)) }
{
    let Some(plan) = plan else {
        return Ok(());
    };
    put_plan(alloc, output, plan)?;
    if texts {
        write_named_plan(alloc, names, plan, output)?;
    }
    Ok(())
}

/// Appends the line of a plan: each class with its total, then each stranded job with its cause.
fn put_plan(alloc: Global, output: &mut Vec<u8>, plan: &Plan) -> Result<(), AllocError>
    ensures { OnOk result (output.new.items ≡ output.old.items ++ plan_line plan.now) }
{
    output.extend_from_slice(b"plan")?;
    put_classes(alloc, output, plan.classes())?;
    put_stranded_jobs(alloc, output, plan.stranded())?;
    output.extend_from_slice(b"\n")?;
    Ok(())
}

fn put_classes(
    alloc: Global,
    output: &mut Vec<u8>,
    classes: &[PlannedClass],
) -> Result<(), AllocError>
    ensures { OnOk result (output.new.items ≡ output.old.items ++ class_words classes.now) }
{
    for class in classes {
        put_class_word(alloc, output, class.priority, class.priced.total)?;
    }
    Ok(())
}

fn put_stranded_jobs(
    alloc: Global,
    output: &mut Vec<u8>,
    stranded: &[Stranded],
) -> Result<(), AllocError>
    ensures { OnOk result (output.new.items ≡ output.old.items ++ stranded_words stranded.now) }
{
    for job in stranded {
        put_stranded_word(alloc, output, *job)?;
    }
    Ok(())
}

fn put_starts(
    alloc: Global,
    output: &mut Vec<u8>,
    names: &[Text],
    started: &[Started],
) -> Result<(), AllocError>
    ensures { OnOk result (output.new.items ≡ output.old.items ++ start_lines names.now started.now) }
{
    for start in started {
        put_start(alloc, output, names, *start)?;
    }
    Ok(())
}

fn put_start(
    alloc: Global,
    output: &mut Vec<u8>,
    names: &[Text],
    started: Started,
) -> Result<(), AllocError>
    ensures { OnOk result (output.new.items ≡ output.old.items ++ start_line names.now started) }
{
    put_job_words(alloc, output, "start", names, started.job, started.device)?;
    output.extend_from_slice(b"\n")?;
    Ok(())
}

/// Appends the lines of connections, in order: the bytes that each peer got, if any, and its close.
pub(crate) fn put_connections(
    alloc: Global,
    output: &mut Vec<u8>,
    connections: &[Connection],
    peers: &[MemoryPeer],
) -> Result<(), AllocError>
    ensures { OnOk result (output.new.items ≡ output.old.items ++ connections_text peers.now connections.now) }
{
    for connection in connections {
        put_connection(alloc, output, *connection, peers)?;
    }
    Ok(())
}

fn put_connection(
    alloc: Global,
    output: &mut Vec<u8>,
    connection: Connection,
    peers: &[MemoryPeer],
) -> Result<(), AllocError>
    ensures { OnOk result (output.new.items ≡ output.old.items ++ connection_text peers.now connection) }
{
    match peers.get(connection.place) {
        Some(peer) => put_peer(alloc, output, connection, peer),
        None => Ok(()),
    }
}

fn put_peer(
    alloc: Global,
    output: &mut Vec<u8>,
    connection: Connection,
    peer: &MemoryPeer,
) -> Result<(), AllocError>
    ensures { OnOk result (output.new.items ≡ output.old.items ++ peer_text connection peer.now) }
{
    put_taken(alloc, output, connection.number, &peer.taken)?;
    if peer.closed && !connection.gone {
        put_gone(alloc, output, connection.number)?;
    }
    Ok(())
}

fn put_taken(
    alloc: Global,
    output: &mut Vec<u8>,
    number: u64,
    taken: &[u8],
) -> Result<(), AllocError>
    ensures { OnOk result (output.new.items ≡ output.old.items ++ out_line number taken.now) }
{
    if taken.is_empty() {
        return Ok(());
    }
    put_out(alloc, output, number, taken)
}

/// Appends the line of the bytes that a connection is sent. The error is out of memory.
pub fn put_out(
    alloc: Global,
    output: &mut Vec<u8>,
    number: u64,
    bytes: &[u8],
) -> Result<(), AllocError>
    ensures { OnOk result (output.new.items ≡ output.old.items ++ (codes "out " ++ (decimal number ++ (codes " " ++ (encode_lower bytes.now ++ codes "\n"))))) }
{
    let words = format!(in alloc; "out {number} ")?;
    let digits = hex::encode(alloc, bytes)?;
    output.extend_from_slice(words.as_bytes())?;
    output.extend_from_slice(digits.as_bytes())?;
    output.extend_from_slice(b"\n")?;
    Ok(())
}

/// Appends the line of a connection that the server has closed. The error is out of memory.
pub fn put_gone(alloc: Global, output: &mut Vec<u8>, number: u64) -> Result<(), AllocError>
    ensures { OnOk result (output.new.items ≡ output.old.items ++ gone_line number) }
{
    let line = format!(in alloc; "gone {number}\n")?;
    output.extend_from_slice(line.as_bytes())
}
