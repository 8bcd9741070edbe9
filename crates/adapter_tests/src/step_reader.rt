//! Steps as a rows file writes them.

use crate::data_fault::DataFault;
use crate::escapes::{NamedBytes, read_bytes};
use crate::ipp::{operation, reply};
use crate::step::{Act, Step};
use adapter_printers::Peer;
use std::alloc::Global;
use text::{decimal, number_up_to};

/// The largest number of a step.
const MOST: u64 = 9_999_999_999;

/// Reads a step, of which the first word of the line and the rest of it are given.
pub(crate) fn read_step(
    alloc: Global,
    texts: &[NamedBytes],
    word: &str,
    rest: &str,
) -> Result<Step, DataFault> {
    match word {
        "closes" => step(alloc, texts, Act::Closes, rest),
        "begins" => step(alloc, texts, Act::Begins, rest),
        "answers" => read_answer(alloc, texts, rest),
        _ => {
            let (first, written) = first_word(rest);
            step(alloc, texts, read_act(word, first)?, written)
        }
    }
}

/// A step with bytes as they are written. The error is also that a step of this kind has none.
fn step(alloc: Global, texts: &[NamedBytes], act: Act, written: &str) -> Result<Step, DataFault> {
    if !act.has_bytes() && !written.is_empty() {
        return Err(DataFault::Bytes);
    }
    Ok(Step {
        act,
        bytes: read_bytes(alloc, texts, written)?,
    })
}

/// The first word of a text, and what follows the blank after it.
pub(crate) fn first_word(text: &str) -> (&str, &str) {
    text.split_once(" ").unwrap_or((text, ""))
}

/// Reads what happens at a step, of which the first two words are given.
fn read_act(word: &str, first: &str) -> Result<Act, DataFault> {
    match word {
        "asks" => read_operation(first),
        "holds" => Ok(Act::Holds(number(first)?)),
        "passes" => Ok(Act::Passes(number(first)?)),
        _ => read_act_of_peer(word, first),
    }
}

/// Reads what happens at a step of a peer, of which the word and the name of the peer are given.
fn read_act_of_peer(word: &str, name: &str) -> Result<Act, DataFault> {
    match word {
        "connects" => Ok(Act::Connects(peer(name)?)),
        "misses" => Ok(Act::Misses(peer(name)?)),
        "writes" => Ok(Act::Writes(peer(name)?)),
        "sends" => Ok(Act::Sends(peer(name)?)),
        "finishes" => Ok(Act::Finishes(peer(name)?)),
        "ends" => Ok(Act::Ends(peer(name)?)),
        "breaks" => Ok(Act::Breaks(peer(name)?)),
        _ => Err(DataFault::Word),
    }
}

/// The peer of a name.
fn peer(name: &str) -> Result<Peer, DataFault> {
    match name {
        "server" => Ok(Peer::Server),
        "printer" => Ok(Peer::Printer),
        _ => Err(DataFault::Peer),
    }
}

/// A request with the operation of a name.
fn read_operation(name: &str) -> Result<Act, DataFault> {
    match operation(name) {
        Some(operation) => Ok(Act::Asks(operation)),
        None => Err(DataFault::Operation),
    }
}

/// The number that a word is.
fn number(word: &str) -> Result<u64, DataFault> {
    number_up_to(word.as_bytes(), MOST).ok_or(DataFault::Number)
}

/// The status of a reply, which is written in hexadecimal.
fn status(word: &str) -> Result<u16, DataFault> {
    let digits = word.strip_prefix("0x").ok_or(DataFault::Number)?;
    u16::from_str_radix(digits, 16).map_err(|_| DataFault::Number)
}

/// Reads a step at which the printer replies to a request of IPP.
fn read_answer(alloc: Global, texts: &[NamedBytes], rest: &str) -> Result<Step, DataFault> {
    let (code, rest) = first_word(rest);
    let (request, written) = first_word(rest);
    let request = decimal(request.as_bytes()).ok_or(DataFault::Number)?;
    let groups = read_bytes(alloc, texts, written)?;
    Ok(Step {
        act: Act::Sends(Peer::Printer),
        bytes: reply(alloc, status(code)?, request, &groups)?,
    })
}
