//! The steps of a Pause-Printer and a Resume-Printer (RFC 8011, sections 4.2.7 and 4.2.8).
ghost use Rattle.std.specs.Prelude.{◌≡◌, ◌≤◌};
ghost use Rattle.dispatcher.specs.PausePrinter.{SetsPaused, paused_of};

use crate::answering::refuse;
use crate::checks::{Rejection, by_operator, named_printer};
use base_types::{Moment, PrinterId};
use events::{Effects, PrinterRequest};
use print_room::PrintRoom;
use std::alloc::Global;

/// Pauses a printer or ends its pause, or responds with the rejection. The call takes no memory.
pub(crate) fn set_paused(
    alloc: Global,
    room: &mut PrintRoom,
    request: &PrinterRequest,
    paused: bool,
    now: Moment,
) -> Effects
    requires { room.old.last ≤ now }
    ensures { SetsPaused now request.now paused room.old result room.new }
{
    let printer = match paused_of(alloc, room, request) {
        Ok(printer) => printer,
        Err(refusal) => return refuse(alloc, room, refusal, now),
    };
    if paused {
        room.pause(printer, now);
    } else {
        room.resume(printer, now);
    }
    Effects::done(alloc)
}

/// The printer, or the rejection of the first check that fails.
fn paused_of(
    alloc: Global,
    room: &PrintRoom,
    request: &PrinterRequest,
) -> Result<PrinterId, Rejection>
    ensures { result ≡ paused_of request.now room.now }
{
    let printer = named_printer(alloc, room, &request.target)?;
    by_operator(alloc, room, &request.user)?;
    Ok(printer.id)
}
