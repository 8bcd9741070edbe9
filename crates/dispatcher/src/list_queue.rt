//! The step of an LPD client's request to list a queue (RFC 1179, sections 5.3 and 5.4).
ghost use Rattle.std.specs.Prelude.{◌≡◌, ◌≤◌, IfOk, IsOk, OnErr, None};
ghost use Rattle.listings.specs.Queue.{queue_of};
ghost use Rattle.dispatcher.specs.ListQueue.{ListsQueue};

use base_types::Moment;
use events::{Effects, ListQueue, LpdResponse};
use listings::{queue_listing, queue_of};
use print_room::PrintRoom;
use std::alloc::{AllocError, Global};

/// Responds with the listing of a queue, or that the queue isn't known, which takes no memory.
pub(crate) fn list_queue(
    alloc: Global,
    room: &mut PrintRoom,
    request: &ListQueue,
    now: Moment,
) -> Result<Effects, AllocError>
    requires { room.old.last ≤ now }
    ensures ok { IfOk result (λ effects. ListsQueue now request.now room.old effects room.new) }
    ensures err { OnErr result (room.new ≡ room.old) }
    ensures light { queue_of request.now.queue room.old ≡ None → IsOk result }
{
    let answer = match queue_of(room, &request.queue) {
        Some(printer) => LpdResponse::Queue(queue_listing(alloc, room, printer, request, now)?),
        None => LpdResponse::NoQueue,
    };
    room.advance(now);
    Ok(Effects::to_lpd(alloc, answer))
}
