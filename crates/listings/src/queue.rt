//! The printer of a queue.
ghost use Rattle.std.specs.Prelude.{◌≡◌};
ghost use Rattle.listings.specs.Queue.{queue_of};

use base_types::{PrinterId, Text};
use print_room::PrintRoom;

/// The printer with the name of a queue.
pub fn queue_of(room: &PrintRoom, name: &Text) -> Option<PrinterId>
    ensures { result ≡ queue_of name.now room.now }
{
    room.settings().printer_named(name.as_bytes())
}
