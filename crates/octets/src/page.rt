//! A page of octets.
ghost use Rattle.std.specs.Prelude.{◌≡◌, ◌+◌, ◌≤◌, ◌++◌, [], OnOk, OnErr, length};

use std::alloc::{AllocError, Global};
use std::marker::Model;

/// The number of octets of a full page. A wire takes four pages in one call, so a large document goes out in
/// few calls of the system.
pub(crate) const PAGE_BYTES: usize = 65_536;

/// The number of octets for which the first page of a document takes memory at first.
const SMALL_ROOM: usize = 4096;

/// The number of octets for which a page takes memory that needs more than [`SMALL_ROOM`], or follows a full
/// page of a document that isn't long.
const MEDIUM_ROOM: usize = 16_384;

/// The number of full pages from which on a document is long.
const LONG_PAGES: usize = 4;

/// The number of octets for which the page after `full_pages` full pages takes memory at first: few for a
/// short document, all of a page for a long one.
pub(crate) fn first_room(full_pages: usize) -> usize
    ensures { result ≤ PAGE_BYTES }
{
    match full_pages {
        0 => SMALL_ROOM,
        1..LONG_PAGES => MEDIUM_ROOM,
        _ => PAGE_BYTES,
    }
}

/// The number of octets for which a page that holds `len` octets takes memory, where it took memory for
/// `first` octets at first.
fn room_for(len: usize, first: usize) -> usize
    requires fits { len ≤ PAGE_BYTES }
    requires first { first ≤ PAGE_BYTES }
    ensures { (len ≤ result) × (result ≤ PAGE_BYTES) }
{
    if len <= first {
        first
    } else if len <= MEDIUM_ROOM {
        MEDIUM_ROOM
    } else {
        PAGE_BYTES
    }
}

/// Octets that lie together in memory. In clauses they are their list.
#[derive(Drop)]
pub(crate) struct Page {
    bytes: Vec<u8>,
}

impl Model for Page {
    ghost use Rattle.std.specs.Prelude.{ℕ, List};

    ghost Value = { List ℕ };

    ghost view = { λ p. p.bytes.items };
}

impl Page {
    /// Creates a page without octets. The call takes no memory.
    pub fn new(alloc: Global) -> Page
        ensures { result ≡ [] }
    {
        Page {
            bytes: Vec::new(alloc),
        }
    }

    /// The octets, in order.
    pub fn octets(&self) -> &[u8]
        ensures { result.now ≡ self.now }
    {
        &self.bytes
    }

    /// Appends octets that fit in the page. The first call takes memory for `first` octets, if they are
    /// enough. The only error is out of memory, and nothing is appended then.
    pub fn append(&mut self, segment: &[u8], first: usize) -> Result<(), AllocError>
        requires fits { length self.old + length segment.now ≤ PAGE_BYTES }
        requires first { first ≤ PAGE_BYTES }
        ensures ok { OnOk result (self.new ≡ self.old ++ segment.now) }
        ensures err { OnErr result (self.new ≡ self.old) }
    {
        if segment.is_empty() {
            return Ok(());
        }
        let room = room_for(self.bytes.len() + segment.len(), first);
        self.bytes.reserve_exact(room - self.bytes.len())?;
        self.bytes.extend_from_slice(segment)
    }
}
