//! Octets in pages.
ghost use Rattle.std.specs.Prelude.{◌≡◌, ◌≤◌, ◌<◌, ◌↔◌, ◌++◌, [], IsTrue, OnOk, OnErr, length, drop};
ghost use Rattle.octets.specs.Document.{IsPrefixOf};

use crate::page::{PAGE_BYTES, Page, first_room};
use crate::paged::{Paged, in_pages};
use std::alloc::{AllocError, Global};
use std::marker::Model;

/// The octets of a document that comes in segments. In clauses they are their list.
///
/// Octets aren't moved when more of them come, since they lie in pages.
#[derive(Drop)]
pub struct Pages {
    alloc: Global,
    paged: Paged,
    len: usize,
}

impl Model for Pages {
    ghost use Rattle.std.specs.Prelude.{ℕ, List, ◌≡◌, length};
    ghost use Rattle.octets.specs.Pages.{octets_in, IsPaged};

    ghost Value = { List ℕ };

    ghost view = { λ o. octets_in o.paged };

    ghost invariant = { λ o. IsPaged o.paged × (o.len ≡ length (octets_in o.paged)) };
}

impl Pages {
    /// Creates pages without octets. The call takes no memory.
    pub fn new(alloc: Global) -> Pages
        ensures { result ≡ [] }
    {
        Pages {
            alloc,
            paged: Paged {
                pages: Vec::new(alloc),
                last: Page::new(alloc),
            },
            len: 0,
        }
    }

    /// Appends octets. The only error is out of memory, and nothing is appended then.
    pub fn push(&mut self, segment: &[u8]) -> Result<(), AllocError>
        ensures ok { OnOk result (self.new ≡ self.old ++ segment.now) }
        ensures err { OnErr result (self.new ≡ self.old) }
    {
        let Some(len) = self.len.checked_add(segment.len()) else {
            return Err(AllocError);
        };
        let room = PAGE_BYTES - self.paged.last.octets().len();
        if segment.len() < room {
            self.paged
                .last
                .append(segment, first_room(self.paged.pages.len()))?;
        } else {
            let (prefix, tail) = segment.split_at(room);
            let first = first_room(self.paged.pages.len());
            self.paged
                .go_on(prefix, in_pages(self.alloc, tail, first)?)?;
        }
        self.len = len;
        Ok(())
    }

    /// Returns the number of octets.
    pub fn len(&self) -> usize
        ensures { result ≡ length self.now }
    {
        self.len
    }

    /// Returns whether there are no octets.
    pub fn is_empty(&self) -> bool
        ensures { IsTrue result ↔ (self.now ≡ []) }
    {
        self.len == 0
    }

    /// Returns the octets from `start` on that lie together in memory. They are empty only at the end.
    pub fn segment(&self, start: usize) -> &[u8]
        requires { start ≤ length self.now }
        ensures { IsPrefixOf result.now (drop start self.now) }
    {
        &self.paged.page_at(start).octets()[start % PAGE_BYTES..]
    }
}
