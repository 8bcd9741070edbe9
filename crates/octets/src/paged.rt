//! Octets cut into pages.
ghost use Rattle.std.specs.Prelude.{◌≡◌, ◌+◌, ◌%◌, ◌≤◌, ◌++◌, ◌∷◌, [], IfOk, OnOk, OnErr, length, drop};
ghost use Rattle.octets.specs.Document.{IsPrefixOf};
ghost use Rattle.octets.specs.Pages.{octets_in, IsPaged};

use crate::page::{PAGE_BYTES, Page};
use std::alloc::{AllocError, Global};
use std::mem;

/// Full pages, and a last one that isn't full.
#[derive(Drop)]
pub(crate) struct Paged {
    pub pages: Vec<Page>,
    pub last: Page,
}

/// A page of the octets, which takes memory for `first` octets at first. The only error is out of memory.
fn page_of(alloc: Global, octets: &[u8], first: usize) -> Result<Page, AllocError>
    requires fits { length octets.now ≤ PAGE_BYTES }
    requires first { first ≤ PAGE_BYTES }
    ensures { IfOk result (λ page. page ≡ octets.now) }
{
    let mut page = Page::new(alloc);
    page.append(octets, first)?;
    Ok(page)
}

/// The octets in pages, each of which takes memory for `first` octets at first. The only error is out of
/// memory.
pub(crate) fn in_pages(alloc: Global, octets: &[u8], first: usize) -> Result<Paged, AllocError>
    requires { first ≤ PAGE_BYTES }
    ensures { IfOk result (λ paged. (octets_in paged ≡ octets.now) × IsPaged paged) }
{
    let mut pages = Vec::new(alloc);
    let mut rest = octets;
    while PAGE_BYTES <= rest.len() {
        let (prefix, tail) = rest.split_at(PAGE_BYTES);
        pages.push(page_of(alloc, prefix, first)?)?;
        rest = tail;
    }
    Ok(Paged {
        pages,
        last: page_of(alloc, rest, first)?,
    })
}

impl Paged {
    /// Fills the last page with `prefix`, and appends the pages of `later`. The only error is out of memory,
    /// and nothing is changed then.
    pub fn go_on(&mut self, prefix: &[u8], later: Paged) -> Result<(), AllocError>
        requires { length self.old.last + length prefix.now ≡ PAGE_BYTES }
        ensures pages { OnOk result (self.new.pages.items ≡ self.old.pages.items ++ (self.old.last ++ prefix.now) ∷ later.pages.items) }
        ensures last { OnOk result (self.new.last ≡ later.last) }
        ensures pages_kept { OnErr result (self.new.pages.items ≡ self.old.pages.items) }
        ensures last_kept { OnErr result (self.new.last ≡ self.old.last) }
    {
        let Paged { mut pages, last } = later;
        self.pages.reserve(pages.len() + 1)?;
        self.last.append(prefix, PAGE_BYTES)?;
        let full = mem::replace(&mut self.last, last);
        self.pages.push_reserved(full);
        self.pages.append(&mut pages)
    }
    /// The page of the octet at a place, or the last page if there is no such octet.
    pub fn page_at(&self, start: usize) -> &Page
        requires paged { IsPaged self.now }
        requires start { start ≤ length (octets_in self.now) }
        ensures within { start % PAGE_BYTES ≤ length result.now }
        ensures prefix { IsPrefixOf (drop (start % PAGE_BYTES) result.now) (drop start (octets_in self.now)) }
    {
        let page = start / PAGE_BYTES;
        if page < self.pages.len() {
            &self.pages[page]
        } else {
            &self.last
        }
    }
}
