//! The octets of a document.
ghost use Rattle.std.specs.Prelude.{◌≡◌, ◌≤◌, ◌<◌, ◌↔◌, [], IsTrue, IfOk, OnErr, length, drop};
ghost use Rattle.octets.specs.Document.{IsPrefixOf};

use crate::pages::Pages;
use std::alloc::{AllocError, Global};
use std::marker::Model;
use std::mem;
use std::rc::Rc;

/// The octets of a document, which may have several owners. In clauses they are their list.
///
/// The pages are private: a sender reads one segment after the other, and may keep the octets for as long as it
/// needs them.
#[derive(Drop)]
pub struct Octets {
    shared: Rc<Pages>,
}

impl Model for Octets {
    ghost use Rattle.std.specs.Prelude.{ℕ, List};

    ghost Value = { List ℕ };

    ghost view = { λ o. o.shared.value };
}

impl Octets {
    /// Takes the octets of `pages`, which are empty then. The only error is out of memory, and leaves `pages`
    /// as they were.
    pub fn take(alloc: Global, pages: &mut Pages) -> Result<Octets, AllocError>
        ensures ok { IfOk result (λ octets. octets ≡ pages.old) }
        ensures err { OnErr result (pages.new ≡ pages.old) }
    {
        let taken = mem::replace(pages, Pages::new(alloc));
        match Rc::new(alloc, taken) {
            Ok(shared) => Ok(Octets { shared }),
            Err(failed) => {
                *pages = failed.value;
                Err(AllocError)
            }
        }
    }

    /// A copy of the bytes. The only error is out of memory.
    pub fn copy_of(alloc: Global, bytes: &[u8]) -> Result<Octets, AllocError>
        ensures { IfOk result (λ octets. octets ≡ bytes.now) }
    {
        let mut pages = Pages::new(alloc);
        pages.push(bytes)?;
        Octets::take(alloc, &mut pages)
    }

    /// The same octets for another owner, without a copy. The only error is out of memory.
    pub fn share(&self) -> Result<Octets, AllocError>
        ensures { IfOk result (λ octets. octets ≡ self.now) }
    {
        let shared = self.shared.clone()?;
        Ok(Octets { shared })
    }

    /// Returns the number of octets.
    pub fn len(&self) -> usize
        ensures { result ≡ length self.now }
    {
        self.shared.len()
    }

    /// Returns whether there are no octets.
    pub fn is_empty(&self) -> bool
        ensures { IsTrue result ↔ (self.now ≡ []) }
    {
        self.shared.is_empty()
    }

    /// Returns the octets from `start` on that lie together in memory. They are empty only at the end.
    pub fn segment(&self, start: usize) -> &[u8]
        requires { start ≤ length self.now }
        ensures { IsPrefixOf result.now (drop start self.now) }
    {
        self.shared.segment(start)
    }
}
