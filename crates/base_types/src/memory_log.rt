//! A list that is kept as long as there is memory for it.
ghost use Rattle.std.specs.Prelude.{◌≡◌, [], ◌∷◌, None, Some, IfOk, OnErr};
ghost use Rattle.base_types.specs.MemoryLog.{Keeps};

use std::alloc::{AllocError, Global};
use std::marker::Model;
use std::mem;

/// A list that is kept as long as there is memory for it. In clauses it is the list, or none once memory for
/// a part of it was refused.
#[derive(Drop)]
pub struct MemoryLog<T> {
    alloc: Global,
    kept: Vec<T>,
    /// Whether memory for a part of it was refused.
    lost: bool,
}

impl<T> Model for MemoryLog<T> {
    ghost use Rattle.std.specs.Prelude.{List, Option, Some, None, if◌then◌else◌};

    ghost Value = { Option (List T) };

    ghost view = { λ l. if l.lost then None else Some l.kept.items };
}

impl<T: Drop> MemoryLog<T> {
    /// Returns an empty list. It takes no memory.
    pub fn new(alloc: Global) -> MemoryLog<T>
        ensures { result ≡ Some [] }
    {
        MemoryLog {
            alloc,
            kept: Vec::new(alloc),
            lost: false,
        }
    }

    /// Appends an item, unless memory for it is refused: then the list is lost.
    pub fn keep(&mut self, item: T)
        ensures { Keeps self.old (item ∷ []) self.new }
    {
        if self.kept.push(item).is_err() {
            self.lost = true;
        }
    }

    /// Appends all of these items, unless memory for them is refused: then the list is lost.
    pub fn keep_all(&mut self, more: Vec<T>)
        ensures { Keeps self.old more.items self.new }
    {
        let mut more = more;
        if self.kept.append(&mut more).is_err() {
            self.lost = true;
        }
    }

    /// Loses the list.
    pub fn lose(&mut self)
        ensures { self.new ≡ None }
    {
        self.lost = true;
    }

    /// Takes the list out, and leaves an empty one. The error is that the list was lost, and it stays so.
    pub fn take(&mut self) -> Result<Vec<T>, AllocError>
        ensures ok { IfOk result (λ kept. (self.old ≡ Some kept.items) × (self.new ≡ Some [])) }
        ensures err { OnErr result ((self.old ≡ None) × (self.new ≡ None)) }
    {
        if self.lost {
            return Err(AllocError);
        }
        let empty = Vec::new(self.alloc);
        Ok(mem::replace(&mut self.kept, empty))
    }

    /// Returns the list. The error is that it was lost.
    pub fn all(self) -> Result<Vec<T>, AllocError>
        ensures ok { IfOk result (λ kept. self ≡ Some kept.items) }
        ensures err { OnErr result (self ≡ None) }
    {
        if self.lost {
            return Err(AllocError);
        }
        Ok(self.kept)
    }
}
