//! Where the lines of a journal are stored.
ghost use Rattle.std.specs.Prelude.{◌≡◌, ◌++◌, ℕ, List, [], IsTrue, IsFalse};

use std::marker::Model;

/// Stable storage for the lines of a journal. It stores all lines of a call or none.
pub trait Storage {
    /// The lines that are stored.
    ghost stored: { Self → List ℕ };

    /// Appends lines. Returns whether they are stored now. If not, the storage reports why, unless the call before
    /// failed, too.
    fn append(&mut self, lines: &[u8]) -> bool
        ensures yes { IsTrue result → stored self.new ≡ stored self.old ++ lines.now }
        ensures no { IsFalse result → stored self.new ≡ stored self.old };
}

/// Lines that are appended.
#[derive(Drop)]
pub(crate) struct Appended<'a> {
    pub(crate) lines: &'a [u8],
}

/// The lines that a storage has, for contracts alone: it takes no memory, and its methods do nothing at run time.
#[derive(Drop)]
pub struct StoredLines {
    pub ghost lines: { List ℕ },
}

impl Model for StoredLines {
    ghost use Rattle.std.specs.Borrow.{ftrue};

    ghost also_owns = { λ _. ftrue };
}

impl StoredLines {
    /// Creates the record of a storage without lines.
    pub fn new() -> StoredLines
        ensures { result.lines ≡ [] }
    {
        StoredLines {}
    }

    /// Records that lines were appended.
    pub fn append(&mut self, lines: &[u8])
        ensures { self.new.lines ≡ self.old.lines ++ lines.now }
    {
        self.push(&Appended { lines });
    }

    /// As [`StoredLines::append`].
    #[inline(always)]
    fn push(&mut self, _appended: &Appended<'_>)
        ensures { self.new.lines ≡ self.old.lines ++ _appended.now.lines.now }
    {}
}
