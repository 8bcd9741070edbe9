//! The history of a wire's calls, for contracts alone.
ghost use Rattle.std.specs.Prelude.{◌≡◌, List, [], ◌∷◌, ◌++◌};
ghost use Rattle.wires.specs.Poll.{Poll};
ghost use Rattle.sockets.specs.Call.{poll_of};

use std::io::IoSlice;
use std::marker::Model;
use wires::{Door, Progress, WireId};

/// A call of a wire with its answer.
#[derive(Drop)]
pub(crate) enum Call<'a, 'b> {
    Accept(Door, Progress<WireId>),
    /// A read, with the buffer after it.
    Read(WireId, Progress<usize>, &'a [u8]),
    Write(WireId, &'a [IoSlice<'b>], Progress<usize>),
    Close(WireId),
}

/// The calls that were made of a wire, with their answers, in order. Only contracts read it: it takes no
/// memory, and its methods do nothing at run time. No other crate can add a call.
#[derive(Drop)]
pub struct CallHistory {
    pub ghost calls: { List Poll },
}

impl Model for CallHistory {
    ghost use Rattle.std.specs.Borrow.{ftrue};

    ghost also_owns = { λ _. ftrue };
}

impl CallHistory {
    /// Creates an empty history.
    pub(crate) fn new() -> CallHistory
        ensures { result.calls ≡ [] }
    {
        CallHistory {}
    }

    /// Appends a call.
    #[inline(always)]
    pub(crate) fn push(&mut self, _call: &Call<'_, '_>)
        ensures { self.new.calls ≡ self.old.calls ++ poll_of _call.now ∷ [] }
    {}
}
