//! The law of a server's turns, as the contract of a function that does nothing.
ghost use Rattle.std.specs.Prelude.{ℕ, List};
ghost use Rattle.print_room.specs.State.{State};
ghost use Rattle.server.specs.Turn.{Trace};
ghost use Rattle.server.specs.Refinement.{IsAt};
ghost use Rattle.daemon.specs.Serving.{ServesTurns, HasTurned};
ghost use Rattle.daemon.specs.declared.serving.Server.{Server};

/// Turns at these moments extend a trace of the server's engine by exactly these turns, in this order. The
/// calls of the extension are exactly the calls that were made of the sockets, with their answers, in order.
///
/// A new server's engine is at the empty trace ([`crate::Server::new`]).
pub fn turns_are_one_trace()
    ensures { (opening : State) (trace : Trace) (moments : List ℕ) (old new : Server) → IsAt opening trace old.engine → ServesTurns moments old new → HasTurned opening trace moments old new }
{}
