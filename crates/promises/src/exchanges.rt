//! The answers to an IPP client, exchange by exchange.
ghost use Rattle.print_room.specs.State.{State};
ghost use Rattle.server.specs.Ledger.{Ledger, opening_ledger};
ghost use Rattle.server.specs.Turn.{Trace, Runs};
ghost use Rattle.promises.specs.Exchanges.{ActsAreExchanges, AreByExchanges};

/// An IPP client is answered exchange by exchange of its stream: `100 Continue` if the head invites it, and
/// one answer after the body. If the body has an event, that is the only event asked, and the answer is the
/// reply that the run gave to it. Otherwise no event is asked, and the answer is a status or the head of a
/// refusal. The answer is the status 0x0505 only if the observer was notified that memory was refused on the
/// connection of that number: for the event, for reading the body, or for the reply to a query; each such
/// answer has a note of its own. The items acted on are such exchanges, one after the other, and at most a
/// prefix of one more, or a refusal. No other bytes are due, and no other event is asked. On each connection of
/// a trace, open or closed, these items are a prefix of the items that the bytes read contain. On a connection
/// that broke, the bytes due are those of the items before, and at most one event was asked that has no
/// answer.
pub fn exchanges_are_answered()
    ensures acts { ActsAreExchanges }
    ensures due { (opening : State) (trace : Trace) (ledger : Ledger) → Runs trace (opening_ledger opening) ledger → AreByExchanges opening trace ledger }
{
    http_front::exchanges_in_order();
    http_front::some_parse();
    http_front::given_first();
}
