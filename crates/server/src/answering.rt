//! The replies to the events of clients.
ghost use Rattle.ipp_operations.specs.QueueText.{text_of};
ghost use Rattle.server.specs.Answering.{IsAnswered, Replies, LosesReply, Drops, Declines, Acknowledges, Responds, IsShown, SendsLpd, Shows};
ghost use Rattle.server.specs.Refinement.{RefinesNotified};

use crate::acting::EventOrigin;
use crate::engine::Engine;
use crate::handling::effects_of;
use base_types::Moment;
use connections::table::break_off;
use connections::{Client, Outgoing};
use dispatcher::{AllocationSite, Observer};
use events::{Effects, Event, LpdResponse, Response, Status};
use ipp_operations::{REFUSED, ipp_refusal, ipp_response, lpd_ack, lpd_queue_text};
use plan_prices::Planner;

impl<P: Planner + Drop> Engine<P> {
    /// Handles an event of a client, and enqueues its reply.
    pub(crate) fn happen<N: Observer>(
        &mut self,
        moment: Moment,
        origin: EventOrigin,
        client: Client,
        event: Event,
        notes: &mut N,
    )
        ensures { RefinesNotified N.notified (IsAnswered moment origin.key origin.id client event) notes.old self.old notes.new self.new }
    {
        let query = event.is_query();
        let ended = self.handle(moment, event, notes);
        let reply = effects_of(ended.handled);
        match client {
            Client::Ipp(request) => self.reply(origin, request, query, reply, notes),
            Client::LpdJob => self.answer_job(origin, reply, notes),
            Client::LpdCommand => self.answer_command(origin, reply, notes),
        }
    }
}

/// The replies to IPP clients.
impl<P: Planner + Drop> Engine<P> {
    /// Enqueues the reply to an event, or the status of a temporary error if the request was dropped. A response that
    /// isn't IPP's has no bytes here.
    #[tactic(auto, using(crate::proofs::Joins::replies_none))]
    fn reply<N: Observer>(
        &mut self,
        origin: EventOrigin,
        request: u32,
        query: bool,
        reply: Option<Effects>,
        notes: &mut N,
    )
        ensures { RefinesNotified N.notified (Replies origin.key origin.id request query reply) notes.old self.old notes.new self.new }
    {
        let response = match reply {
            Some(effects) => effects.response,
            None => return self.drop_request(origin, request, notes),
        };
        let Response::Ipp(answer) = response else {
            return;
        };
        match ipp_response(self.alloc, answer, request) {
            Ok(bytes) => self.enqueue_reply(origin.key, &bytes, notes),
            Err(_) => self.lose_reply(origin, request, query, notes),
        }
    }

    /// Notifies the observer that a request was dropped, out of memory, and enqueues the status of a temporary
    /// error.
    pub(crate) fn drop_request<N: Observer>(
        &mut self,
        origin: EventOrigin,
        request: u32,
        notes: &mut N,
    )
        ensures { RefinesNotified N.notified (Drops origin.key origin.id request) notes.old self.old notes.new self.new }
    {
        notes.refused(AllocationSite::Event, Some(origin.id));
        let body = ipp_refusal(Status::TemporaryError, request);
        self.enqueue_reply(origin.key, &body, notes);
    }

    /// Notifies the observer that memory for the bytes of a reply was refused. After a query the status of a
    /// temporary error is enqueued; after any other event the connection breaks.
    fn lose_reply<N: Observer>(
        &mut self,
        origin: EventOrigin,
        request: u32,
        query: bool,
        notes: &mut N,
    )
        ensures { RefinesNotified N.notified (LosesReply origin.key origin.id request query) notes.old self.old notes.new self.new }
    {
        notes.refused(AllocationSite::Reply, Some(origin.id));
        if query {
            let body = ipp_refusal(Status::TemporaryError, request);
            self.enqueue_reply(origin.key, &body, notes);
        } else {
            break_off(&mut self.connections, origin.key);
        }
    }
}

/// The replies to LPD clients.
impl<P: Planner + Drop> Engine<P> {
    /// Enqueues the acknowledgement of a job, or the refusal if its event was dropped.
    fn answer_job<N: Observer>(
        &mut self,
        origin: EventOrigin,
        reply: Option<Effects>,
        notes: &mut N,
    )
        ensures { RefinesNotified N.notified (Acknowledges origin.key origin.id reply) notes.old self.old notes.new self.new }
    {
        match reply {
            Some(reply) => self.send_response(origin, &reply.response, notes),
            None => self.decline(AllocationSite::Event, origin, notes),
        }
    }

    /// Notifies the observer that memory for a file or for a job was refused, and enqueues the refusal.
    #[tactic(auto, using(crate::proofs::Joins::notifies_then))]
    pub(crate) fn decline<N: Observer>(
        &mut self,
        place: AllocationSite,
        origin: EventOrigin,
        notes: &mut N,
    )
        ensures { RefinesNotified N.notified (Declines place origin.key origin.id) notes.old self.old notes.new self.new }
    {
        notes.refused(place, Some(origin.id));
        self.enqueue(origin.key, &Outgoing::Bytes(&[REFUSED]), notes);
    }

    /// Enqueues the response to a command. If its event was dropped, the observer is notified and the
    /// connection breaks.
    fn answer_command<N: Observer>(
        &mut self,
        origin: EventOrigin,
        reply: Option<Effects>,
        notes: &mut N,
    )
        ensures { RefinesNotified N.notified (Responds origin.key origin.id reply) notes.old self.old notes.new self.new }
    {
        match reply {
            Some(reply) => self.send_response(origin, &reply.response, notes),
            None => {
                notes.refused(AllocationSite::Event, Some(origin.id));
                break_off(&mut self.connections, origin.key);
            }
        }
    }

    /// Enqueues the bytes of a response to an LPD client. Any other response has none.
    #[tactic(auto, using(crate::proofs::Joins::shows_no_ipp, crate::proofs::Joins::shows_nothing))]
    fn send_response<N: Observer>(&mut self, origin: EventOrigin, answer: &Response, notes: &mut N)
        ensures { RefinesNotified N.notified (IsShown origin.key origin.id answer.now) notes.old self.old notes.new self.new }
    {
        match answer {
            Response::Lpd(answer) => self.send_lpd(origin, answer, notes),
            Response::Ipp(_) => {}
            Response::Nothing => {}
        }
    }

    /// Enqueues the bytes of a response to an LPD client.
    fn send_lpd<N: Observer>(&mut self, origin: EventOrigin, answer: &LpdResponse, notes: &mut N)
        ensures { RefinesNotified N.notified (SendsLpd origin.key origin.id answer.now) notes.old self.old notes.new self.new }
    {
        match answer {
            LpdResponse::Taken(_) => self.enqueue(
                origin.key,
                &Outgoing::Bytes(&[lpd_ack(answer)]),
                notes,
            ),
            LpdResponse::Queue(_) => self.show(origin, answer, notes),
            LpdResponse::NoQueue => self.show(origin, answer, notes),
        }
    }

    /// Enqueues the text of a queue. If memory for the text is refused, the observer is notified and the
    /// connection breaks.
    fn show<N: Observer>(&mut self, origin: EventOrigin, answer: &LpdResponse, notes: &mut N)
        ensures { RefinesNotified N.notified (Shows origin.key origin.id (text_of answer.now)) notes.old self.old notes.new self.new }
    {
        match lpd_queue_text(self.alloc, answer) {
            Ok(text) => self.enqueue(origin.key, &Outgoing::Bytes(&text), notes),
            Err(_) => {
                notes.refused(AllocationSite::Reply, Some(origin.id));
                break_off(&mut self.connections, origin.key);
            }
        }
    }
}
