//! The calls between turns, which need no wire.
ghost use Rattle.base_types.specs.Report.{report_of};
ghost use Rattle.server.specs.Polls.{alone};
ghost use Rattle.server.specs.Happening.{ReportComes};
ghost use Rattle.server.specs.Turn.{Ticked, Reported, BodyAsks, BodyBrings, BodyComes};
ghost use Rattle.server.specs.Refinement.{Reports, AnswersBody, RefinesCall, RefinesBody, AnswerAs, BytesAs, RefusalAs, outcome_of};

use crate::engine::Engine;
use crate::handling::{EventResult, effects_of};
use crate::served::{Served, answered};
use base_types::{DeviceId, Moment, Report};
use dispatcher::{AllocationSite, Observer};
use events::{Effects, Event, Response, Status};
use ipp_operations::{ParsedRequest, ipp_event, ipp_refusal, ipp_response};
use plan_prices::Planner;
use std::alloc::AllocError;

/// Bodies, reports and ticks of a caller without connections.
impl<P: Planner + Drop> Engine<P> {
    /// Serves one IPP body between turns, without HTTP. The only error is out of memory, and the observer is
    /// notified of it. The event may have happened then.
    #[tactic(auto, using(crate::proofs::ServedBody::one_body))]
    pub fn serve_body<N: Observer>(
        &mut self,
        body: &[u8],
        notes: &mut N,
        moment: Moment,
    ) -> Result<Served, AllocError>
        ensures { RefinesBody (alone N.notified) moment body.now notes.old self.old notes.new self.new (outcome_of result) }
    {
        self.serve_now(moment, body, notes)
    }

    /// Parses a body and acts on it.
    #[tactic(auto, using(crate::proofs::Joins::body_read, crate::proofs::Joins::body_unread))]
    fn serve_now<N: Observer>(
        &mut self,
        moment: Moment,
        body: &[u8],
        notes: &mut N,
    ) -> Result<Served, AllocError>
        ensures { AnswersBody N.notified (BodyComes moment body.now) notes.old self.old notes.new self.new result }
    {
        match ipp_event(self.alloc, body) {
            Ok(asked) => self.serve_asked(moment, asked, notes),
            Err(_) => {
                notes.refused(AllocationSite::Event, None);
                Err(AllocError)
            }
        }
    }

    /// Acts on a parsed body.
    fn serve_asked<N: Observer>(
        &mut self,
        moment: Moment,
        asked: ParsedRequest,
        notes: &mut N,
    ) -> Result<Served, AllocError>
        ensures { AnswersBody N.notified (BodyAsks moment asked) notes.old self.old notes.new self.new result }
    {
        match asked {
            ParsedRequest::TooShort => Ok(Served::BadRequest),
            ParsedRequest::Refused(status, request) => self.serve_refusal(status, request, notes),
            ParsedRequest::Event(request, event) => self.serve_event(moment, request, event, notes),
        }
    }

    /// Returns the reply of a status alone. The only error is out of memory, and the observer is notified of it.
    fn serve_refusal<N: Observer>(
        &self,
        status: Status,
        request: u32,
        notes: &mut N,
    ) -> Result<Served, AllocError>
        ensures { RefusalAs N.notified status request notes.old result notes.new }
    {
        match Vec::from_slice(self.alloc, &ipp_refusal(status, request)) {
            Ok(bytes) => Ok(Served::Reply(bytes)),
            Err(_) => {
                notes.refused(AllocationSite::Reply, None);
                Err(AllocError)
            }
        }
    }

    /// Handles the event of a body, and returns its reply.
    fn serve_event<N: Observer>(
        &mut self,
        moment: Moment,
        request: u32,
        event: Event,
        notes: &mut N,
    ) -> Result<Served, AllocError>
        ensures { AnswersBody N.notified (BodyBrings moment request event) notes.old self.old notes.new self.new result }
    {
        let EventResult { handled, refused } = self.handle(moment, event, notes);
        let bytes = self.bytes_of(effects_of(handled), request, notes);
        answered(bytes, refused)
    }

    /// Returns the bytes of the reply to an event. The only error is out of memory, for the event or for the
    /// bytes, and the observer is notified of it.
    fn bytes_of<N: Observer>(
        &self,
        reply: Option<Effects>,
        request: u32,
        notes: &mut N,
    ) -> Result<Vec<u8>, AllocError>
        ensures { BytesAs N.notified request reply notes.old result notes.new }
    {
        match reply {
            Some(reply) => self.answer_bytes(reply.response, request, notes),
            None => {
                notes.refused(AllocationSite::Event, None);
                Err(AllocError)
            }
        }
    }

    /// Returns the bytes of a response; a response that isn't one of IPP has none. The only error is out of
    /// memory, and the observer is notified of it.
    fn answer_bytes<N: Observer>(
        &self,
        answer: Response,
        request: u32,
        notes: &mut N,
    ) -> Result<Vec<u8>, AllocError>
        ensures { AnswerAs N.notified request answer notes.old result notes.new }
    {
        match answer {
            Response::Lpd(_) => Ok(Vec::new(self.alloc)),
            Response::Nothing => Ok(Vec::new(self.alloc)),
            Response::Ipp(answer) => match ipp_response(self.alloc, answer, request) {
                Ok(bytes) => Ok(bytes),
                Err(error) => {
                    notes.refused(AllocationSite::Reply, None);
                    Err(error)
                }
            },
        }
    }

    /// Handles one report of a device between turns, without a connection. The only error is out of memory, and
    /// the observer is notified of it.
    pub fn report<N: Observer>(
        &mut self,
        device: DeviceId,
        report: Report,
        notes: &mut N,
        moment: Moment,
    ) -> Result<(), AllocError>
        ensures { RefinesCall (alone N.notified) (Reported moment device (report_of report)) notes.old self.old notes.new self.new result }
    {
        if self.report_now(moment, device, report, notes) {
            Err(AllocError)
        } else {
            Ok(())
        }
    }

    /// Handles one report of a device. Returns whether memory was refused.
    pub(crate) fn report_now<N: Observer>(
        &mut self,
        moment: Moment,
        device: DeviceId,
        report: Report,
        notes: &mut N,
    ) -> bool
        ensures { Reports N.notified (ReportComes moment device report) notes.old self.old notes.new self.new result }
    {
        self.handle(moment, Event::Report(device, report), notes)
            .refused
    }

    /// Makes one tick between turns. The only error is out of memory, and the observer is notified of it.
    pub fn tick<N: Observer>(&mut self, notes: &mut N, moment: Moment) -> Result<(), AllocError>
        ensures { RefinesCall (alone N.notified) (Ticked moment) notes.old self.old notes.new self.new result }
    {
        if self.tick_now(moment, notes) {
            Err(AllocError)
        } else {
            Ok(())
        }
    }
}
