//! The effects of an event.
ghost use Rattle.std.specs.Prelude.{◌≡◌, []};
ghost use Rattle.events.specs.declared.status.Status.TheVariants as Went;
ghost use Rattle.events.specs.Effects.{IsResponse, Replies};

use crate::queue::QueueListing;
use crate::response_groups::ResponseGroups;
use crate::status::Status;
use base_types::{DeviceId, JobId};
use job_template::RequestAttributes;
use octets::Document;
use std::alloc::Global;

/// A cancel for a device that still has the job.
#[derive(Clone, Copy, PartialEq, Eq)]
pub struct Cancel {
    pub job: JobId,
    pub device: DeviceId,
}

/// The response to an IPP request.
#[derive(Drop)]
pub struct IppResponse {
    pub status: Status,
    /// The unsupported attributes of the request, unchanged or with the tag for unsupported values.
    pub unsupported: RequestAttributes,
    /// The groups of jobs or of the printer.
    pub groups: ResponseGroups,
}

/// The response to an LPD client.
#[derive(Drop)]
pub enum LpdResponse {
    /// Whether the job of its files was taken.
    Taken(bool),
    /// The listing of the queue.
    Queue(QueueListing),
    /// The queue to list isn't known.
    NoQueue,
}

/// The response to an event.
#[derive(Drop)]
pub enum Response {
    Ipp(IppResponse),
    Lpd(LpdResponse),
    /// No response: to an LPD client's removal, a device's report and a tick.
    Nothing,
}

/// The effects of an event.
#[derive(Drop)]
pub struct Effects {
    pub response: Response,
    /// Cancels for devices, by rising job id.
    pub cancels: Vec<Cancel>,
    /// Documents that the core doesn't need any more.
    pub documents: Vec<Document>,
}

impl Effects {
    /// Effects with a status, the unsupported attributes and groups; no cancels and no documents.
    pub fn answered(
        alloc: Global,
        status: Status,
        unsupported: RequestAttributes,
        groups: ResponseGroups,
    ) -> Effects
        ensures { Replies status unsupported groups result }
    {
        Effects {
            response: Response::Ipp(IppResponse {
                status,
                unsupported,
                groups,
            }),
            cancels: Vec::new(alloc),
            documents: Vec::new(alloc),
        }
    }

    /// Effects with the status `Ok`; no cancels and no documents.
    pub fn done(alloc: Global) -> Effects
        ensures { Replies Went.Ok [] [] result }
    {
        Effects::answered(
            alloc,
            Status::Ok,
            RequestAttributes::new(alloc),
            ResponseGroups::new(alloc),
        )
    }

    /// Effects with the status `Ok` and cancels; no documents.
    pub fn canceled(alloc: Global, cancels: Vec<Cancel>) -> Effects
        ensures response { IsResponse Went.Ok [] [] result.response }
        ensures cancels { result.cancels.items ≡ cancels.items }
        ensures documents { result.documents.items ≡ [] }
    {
        Effects {
            response: Response::Ipp(IppResponse {
                status: Status::Ok,
                unsupported: RequestAttributes::new(alloc),
                groups: ResponseGroups::new(alloc),
            }),
            cancels,
            documents: Vec::new(alloc),
        }
    }

    /// Effects with a response to an LPD client; no cancels and no documents.
    pub fn to_lpd(alloc: Global, response: LpdResponse) -> Effects
        ensures response { result.response ≡ Response.Lpd response }
        ensures cancels { result.cancels.items ≡ [] }
        ensures documents { result.documents.items ≡ [] }
    {
        Effects {
            response: Response::Lpd(response),
            cancels: Vec::new(alloc),
            documents: Vec::new(alloc),
        }
    }

    /// Effects with cancels; no response and no documents.
    pub fn removed(alloc: Global, cancels: Vec<Cancel>) -> Effects
        ensures response { result.response ≡ Response.Nothing }
        ensures cancels { result.cancels.items ≡ cancels.items }
        ensures documents { result.documents.items ≡ [] }
    {
        Effects {
            response: Response::Nothing,
            cancels,
            documents: Vec::new(alloc),
        }
    }

    /// Effects with documents; no response and no cancels.
    pub fn unanswered(alloc: Global, documents: Vec<Document>) -> Effects
        ensures response { result.response ≡ Response.Nothing }
        ensures cancels { result.cancels.items ≡ [] }
        ensures documents { result.documents.items ≡ documents.items }
    {
        Effects {
            response: Response::Nothing,
            cancels: Vec::new(alloc),
            documents,
        }
    }
}
