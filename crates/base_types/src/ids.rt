//! The ids of jobs, and the places of devices and printers.
ghost use Rattle.std.specs.Prelude.{◌≡◌, ℕ, ◌↔◌, IsSome, IfSome};
ghost use Rattle.base_types.specs.Ranges.{IsJobId};

use crate::limits::Limits;
use std::marker::Model;

/// The number of a job: 1 to [`Limits::LAST_JOB_ID`]. In clauses it is that number.
#[derive(Clone, Copy, Debug, PartialEq, Eq, PartialOrd, Ord)]
pub struct JobId {
    number: u32,
}

impl Model for JobId {
    ghost Value = { ℕ };

    ghost view = { λ id. id.number };

    ghost invariant = { λ id. IsJobId id.number };

    ghost inverse = { λ n. record { number = n } };
}

impl JobId {
    /// The first job id of a new server.
    pub const FIRST: u32 = 1;

    /// The id of a number, if the number is in range.
    pub fn new(number: u32) -> Option<JobId>
        ensures in_range { IsSome result ↔ IsJobId number }
        ensures value { IfSome result (λ id. id ≡ number) }
    {
        if 1 <= number && number <= Limits::LAST_JOB_ID {
            Some(JobId { number })
        } else {
            None
        }
    }

    /// The number of the id.
    pub fn number(self) -> u32
        ensures value { result ≡ self }
        ensures in_range { IsJobId self }
    {
        self.number
    }
}

/// A device, by its place in the settings, counted from 0. In clauses it is that place.
#[derive(Clone, Copy, PartialEq, Eq, PartialOrd, Ord)]
pub struct DeviceId {
    place: usize,
}

impl Model for DeviceId {
    ghost Value = { ℕ };

    ghost view = { λ id. id.place };

    ghost inverse = { λ n. record { place = n } };
}

impl DeviceId {
    /// The device at a place of the settings.
    pub fn new(place: usize) -> DeviceId
        ensures { result ≡ place }
    {
        DeviceId { place }
    }

    /// The device's place in the settings.
    pub fn place(self) -> usize
        ensures { result ≡ self }
    {
        self.place
    }
}

/// A printer, by its place in the settings, counted from 0. In clauses it is that place.
#[derive(Clone, Copy, PartialEq, Eq, PartialOrd, Ord)]
pub struct PrinterId {
    place: usize,
}

impl Model for PrinterId {
    ghost Value = { ℕ };

    ghost view = { λ id. id.place };

    ghost inverse = { λ n. record { place = n } };
}

impl PrinterId {
    /// The printer at a place of the settings.
    pub fn new(place: usize) -> PrinterId
        ensures { result ≡ place }
    {
        PrinterId { place }
    }

    /// The printer's place in the settings.
    pub fn place(self) -> usize
        ensures { result ≡ self }
    {
        self.place
    }
}
