//! The states of devices, and the moments at which they changed.
use base_types::{Activity, DeviceId, JobId, Moment};
use plan_prices::Planner;
use server::Engine;
use std::alloc::{AllocError, Global};

/// What a device does, by which a change is noticed.
#[derive(Clone, Copy, PartialEq, Eq)]
pub(crate) enum Standing {
    Away,
    Stopped,
    Ready,
    Printing(JobId),
}

/// What a device does, and since when; `None` if it has since before it was observed.
#[derive(Clone, Copy)]
pub(crate) struct Stood {
    pub(crate) standing: Standing,
    pub(crate) since: Option<Moment>,
}

/// The devices of an engine, in the order of the settings.
#[derive(Drop)]
pub(crate) struct Standings {
    devices: Vec<Stood>,
}

/// What a device of an engine does.
fn standing_of<P: Planner + Drop>(engine: &Engine<P>, id: DeviceId) -> Standing {
    let Some(device) = engine.device(id) else {
        return Standing::Away;
    };
    match device.activity {
        Activity::Running(Some(printing)) => Standing::Printing(printing.job),
        Activity::Running(None) => Standing::Ready,
        Activity::Stopped(_) if engine.is_connected(id) => Standing::Stopped,
        Activity::Stopped(_) => Standing::Away,
    }
}

impl Standings {
    /// Creates the record of the devices of an engine, which do what they do since before it. The only error is
    /// out of memory.
    pub(crate) fn new<P: Planner + Drop>(
        alloc: Global,
        engine: &Engine<P>,
    ) -> Result<Standings, AllocError> {
        let count = engine.settings().devices.len();
        let mut devices = Vec::with_capacity(alloc, count)?;
        for place in 0..count {
            devices.push(Stood {
                standing: standing_of(engine, DeviceId::new(place)),
                since: None,
            })?;
        }
        Ok(Standings { devices })
    }

    /// Notes what the devices do at a moment.
    pub(crate) fn note<P: Planner + Drop>(&mut self, engine: &Engine<P>, now: Moment) {
        for (place, stood) in self.devices.iter_mut().enumerate() {
            let standing = standing_of(engine, DeviceId::new(place));
            if standing != stood.standing {
                *stood = Stood {
                    standing,
                    since: Some(now),
                };
            }
        }
    }

    /// What a device does.
    pub(crate) fn of(&self, device: DeviceId) -> Stood {
        let stood = self.devices.get(device.place()).copied();
        stood.unwrap_or(Stood {
            standing: Standing::Away,
            since: None,
        })
    }
}
