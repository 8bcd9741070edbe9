//! The jobs of a day.

/// A device of a printer, with the time of a job there.
#[derive(Clone, Copy)]
pub struct Member {
    /// The place of the device in the settings.
    pub device: usize,
    /// The time in ms. `None` if the device can't print the job.
    pub time: Option<u64>,
}

/// A job: its moment, its priority, and its time on each device of its printer.
#[derive(Drop)]
pub struct DayJob {
    /// The moment at which the job comes, in ms from the beginning of the day.
    pub moment: u64,
    /// The priority, 1 to 100; 100 is the most urgent.
    pub priority: u8,
    /// The place of the job's printer in the settings.
    pub printer: usize,
    /// The devices of the job's printer, in the order of the printer.
    pub members: Vec<Member>,
}

/// The lesser one of two times.
fn lesser(one: Option<u64>, other: Option<u64>) -> Option<u64> {
    match (one, other) {
        (Some(one), Some(other)) => Some(one.min(other)),
        (Some(one), None) => Some(one),
        (None, other) => other,
    }
}

impl DayJob {
    /// The place of a device among those of the job's printer.
    pub fn place_of(&self, device: usize) -> Option<usize> {
        for (place, member) in self.members.iter().enumerate() {
            if member.device == device {
                return Some(place);
            }
        }
        None
    }

    /// The time on the device at a place of the settings, if the device can print the job.
    pub fn time_on(&self, device: usize) -> Option<u64> {
        let place = self.place_of(device)?;
        self.members.get(place)?.time
    }

    /// The time on the fastest device; 0 if no device can print the job.
    pub(crate) fn least_time(&self) -> u64 {
        let mut least = None;
        for member in &self.members {
            least = lesser(least, member.time);
        }
        least.unwrap_or(0)
    }

    /// Returns whether some device can print the job.
    pub fn is_printable(&self) -> bool {
        for member in &self.members {
            if member.time.is_some() {
                return true;
            }
        }
        false
    }
}
