//! The devices of a day, and the events on them.

use crate::day::Day;
use crate::queue::Start;
use crate::room::Room;
use drawing::{Ending, Print};
use std::alloc::{AllocError, Global};

/// The next event, with its moment.
#[derive(Clone, Copy)]
enum Happening {
    /// The job at a place of the day comes.
    Comes { job: usize, moment: u64 },
    /// A job ends on its device.
    Ends(Print),
}

/// The devices of a day, each with the job that it prints.
#[derive(Drop)]
pub(crate) struct Floor<'a> {
    day: &'a Day,
    running: Vec<Option<Print>>,
    /// The number of jobs that have come.
    come: usize,
    /// The jobs that began, in order.
    pub(crate) prints: Vec<Print>,
}

/// The print that ends first.
fn first_of(one: Option<Print>, other: Option<Print>) -> Option<Print> {
    match (one, other) {
        (Some(one), Some(other)) if other.end < one.end => Some(other),
        (Some(one), _) => Some(one),
        (None, other) => other,
    }
}

impl<'a> Floor<'a> {
    /// The beginning of a day with this many devices. The only error is out of memory.
    fn new(alloc: Global, day: &'a Day, devices: usize) -> Result<Floor<'a>, AllocError> {
        let mut running = Vec::with_capacity(alloc, devices)?;
        for _ in 0..devices {
            running.push(None)?;
        }
        Ok(Floor {
            day,
            running,
            come: 0,
            prints: Vec::new(alloc),
        })
    }

    /// The current print that ends first; of several the first.
    fn next_end(&self) -> Option<Print> {
        let mut found = None;
        for print in &self.running {
            found = first_of(found, *print);
        }
        found
    }

    /// The next event. If a job ends at the moment at which another comes, the end is first.
    fn next(&self) -> Option<Happening> {
        let ends = self.next_end();
        let Some(job) = self.day.jobs.get(self.come) else {
            return Some(Happening::Ends(ends?));
        };
        match ends {
            Some(print) if print.end <= job.moment => Some(Happening::Ends(print)),
            _ => Some(Happening::Comes {
                job: self.come,
                moment: job.moment,
            }),
        }
    }

    /// Sets the print of a device.
    fn set(&mut self, device: usize, print: Option<Print>) {
        if let Some(running) = self.running.get_mut(device) {
            *running = print;
        }
    }

    /// Begins a job on a device. The only error is out of memory.
    fn begin(&mut self, start: Start, now: u64) -> Result<(), AllocError> {
        let Start { job, device } = start;
        let print = Print {
            job,
            device,
            start: now,
            end: now.saturating_add(self.day.real_time(job, device)),
            ending: Ending::Printed,
        };
        self.prints.push(print)?;
        self.set(device, Some(print));
        Ok(())
    }

    /// Begins the jobs that the room returns, at most one on each device. The only error is out of memory.
    fn begin_all<R: Room>(&mut self, room: &mut R, now: u64) -> Result<(), AllocError> {
        for _ in 0..self.running.len() {
            let Some(start) = room.start(now) else {
                return Ok(());
            };
            self.begin(start, now)?;
        }
        Ok(())
    }

    /// Gives the room an event, and begins the jobs that it returns. The only error is out of memory.
    fn go_on<R: Room>(&mut self, room: &mut R, happening: Happening) -> Result<(), AllocError> {
        match happening {
            Happening::Comes { job, moment } => {
                self.come = self.come.saturating_add(1);
                if self.day.is_printable(job) {
                    room.take(job, moment)?;
                }
                self.begin_all(room, moment)
            }
            Happening::Ends(
                Print {
                    job,
                    device,
                    end,
                    ..
                },
            ) => {
                self.set(device, None);
                room.end(Start { job, device }, end)?;
                self.begin_all(room, end)
            }
        }
    }
}

/// The observer of a day's progress.
pub trait Watch {
    /// Tells that `come` of the `jobs` jobs have come, in the day of this name.
    fn come(&mut self, name: &str, come: usize, jobs: usize);
}

impl Floor<'_> {
    /// Plays the day up to its last event. The only error is out of memory.
    fn play<R: Room, W: Watch>(
        &mut self,
        room: &mut R,
        name: &str,
        watch: &mut W,
    ) -> Result<(), AllocError> {
        // each job comes once and ends once
        for _ in 0..self.day.jobs.len().saturating_mul(2) {
            let Some(happening) = self.next() else {
                return Ok(());
            };
            self.go_on(room, happening)?;
            watch.come(name, self.come, self.day.jobs.len());
        }
        Ok(())
    }
}

/// Plays a day on this many devices. Returns the jobs that were printed, in the order in which they began.
/// The only error is out of memory.
pub(crate) fn play<R: Room, W: Watch>(
    alloc: Global,
    day: &Day,
    devices: usize,
    room: &mut R,
    name: &str,
    watch: &mut W,
) -> Result<Vec<Print>, AllocError> {
    let mut floor = Floor::new(alloc, day, devices)?;
    floor.play(room, name, watch)?;
    Ok(floor.prints)
}
