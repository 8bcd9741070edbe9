//! Charts, their lanes and bars.

use base_types::{Stranded, Text};

/// How a job ends on its device.
#[derive(Clone, Copy, PartialEq, Eq)]
pub enum Ending {
    Printed,
    Canceled,
    Failed,
    /// The chart ends before the job ends.
    Open,
}

/// A job by its number; its class is a place in the classes of the chart.
#[derive(Clone, Copy)]
pub struct ChartJob {
    pub number: u32,
    pub class: usize,
    pub ending: Ending,
}

/// What a bar represents.
#[derive(Clone, Copy)]
pub enum Mark {
    /// The device may begin no job.
    Wait,
    /// The device prints a job.
    Job(ChartJob),
    /// The job of this number came. The bar has no length.
    Came(u32),
}

/// A bar of a lane, from its start to its end, in ms since the moment at which the chart begins.
#[derive(Clone, Copy)]
pub struct Bar {
    pub mark: Mark,
    pub start: u64,
    pub end: u64,
}

/// The bars of a device, or of the jobs that came, by rising start.
#[derive(Drop)]
pub struct Lane {
    pub name: Text,
    pub bars: Vec<Bar>,
}

/// The prints of devices over time.
#[derive(Drop)]
pub struct Chart {
    /// The subject of the chart, in one line.
    pub title: String,
    pub lanes: Vec<Lane>,
    /// The priorities of the classes, the highest first.
    pub classes: Vec<u8>,
    /// The jobs that no device can print.
    pub stranded: Vec<Stranded>,
    /// Further sentences about jobs.
    pub notes: Vec<String>,
    /// The sum of the times to paper of all jobs that are printed, in ms.
    pub total: u128,
}

/// The most jobs of a chart whose picture labels each of them.
const MOST_LABELED: usize = 100;

/// The length of a chart without any bar, in ms.
const EMPTY: u64 = 60_000;

impl Bar {
    /// The length of the bar, in ms.
    pub(crate) fn length(&self) -> u64 {
        self.end.saturating_sub(self.start)
    }

    /// The job that is printed.
    pub(crate) fn job(&self) -> Option<ChartJob> {
        match self.mark {
            Mark::Job(job) => Some(job),
            Mark::Wait | Mark::Came(_) => None,
        }
    }

    fn is_wait(&self) -> bool {
        matches!(self.mark, Mark::Wait)
    }

    fn is_arrival(&self) -> bool {
        matches!(self.mark, Mark::Came(_))
    }

    /// Returns whether the bar is that of a job with this ending.
    pub(crate) fn ends_as(&self, ending: Ending) -> bool {
        match self.job() {
            Some(job) => job.ending == ending,
            None => false,
        }
    }
}

impl Lane {
    /// The number of bars of the lane that represent a job or an arrival.
    pub(crate) fn jobs(&self) -> usize {
        let mut jobs = 0usize;
        for bar in &self.bars {
            if !bar.is_wait() {
                jobs = jobs.saturating_add(1);
            }
        }
        jobs
    }

    /// The number of jobs of the lane with this ending.
    fn count_ending(&self, ending: Ending) -> u64 {
        let mut jobs = 0u64;
        for bar in &self.bars {
            if bar.ends_as(ending) {
                jobs = jobs.saturating_add(1);
            }
        }
        jobs
    }

    /// The latest end of a print or moment of an arrival in the lane; 0 where there is none.
    fn last_end(&self) -> u64 {
        let mut last = 0;
        for bar in &self.bars {
            if !bar.is_wait() {
                last = bar.end.max(last);
            }
        }
        last
    }

    /// Returns whether the lane has a wait of its device.
    fn waits(&self) -> bool {
        self.jobs() < self.bars.len()
    }

    /// Returns whether the lane is that of the jobs that came.
    pub(crate) fn has_arrivals(&self) -> bool {
        for bar in &self.bars {
            if bar.is_arrival() {
                return true;
            }
        }
        false
    }
}

impl Chart {
    /// The number of prints of the chart, or of its arrivals if that is greater.
    fn jobs(&self) -> usize {
        let (mut prints, mut arrivals) = (0usize, 0usize);
        for lane in &self.lanes {
            if lane.has_arrivals() {
                arrivals = arrivals.saturating_add(lane.jobs());
            } else {
                prints = prints.saturating_add(lane.jobs());
            }
        }
        prints.max(arrivals)
    }

    /// Returns whether the chart has too many jobs to label each.
    pub(crate) fn is_crowded(&self) -> bool {
        self.jobs() > MOST_LABELED
    }

    /// The number of jobs of the chart with this ending.
    fn count_ending(&self, ending: Ending) -> u64 {
        let mut jobs = 0u64;
        for lane in &self.lanes {
            jobs = jobs.saturating_add(lane.count_ending(ending));
        }
        jobs
    }

    /// Returns whether a job of the chart has this ending.
    pub(crate) fn has_ending(&self, ending: Ending) -> bool {
        self.count_ending(ending) > 0
    }

    /// Returns whether a lane of the chart has a wait of its device.
    pub(crate) fn waits(&self) -> bool {
        for lane in &self.lanes {
            if lane.waits() {
                return true;
            }
        }
        false
    }

    /// Returns whether a lane of the chart is that of the jobs that came.
    pub(crate) fn has_arrivals(&self) -> bool {
        for lane in &self.lanes {
            if lane.has_arrivals() {
                return true;
            }
        }
        false
    }

    /// The latest end of a print or moment of an arrival, in ms; one minute where there is none.
    pub(crate) fn span(&self) -> u64 {
        let mut last = 0;
        for lane in &self.lanes {
            last = lane.last_end().max(last);
        }
        if last == 0 { EMPTY } else { last }
    }

    /// The mean time to paper, in ms, rounded down; 0 where no job is printed.
    pub(crate) fn mean(&self) -> u128 {
        self.total
            .checked_div(u128::from(self.count_ending(Ending::Printed)))
            .unwrap_or(0)
    }
}

/// The length of the longest chart, in ms; 1 where there is no chart.
pub(crate) fn longest_span(charts: &[Chart]) -> u64 {
    let mut longest = 1;
    for chart in charts {
        longest = chart.span().max(longest);
    }
    longest
}
