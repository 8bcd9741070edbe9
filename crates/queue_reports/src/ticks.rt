//! The scale below a plan.
use crate::times::{TimeDetail, ZonedTimes};

/// The ms of a minute.
const MINUTE: u64 = 60_000;

/// Times between two ticks in ms, on the clock on the wall: the first of which few enough fit is taken.
const STEPS: [u64; 17] = [
    1_000, 2_000, 5_000, 10_000, 20_000, 30_000, 60_000, 120_000, 300_000, 600_000, 1_200_000,
    1_800_000, 3_600_000, 7_200_000, 14_400_000, 28_800_000, 86_400_000,
];

/// The most steps that fit.
const MOST: u64 = 7;

/// The ten thousandths of a whole.
pub(crate) const WHOLE: u64 = 10_000;

/// The span of a plan in ms, and its ticks.
#[derive(Clone, Copy)]
pub(crate) struct Span {
    pub(crate) start: u64,
    length: u64,
    step: u64,
    /// The ms from the start to the first tick.
    first: u64,
}

/// The step for a length.
fn step_of(length: u64) -> u64 {
    let fits = STEPS
        .iter()
        .find(|step| step.saturating_mul(MOST) >= length);
    match fits {
        Some(step) => *step,
        None => (length / MOST).saturating_add(1),
    }
}

impl Span {
    /// Creates the span from the page's moment to an end in ms.
    pub(crate) fn new(times: &ZonedTimes<'_>, end: u64) -> Span {
        let start = times.now();
        let length = end.saturating_sub(start).max(1);
        let step = step_of(length).max(1);
        let passed = times.on_wall(start).checked_rem(step).unwrap_or(0);
        Span {
            start,
            length,
            step,
            first: step.saturating_sub(passed).checked_rem(step).unwrap_or(0),
        }
    }

    /// The place of a moment in ms within the span, in ten thousandths.
    pub(crate) fn place(&self, millis: u64) -> u64 {
        let passed = millis.saturating_sub(self.start).min(self.length);
        passed
            .saturating_mul(WHOLE)
            .checked_div(self.length)
            .unwrap_or(0)
    }

    /// The ms of the tick of this number, if it is within the span.
    pub(crate) fn tick(&self, number: u64) -> Option<u64> {
        let passed = self.first.saturating_add(self.step.saturating_mul(number));
        if passed <= self.length {
            Some(self.start.saturating_add(passed))
        } else {
            None
        }
    }

    /// What a tick shows of its time.
    pub(crate) fn shows(&self) -> TimeDetail {
        if self.step < MINUTE {
            TimeDetail::TimeAlone
        } else {
            TimeDetail::Minutes
        }
    }

    /// The numbers of ticks that may be within the span.
    pub(crate) fn numbers(&self) -> u64 {
        MOST.saturating_add(2)
    }
}
