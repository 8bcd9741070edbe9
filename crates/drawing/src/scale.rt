//! The scale of a chart: the places of moments, and the moments that are written below the lanes.

use std::num::nearest_u64_to_f64;

/// Times between two marks, in ms: a scale takes the first time of which few enough fit into the span.
const STEPS: [u64; 32] = [
    1,
    2,
    5,
    10,
    20,
    50,
    100,
    200,
    500,
    1_000,
    2_000,
    5_000,
    10_000,
    15_000,
    30_000,
    60_000,
    120_000,
    300_000,
    600_000,
    900_000,
    1_800_000,
    3_600_000,
    7_200_000,
    18_000_000,
    36_000_000,
    86_400_000,
    172_800_000,
    432_000_000,
    864_000_000,
    2_592_000_000,
    8_640_000_000,
    31_536_000_000,
];

/// The most marks after the first mark.
pub(crate) const MOST_MARKS: u64 = 12;

/// The unit of the marks.
#[derive(Clone, Copy)]
pub(crate) enum Unit {
    Milliseconds,
    Seconds,
    Minutes,
}

/// A span of time, and the time between two of its marks, in ms.
#[derive(Clone, Copy)]
pub(crate) struct Scale {
    span: u64,
    step: u64,
}

/// A marked moment, in ms and in units.
#[derive(Clone, Copy)]
pub(crate) struct ScaleMark {
    pub(crate) moment: u64,
    pub(crate) number: u64,
}

impl Unit {
    /// The largest unit that is not longer than a step.
    fn of(step: u64) -> Unit {
        if step >= 60_000 {
            Unit::Minutes
        } else if step >= 1_000 {
            Unit::Seconds
        } else {
            Unit::Milliseconds
        }
    }

    fn count(self, moment: u64) -> u64 {
        match self {
            Unit::Milliseconds => moment,
            Unit::Seconds => moment / 1_000,
            Unit::Minutes => moment / 60_000,
        }
    }

    pub(crate) fn name(self) -> &'static str {
        match self {
            Unit::Milliseconds => "ms",
            Unit::Seconds => "seconds",
            Unit::Minutes => "minutes",
        }
    }
}

/// The time between two marks for a span, in ms.
fn step_of(span: u64) -> u64 {
    for step in &STEPS {
        if span <= step.saturating_mul(MOST_MARKS) {
            return *step;
        }
    }
    span / MOST_MARKS
}

impl Scale {
    /// Creates the scale of a span in ms.
    pub(crate) fn new(span: u64) -> Scale {
        Scale {
            span,
            step: step_of(span),
        }
    }

    pub(crate) fn unit(self) -> Unit {
        Unit::of(self.step)
    }

    /// The mark at a place; `None` after the end of the span. The first mark is the moment 0.
    pub(crate) fn mark(self, place: u64) -> Option<ScaleMark> {
        let moment = self.step.checked_mul(place)?;
        if moment > self.span {
            return None;
        }
        let number = self.unit().count(moment);
        Some(ScaleMark { moment, number })
    }

    /// The part of the span that has passed at a moment, from 0 to 1.
    pub(crate) fn part(self, moment: u64) -> f64 {
        nearest_u64_to_f64(moment.min(self.span)) / nearest_u64_to_f64(self.span.max(1))
    }

    /// The column of a moment, among this number of columns from left to right; the end of the span is after
    /// the last column.
    pub(crate) fn column(self, moment: u64, columns: u16) -> u16 {
        let passed = u128::from(moment.min(self.span)) * u128::from(columns);
        let column = passed / u128::from(self.span.max(1));
        u16::try_from(column).unwrap_or(columns).min(columns)
    }
}
