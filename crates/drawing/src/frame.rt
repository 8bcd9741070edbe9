//! The places of lanes and moments in a picture.

use crate::chart::{Chart, Lane, longest_span};
use crate::scale::Scale;
use std::num::nearest_usize_to_f64;

/// The least width of the lanes.
const LANES_WIDTH: f64 = 960.0;

/// The width of a letter in the name of a device.
const LETTER_WIDTH: f64 = 7.5;

/// The distance between two labels side by side below a lane.
pub(crate) const LABEL_PITCH: f64 = 11.0;

/// The room for the label of a job that came: the label is near its pin.
const ARRIVAL_PITCH: f64 = 16.5;

/// The least width of the lanes of a chart whose jobs aren't labeled each.
const CROWDED_WIDTH: f64 = 1440.0;

/// The room for the words beside the number of jobs that wait.
const WAITING_WIDTH: f64 = 76.0;

/// The room around everything.
pub(crate) const MARGIN: f64 = 16.0;

/// The lanes of a picture from left to right, and the scale that gives moments their places.
#[derive(Clone, Copy)]
pub(crate) struct Frame {
    /// The left end of the lanes.
    pub(crate) left: f64,
    /// The width of the lanes.
    pub(crate) width: f64,
    pub(crate) scale: Scale,
}

/// The room for the name of a lane.
fn name_width(lane: &Lane) -> f64 {
    LETTER_WIDTH * nearest_usize_to_f64(lane.name.as_bytes().len())
}

/// The room that this number of labels of a lane takes.
pub(crate) fn labels_width(lane: &Lane, labels: usize) -> f64 {
    let pitch = if lane.has_arrivals() {
        ARRIVAL_PITCH
    } else {
        LABEL_PITCH
    };
    pitch * nearest_usize_to_f64(labels)
}

impl Frame {
    /// Creates a frame of the least width, over this span in ms.
    fn empty(span: u64) -> Frame {
        Frame {
            left: MARGIN,
            width: LANES_WIDTH,
            scale: Scale::new(span),
        }
    }

    /// Widens the frame for the names of a chart's lanes.
    fn fit_names(&mut self, chart: &Chart) {
        for lane in &chart.lanes {
            self.left = self.left.max(2.0 * MARGIN + name_width(lane));
        }
    }

    /// Widens the frame for the labels of a chart's jobs.
    fn fit_labels(&mut self, chart: &Chart) {
        for lane in &chart.lanes {
            self.width = self.width.max(labels_width(lane, lane.jobs()));
        }
    }

    /// Widens the frame for a chart.
    fn fit(&mut self, chart: &Chart) {
        self.fit_names(chart);
        if chart.is_crowded() {
            self.left = self.left.max(MARGIN + WAITING_WIDTH);
            self.width = self.width.max(CROWDED_WIDTH);
        } else {
            self.fit_labels(chart);
        }
    }

    /// The frame of these charts, from the moment 0 to the end of the last job of all charts.
    pub(crate) fn of(charts: &[Chart]) -> Frame {
        let mut frame = Frame::empty(longest_span(charts));
        for chart in charts {
            frame.fit(chart);
        }
        frame
    }

    /// The place of a moment, from left to right.
    pub(crate) fn x(self, moment: u64) -> f64 {
        self.left + self.width * self.scale.part(moment)
    }

    /// The right end of the lanes.
    pub(crate) fn right(self) -> f64 {
        self.left + self.width
    }
}
