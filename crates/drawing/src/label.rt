//! The labels of jobs: in a bar of sufficient width, else below the lane.

use crate::chart::{Bar, Chart, Lane, Mark};
use crate::frame::{Frame, LABEL_PITCH, labels_width};
use crate::length::{ShortTime, digits_of};
use std::alloc::{AllocError, Global};
use std::num::nearest_usize_to_f64;

/// The width of a letter of a label.
const LETTER_WIDTH: f64 = 6.4;

/// The room around a label in its bar.
const ROOM: f64 = 5.0;

/// The number of a job, and the length of its print where the job was printed.
#[derive(Clone, Copy)]
pub(crate) struct BarLabel {
    pub(crate) number: u32,
    pub(crate) length: Option<ShortTime>,
}

/// A label below its lane.
#[derive(Clone, Copy)]
pub(crate) struct Tag {
    pub(crate) label: BarLabel,
    /// The middle of the bar.
    pub(crate) middle: f64,
    /// The place of the label.
    pub(crate) x: f64,
}

impl BarLabel {
    /// The label of the job with this number, whose print takes this time in ms.
    pub(crate) fn of(number: u32, length: u64) -> BarLabel {
        BarLabel {
            number,
            length: Some(ShortTime(length)),
        }
    }

    /// The number of letters of the job's number, and of the length.
    fn letters(self) -> (usize, usize) {
        let number = digits_of(u64::from(self.number));
        match self.length {
            Some(length) => (number, length.letters()),
            None => (number, 0),
        }
    }

    /// Returns whether the two lines of the label fit into a bar of this width.
    pub(crate) fn fits(self, width: f64) -> bool {
        let (number, length) = self.letters();
        LETTER_WIDTH * nearest_usize_to_f64(number.max(length)) + ROOM <= width
    }

    /// The length of the label in one line.
    fn extent(self) -> f64 {
        let (number, length) = self.letters();
        LETTER_WIDTH * (nearest_usize_to_f64(number.saturating_add(length)) + 1.0)
    }
}

/// The label of a bar; `None` for a bar without a label.
fn label_of(bar: &Bar) -> Option<BarLabel> {
    match bar.mark {
        Mark::Wait => None,
        Mark::Job(job) => Some(BarLabel::of(job.number, bar.length())),
        Mark::Came(number) => Some(BarLabel {
            number,
            length: None,
        }),
    }
}

/// The label of a bar below its lane; `None` where the label fits into the bar, or the bar has none.
fn tag_of(frame: Frame, bar: &Bar) -> Option<Tag> {
    let label = label_of(bar)?;
    let (start, end) = (frame.x(bar.start), frame.x(bar.end));
    if label.fits(end - start) {
        return None;
    }
    let middle = (start + end) / 2.0;
    Some(Tag {
        label,
        middle,
        x: middle,
    })
}

/// Moves each label to the right until it is clear of the label before it.
fn push_right(tags: &mut [Tag], left: f64) {
    let mut least = left;
    for tag in tags.iter_mut() {
        tag.x = tag.x.max(least);
        least = tag.x + LABEL_PITCH;
    }
}

/// Moves each label to the left until it is clear of the label after it.
fn push_left(tags: &mut [Tag], right: f64) {
    let mut most = right;
    for place in (0..tags.len()).rev() {
        let tag = &mut tags[place];
        tag.x = tag.x.min(most);
        most = tag.x - LABEL_PITCH;
    }
}

/// The labels below a lane, clear of each other; none if the chart has too many jobs, or the lane more labels
/// than fit. The only error is out of memory.
pub(crate) fn tags_of(
    alloc: Global,
    frame: Frame,
    chart: &Chart,
    lane: &Lane,
) -> Result<Vec<Tag>, AllocError> {
    let mut tags = Vec::new(alloc);
    if chart.is_crowded() {
        return Ok(tags);
    }
    for bar in &lane.bars {
        if let Some(tag) = tag_of(frame, bar) {
            tags.push(tag)?;
        }
    }
    if labels_width(lane, tags.len()) > frame.width {
        tags.clear();
    }
    push_right(&mut tags, frame.left);
    push_left(&mut tags, frame.right());
    Ok(tags)
}

/// The room that labels below a lane take.
pub(crate) fn tags_height(tags: &[Tag]) -> f64 {
    let mut height = 0.0;
    for tag in tags {
        height = tag.label.extent().max(height);
    }
    height
}
