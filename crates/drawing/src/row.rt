//! Rows of a terminal's picture: the bars of a lane, and the numbers of the scale.

use crate::chart::{Bar, ChartJob, Lane, Mark};
use crate::ending::{SHOWN, edge_of};
use crate::length::digits_of;
use crate::scale::{MOST_MARKS, Scale};
use crate::terminal::WIDTH;
use crate::waiting::{WaitingStep, most_waiting};

/// The fillings of the classes, from the highest class on; they repeat after the last filling.
const FILLINGS: [u8; 6] = [b'#', b'=', b'+', b'-', b':', b'.'];

/// The filling of waits.
pub(crate) const WAIT: u8 = b'/';

/// The character at the start of a bar, and at the end of a bar that was printed.
const EDGE: u8 = b'|';

/// The filling of a class at a place.
pub(crate) fn filling_of(class: usize) -> u8 {
    FILLINGS[class % FILLINGS.len()]
}

/// A row of a terminal's picture.
pub(crate) type Row = [u8; WIDTH];

/// A row of spaces.
const EMPTY: Row = [b' '; WIDTH];

fn put_cell(cells: &mut [u8], place: usize, byte: u8) {
    if let Some(cell) = cells.get_mut(place) {
        *cell = byte;
    }
}

fn fill(cells: &mut [u8], from: usize, to: usize, byte: u8) {
    for place in from..to {
        put_cell(cells, place, byte);
    }
}

/// The last digit of a number.
fn digit_of(number: u64) -> u8 {
    b'0'.saturating_add((number % 10) as u8)
}

/// Puts the digits of a number into a row, from a column on.
fn put_number(cells: &mut [u8], from: usize, number: u64) {
    let mut rest = number;
    for place in (from..from.saturating_add(digits_of(number))).rev() {
        put_cell(cells, place, digit_of(rest));
        rest = rest / 10;
    }
}

/// Returns whether a cell marks the end of a job that was not printed.
fn is_ending(byte: u8) -> bool {
    for &ending in &SHOWN {
        if edge_of(ending) == byte {
            return true;
        }
    }
    false
}

/// Puts the edge at the start of a bar, unless the cell marks the ending of the bar before.
fn put_begin(cells: &mut [u8], from: usize) {
    if let Some(cell) = cells.get_mut(from)
        && !is_ending(*cell)
    {
        *cell = EDGE;
    }
}

/// Puts the bar of a job between two columns.
fn put_job(cells: &mut [u8], from: usize, to: usize, job: ChartJob) {
    let number = u64::from(job.number);
    fill(cells, from.saturating_add(1), to, filling_of(job.class));
    if digits_of(number) < to.saturating_sub(from) {
        put_number(cells, from.saturating_add(1), number);
    }
    put_begin(cells, from);
    put_cell(cells, to, edge_of(job.ending));
}

/// Puts the wait of a device between two columns.
fn put_wait(cells: &mut [u8], from: usize, to: usize) {
    fill(cells, from, to, WAIT);
    put_cell(cells, from, EDGE);
    put_cell(cells, to, EDGE);
}

/// Counts one more job that came in a column.
fn put_arrival(cells: &mut [u8], place: usize) {
    if let Some(cell) = cells.get_mut(place) {
        *cell = match *cell {
            b' ' => b'1',
            b'1'..=b'8' => cell.saturating_add(1),
            _ => b'+',
        };
    }
}

fn put_lane_bar(cells: &mut [u8], scale: Scale, columns: u16, bar: &Bar) {
    let from = usize::from(scale.column(bar.start, columns));
    let to = usize::from(scale.column(bar.end, columns));
    match bar.mark {
        Mark::Wait => put_wait(cells, from, to),
        Mark::Job(job) => put_job(cells, from, to, job),
        Mark::Came(_) => put_arrival(cells, from),
    }
}

/// The row of a lane, of `columns` columns and one more.
pub(crate) fn lane_row(scale: Scale, columns: u16, lane: &Lane) -> Row {
    let mut cells = EMPTY;
    for bar in &lane.bars {
        put_lane_bar(&mut cells, scale, columns, bar);
    }
    cells
}

/// The digit for a number of waiting jobs, in ninths of the most, rounded up; a space for none.
fn ninths_of(waiting: u64, most: u64) -> u8 {
    let ninths = waiting.saturating_mul(9).div_ceil(most.max(1));
    if ninths == 0 {
        b' '
    } else {
        digit_of(ninths.min(9))
    }
}

/// Raises cells to a digit.
fn raise(cells: &mut [u8], from: usize, to: usize, digit: u8) {
    for place in from..=to {
        if let Some(cell) = cells.get_mut(place) {
            *cell = digit.max(*cell);
        }
    }
}

/// The row of the number of jobs that wait, of `columns` columns and one more: the most in each column.
pub(crate) fn waiting_row(scale: Scale, columns: u16, steps: &[WaitingStep]) -> Row {
    let most = most_waiting(steps);
    let mut cells = EMPTY;
    for (place, step) in steps.iter().enumerate() {
        let until = match steps.get(place.saturating_add(1)) {
            Some(next) => next.moment,
            None => step.moment,
        };
        let from = usize::from(scale.column(step.moment, columns));
        let to = usize::from(scale.column(until, columns));
        raise(&mut cells, from, to, ninths_of(step.waiting, most));
    }
    cells
}

/// Puts the number of a mark, which ends in a column; a number without room there starts with the row.
fn put_mark(cells: &mut [u8], column: u16, number: u64) {
    let tail = usize::from(column).saturating_add(1);
    put_number(cells, tail.saturating_sub(digits_of(number)), number);
}

/// The row of the scale's numbers, each of which ends below its moment; the first number starts there.
pub(crate) fn scale_row(scale: Scale, columns: u16) -> Row {
    let mut cells = EMPTY;
    for place in 0..=MOST_MARKS {
        let Some(mark) = scale.mark(place) else {
            return cells;
        };
        put_mark(&mut cells, scale.column(mark.moment, columns), mark.number);
    }
    cells
}
