//! The hint that the last plan of a class gives for the next one. The functions have no contracts: each guess
//! is tested before it is used.
//!
//! If printing goes as estimated, the rest of a best plan is the best plan of the rest. A job that began was
//! the first of its device's list, and its time is part of the device's wait now. The waits of all busy
//! devices fall by the time that has passed, and all prices with them.
//!
//! A job that left otherwise, or that its device can't print any more, leaves a vacant column. A device that
//! has become able to print jobs has next places that are better for them. Both are filled by searches, which
//! move few jobs; the other jobs stay.

use crate::adapt::{adapt, vacate_better};
use crate::costs::{Costs, Place, on_device};
use crate::equals::order_equal;
use crate::filling::fill;
use crate::hint::{Guess, Hint};
use crate::kept::Kept;
use crate::matching::Matching;
use crate::times::Entries;
use crate::vacancy::VACANT;
use crate::worth::most_changes;
use base_types::JobId;
use std::alloc::{AllocError, Global};

/// The first job of a device: the job with the most places after its own.
#[derive(Clone, Copy)]
struct First {
    after: u64,
    job: usize,
}

/// The hint for the next class by its last plan. If memory is refused, the hint is empty.
pub(crate) fn recall(alloc: Global, kept: Option<Kept>, entries: &Entries) -> Hint {
    match kept {
        Some(mut kept) => match recalled(alloc, &mut kept, entries) {
            Ok(hint) => hint,
            Err(_) => Hint::none(alloc),
        },
        None => Hint::none(alloc),
    }
}

/// The hint by the last plan, with the jobs that began taken out. The only error is out of memory.
fn recalled(alloc: Global, kept: &mut Kept, entries: &Entries) -> Result<Hint, AllocError> {
    let numbers = numbers_now(alloc, &kept.ids, &entries.ids)?;
    let waits = &entries.costs.waits;
    let firsts = first_jobs(alloc, &kept.matching, waits.len())?;
    let gone = time_gone(alloc, kept, &numbers, &firsts, waits)?;
    take_begun(kept, &numbers, &firsts, waits, gone);
    let changes = kept.matching.columns.len().abs_diff(entries.ids.len());
    if changes > most_changes(&entries.costs) {
        return Ok(Hint::none(alloc));
    }
    let faster = faster_devices(alloc, kept, &numbers, &entries.costs)?;
    let better = better_devices(alloc, &faster, &kept.costs.waits, waits, gone)?;
    let mut matching = renumbered(alloc, kept, &numbers, waits)?;
    adapt(alloc, &entries.costs, &mut matching, gone, &better)?;
    vacate_better(&entries.costs, &mut matching, &faster);
    fill(alloc, &entries.costs, &mut matching, &better)?;
    hint_by(alloc, &matching, entries)
}

/// The hint by a matching of jobs of the next class. The only error is out of memory.
fn hint_by(alloc: Global, matching: &Matching, entries: &Entries) -> Result<Hint, AllocError> {
    let mut guesses = guesses(alloc, matching, entries.ids.len())?;
    order_equal(alloc, entries, &mut guesses)?;
    Ok(Hint::new(guesses))
}

/// The number in the next class of each job of the last class, if the job is still there.
fn numbers_now(
    alloc: Global,
    before: &[JobId],
    now: &[JobId],
) -> Result<Vec<Option<usize>>, AllocError> {
    let mut numbers = Vec::with_capacity(alloc, before.len())?;
    for id in before {
        numbers.push(now.binary_search(id).ok())?;
    }
    Ok(numbers)
}

/// The number in the next class of a job of the last class.
fn number_now(numbers: &[Option<usize>], job: usize) -> Option<usize> {
    numbers.get(job).copied().flatten()
}

/// The time that has passed since, in ms: the amount by which the waits of most devices fell whose first job
/// hasn't begun.
fn time_gone(
    alloc: Global,
    kept: &Kept,
    numbers: &[Option<usize>],
    firsts: &[Option<First>],
    waits: &[u64],
) -> Result<u64, AllocError> {
    let mut falls = Vec::new(alloc);
    for (device, first) in firsts.iter().enumerate() {
        if let Some(first) = first {
            let before = wait_with(kept, numbers, device, first.job);
            falls.push(before.saturating_sub(on_device(waits, device)))?;
        }
    }
    falls.sort_unstable();
    Ok(falls.get(falls.len() / 2).copied().unwrap_or(0))
}

/// The wait of a device in the last plan, with the time of its first job if that job isn't there any more.
fn wait_with(kept: &Kept, numbers: &[Option<usize>], device: usize, job: usize) -> u64 {
    let wait = on_device(&kept.costs.waits, device);
    match number_now(numbers, job) {
        Some(_) => wait,
        None => wait.saturating_add(on_device(kept.costs.row(job), device)),
    }
}

/// The first job of each device.
fn first_jobs(
    alloc: Global,
    matching: &Matching,
    devices: usize,
) -> Result<Vec<Option<First>>, AllocError> {
    let mut firsts = vec![in alloc; None; devices]?;
    for (place, job) in matching.columns.iter().zip(matching.jobs.iter()) {
        note_first(&mut firsts, *place, *job);
    }
    Ok(firsts)
}

/// Notes the job at a place as the first of its device, unless one is known with more places after it.
fn note_first(firsts: &mut [Option<First>], place: Place, job: usize) {
    let after = place.after;
    if let Some(first) = firsts.get_mut(place.device) {
        *first = match *first {
            Some(known) if known.after > after => Some(known),
            _ => Some(First { after, job }),
        };
    }
}

/// Takes out each job that began: the first job of a device whose wait has grown.
fn take_begun(
    kept: &mut Kept,
    numbers: &[Option<usize>],
    firsts: &[Option<First>],
    waits: &[u64],
    gone: u64,
) {
    for (device, first) in firsts.iter().enumerate() {
        let Some(first) = first else {
            continue;
        };
        let grown = on_device(waits, device).saturating_add(gone);
        let before = on_device(&kept.costs.waits, device);
        if number_now(numbers, first.job).is_none() && grown > before {
            begin(kept, device, first.job);
        }
    }
}

/// Takes out the first job of a device, and adds the job's time to the device's wait.
fn begin(kept: &mut Kept, device: usize, job: usize) {
    let time = on_device(kept.costs.row(job), device);
    if let Some(wait) = kept.costs.waits.get_mut(device) {
        *wait = (*wait).saturating_add(time);
    }
    lower_duals(&mut kept.matching, device, time);
    if let Some(column) = kept.matching.jobs.iter().position(|one| *one == job) {
        drop_column(&mut kept.matching, column);
    }
}

/// Lowers the duals of a device's columns by the same amount.
fn lower_duals(matching: &mut Matching, device: usize, less: u64) {
    for (dual, place) in matching.duals.iter_mut().zip(matching.columns.iter()) {
        if place.device == device {
            *dual = (*dual).saturating_sub(less);
        }
    }
}

/// Removes a column and its job, and moves the last column to its place.
pub(crate) fn drop_column(matching: &mut Matching, column: usize) {
    drop_at(&mut matching.columns, column);
    drop_at(&mut matching.duals, column);
    drop_at(&mut matching.jobs, column);
    drop_at(&mut matching.prices, column);
}

/// Removes an element, and moves the last one to its place.
fn drop_at<T: Drop>(items: &mut Vec<T>, at: usize) {
    if at < items.len() {
        items.swap_remove(at);
    }
}

/// For each device whether it takes less time for a job than in the last plan, or has become able to print it.
fn faster_devices(
    alloc: Global,
    kept: &Kept,
    numbers: &[Option<usize>],
    costs: &Costs,
) -> Result<Vec<bool>, AllocError> {
    let mut faster = vec![in alloc; false; costs.waits.len()]?;
    for (job, number) in numbers.iter().enumerate() {
        if let Some(number) = number {
            note_faster(&mut faster, kept.costs.row(job), costs.row(*number));
        }
    }
    Ok(faster)
}

/// Notes each device that takes less time for a job than before.
fn note_faster(faster: &mut [bool], before: &[u64], now: &[u64]) {
    for (is_faster, (before, now)) in faster.iter_mut().zip(before.iter().zip(now.iter())) {
        if *now < *before {
            *is_faster = true;
        }
    }
}

/// For each device whether it may be better for a job than in the last plan: if it is faster, or free sooner,
/// with the time that has passed taken off.
fn better_devices(
    alloc: Global,
    faster: &[bool],
    before: &[u64],
    now: &[u64],
    gone: u64,
) -> Result<Vec<bool>, AllocError> {
    let mut better = Vec::with_capacity(alloc, now.len())?;
    for (device, wait) in now.iter().enumerate() {
        let is_sooner = (*wait).saturating_add(gone) < on_device(before, device);
        better.push(is_sooner || faster.get(device) == Some(&true))?;
    }
    Ok(better)
}

/// The columns of the last plan, with the numbers of the jobs in the next class; a column is vacant if its
/// job isn't there any more. What is added to the wait of a place is taken off its dual, so that the charge
/// stays the same.
fn renumbered(
    alloc: Global,
    kept: &Kept,
    numbers: &[Option<usize>],
    waits: &[u64],
) -> Result<Matching, AllocError> {
    let before = &kept.matching;
    let mut matching = Matching::with_capacity(alloc, before.columns.len())?;
    for (column, place) in before.columns.iter().enumerate() {
        let job = before.jobs.get(column).copied().unwrap_or(0);
        let price = before.prices.get(column).copied().unwrap_or(0);
        let dual = before.duals.get(column).copied().unwrap_or(0);
        let charge = dual.saturating_add(on_device(&kept.costs.waits, place.device));
        let dual = charge.saturating_sub(on_device(waits, place.device));
        let number = number_now(numbers, job).unwrap_or(VACANT);
        matching.push(*place, dual, number, price)?;
    }
    Ok(matching)
}

/// The guesses for this many jobs.
fn guesses(
    alloc: Global,
    matching: &Matching,
    jobs: usize,
) -> Result<Vec<Option<Guess>>, AllocError> {
    let mut guesses = vec![in alloc; None; jobs]?;
    for (column, place) in matching.columns.iter().enumerate() {
        let number = matching.jobs.get(column).copied().unwrap_or(jobs);
        let price = matching.prices.get(column).copied().unwrap_or(0);
        note(&mut guesses, number, *place, price);
    }
    Ok(guesses)
}

/// Sets the guess of a job.
fn note(guesses: &mut [Option<Guess>], number: usize, place: Place, price: u64) {
    if let Some(guess) = guesses.get_mut(number) {
        *guess = Some(Guess { place, price });
    }
}
