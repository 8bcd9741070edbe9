use base_types::{DeviceId, JobId};
use plan_problem::ClassProblem;
use std::alloc::{AllocError, Global};

/// A part of a way: the placed jobs, and the moment at which each device is free after them.
#[derive(Drop)]
struct Partial {
    ids: Vec<JobId>,
    placed: Vec<bool>,
    free: Vec<u64>,
}

/// A job placed at the end of a device's list.
#[derive(Clone, Copy)]
struct Step {
    job: usize,
    device: usize,
    time: u64,
}

/// The least total of all ways of a class, in ms, by trying each way; `None` where there is no way. The only
/// error is out of memory.
pub fn least_total(alloc: Global, class: &ClassProblem) -> Result<Option<u64>, AllocError> {
    let ids = Vec::from_slice(alloc, class.ids())?;
    let free = Vec::from_slice(alloc, class.waits())?;
    let mut placed = Vec::with_capacity(alloc, ids.len())?;
    for _ in 0..ids.len() {
        placed.push(false)?;
    }
    let jobs = ids.len();
    let mut partial = Partial { ids, placed, free };
    Ok(least_from(class, &mut partial, jobs))
}

/// The least sum of completions of the remaining jobs; `left` is their number.
fn least_from(class: &ClassProblem, partial: &mut Partial, left: usize) -> Option<u64> {
    if left == 0 {
        return Some(0);
    }
    let mut least = None;
    for pair in 0..partial.pairs() {
        if let Some(step) = partial.place(class, pair) {
            let completion = partial.free_at(step.device);
            let rest = least_from(class, partial, left - 1);
            partial.take_back(step);
            least = smaller(least, rest.map(|rest| rest.saturating_add(completion)));
        }
    }
    least
}

/// The smaller of two numbers; if one is missing, the other.
pub fn smaller(one: Option<u64>, other: Option<u64>) -> Option<u64> {
    match (one, other) {
        (Some(one), Some(other)) => Some(one.min(other)),
        (one, None) => one,
        (None, other) => other,
    }
}

impl Partial {
    /// The number of pairs of a job and a device.
    fn pairs(&self) -> usize {
        self.ids.len().saturating_mul(self.free.len())
    }

    /// The moment at which a device is free.
    fn free_at(&self, device: usize) -> u64 {
        self.free.get(device).copied().unwrap_or(0)
    }

    /// Places the job of a pair at the end of its device's list, if the job is not placed yet and the device
    /// is able.
    fn place(&mut self, class: &ClassProblem, pair: usize) -> Option<Step> {
        let job = pair.checked_div(self.free.len())?;
        let device = pair.checked_rem(self.free.len())?;
        if self.placed.get(job).copied() != Some(false) {
            return None;
        }
        let id = self.ids.get(job).copied()?;
        let time = class.time(id, DeviceId::new(device))?;
        self.set(job, device, true, self.free_at(device).saturating_add(time));
        Some(Step { job, device, time })
    }

    /// Takes back the last placed job.
    fn take_back(&mut self, step: Step) {
        let before = self.free_at(step.device).saturating_sub(step.time);
        self.set(step.job, step.device, false, before);
    }

    fn set(&mut self, job: usize, device: usize, is_placed: bool, free: u64) {
        if let Some(placed) = self.placed.get_mut(job) {
            *placed = is_placed;
        }
        if let Some(moment) = self.free.get_mut(device) {
            *moment = free;
        }
    }
}
