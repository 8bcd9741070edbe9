//! A quick test of the order of equal jobs, by their marks. The jobs are met in their order, and for each mark
//! the latest end so far is kept.
ghost use Rattle.std.specs.Prelude.{◌≡◌, ◌==◌, ◌||◌, ◌<◌, ◌≤◌, IfOk, IsTrue, length, position, vec_len};
ghost use Rattle.plan_prices.specs.Rising.{Rise, slot_in};

use std::alloc::{AllocError, Global};

/// The number of slots that a mark may begin its search at. It is a prime, and about twice as many as a class
/// may have jobs.
const HOMES: usize = 1021;

/// The content of a slot without a mark.
const FREE: u64 = 0;

/// Returns `true` only if of two jobs with equal marks the older one ends no later. The answer is `false` too
/// where a slot is shared by different marks, for which there are too many slots. The only error is out of
/// memory.
pub(crate) fn rise(alloc: Global, marks: &[u64], ends: &[u64]) -> Result<bool, AllocError>
    requires { length ends.now ≡ length marks.now }
    ensures { IfOk result (λ answer. IsTrue answer → Rise marks.now ends.now) }
{
    let slots = slots(alloc, marks)?;
    let mut latest = vec![in alloc; 0; slots.len()]?;
    for job in 0..marks.len() {
        let slot = slot_of(&slots, marks[job]);
        if ends[job] < latest[slot] {
            return Ok(false);
        }
        latest[slot] = ends[job];
    }
    Ok(true)
}

/// A table of the marks, for [`slot_of`]. No contract says what is in it, since any table gives equal marks
/// equal slots.
fn slots(alloc: Global, marks: &[u64]) -> Result<Vec<u64>, AllocError>
    ensures { IfOk result (λ slots. HOMES ≤ vec_len slots) }
{
    let mut slots = vec![in alloc; FREE; HOMES + marks.len()]?;
    for mark in marks {
        let slot = slot_of(&slots, *mark);
        slots[slot] = *mark;
    }
    Ok(slots)
}

/// The first slot with the mark or without any mark, from the mark's home on.
fn slot_of(slots: &[u64], mark: u64) -> usize
    requires { HOMES ≤ length slots.now }
    ensures slot { result ≡ slot_in slots.now mark }
    ensures below { result < length slots.now }
{
    let home = (mark % HOMES as u64) as usize;
    match place_for(&slots[home..], mark) {
        Some(after) => home + after,
        None => home,
    }
}

/// The place of the first slot with the mark or without any mark.
fn place_for(slots: &[u64], mark: u64) -> Option<usize>
    ensures { result ≡ position (λ slot. (slot == mark) || (slot == FREE)) slots.now }
{
    slots.iter().position(|slot| *slot == mark || *slot == FREE)
}
