//! The tests of the parts of a way's definition.
ghost use Rattle.std.specs.Prelude.{◌≡◌, ◌↔◌, ◌==◌, ◌<◌, All, IsSome, IsTrue, length};
ghost use Rattle.plan_problem.specs.Class.{place_of, time_in};
ghost use Rattle.plan_prices.specs.Way.{IsWay, NamesKnown, NoneTwice, AllNamed, AllAble, times_named as times_in};

use crate::way::Way;
use base_types::{DeviceId, JobId};
use plan_problem::ClassProblem;

/// Returns whether the lists are a way of the class: each of its jobs is in the lists once, and on a device
/// that is able, and each device has a list.
pub fn is_way(class: &ClassProblem, way: &Way) -> bool
    ensures { IsTrue result ↔ IsWay class.now way.now }
{
    way.queues().len() == class.waits().len()
        && names_known(class, way)
        && none_twice(class, way)
        && all_named(class, way)
        && all_able(class, way)
}

/// Returns whether all jobs in the lists are of the class.
pub fn names_known(class: &ClassProblem, way: &Way) -> bool
    ensures { IsTrue result ↔ NamesKnown class.now way.now }
{
    for queue in way.queues() {
        if !knows(class, queue.jobs()) {
            return false;
        }
    }
    true
}

/// Returns whether the jobs are of the class.
fn knows(class: &ClassProblem, jobs: &[JobId]) -> bool
    ensures { IsTrue result ↔ All (λ job. place_of class.now.ids job < length class.now.ids) jobs.now }
{
    for job in jobs {
        if class.place(*job).is_none() {
            return false;
        }
    }
    true
}

/// Returns whether no job of the class is in the lists twice.
pub fn none_twice(class: &ClassProblem, way: &Way) -> bool
    ensures { IsTrue result ↔ NoneTwice class.now way.now }
{
    for job in class.ids() {
        if times_named(way, *job) > 1 {
            return false;
        }
    }
    true
}

/// Returns whether each job of the class is in a list.
pub fn all_named(class: &ClassProblem, way: &Way) -> bool
    ensures { IsTrue result ↔ AllNamed class.now way.now }
{
    for job in class.ids() {
        if times_named(way, *job) < 1 {
            return false;
        }
    }
    true
}

/// How often a job is in the lists. The sum of so many lengths may exceed 64 bits.
fn times_named(way: &Way, job: JobId) -> u128
    ensures { result ≡ times_in way.now job }
{
    let mut named = 0;
    for queue in way.queues() {
        named += queue.jobs().iter().filter(|id| **id == job).count() as u128;
    }
    named
}

/// Returns whether each job is in the list of a device that is able to print it.
pub fn all_able(class: &ClassProblem, way: &Way) -> bool
    ensures { IsTrue result ↔ AllAble class.now way.now }
{
    for (place, queue) in way.queues().iter().enumerate() {
        if !is_able(class, DeviceId::new(place), queue.jobs()) {
            return false;
        }
    }
    true
}

/// Returns whether a device is able to print all of the jobs.
fn is_able(class: &ClassProblem, device: DeviceId, jobs: &[JobId]) -> bool
    ensures { IsTrue result ↔ All (λ job. IsSome (time_in class.now job device)) jobs.now }
{
    for job in jobs {
        if class.time(*job, device).is_none() {
            return false;
        }
    }
    true
}
