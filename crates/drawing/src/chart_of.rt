//! The chart of a plan.
ghost use Rattle.std.specs.Prelude.{◌≡◌, All, Contains, IfSome};
ghost use Rattle.plan_prices.specs.Way.{IsWay};
ghost use Rattle.plan_prices.specs.Total.{completion_of};
ghost use Rattle.plan_prices.specs.Timetable.{own_slots};

use crate::chart::{Bar, Chart, ChartJob, Ending, Lane, Mark};
use crate::page::Page;
use base_types::{JobId, Text};
use plan_prices::{PlannedClass, start_of, total};
use plan_text::PlanText;
use std::alloc::{AllocError, Global};

/// A job on a device, from its start to its end, in ms since the moment from which the plan counts its waits.
#[derive(Clone, Copy)]
struct Printing {
    device: usize,
    start: u64,
    end: u64,
}

/// The device, the start and the end of a job, by the way of its class; `None` where no list has the job.
fn printing_of(class: &PlannedClass, job: JobId) -> Option<Printing>
    requires { IsWay class.now.problem class.now.priced.way }
    ensures slot { IfSome result (λ p. Contains (own_slots class.now.problem class.now.priced.way) (record { job = job; device = p.device; start = p.start })) }
    ensures completion { IfSome result (λ p. p.end ≡ completion_of class.now.problem class.now.priced.way job) }
{
    let (device, start) = start_of(&class.problem, &class.priced.way, job)?;
    let time = class.problem.time(job, device).unwrap_or(0);
    let end = start.checked_add(time)?;
    Some(Printing {
        device: device.place(),
        start,
        end,
    })
}

/// The moment at which a device is free for the first class; `None` where it is free from the beginning.
fn first_wait(classes: &[PlannedClass], device: usize) -> Option<u64> {
    let first = classes.first()?;
    let wait = first.problem.waits().get(device).copied()?;
    if wait > 0 { Some(wait) } else { None }
}

/// The lane of a device before its first job: at most one wait. The only error is out of memory.
fn empty_lane(alloc: Global, name: &Text, wait: Option<u64>) -> Result<Lane, AllocError> {
    let mut bars = Vec::new(alloc);
    if let Some(end) = wait {
        bars.push(Bar {
            mark: Mark::Wait,
            start: 0,
            end,
        })?;
    }
    let name = name.copied(alloc)?;
    Ok(Lane { name, bars })
}

/// The lanes of the devices before their first jobs. The only error is out of memory.
fn empty_lanes(
    alloc: Global,
    names: &[Text],
    classes: &[PlannedClass],
) -> Result<Vec<Lane>, AllocError> {
    let mut lanes = Vec::new(alloc);
    for (device, name) in names.iter().enumerate() {
        lanes.push(empty_lane(alloc, name, first_wait(classes, device))?)?;
    }
    Ok(lanes)
}

/// Adds the bar of a job to the lane of its device; the class is given by its place.
fn add_job(
    lanes: &mut [Lane],
    place: usize,
    class: &PlannedClass,
    job: JobId,
) -> Result<(), AllocError>
    requires { IsWay class.now.problem class.now.priced.way }
{
    let Some(printing) = printing_of(class, job) else {
        return Ok(());
    };
    let bar = Bar {
        mark: Mark::Job(ChartJob {
            number: job.number(),
            class: place,
            ending: Ending::Printed,
        }),
        start: printing.start,
        end: printing.end,
    };
    if let Some(lane) = lanes.get_mut(printing.device) {
        lane.bars.push(bar)?;
    }
    Ok(())
}

/// Adds the bars of some jobs of the class at a place.
fn add_jobs(
    lanes: &mut [Lane],
    place: usize,
    class: &PlannedClass,
    jobs: &[JobId],
) -> Result<(), AllocError>
    requires { IsWay class.now.problem class.now.priced.way }
{
    for job in jobs {
        add_job(lanes, place, class, *job)?;
    }
    Ok(())
}

/// Adds the bars of the class at a place: on each device, its jobs from the first to the last.
fn add_class(lanes: &mut [Lane], place: usize, class: &PlannedClass) -> Result<(), AllocError>
    requires { IsWay class.now.problem class.now.priced.way }
{
    for queue in class.priced.way.queues() {
        add_jobs(lanes, place, class, queue.jobs())?;
    }
    Ok(())
}

/// Adds the bars of all classes.
fn add_classes(lanes: &mut [Lane], classes: &[PlannedClass]) -> Result<(), AllocError>
    requires { All (λ class. IsWay class.problem class.priced.way) classes.now }
{
    for (place, class) in classes.iter().enumerate() {
        add_class(lanes, place, class)?;
    }
    Ok(())
}

/// The priorities of the classes, in their order. The only error is out of memory.
fn priorities_of(alloc: Global, classes: &[PlannedClass]) -> Result<Vec<u8>, AllocError> {
    let mut priorities = Vec::new(alloc);
    for class in classes {
        priorities.push(class.priority.level())?;
    }
    Ok(priorities)
}

/// The sum of the completions of all jobs, in ms.
fn total_of(classes: &[PlannedClass]) -> u128
    requires { All (λ class. IsWay class.problem class.priced.way) classes.now }
{
    let mut sum = 0u128;
    for class in classes {
        sum = sum.saturating_add(u128::from(total(&class.problem, &class.priced.way)));
    }
    sum
}

/// The number of jobs in the classes.
fn jobs_in(classes: &[PlannedClass]) -> usize {
    let mut jobs = 0usize;
    for class in classes {
        jobs = jobs.saturating_add(class.problem.ids().len());
    }
    jobs
}

/// Appends a number and the name of the things it counts.
fn put_counted(page: Page, count: usize, one: &str) -> Page {
    let plural = if count == 1 { "" } else { "s" };
    page.put_shown(count).put(" ").put(one).put(plural)
}

/// The title of the chart, in one line. The only error is out of memory.
fn title_of(alloc: Global, named: &PlanText, is_proved: bool) -> Result<String, AllocError> {
    let jobs = jobs_in(named.plan().classes());
    let title = put_counted(Page::new(alloc), jobs, "job").put(" on ");
    let verdict = if is_proved { ", " } else { ", not " };
    put_counted(title, named.devices().len(), "device")
        .put(verdict)
        .put("proved the best")
        .finish()
}

/// The chart of a plan with these lanes. The only error is out of memory.
fn chart_with(
    alloc: Global,
    named: &PlanText,
    is_proved: bool,
    lanes: Vec<Lane>,
) -> Result<Chart, AllocError>
    requires { All (λ class. IsWay class.problem class.priced.way) named.now.plan.classes }
{
    let classes = named.plan().classes();
    Ok(Chart {
        title: title_of(alloc, named, is_proved)?,
        lanes,
        classes: priorities_of(alloc, classes)?,
        stranded: Vec::from_slice(alloc, named.plan().stranded())?,
        notes: Vec::new(alloc),
        total: total_of(classes),
    })
}

/// The chart of a plan, from the moment from which the plan counts its waits. The only error is out of
/// memory.
pub(crate) fn chart_of(
    alloc: Global,
    named: &PlanText,
    is_proved: bool,
) -> Result<Chart, AllocError>
    requires { All (λ class. IsWay class.problem class.priced.way) named.now.plan.classes }
{
    let classes = named.plan().classes();
    let mut lanes = empty_lanes(alloc, named.devices(), classes)?;
    add_classes(&mut lanes, classes)?;
    chart_with(alloc, named, is_proved, lanes)
}
