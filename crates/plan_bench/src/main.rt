//! Plans classes made of a seed: planners can be timed from outside and compared.
//!
//! `plan_bench paths JOBS DEVICES SEED COUNT` makes COUNT class problems, plans each with `AugmentingPaths`,
//! and writes its total in ms; `dense` uses `DenseAugmentingPaths`. `plan_bench compare ..` makes problems of
//! at most that many jobs and devices, plans each with both planners, and tries all ways too where there are
//! few jobs; it stops where two totals differ. Times are made of impressions and speeds, as in the server;
//! with the word `uniform` after the other words, each time is uniform at random. Equal arguments give equal
//! totals.
//!
//! `plan_bench estimated JOBS DEVICES SEED COUNT` plays COUNT events of a day on which each print takes the
//! estimated time, and plans at each event. `otherwise` plays a day on which prints take other times and jobs
//! are canceled, `moving` a day on which devices leave and come back, and `bursts` events at each of which a
//! sixteenth of the jobs are canceled or come. Each plan is made by a planner that keeps its last plan and by a
//! new planner; the program stops where their totals differ or where the checker does not answer `yes`. It
//! writes the sum of the totals. With the word `kept` or `new`, one of the two planners plans alone, and can be
//! timed.
//!
//! `plan_bench given FILE COUNT` plays at most COUNT events of a day whose jobs a file gives, as `given_day`
//! says; at each event each priority has a class. It writes the number of events, the most jobs that waited, and
//! the sum of the totals. The words `kept` and `new` mean the same as above.
#![tactic(auto)]

mod day;
mod given_day;
mod made_class;
mod played;
mod random;
mod search;

use crate::day::{Course, Day};
use crate::given_day::GivenDay;
use crate::made_class::{Kind, made_class};
use crate::played::{By, play, play_given};
use crate::random::Random;
use crate::search::least_total;
use anyhow::{Context, Error, bail};
use plan_prices::{Planner, each_able};
use plan_problem::ClassProblem;
use plan_solver::{AugmentingPaths, DenseAugmentingPaths};
use std::alloc::Global;
use std::{env, fs};

/// The most jobs of a class for which all ways are tried.
const FEW_JOBS: usize = 4;

/// The mode of a run.
#[derive(Clone, Copy)]
enum Mode {
    Paths,
    Dense,
    Compare,
    /// A day of events.
    Day(Course),
}

/// The arguments of a run.
#[derive(Drop)]
struct Arguments {
    mode: Mode,
    kind: Kind,
    by: By,
    jobs: u32,
    devices: usize,
    seed: u64,
    count: u32,
}

/// The mode that a word names.
fn read_mode(word: &str) -> Result<Mode, Error> {
    match word {
        "paths" => Ok(Mode::Paths),
        "dense" => Ok(Mode::Dense),
        "compare" => Ok(Mode::Compare),
        "estimated" => Ok(Mode::Day(Course::Estimated)),
        "otherwise" => Ok(Mode::Day(Course::Otherwise)),
        "moving" => Ok(Mode::Day(Course::Moving)),
        "bursts" => Ok(Mode::Day(Course::Bursts)),
        _ => bail!("expected paths, dense, compare, estimated, otherwise, moving, bursts or given"),
    }
}

/// The origin of times and the planners of a day that the last word names, if there is a last word.
fn read_last(word: Option<&str>) -> Result<(Kind, By), Error> {
    match word {
        None => Ok((Kind::Speeds, By::Both)),
        Some("uniform") => Ok((Kind::Uniform, By::Both)),
        Some("kept") => Ok((Kind::Speeds, By::Kept)),
        Some("new") => Ok((Kind::Speeds, By::New)),
        Some(_) => bail!("expected uniform, kept, new, or nothing"),
    }
}

/// Reads the arguments.
fn read_arguments(rt: &HostRuntime) -> Result<Arguments, Error> {
    let mut words = env::args(rt)?.skip(1);
    let mut next = || {
        words
            .next()
            .context("expected MODE JOBS DEVICES SEED COUNT")
    };
    let mode = read_mode(next()?.as_str())?;
    let jobs = next()?.parse()?;
    let devices = next()?.parse()?;
    let seed = next()?.parse()?;
    let count = next()?.parse()?;
    let (kind, by) = read_last(words.next().as_deref())?;
    Ok(Arguments {
        mode,
        kind,
        by,
        jobs,
        devices,
        seed,
        count,
    })
}

/// Makes the next class: of the numbers of jobs and devices of the arguments, or in a comparison of at most
/// these numbers.
fn next_class(
    alloc: Global,
    random: &mut Random,
    arguments: &Arguments,
) -> Result<ClassProblem, Error> {
    let (jobs, devices) = match arguments.mode {
        Mode::Paths | Mode::Dense | Mode::Day(_) => (arguments.jobs, arguments.devices),
        Mode::Compare => (
            u32::try_from(random.below(u64::from(arguments.jobs)))?.saturating_add(1),
            usize::try_from(random.below(arguments.devices as u64))?.saturating_add(1),
        ),
    };
    made_class(alloc, random, arguments.kind, jobs, devices)
}

/// The total of a planner's way, in ms.
fn planned<P: Planner>(planner: &mut P, class: &ClassProblem) -> Result<u64, Error> {
    if !each_able(class) {
        bail!("a job has no device");
    }
    Ok(planner.plan_class(class)?.total)
}

/// The total of both planners, in ms. The totals have to be equal; with few jobs, they have to be the least
/// total.
fn compared(alloc: Global, class: &ClassProblem) -> Result<u64, Error> {
    let total = planned(&mut AugmentingPaths::new(alloc), class)?;
    if planned(&mut DenseAugmentingPaths::new(alloc), class)? != total {
        bail!("the planners differ");
    }
    if class.ids().len() <= FEW_JOBS && least_total(alloc, class)? != Some(total) {
        bail!("another way is better");
    }
    Ok(total)
}

/// The total of a best way, in ms.
fn total_of(alloc: Global, class: &ClassProblem, mode: Mode) -> Result<u64, Error> {
    match mode {
        Mode::Paths => planned(&mut AugmentingPaths::new(alloc), class),
        Mode::Dense => planned(&mut DenseAugmentingPaths::new(alloc), class),
        Mode::Compare | Mode::Day(_) => compared(alloc, class),
    }
}

/// Makes the classes one after the other, and writes the total of each class.
fn plan_all(rt: &HostRuntime, arguments: &Arguments) -> Result<(), Error> {
    let mut random = Random::new(arguments.seed);
    for _ in 0..arguments.count {
        let class = next_class(rt.alloc(), &mut random, arguments)?;
        let total = total_of(rt.alloc(), &class, arguments.mode)?;
        println!(rt; "{total}")?;
    }
    Ok(())
}

/// Plays a day, and writes the sum of the totals of its plans.
fn play_day(rt: &HostRuntime, arguments: &Arguments, course: Course) -> Result<(), Error> {
    let jobs = arguments.jobs as usize;
    let day = Day::new(rt.alloc(), course, jobs, arguments.devices, arguments.seed)?;
    let sum = play(rt.alloc(), day, arguments.by, arguments.count)?;
    println!(rt; "{sum}")?;
    Ok(())
}

/// Plays a given day, and writes the number of its events, the most jobs that waited, and the sum of the totals
/// of its plans.
fn play_given_day(rt: &HostRuntime) -> Result<(), Error> {
    let mut words = env::args(rt)?.skip(2);
    let file = words.next().context("expected FILE COUNT")?;
    let events = words.next().context("expected FILE COUNT")?.parse()?;
    let (_kind, by) = read_last(words.next().as_deref())?;
    let text = fs::read_to_string(rt, file.as_str())?;
    let mut day = GivenDay::read(rt.alloc(), &text)?;
    let sums = play_given(rt.alloc(), &mut day, by, events)?;
    println!(rt; "{} {} {}", sums.events, sums.most, sums.total)?;
    Ok(())
}

/// Returns whether the first word asks for a given day.
fn is_given(rt: &HostRuntime) -> Result<bool, Error> {
    let mut words = env::args(rt)?.skip(1);
    match words.next().as_deref() {
        Some("given") => Ok(true),
        _ => Ok(false),
    }
}

fn main(rt: HostRuntime) -> Result<(), Error> {
    if is_given(&rt)? {
        return play_given_day(&rt);
    }
    let arguments = read_arguments(&rt)?;
    match arguments.mode {
        Mode::Day(course) => play_day(&rt, &arguments, course),
        Mode::Paths | Mode::Dense | Mode::Compare => plan_all(&rt, &arguments),
    }
}
