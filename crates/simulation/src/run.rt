//! A simulation, from settings and a list of jobs to its table or picture.
ghost use Rattle.settings_file.specs.Settings.{MeetsLimits};

use crate::day::{Day, Noise};
use crate::draft::ListedJob;
use crate::fault::{DayFault, refused};
use crate::fleet::{Added, make_ready, with_devices};
use crate::floor::Watch;
use crate::outcome::{Outcome, play_all};
use crate::picture::picture_of;
use crate::policy::Policy;
use crate::summary::{Waits, waits_of};
use crate::table::{put_stranded, table_of};
use base_types::Text;
use dispatcher::Core;
use drawing::{Form, Page};
use plan_solver::AugmentingPaths;
use settings_file::Settings;
use std::alloc::{AllocError, Global};

/// The options of a simulation.
#[derive(Clone, Copy)]
pub struct Question<'a> {
    pub noise: Noise,
    /// The names of the devices that are away all day.
    pub away: &'a [&'a str],
    pub added: &'a [Added<'a>],
    /// The policies with which the planned day is compared.
    pub policies: &'a [Policy],
    /// The form of the picture to draw. If it is `None`, a table is written.
    pub drawn: Option<Form>,
}

/// The names of the devices, and the jobs of a day.
#[derive(Drop)]
struct Stage {
    names: Vec<Text>,
    day: Day,
}

/// The names of a core's devices, and the day of a list by the present state of these devices. The only error
/// is out of memory.
fn stage_of(
    alloc: Global,
    core: &Core<AugmentingPaths>,
    listed: &[ListedJob],
    noise: Noise,
) -> Result<Stage, AllocError> {
    let names = core.settings().device_names(alloc)?;
    let day = Day::new(alloc, core, listed, noise)?;
    Ok(Stage { names, day })
}

/// Tests that some device can print some job.
fn check_day(alloc: Global, day: &Day) -> Result<(), DayFault> {
    if day.jobs.is_empty() {
        return Err(refused(Page::new(alloc).put("there are no jobs to play")));
    }
    if day.stranded.len() == day.jobs.len() {
        return Err(refused(put_stranded(Page::new(alloc), &day.stranded)));
    }
    Ok(())
}

/// A day that was played: the names of the devices, the jobs, and what came of them.
#[derive(Drop)]
struct PlayedList {
    stage: Stage,
    /// The outcomes: first that of the plan, and then one for each policy of the question.
    outcomes: Vec<Outcome>,
}

/// Plays a day with a core whose devices are ready, except those that are away.
fn play_with<W: Watch>(
    alloc: Global,
    core: &mut Core<AugmentingPaths>,
    listed: &[ListedJob],
    question: Question<'_>,
    watch: &mut W,
) -> Result<PlayedList, DayFault> {
    make_ready(alloc, core, question.away)?;
    let stage = stage_of(alloc, core, listed, question.noise)?;
    check_day(alloc, &stage.day)?;
    let outcomes = play_all(alloc, core, listed, &stage.day, question.policies, watch)?;
    Ok(PlayedList { stage, outcomes })
}

/// Plays the jobs of a list on the devices of some settings.
fn play_settings<W: Watch>(
    alloc: Global,
    settings: Settings,
    listed: &[ListedJob],
    question: Question<'_>,
    watch: &mut W,
) -> Result<PlayedList, DayFault>
    requires { MeetsLimits settings }
{
    let mut core = Core::new(alloc, settings, AugmentingPaths::new(alloc))?;
    play_with(alloc, &mut core, listed, question, watch)
}

/// Plays the jobs of a list on the devices of some settings and the devices that the question adds.
fn play_day<W: Watch>(
    alloc: Global,
    settings: Settings,
    listed: &[ListedJob],
    question: Question<'_>,
    watch: &mut W,
) -> Result<PlayedList, DayFault>
    requires { MeetsLimits settings }
{
    let settings = with_devices(alloc, settings, question.added)?;
    play_settings(alloc, settings, listed, question, watch)
}

/// Plays the jobs of a list, which is one for these settings, on their devices: once as the core plans it,
/// and once for each policy of the question. Returns the table of the outcomes, or a picture.
///
/// # Errors
///
/// A device isn't there or none is, a further device can't be made, no device can print any of the jobs, or
/// memory was refused.
pub fn run_simulation<W: Watch>(
    alloc: Global,
    settings: Settings,
    listed: &[ListedJob],
    question: Question<'_>,
    watch: &mut W,
) -> Result<String, DayFault>
    requires { MeetsLimits settings }
{
    let played = play_day(alloc, settings, listed, question, watch)?;
    Ok(shown(alloc, &played, question.drawn)?)
}

/// The picture of a day in a form, or the table of its outcomes. The only error is out of memory.
fn shown(alloc: Global, played: &PlayedList, drawn: Option<Form>) -> Result<String, AllocError> {
    let Stage { names, day } = &played.stage;
    match drawn {
        Some(form) => picture_of(alloc, names, day, &played.outcomes, form),
        None => table_of(alloc, names, day, &played.outcomes),
    }
}

/// The figures of a day.
#[derive(Drop)]
pub(crate) struct Figures {
    /// The name of each rule, and the times of its day: first those of the plan.
    pub(crate) rules: Vec<(&'static str, Waits)>,
    /// The number of jobs that no device can print.
    pub(crate) stranded: usize,
}

/// The names and times of outcomes. The only error is out of memory.
fn rules_of(
    alloc: Global,
    day: &Day,
    outcomes: &[Outcome],
) -> Result<Vec<(&'static str, Waits)>, AllocError> {
    let mut rules = Vec::with_capacity(alloc, outcomes.len())?;
    for outcome in outcomes {
        rules.push((outcome.name, waits_of(alloc, day, &outcome.prints)?))?;
    }
    Ok(rules)
}

/// Plays as [`run_simulation`] does, with its errors. Returns the figures.
pub(crate) fn figures_of<W: Watch>(
    alloc: Global,
    settings: Settings,
    listed: &[ListedJob],
    question: Question<'_>,
    watch: &mut W,
) -> Result<Figures, DayFault>
    requires { MeetsLimits settings }
{
    let played = play_day(alloc, settings, listed, question, watch)?;
    let day = &played.stage.day;
    Ok(Figures {
        rules: rules_of(alloc, day, &played.outcomes)?,
        stranded: day.stranded.len(),
    })
}
