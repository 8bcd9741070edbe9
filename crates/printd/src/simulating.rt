//! `printd simulate`.

use crate::failure::{cannot, or_no_memory, out_of_memory, write_text};
use crate::pictures::{WrittenTrace, form_of, or_refused, written_trace};
use crate::settings::{read_file, settings_of};
use command_line::Simulating;
use drawing::Form;
use program::ExitStatus;
use settings_file::Settings;
use simulation::{
    Added, Comparison, DayFault, JobList, ListError, ListedJob, Noise, Policy, Question, Round,
    Watch, hasten, listed_jobs, read_day, read_list, run_simulation,
};
use std::alloc::AllocError;
use std::os::unix::fs::FileTypeExt;
use std::{fs, slice};
use traces::split_settings;

/// The work of the command, in reports.
const PLAY: &str = "play the jobs";

/// The progress of a day, shown on a terminal.
#[derive(Drop)]
struct DayProgress<'a> {
    rt: &'a HostRuntime,
    is_shown: bool,
    /// The hundredths of the jobs that had come when progress was last shown.
    shown: usize,
}

/// Returns whether standard error is a terminal, or another character device.
fn is_terminal(rt: &HostRuntime) -> bool {
    match fs::metadata(rt, "/dev/stderr") {
        Ok(found) => found.file_type().is_char_device(),
        Err(_) => false,
    }
}

impl Watch for DayProgress<'_> {
    fn come(&mut self, name: &str, come: usize, jobs: usize) {
        let hundredths = come.saturating_mul(100).checked_div(jobs).unwrap_or(0);
        if self.is_shown && hundredths != self.shown {
            self.shown = hundredths;
            let _printed = eprint!(self.rt; "\r\x1b[Kprintd: {name}: {come} of {jobs} jobs");
        }
    }
}

impl DayProgress<'_> {
    fn new(rt: &HostRuntime) -> DayProgress<'_> {
        DayProgress {
            rt,
            is_shown: is_terminal(rt),
            shown: 0,
        }
    }

    /// Clears the line of the progress.
    fn end(&self) {
        if self.is_shown {
            let _printed = eprint!(self.rt; "\r\x1b[K");
        }
    }
}

/// The additional devices. The only error is out of memory.
fn added_of<'a>(
    rt: &HostRuntime,
    simulating: &'a Simulating<'_>,
) -> Result<Vec<Added<'a>>, AllocError> {
    let mut added = Vec::new(rt.alloc());
    for addition in &simulating.with {
        added.push(Added {
            name: addition.name,
            like: addition.like,
            words: addition.words,
        })?;
    }
    Ok(added)
}

/// The policy with this name; `None` for any other name.
fn policy_named(name: &str) -> Option<Policy> {
    for &policy in &Policy::ALL {
        if policy.name() == name {
            return Some(policy);
        }
    }
    None
}

/// The policies with these names. The only error is out of memory.
fn policies_named(rt: &HostRuntime, names: &[&str]) -> Result<Vec<Policy>, AllocError> {
    let mut policies = Vec::new(rt.alloc());
    for name in names {
        if let Some(policy) = policy_named(name) {
            policies.push(policy)?;
        }
    }
    Ok(policies)
}

/// The policies that are played: that of the drawing, or those of the table; all of them if none is named. The
/// only error is out of memory.
fn policies_of(rt: &HostRuntime, simulating: &Simulating<'_>) -> Result<Vec<Policy>, AllocError> {
    let drawn = simulating.draw.as_slice();
    let named = if drawn.is_empty() {
        &simulating.policies
    } else {
        drawn
    };
    if named.is_empty() {
        Vec::from_slice(rt.alloc(), &Policy::ALL)
    } else {
        policies_named(rt, named)
    }
}

/// The form of the drawing that is asked for, if there is one.
fn drawn_of(simulating: &Simulating<'_>) -> Option<Form> {
    simulating.draw.map(|_| form_of(simulating.text))
}

/// Reports why a list is not read, and returns the exit status.
fn refuse_list(rt: &HostRuntime, file: &str, error: &ListError) -> ExitStatus {
    if matches!(error, ListError::OutOfMemory) {
        return cannot(rt, PLAY, out_of_memory());
    }
    let _printed = eprintln!(rt; "printd: {file}: {error}");
    ExitStatus::Refused
}

/// The names of the ignored columns, in one line. The only error is out of memory.
fn names_in_line(rt: &HostRuntime, names: &[String]) -> Result<String, AllocError> {
    let mut line = String::new(rt.alloc());
    for name in names {
        if !line.is_empty() {
            line.push_str(", ")?;
        }
        line.push_str(name)?;
    }
    Ok(line)
}

/// Reports what of a list isn't used.
fn report_unused(rt: &HostRuntime, file: &str, list: &JobList) {
    if let Ok(names) = names_in_line(rt, &list.ignored)
        && !names.is_empty()
    {
        let _printed = eprintln!(rt; "printd: {file}: ignored columns: {names}");
    }
    if list.names_others {
        let _printed = eprintln!(rt;
            "printd: {file}: the settings have one printer, which gets the jobs of all printers"
        );
    }
}

/// Whether what of a list isn't used is reported: once, for the first set of devices.
#[derive(Clone, Copy)]
enum Reports {
    Unused,
    Faults,
}

/// The jobs of a list, for some settings. An error is reported, and its exit status returned.
fn jobs_of_list(
    rt: &HostRuntime,
    file: &str,
    text: &[u8],
    settings: &Settings,
    reports: Reports,
) -> Result<Vec<ListedJob>, ExitStatus> {
    match read_list(rt.alloc(), text, settings) {
        Ok(list) => {
            if matches!(reports, Reports::Unused) {
                report_unused(rt, file, &list);
            }
            Ok(list.jobs)
        }
        Err(error) => Err(refuse_list(rt, file, &error)),
    }
}

/// The jobs of a trace, for some settings.
fn jobs_of_trace(
    rt: &HostRuntime,
    file: &str,
    trace: &WrittenTrace,
    settings: &Settings,
) -> Result<Vec<ListedJob>, DayFault> {
    let day = read_day(rt.alloc(), file, &trace.text, trace.first)?;
    listed_jobs(rt.alloc(), &day, settings)
}

/// The jobs of a file: of a trace where a line of the file is a point alone, else of a list. An error is
/// reported, and its exit status returned.
fn jobs_of(
    rt: &HostRuntime,
    file: &str,
    settings: &Settings,
    reports: Reports,
) -> Result<Vec<ListedJob>, ExitStatus> {
    let text = read_file(rt, file)?;
    if split_settings(&text).is_some() {
        let trace = written_trace(rt, file, text)?;
        or_refused(rt, PLAY, jobs_of_trace(rt, file, &trace, settings))
    } else {
        jobs_of_list(rt, file, &text, settings, reports)
    }
}

/// The jobs of a file, which come as fast as the load specifies. An error is reported, and its exit status returned.
fn loaded_jobs(
    rt: &HostRuntime,
    file: &str,
    settings: &Settings,
    load: u32,
    reports: Reports,
) -> Result<Vec<ListedJob>, ExitStatus> {
    let mut jobs = jobs_of(rt, file, settings, reports)?;
    hasten(&mut jobs, load);
    Ok(jobs)
}

/// A set of devices: the settings of a file, with further devices and without those that are away.
#[derive(Clone, Copy)]
struct DeviceSet<'a> {
    file: &'a str,
    added: &'a [Added<'a>],
    away: &'a [&'a str],
}

/// The files of a day and of the settings for which it is played.
#[derive(Clone, Copy)]
struct Files<'a, 'b> {
    settings: &'a str,
    jobs: &'b str,
}

/// What is asked of a day on a set of devices.
fn question_of<'a>(
    simulating: &'a Simulating<'_>,
    policies: &'a [Policy],
    set: DeviceSet<'a>,
) -> Question<'a> {
    Question {
        noise: Noise {
            percent: simulating.noise,
            seed: simulating.seed,
        },
        away: set.away,
        added: set.added,
        policies,
        drawn: drawn_of(simulating),
    }
}

/// Plays the day of a file on a set of devices, and returns the text of the results. An error is reported, and
/// its exit status returned.
fn play_one(
    rt: &HostRuntime,
    simulating: &Simulating<'_>,
    policies: &[Policy],
    set: DeviceSet<'_>,
    file: &str,
) -> Result<String, ExitStatus> {
    let settings = settings_of(rt, set.file)?;
    let jobs = loaded_jobs(rt, file, &settings, simulating.load, Reports::Unused)?;
    let question = question_of(simulating, policies, set);
    let mut progress = DayProgress::new(rt);
    let played = run_simulation(rt.alloc(), settings, &jobs, question, &mut progress);
    progress.end();
    or_refused(rt, PLAY, played)
}

/// Adds the figures of the day of a file on a set of devices, whose settings are in another. An error is reported,
/// and its exit status returned.
fn compare_one(
    rt: &HostRuntime,
    simulating: &Simulating<'_>,
    comparison: &mut Comparison,
    question: Question<'_>,
    round: Round,
    files: Files<'_, '_>,
) -> Result<(), ExitStatus> {
    let settings = settings_of(rt, files.settings)?;
    let reports = if round.set == 0 {
        Reports::Unused
    } else {
        Reports::Faults
    };
    let jobs = loaded_jobs(rt, files.jobs, &settings, simulating.load, reports)?;
    let mut progress = DayProgress::new(rt);
    let played = comparison.play(round, settings, &jobs, question, &mut progress);
    progress.end();
    or_refused(rt, PLAY, played)
}

/// The sets of devices that are played: for each file of settings one or, with `--each`, the settings as they
/// are and then one for each change. The only error is out of memory.
fn sets_of<'a>(
    rt: &HostRuntime,
    simulating: &'a Simulating<'_>,
    added: &'a [Added<'a>],
) -> Result<Vec<DeviceSet<'a>>, AllocError> {
    let mut sets = Vec::new(rt.alloc());
    for file in &simulating.settings {
        if simulating.each {
            add_each(&mut sets, file, added, &simulating.without)?;
        } else {
            sets.push(DeviceSet {
                file,
                added,
                away: &simulating.without,
            })?;
        }
    }
    Ok(sets)
}

/// Adds the settings of a file as they are, and with each change.
fn add_each<'a>(
    sets: &mut Vec<DeviceSet<'a>>,
    file: &'a str,
    added: &'a [Added<'a>],
    away: &'a [&'a str],
) -> Result<(), AllocError> {
    let plain = DeviceSet {
        file,
        added: &[],
        away: &[],
    };
    sets.push(plain)?;
    for device in added {
        sets.push(DeviceSet {
            added: slice::from_ref(device),
            ..plain
        })?;
    }
    for device in away {
        sets.push(DeviceSet {
            away: slice::from_ref(device),
            ..plain
        })?;
    }
    Ok(())
}

/// The name of a set of devices. The only error is out of memory.
fn name_of(rt: &HostRuntime, set: DeviceSet<'_>) -> Result<String, AllocError> {
    let mut name = String::from_str(rt.alloc(), set.file)?;
    for device in set.added {
        name.push_str(" with ")?;
        name.push_str(device.name)?;
    }
    for device in set.away {
        name.push_str(" without ")?;
        name.push_str(device)?;
    }
    Ok(name)
}

/// The names of sets of devices. The only error is out of memory.
fn names_of(rt: &HostRuntime, sets: &[DeviceSet<'_>]) -> Result<Vec<String>, AllocError> {
    let mut names = Vec::with_capacity(rt.alloc(), sets.len())?;
    for set in sets {
        names.push(name_of(rt, *set)?)?;
    }
    Ok(names)
}

/// Plays each day on the set of devices at a place. An error is reported, and its exit status returned.
fn compare_on(
    rt: &HostRuntime,
    simulating: &Simulating<'_>,
    policies: &[Policy],
    comparison: &mut Comparison,
    place: usize,
    set: DeviceSet<'_>,
) -> Result<(), ExitStatus> {
    let question = question_of(simulating, policies, set);
    for (day, file) in simulating.jobs.iter().enumerate() {
        let files = Files {
            settings: set.file,
            jobs: file,
        };
        let round = Round { set: place, day };
        compare_one(rt, simulating, comparison, question, round, files)?;
    }
    Ok(())
}

/// Plays each day on each set of devices. An error is reported, and its exit status returned.
fn compare_all(
    rt: &HostRuntime,
    simulating: &Simulating<'_>,
    policies: &[Policy],
    sets: &[DeviceSet<'_>],
) -> Result<Comparison, ExitStatus> {
    let mut comparison = Comparison::new(rt.alloc());
    for (place, set) in sets.iter().enumerate() {
        compare_on(rt, simulating, policies, &mut comparison, place, *set)?;
    }
    Ok(comparison)
}

/// Plays each day on each set of devices, and returns the text of the figures. An error is reported, and its exit
/// status returned.
fn compare(
    rt: &HostRuntime,
    simulating: &Simulating<'_>,
    policies: &[Policy],
    sets: &[DeviceSet<'_>],
) -> Result<String, ExitStatus> {
    let comparison = compare_all(rt, simulating, policies, sets)?;
    let names = or_no_memory(rt, PLAY, names_of(rt, sets))?;
    let text = if simulating.csv {
        comparison.csv(&names, &simulating.jobs, simulating.load)
    } else {
        comparison.table(&names)
    };
    or_no_memory(rt, PLAY, text)
}

/// Plays the days, and returns the text of the results. An error is reported, and its exit status returned.
fn play(
    rt: &HostRuntime,
    simulating: &Simulating<'_>,
    policies: &[Policy],
    sets: &[DeviceSet<'_>],
) -> Result<String, ExitStatus> {
    if let ([set], [file]) = (sets, simulating.jobs.as_slice())
        && !simulating.csv
    {
        return play_one(rt, simulating, policies, *set, file);
    }
    compare(rt, simulating, policies, sets)
}

/// Runs `printd simulate`: plays the jobs of lists and traces. An error is reported, and its exit status
/// returned.
pub(crate) fn run_simulate(
    rt: &HostRuntime,
    simulating: &Simulating<'_>,
) -> Result<ExitStatus, ExitStatus> {
    let added = or_no_memory(rt, PLAY, added_of(rt, simulating))?;
    let policies = or_no_memory(rt, PLAY, policies_of(rt, simulating))?;
    let sets = or_no_memory(rt, PLAY, sets_of(rt, simulating, &added))?;
    let text = play(rt, simulating, &policies, &sets)?;
    write_text(rt, &text)
}
