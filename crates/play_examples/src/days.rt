//! Days: what is written of each simulated day, and the picture of each day that a trace records, must equal
//! its file.

use base_types::JobId;
use drawing::Form;
use settings_file::{Settings, read_settings_bytes};
use simulation::{
    Comparison, ListedJob, Noise, Policy, Question, Round, Watch, draw_day, listed_jobs, read_day,
    read_list, run_simulation,
};
use std::alloc::{AllocError, Global};

/// A day that is simulated: a file with settings, one with a list of jobs or a trace, and one with the
/// numbers that were worked out.
#[derive(Drop)]
pub struct SimulatedDay {
    pub settings: &'static str,
    pub jobs: &'static str,
    pub output: &'static str,
}

pub const DAYS: [SimulatedDay; 7] = [
    SimulatedDay {
        settings: "unlike_devices.toml",
        jobs: "unlike_devices.csv",
        output: "unlike_devices.table",
    },
    SimulatedDay {
        settings: "unlike_setups.toml",
        jobs: "unlike_setups.csv",
        output: "unlike_setups.table",
    },
    SimulatedDay {
        settings: "two_printers.toml",
        jobs: "two_printers.csv",
        output: "two_printers.table",
    },
    SimulatedDay {
        settings: "classes_of_cups.toml",
        jobs: "classes_of_cups.csv",
        output: "classes_of_cups.table",
    },
    SimulatedDay {
        settings: "crowded.toml",
        jobs: "crowded.csv",
        output: "crowded.table",
    },
    SimulatedDay {
        settings: "a_day.toml",
        jobs: "a_day.trace",
        output: "a_day.table",
    },
    SimulatedDay {
        settings: "recorded_jobs.toml",
        jobs: "recorded_jobs.csv",
        output: "recorded_jobs.table",
    },
];

/// A day that is drawn: a file with its trace, and one with its picture.
pub struct DrawnDay {
    pub trace: &'static str,
    pub picture: &'static str,
    pub form: Form,
}

pub const DRAWN: [DrawnDay; 2] = [
    DrawnDay {
        trace: "a_day.trace",
        picture: "a_day.txt",
        form: Form::Text,
    },
    DrawnDay {
        trace: "a_day.trace",
        picture: "a_day.svg",
        form: Form::Svg,
    },
];

/// The day with so many jobs that they aren't labeled each, and its picture by the plan and by first-free.
pub const CROWDED: SimulatedDay = SimulatedDay {
    settings: "crowded.toml",
    jobs: "crowded.csv",
    output: "crowded.txt",
};

/// Files with settings that are compared, and files with the days on which they are.
pub const SETS: [&str; 2] = ["unlike_devices.toml", "unlike_setups.toml"];

pub const COMPARED_DAYS: [&str; 2] = ["unlike_setups.csv", "one_job.jobs"];

/// The file with the table of the comparison, and the one with the figures of each day.
pub const COMPARED: [&str; 2] = ["compared.table", "compared.figures"];

/// Is notified of how far a day has been played, and does nothing with it.
#[derive(Drop)]
struct Quiet {
    come: usize,
}

impl Watch for Quiet {
    fn come(&mut self, _name: &str, come: usize, _jobs: usize) {
        self.come = come;
    }
}

/// The id of the first job of a trace.
fn first_job() -> JobId {
    JobId::new(JobId::FIRST).unwrap()
}

/// The jobs of a text, for some settings: those of a trace, if it is one.
fn jobs_of(alloc: Global, text: &[u8], settings: &Settings) -> Option<Vec<ListedJob>> {
    match read_day(alloc, "day", text, first_job()) {
        Ok(day) => listed_jobs(alloc, &day, settings).ok(),
        Err(_) => read_list(alloc, text, settings).ok().map(|list| list.jobs),
    }
}

/// What is asked of a day whose devices are all there and keep their estimates.
fn question_of(policies: &[Policy], drawn: Option<Form>) -> Question<'_> {
    Question {
        noise: Noise {
            percent: 0,
            seed: 1,
        },
        away: &[],
        added: &[],
        policies,
        drawn,
    }
}

/// Whether just this is written of a day by all policies, or drawn of it by one.
pub fn is_played_so(
    alloc: Global,
    settings: &[u8],
    jobs: &[u8],
    drawn: Option<Form>,
    wanted: &[u8],
) -> bool {
    let Ok(settings) = read_settings_bytes(alloc, settings) else {
        return false;
    };
    let Some(jobs) = jobs_of(alloc, jobs, &settings) else {
        return false;
    };
    let question = match drawn {
        Some(form) => question_of(&[Policy::FirstFree], Some(form)),
        None => question_of(&Policy::ALL, None),
    };
    match run_simulation(alloc, settings, &jobs, question, &mut Quiet { come: 0 }) {
        Ok(table) => table.as_bytes() == wanted,
        Err(_) => false,
    }
}

/// Whether just this is drawn of a trace.
pub fn is_drawn_so(alloc: Global, trace: &[u8], form: Form, wanted: &[u8]) -> bool {
    match draw_day(alloc, "day", trace, first_job(), form) {
        Ok(picture) => picture.as_bytes() == wanted,
        Err(_) => false,
    }
}

/// Adds a day on a set of devices to a comparison. Returns whether it could be played.
pub fn is_compared(
    alloc: Global,
    comparison: &mut Comparison,
    round: Round,
    settings: &[u8],
    jobs: &[u8],
) -> bool {
    let Ok(settings) = read_settings_bytes(alloc, settings) else {
        return false;
    };
    let Some(jobs) = jobs_of(alloc, jobs, &settings) else {
        return false;
    };
    let question = question_of(&[Policy::FirstFree], None);
    let mut quiet = Quiet { come: 0 };
    comparison
        .play(round, settings, &jobs, question, &mut quiet)
        .is_ok()
}

/// The names of the sets. The only error is out of memory.
fn set_names(alloc: Global) -> Result<Vec<String>, AllocError> {
    let mut names = Vec::new(alloc);
    for name in SETS {
        names.push(String::from_str(alloc, name)?)?;
    }
    Ok(names)
}

/// The load at which jobs come as they are listed, in thousandths.
const OWN_LOAD: u32 = 1000;

/// The table of the comparison, and the figures of each day. The only error is out of memory.
pub fn compared_texts(alloc: Global, comparison: &Comparison) -> Result<[String; 2], AllocError> {
    let names = set_names(alloc)?;
    Ok([
        comparison.table(&names)?,
        comparison.csv(&names, &COMPARED_DAYS, OWN_LOAD)?,
    ])
}
