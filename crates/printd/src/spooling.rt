//! The server whose queue survives a restart.
ghost use Rattle.settings_file.specs.Settings.{MeetsLimits};

use crate::failure::{cannot, or_cannot, or_no_memory, out_of_memory, say};
use crate::log_output::LogOutput;
use crate::serving::announce_doors;
use crate::settings::settings_in;
use base_types::{JobId, Limits, Moment, Text};
use command_line::{Spooling, VERSION};
use daemon::{Ended, Server, serve_journaled};
use journal::{JournaledEngine, Pausable};
use plan_solver::AugmentingPaths;
use program::ExitStatus;
use server::Engine;
use settings_file::Settings;
use sockets::Sockets;
use spool_directory::{SpoolDirectory, SpoolFault, SpoolFiles, SpoolOptions, StartingServer};

/// The ms of a day.
const DAY: u64 = 86_400_000;

/// The work of the server, in reports.
const SERVE: &str = "go on serving";

/// The settings of a server: the name of their file in reports, and their text.
#[derive(Clone, Copy)]
pub(crate) struct SettingsText<'a> {
    pub(crate) file: &'a str,
    pub(crate) text: &'a [u8],
}

/// A server whose journal has begun, or goes on.
#[derive(Drop)]
struct SpooledDay {
    sockets: Sockets,
    engine: JournaledEngine,
    /// The moment of the last turn.
    last: Moment,
    /// The number of rounds that are left.
    turns: u64,
}

/// What a directory gave. A fault is reported, and its exit status returned.
fn or_refused<T>(rt: &HostRuntime, given: Result<T, SpoolFault>) -> Result<T, ExitStatus> {
    match given {
        Ok(value) => Ok(value),
        Err(fault) => {
            say(rt, &fault);
            Err(ExitStatus::Failed)
        }
    }
}

/// Opens the directory, and starts from its journal. A fault is reported, and its exit status returned.
fn start_in<'a>(
    rt: &'a HostRuntime,
    spooling: Spooling<'a>,
    settings: Settings,
    text: &[u8],
) -> Result<StartingServer<'a>, ExitStatus>
    requires { MeetsLimits settings }
{
    let options = SpoolOptions {
        sync: spooling.sync,
        keep: spooling.keep,
        reprint: spooling.reprint,
        version: VERSION,
    };
    let directory = or_refused(rt, SpoolDirectory::open(rt, spooling.directory))?;
    or_refused(rt, directory.start(text, settings, options))
}

/// The moment at which the journal is a day old, where the last turn was at another.
fn end_of_day(files: &SpoolFiles<'_>, last: Moment) -> Moment {
    let age = files.age().unwrap_or(0);
    let millis = last.millis().saturating_add(DAY.saturating_sub(age));
    Moment::new(millis.min(Limits::LAST_MOMENT)).unwrap_or(last)
}

/// An engine without jobs, whose first job gets the id `first`. An error is reported, and its exit status returned.
fn fresh_engine(
    rt: &HostRuntime,
    settings: SettingsText<'_>,
    first: JobId,
) -> Result<JournaledEngine, ExitStatus> {
    let alloc = rt.alloc();
    let given = settings_in(rt, settings.file, settings.text)?;
    let planner = Pausable::new(AugmentingPaths::new(alloc));
    or_no_memory(rt, SERVE, Engine::starting_at(alloc, given, planner, first))
}

/// Begins the journal of an engine anew. Returns the engine that goes on. An error is reported, and its exit status
/// returned.
fn renewed(
    rt: &HostRuntime,
    settings: SettingsText<'_>,
    files: &mut SpoolFiles<'_>,
    engine: &JournaledEngine,
) -> Result<JournaledEngine, ExitStatus> {
    let Some(first) = engine.next_job_id() else {
        return Err(cannot(rt, "begin the journal anew", out_of_memory()));
    };
    let mut fresh = match fresh_engine(rt, settings, first) {
        Ok(fresh) => fresh,
        Err(status) => return Err(status),
    };
    match or_refused(
        rt,
        files.begin_anew(settings.text, first, engine, &mut fresh),
    ) {
        Ok(()) => Ok(fresh),
        Err(status) => Err(status),
    }
}

/// Begins the journal anew. An error is reported, and its exit status returned.
fn begin_anew(
    rt: &HostRuntime,
    settings: SettingsText<'_>,
    files: &mut SpoolFiles<'_>,
    server: Server,
    turns: u64,
) -> Result<Option<SpooledDay>, ExitStatus> {
    match renewed(rt, settings, files, server.engine()) {
        Ok(engine) => Ok(Some(SpooledDay {
            sockets: server.into_sockets(),
            engine,
            last: Moment::start(),
            turns,
        })),
        Err(status) => Err(status),
    }
}

/// Takes rounds until the journal may begin anew. An error is reported, and its exit status returned.
fn serve_until_quiet(
    rt: &HostRuntime,
    server: &mut Server,
    last: Moment,
    turns: u64,
    log: Option<&mut LogOutput<'_>>,
    files: &mut SpoolFiles<'_>,
) -> Result<Ended, ExitStatus> {
    or_cannot(rt, "read the clock", server.date(rt, last))?;
    let end = end_of_day(files, last);
    let ended = serve_journaled(rt.alloc(), rt, server, turns, last, end, log, files);
    or_cannot(rt, SERVE, ended)
}

/// Serves until the journal may begin anew, and begins it. `None` once all rounds were taken. An error is reported,
/// and its exit status returned.
fn serve_day(
    rt: &HostRuntime,
    day: SpooledDay,
    settings: SettingsText<'_>,
    names: Vec<Text>,
    log: Option<&mut LogOutput<'_>>,
    files: &mut SpoolFiles<'_>,
) -> Result<Option<SpooledDay>, ExitStatus> {
    let SpooledDay {
        sockets,
        engine,
        last,
        turns,
    } = day;
    let mut server = Server::journaled(rt.alloc(), sockets, engine, names);
    match serve_until_quiet(rt, &mut server, last, turns, log, files) {
        Ok(Ended::Served) => Ok(None),
        Ok(Ended::Quiet { left }) => begin_anew(rt, settings, files, server, left),
        Err(status) => Err(status),
    }
}

/// The names of the devices of settings. An error is reported, and its exit status returned.
fn names_in(rt: &HostRuntime, settings: SettingsText<'_>) -> Result<Vec<Text>, ExitStatus> {
    let given = settings_in(rt, settings.file, settings.text)?;
    or_no_memory(rt, SERVE, given.device_names(rt.alloc()))
}

/// Serves day after day, until all rounds were taken. An error is reported, and its exit status returned.
fn serve_days(
    rt: &HostRuntime,
    first: SpooledDay,
    text: SettingsText<'_>,
    log: &mut Option<LogOutput<'_>>,
    files: &mut SpoolFiles<'_>,
) -> Result<ExitStatus, ExitStatus> {
    let mut day = first;
    for _ in 0..u64::MAX {
        let names = match names_in(rt, text) {
            Ok(names) => names,
            Err(status) => return Err(status),
        };
        day = match serve_day(rt, day, text, names, log.as_mut(), files) {
            Ok(Some(next)) => next,
            Ok(None) => return Ok(ExitStatus::Done),
            Err(status) => return Err(status),
        };
    }
    Ok(ExitStatus::Done)
}

/// Serves with these settings over these sockets, and keeps the queue in a directory. An error is reported, and its
/// exit status returned.
pub(crate) fn serve_spooled(
    rt: &HostRuntime,
    settings: Settings,
    text: SettingsText<'_>,
    spooling: Spooling<'_>,
    turns: u64,
    sockets: Sockets,
    log: &mut Option<LogOutput<'_>>,
) -> Result<ExitStatus, ExitStatus>
    requires { MeetsLimits settings }
{
    let starting = match start_in(rt, spooling, settings, text.text) {
        Ok(starting) => starting,
        Err(status) => return Err(status),
    };
    if let Err(status) = announce_doors(rt, &sockets) {
        return Err(status);
    }
    let StartingServer {
        engine,
        last,
        mut files,
        ..
    } = starting;
    let first = SpooledDay {
        sockets,
        engine,
        last,
        turns,
    };
    serve_days(rt, first, text, log, &mut files)
}
