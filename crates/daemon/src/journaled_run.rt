//! The loop of turns of a server with a journal.
ghost use Rattle.std.specs.Prelude.{◌≡◌, [], Some, OnOk};
ghost use Rattle.daemon.specs.Journaling.{KeepsFiled, FilesTurn};

use crate::clock::moment_after;
use crate::pace::Pace;
use crate::run::{PAUSE, put_lines, writer_of};
use crate::serving::Server;
use base_types::Moment;
use journal::Storage;
use server_log::LogWriter;
use std::alloc::Global;
use std::io;
use std::io::{ErrorKind, Write};
use std::time::{Clock, Duration, Instant};

/// The time until a storage that takes no lines is tried again, in ms.
const RETRY: u64 = 1000;

/// Why a server with a journal ended.
#[derive(Clone, Copy, PartialEq, Eq)]
pub enum Ended {
    /// It took all turns.
    Served,
    /// Its journal may begin anew. This many rounds are left.
    Quiet { left: u64 },
}

/// Serves with a journal. It takes a given number of rounds, each at the ms since the first, after the moment
/// `from` of the last turn in the journal, and writes a log if one is given. A round is a turn in which nothing is
/// sent and, if bytes wait then that a socket may take, a turn in which nothing comes, once all lines are stored.
///
/// While the storage takes no lines the server takes no turn, and tries again each second. From the moment `day` on
/// it ends once no job is unfinished and no client is connected, so that its journal can begin anew.
///
/// The error is the clock's or the system's, or out of memory. If memory is refused in a turn, the server ends
/// before that turn is stored, so that nothing is sent that it decided.
pub fn serve_journaled<W: Write, T: Storage>(
    alloc: Global,
    clock: &impl Clock,
    server: &mut Server,
    turns: u64,
    from: Moment,
    day: Moment,
    log: Option<&mut W>,
    storage: &mut T,
) -> io::Result<Ended>
    ensures { KeepsFiled server.old (T.stored storage.old) server.new (T.stored storage.new) }
{
    let mut log = writer_of(alloc, log);
    let mut pace = Pace::from(from);
    let start = Instant::now(clock)?;
    for taken in 0..turns {
        let moment = moment_after(clock, &start, from)?;
        take_round(server, moment, &mut pace, &mut log, storage)?;
        if moment >= day && server.is_quiet() {
            store_all(server, storage)?;
            return Ok(Ended::Quiet {
                left: turns - taken,
            });
        }
        server.wait_for_work(pace.time_left(server.kept(), moment, PAUSE))?;
    }
    store_all(server, storage)?;
    Ok(Ended::Served)
}

/// Takes a round at a moment.
fn take_round<W: Write, T: Storage>(
    server: &mut Server,
    moment: Moment,
    pace: &mut Pace,
    log: &mut Option<LogWriter<'_, W>>,
    storage: &mut T,
) -> io::Result<()>
    ensures { KeepsFiled server.old (T.stored storage.old) server.new (T.stored storage.new) }
{
    read(server, moment, log);
    if server.holds() {
        pace.writes(moment);
        return send(server, moment, log, storage);
    }
    if pace.is_due(server.kept(), moment) {
        pace.writes(moment);
        return store_all(server, storage);
    }
    check_kept(server)
}

/// Stores the kept lines, and then takes a turn in which nothing comes.
fn send<W: Write, T: Storage>(
    server: &mut Server,
    moment: Moment,
    log: &mut Option<LogWriter<'_, W>>,
    storage: &mut T,
) -> io::Result<()>
    ensures { KeepsFiled server.old (T.stored storage.old) server.new (T.stored storage.new) }
{
    store_all(server, storage)?;
    write(server, moment, log, storage);
    check_kept(server)
}

/// The error of refused memory, if memory for a line was refused.
fn check_kept(server: &Server) -> io::Result<()> {
    if server.is_recorded() {
        Ok(())
    } else {
        Err(io::Error::from(ErrorKind::OutOfMemory))
    }
}

/// Takes a turn in which nothing is sent, and writes its lines of the log.
fn read<W: Write>(server: &mut Server, moment: Moment, log: &mut Option<LogWriter<'_, W>>)
    ensures { FilesTurn server.old server.new }
{
    match log {
        Some(log) => put_lines(server.read_turn_logged(moment), log),
        None => server.read_turn(moment),
    }
}

/// Takes a turn in which nothing comes, and writes its lines of the log.
fn write<W: Write, T: Storage>(
    server: &mut Server,
    moment: Moment,
    log: &mut Option<LogWriter<'_, W>>,
    storage: &T,
)
    requires { server.old.wire.notes.lines ≡ Some [] }
    ensures { FilesTurn server.old server.new }
{
    match log {
        Some(log) => put_lines(server.write_turn_logged(storage, moment), log),
        None => server.write_turn(storage, moment),
    }
}

/// Stores the kept lines, as soon as the storage takes them. The error is the system's, or that memory for a line
/// was refused.
fn store_all<T: Storage>(server: &mut Server, storage: &mut T) -> io::Result<()>
    ensures none { OnOk result (server.new.wire.notes.lines ≡ Some []) }
    ensures filed { KeepsFiled server.old (T.stored storage.old) server.new (T.stored storage.new) }
{
    for _ in 0..u64::MAX {
        if server.store(storage) {
            return Ok(());
        }
        check_kept(server)?;
        server.wait(Duration::from_millis(RETRY))?;
    }
    Err(io::Error::from(ErrorKind::OutOfMemory))
}
