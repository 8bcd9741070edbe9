//! A recorded day, looked at while its lines are played.
ghost use Rattle.settings_file.specs.Settings.{MeetsLimits};

use crate::arriving::Arriving;
use crate::fault::{DayFault, settings_of};
use crate::player::turn_of;
use crate::playing::first_in;
use crate::turning::take_turn;
use base_types::{JobId, Limits, Moment};
use journal::{JournaledEngine, Pausable};
use plan_solver::AugmentingPaths;
use queue_views::{Clock, DayAccounts, Ledger, QueueView, read_clock};
use recordings::{Entry, GOES_ON, ReplayWire, read_entry};
use server::Engine;
use settings_file::Settings;
use std::alloc::{AllocError, Global};
use std::mem;

/// A server that plays the turns of a recording.
#[derive(Drop)]
struct FollowedServer {
    alloc: Global,
    engine: JournaledEngine,
    script: ReplayWire,
    ledger: Ledger,
    /// The time of moment 0, which a comment of the turn that hasn't ended gives.
    zero: Option<u64>,
    /// Whether the turn that hasn't ended is one in which a restarted server lost its connections.
    restarted: bool,
}

/// What was read of a recording.
#[derive(Drop)]
enum FollowingStage {
    /// Lines of the settings.
    Settings(Vec<u8>),
    /// The settings, up to the line `.`.
    Start(Vec<u8>),
    /// The start, and perhaps turns.
    Turns(FollowedServer),
}

/// The step of a line.
enum FollowedLine {
    /// No turn ended.
    Within,
    /// A turn at this moment ended.
    Turned(Moment),
    /// The turn is later than those that are to be played.
    Later,
}

/// A recorded day whose bytes arrive in chunks, and whose turns are played one after the other. After each turn the
/// queue can be looked at.
///
/// Several files that go on from one another, as those of a spool, are one day: the bytes of the first, then those of
/// the second, and so on.
#[derive(Drop)]
pub struct Follower {
    alloc: Global,
    /// The name of the file of the bytes.
    file: String,
    arriving: Arriving,
    stage: FollowingStage,
    /// The moment of the last turn that is to be played, if not all are.
    last: Option<Moment>,
    /// Whether a turn has arrived that is later.
    is_past: bool,
    /// Whether accounts of the jobs are kept.
    keeps_accounts: bool,
}

impl Follower {
    /// Creates the follower of a day of which nothing has arrived.
    pub fn new(alloc: Global) -> Follower {
        Follower {
            alloc,
            file: String::new(alloc),
            arriving: Arriving::new(alloc),
            stage: FollowingStage::Settings(Vec::new(alloc)),
            last: None,
            is_past: false,
            keeps_accounts: false,
        }
    }

    /// Has the accounts of the jobs kept. To be called before the line after the settings is played.
    pub fn keep_accounts(&mut self) {
        self.keeps_accounts = true;
    }

    /// Begins another day, whose first file [`Follower::begin_file`] begins. Accounts are kept if they were kept.
    pub fn begin_day(&mut self) {
        self.stage = FollowingStage::Settings(Vec::new(self.alloc));
        self.is_past = false;
    }

    /// Begins a file of this name, which faults name with the number of a line. What arrived of a turn that hasn't
    /// ended is dropped: a file that goes on begins with a turn. The only error is out of memory.
    pub fn begin_file(&mut self, file: &str) -> Result<(), AllocError> {
        self.file = String::from_str(self.alloc, file)?;
        self.arriving = Arriving::new(self.alloc);
        if let FollowingStage::Turns(playing) = &mut self.stage {
            playing.drop_turn();
        }
        Ok(())
    }

    /// Adds bytes that have arrived, any number of them. No turn is played yet. The only error is out of memory.
    pub fn add(&mut self, chunk: &[u8]) -> Result<(), AllocError> {
        if self.is_past {
            return Ok(());
        }
        self.arriving.add(chunk)
    }

    /// Sets the moment after which no turn is played.
    pub fn stop_after(&mut self, last: Moment) {
        self.last = Some(last);
    }

    /// Returns whether a turn has arrived that is after the moment of [`Follower::stop_after`]: nothing more is
    /// played.
    pub fn is_past(&self) -> bool {
        self.is_past
    }

    /// Plays the lines that have arrived, up to the end of a turn. Returns the moment of the turn, or `None` if no
    /// whole turn is left to be played. After a fault nothing more can be played.
    pub fn turn(&mut self) -> Result<Option<Moment>, DayFault> {
        let mut line = Vec::new(self.alloc);
        for _ in 0..u64::MAX {
            let number = self.arriving.passed().saturating_add(1);
            if self.is_past || !self.arriving.take(&mut line)? {
                return Ok(None);
            }
            match self.take(number, &line)? {
                FollowedLine::Within => {}
                FollowedLine::Turned(moment) => return Ok(Some(moment)),
                FollowedLine::Later => self.is_past = true,
            }
        }
        Ok(None)
    }

    /// Plays the turns that have arrived whole. Returns whether there were any. After a fault nothing more can be played.
    pub fn turns(&mut self) -> Result<bool, DayFault> {
        let mut has_turned = false;
        for _ in 0..u64::MAX {
            if self.turn()?.is_none() {
                break;
            }
            has_turned = true;
        }
        Ok(has_turned)
    }

    /// The server, once the line after the settings was played.
    pub fn engine(&self) -> Option<&JournaledEngine> {
        match &self.stage {
            FollowingStage::Turns(playing) => Some(&playing.engine),
            FollowingStage::Settings(_) | FollowingStage::Start(_) => None,
        }
    }

    /// The ledger of the server's turns, once the line after the settings was played.
    pub fn ledger(&self) -> Option<&Ledger> {
        match &self.stage {
            FollowingStage::Turns(playing) => Some(&playing.ledger),
            FollowingStage::Settings(_) | FollowingStage::Start(_) => None,
        }
    }

    /// The times of the server's moments, once the line after the settings was played.
    pub fn clock(&self) -> Option<&Clock> {
        self.ledger().map(|ledger| ledger.times())
    }

    /// The queue after the last turn; `None` before the line after the settings was played. The only error is out of
    /// memory.
    pub fn view(&self) -> Result<Option<QueueView>, AllocError> {
        self.view_at(Moment::start())
    }

    /// The queue after the last turn, looked at at a moment that may be later: devices have got further then, and may
    /// be late. The only error is out of memory.
    pub fn view_at(&self, moment: Moment) -> Result<Option<QueueView>, AllocError> {
        match &self.stage {
            FollowingStage::Turns(playing) => Ok(Some(
                playing.ledger.view(&playing.engine, moment)?,
            )),
            FollowingStage::Settings(_) | FollowingStage::Start(_) => Ok(None),
        }
    }

    /// Takes the accounts of the jobs, if they are kept, after the last turn; `None` before the line after the settings
    /// was played. The only error is out of memory.
    pub fn take_accounts(&mut self) -> Result<Option<DayAccounts>, AllocError> {
        match &mut self.stage {
            FollowingStage::Turns(playing) => Ok(Some(
                playing.ledger.take_accounts(&playing.engine)?,
            )),
            FollowingStage::Settings(_) | FollowingStage::Start(_) => Ok(None),
        }
    }

    /// The fault of a day that has all arrived, if the line after the settings isn't among its lines.
    pub fn missing(&self) -> Option<DayFault> {
        match &self.stage {
            FollowingStage::Turns(_) => None,
            FollowingStage::Start(_) => Some(DayFault::no_start(self.alloc, &self.file)),
            FollowingStage::Settings(_) => Some(DayFault::no_stop(self.alloc, &self.file)),
        }
    }

    /// Takes the line of this number.
    fn take(&mut self, number: u64, line: &[u8]) -> Result<FollowedLine, DayFault> {
        match &mut self.stage {
            FollowingStage::Turns(playing) => playing.take(&self.file, self.last, number, line),
            FollowingStage::Settings(text) => {
                let text = mem::replace(text, Vec::new(self.alloc));
                let next = self.after_settings(text, number, line);
                self.enter(next)
            }
            FollowingStage::Start(text) => {
                let text = mem::replace(text, Vec::new(self.alloc));
                let next = self.after_start(&text, line);
                self.enter(next)
            }
        }
    }

    /// Goes on with a stage, unless the line before it was at fault.
    fn enter(&mut self, next: Result<FollowingStage, DayFault>) -> Result<FollowedLine, DayFault> {
        match next {
            Ok(stage) => {
                self.stage = stage;
                Ok(FollowedLine::Within)
            }
            Err(fault) => Err(fault),
        }
    }

    /// What was read after a line of the settings, or the line `.`.
    fn after_settings(
        &self,
        text: Vec<u8>,
        number: u64,
        line: &[u8],
    ) -> Result<FollowingStage, DayFault> {
        let mut text = text;
        if line == b".".as_slice() {
            return Ok(FollowingStage::Start(text));
        }
        if number == 1 && line.starts_with(GOES_ON) {
            return Err(DayFault::goes_on(self.alloc, &self.file));
        }
        if text.len() > Limits::INPUT_BYTES {
            return Err(DayFault::no_stop(self.alloc, &self.file));
        }
        text.extend_from_slice(line)?;
        text.extend_from_slice(b"\n")?;
        Ok(FollowingStage::Settings(text))
    }

    /// The server with the settings of a text, after the line after them.
    fn after_start(&self, text: &[u8], line: &[u8]) -> Result<FollowingStage, DayFault> {
        let Some(first) = first_in(line) else {
            return Err(DayFault::no_start(self.alloc, &self.file));
        };
        let settings = settings_of(self.alloc, &self.file, text)?;
        match FollowedServer::new(self.alloc, settings, first, self.keeps_accounts) {
            Ok(playing) => Ok(FollowingStage::Turns(playing)),
            Err(AllocError) => Err(DayFault::from(AllocError)),
        }
    }
}

/// Returns whether a moment is later than the last one, if there is a last one.
fn is_later(moment: Moment, last: Option<Moment>) -> bool {
    match last {
        Some(last) => moment > last,
        None => false,
    }
}

impl FollowedServer {
    /// Creates a server that has only started, and whose first job gets the id `first`. `keeps_accounts` is whether it
    /// keeps accounts of the jobs. The only error is out of memory.
    fn new(
        alloc: Global,
        settings: Settings,
        first: JobId,
        keeps_accounts: bool,
    ) -> Result<FollowedServer, AllocError>
        requires { MeetsLimits settings }
    {
        let planner = Pausable::new(AugmentingPaths::new(alloc));
        let engine = match Engine::starting_at(alloc, settings, planner, first) {
            Ok(engine) => engine,
            Err(error) => return Err(error),
        };
        let mut ledger = match Ledger::new(alloc, &engine) {
            Ok(ledger) => ledger,
            Err(error) => return Err(error),
        };
        if keeps_accounts {
            ledger.keep_accounts();
        }
        Ok(FollowedServer {
            alloc,
            engine,
            script: ReplayWire::new(alloc),
            ledger,
            zero: None,
            restarted: false,
        })
    }

    /// Drops the lines of the turn that hasn't ended.
    fn drop_turn(&mut self) {
        self.script = ReplayWire::new(self.alloc);
        self.zero = None;
        self.restarted = false;
    }

    /// Plays the line of this number of a file. No turn after `last` is played.
    fn take(
        &mut self,
        file: &str,
        last: Option<Moment>,
        number: u64,
        line: &[u8],
    ) -> Result<FollowedLine, DayFault> {
        if let Some(comment) = line.strip_prefix(b"#") {
            self.zero = read_clock(comment).or(self.zero);
            return Ok(FollowedLine::Within);
        }
        match read_entry(self.alloc, line)? {
            None => Err(DayFault::bad_line(self.alloc, file, number)),
            Some(entry) => self.take_entry(file, last, number, entry),
        }
    }

    /// Plays the entry of the line of this number.
    fn take_entry(
        &mut self,
        file: &str,
        last: Option<Moment>,
        number: u64,
        entry: Entry,
    ) -> Result<FollowedLine, DayFault> {
        match turn_of(&entry) {
            Some(moment) if is_later(moment, last) => Ok(FollowedLine::Later),
            Some(moment) => self.turn(file, number, moment),
            None if matches!(&entry, Entry::Restarted) => {
                self.restarted = true;
                Ok(FollowedLine::Within)
            }
            None => {
                self.script.add(number, entry)?;
                Ok(FollowedLine::Within)
            }
        }
    }

    /// Takes the turn that the line of this number ends.
    fn turn(&mut self, file: &str, number: u64, moment: Moment) -> Result<FollowedLine, DayFault> {
        if let Some(refused) = self.script.refusal() {
            return Err(DayFault::refused(self.alloc, file, refused));
        }
        self.begin_turn(moment)?;
        take_turn(
            self.alloc,
            &mut self.engine,
            &mut self.script,
            &mut self.ledger,
            moment,
            self.restarted,
        );
        self.restarted = false;
        let _moved = self.script.take_moved();
        if self.script.end_turn().is_some() {
            return Err(DayFault::differs(self.alloc, file, number));
        }
        self.ledger.end_turn(&self.engine)?;
        Ok(FollowedLine::Turned(moment))
    }

    /// Begins a turn at a moment.
    fn begin_turn(&mut self, moment: Moment) -> Result<(), AllocError> {
        if let Some(zero) = self.zero {
            self.ledger.clock().set(moment, zero)?;
            self.zero = None;
        }
        if self.restarted {
            self.ledger.drop_plan();
        }
        self.ledger.begin_turn(moment);
        Ok(())
    }
}
