//! The jobs that haven't ended.
use base_types::JobId;
use plan_prices::Planner;
use server::Engine;
use std::alloc::{AllocError, Global};
use std::mem;

/// The jobs of an engine that hadn't ended after the last turn.
#[derive(Drop)]
pub(crate) struct Unended {
    alloc: Global,
    /// The id of the next job.
    next: Option<JobId>,
    jobs: Vec<JobId>,
}

/// The jobs that came and that ended in a turn. A job that came and ended is in both.
#[derive(Drop)]
pub(crate) struct TurnNews {
    pub(crate) came: Vec<JobId>,
    pub(crate) ended: Vec<JobId>,
}

/// Returns whether the engine keeps a job that hasn't ended.
fn is_open<P: Planner + Drop>(engine: &Engine<P>, id: JobId) -> bool {
    match engine.job(id) {
        Some(job) => !job.state.is_finished(),
        None => false,
    }
}

impl Unended {
    /// Creates the list of the jobs that an engine has now. The only error is out of memory.
    pub(crate) fn new<P: Planner + Drop>(
        alloc: Global,
        engine: &Engine<P>,
    ) -> Result<Unended, AllocError> {
        let mut jobs = Vec::new(alloc);
        for spooled in engine.jobs() {
            if !spooled.job().state.is_finished() {
                jobs.push(spooled.job().id)?;
            }
        }
        Ok(Unended {
            alloc,
            next: engine.next_job_id(),
            jobs,
        })
    }

    /// Takes what came and ended in a turn. The only error is out of memory.
    pub(crate) fn take<P: Planner + Drop>(
        &mut self,
        engine: &Engine<P>,
    ) -> Result<TurnNews, AllocError> {
        let mut news = TurnNews {
            came: self.take_new(engine)?,
            ended: Vec::new(self.alloc),
        };
        if self.jobs.len() == engine.unfinished_jobs() {
            return Ok(news);
        }
        for id in &self.jobs {
            if !is_open(engine, *id) {
                news.ended.push(*id)?;
            }
        }
        self.jobs.retain(|id| is_open(engine, *id));
        Ok(news)
    }

    /// Adds the jobs that came in a turn, and returns them.
    fn take_new<P: Planner + Drop>(
        &mut self,
        engine: &Engine<P>,
    ) -> Result<Vec<JobId>, AllocError> {
        let mut came = Vec::new(self.alloc);
        let before = mem::replace(&mut self.next, engine.next_job_id());
        let Some(first) = before else {
            return Ok(came);
        };
        if before == self.next {
            return Ok(came);
        }
        for spooled in engine.jobs() {
            let id = spooled.job().id;
            if id >= first {
                came.push(id)?;
                self.jobs.push(id)?;
            }
        }
        Ok(came)
    }
}
