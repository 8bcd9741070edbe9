//! The jobs that came and that no device has begun.
use base_types::JobId;
use job_objects::Job;
use plan_prices::Planner;
use server::Engine;
use std::alloc::{AllocError, Global};
use std::mem;

/// A job that came and that no device has begun.
#[derive(Clone, Copy)]
struct Arrival {
    job: JobId,
    /// Whether its arrival was logged: that is once it has all its documents, or has ended.
    logged: bool,
}

/// What became of jobs that no device has begun.
#[derive(Drop)]
pub(crate) struct News {
    /// The jobs whose arrival is to be logged.
    pub(crate) came: Vec<JobId>,
    /// The jobs that ended before any device began them.
    pub(crate) ended: Vec<JobId>,
}

/// The jobs that came and that no device has begun.
#[derive(Drop)]
pub(crate) struct Arrivals {
    alloc: Global,
    /// The id of the next job.
    next: Option<JobId>,
    /// The number of unfinished jobs.
    unfinished: usize,
    jobs: Vec<Arrival>,
}

/// Returns whether a job waits for documents.
fn is_incoming(job: &Job) -> bool {
    job.incoming && !job.state.is_finished()
}

/// Returns whether a job ended before any device began it.
fn has_ended_unbegun(job: &Job) -> bool {
    job.state.is_finished() && job.started.is_none()
}

/// Returns whether a job hasn't ended and no device has begun it.
fn is_unbegun(job: Option<&Job>) -> bool {
    match job {
        Some(job) => !job.state.is_finished() && job.started.is_none(),
        None => false,
    }
}

/// The jobs that an engine has and that no device has begun, as logged arrivals. The only error is out of
/// memory.
fn unbegun_jobs<P: Planner + Drop>(
    alloc: Global,
    engine: &Engine<P>,
) -> Result<Vec<Arrival>, AllocError> {
    let mut jobs = Vec::new(alloc);
    for spooled in engine.jobs() {
        let job = spooled.job();
        if is_unbegun(Some(job)) {
            jobs.push(Arrival {
                job: job.id,
                logged: true,
            })?;
        }
    }
    Ok(jobs)
}

impl Arrivals {
    /// Creates the list for an engine. The arrivals of the jobs that the engine has now count as logged. If
    /// memory for their list is refused, they are left out.
    pub(crate) fn new<P: Planner + Drop>(alloc: Global, engine: &Engine<P>) -> Arrivals {
        let jobs = match unbegun_jobs(alloc, engine) {
            Ok(jobs) => jobs,
            Err(_) => Vec::new(alloc),
        };
        Arrivals {
            alloc,
            next: engine.next_job_id(),
            unfinished: engine.unfinished_jobs(),
            jobs,
        }
    }

    /// Takes what became of the jobs since the last call. The only error is out of memory.
    pub(crate) fn take<P: Planner + Drop>(
        &mut self,
        engine: &Engine<P>,
    ) -> Result<News, AllocError> {
        let mut news = News {
            came: Vec::new(self.alloc),
            ended: Vec::new(self.alloc),
        };
        if self.is_same(engine) {
            return Ok(news);
        }
        self.add_new(engine)?;
        self.unfinished = engine.unfinished_jobs();
        for arrival in &mut self.jobs {
            if let Some(job) = engine.job(arrival.job) {
                news.add(arrival, job)?;
            }
        }
        self.jobs
            .retain(|arrival| is_unbegun(engine.job(arrival.job)));
        Ok(news)
    }

    /// Returns whether no job came, got its last document or ended since the last call.
    fn is_same<P: Planner + Drop>(&self, engine: &Engine<P>) -> bool {
        self.next == engine.next_job_id()
            && self.unfinished == engine.unfinished_jobs()
            && self.jobs.iter().all(|arrival| arrival.logged)
    }

    /// Adds the jobs that came since the last call.
    fn add_new<P: Planner + Drop>(&mut self, engine: &Engine<P>) -> Result<(), AllocError> {
        let before = mem::replace(&mut self.next, engine.next_job_id());
        let Some(first) = before else {
            return Ok(());
        };
        for spooled in engine.jobs() {
            let job = spooled.job().id;
            if job >= first {
                self.jobs.push(Arrival { job, logged: false })?;
            }
        }
        Ok(())
    }
}

impl News {
    /// Adds what became of a job.
    fn add(&mut self, arrival: &mut Arrival, job: &Job) -> Result<(), AllocError> {
        if !arrival.logged && !is_incoming(job) {
            self.came.push(job.id)?;
            arrival.logged = true;
        }
        if has_ended_unbegun(job) {
            self.ended.push(job.id)?;
        }
        Ok(())
    }
}
