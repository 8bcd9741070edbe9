//! The state of a reader of a plan's text.
ghost use Rattle.std.specs.Prelude.{◌≡◌, ◌==◌, ◌&&◌};
ghost use Rattle.plan_problem.specs.Class.{IsClass};
ghost use Rattle.plan_text.specs.Line.{plan_line_of};
ghost use Rattle.plan_text.specs.Steps.{Leaves, draft_record, opened_of, problem_of, is_named, may_have, next, plan_next, device_next, closed, opened_kept, class_opened, class_next, job_next, wait_next, way_next, total_next, job_prices_next, place_prices_next, classes_over, stranded_added, stranded_next, end_next};

use crate::fault::{ReadError, TextFault};
use crate::line::Line;
use crate::open_class::OpenClass;
use crate::stage::Stage;
use base_types::{JobId, Limits, Priority, Text};
use plan_prices::{PlacePrices, PlannedClass, Queue, Stranded};
use plan_problem::{Row, is_class};
use std::alloc::Global;
use std::mem::replace;

/// The state after the lines of a plan's text that were read.
#[derive(Drop)]
pub(crate) struct Draft {
    pub(crate) stage: Stage,
    pub(crate) devices: Vec<Text>,
    pub(crate) classes: Vec<PlannedClass>,
    pub(crate) stranded: Vec<Stranded>,
    /// The number of lines of jobs and of stranded jobs.
    pub(crate) jobs: usize,
    /// The bound below which the priority of the next class is.
    pub(crate) below: u8,
    /// The bound above which the id of the next job is.
    pub(crate) last: u32,
    pub(crate) opened: OpenClass,
}

impl Draft {
    /// Takes the step of a line.
    pub(crate) fn take(&mut self, alloc: Global, line: Line) -> Result<(), ReadError>
        ensures { Leaves result (draft_record self.new) (next (draft_record self.old) (plan_line_of line)) }
    {
        match line {
            Line::Plan => self.take_plan(),
            Line::Device(name) => self.take_device(name),
            Line::Class(priority) => self.take_class(alloc, priority),
            Line::Job(id, times) => self.take_job(id, times),
            Line::Wait(waits) => self.take_wait(waits),
            Line::Way(device, jobs) => self.take_way(&device, jobs),
            Line::Total(total) => self.take_total(total),
            Line::JobPrices(prices) => self.take_job_prices(prices),
            Line::PlacePrices(device, prices) => self.take_place_prices(&device, prices),
            Line::Stranded(stranded) => self.take_stranded(alloc, stranded),
            Line::End => self.take_end(alloc),
        }
    }

    #[tactic(auto, unfolding(crate::specs::Steps::plan_next))]
    fn take_plan(&mut self) -> Result<(), ReadError>
        ensures { Leaves result (draft_record self.new) (plan_next (draft_record self.old)) }
    {
        if !self.stage.is(Stage::Start) {
            return Err(ReadError::Fault(TextFault::BadLine));
        }
        self.stage = Stage::Devices;
        Ok(())
    }

    #[tactic(auto, unfolding(crate::specs::Steps::device_next))]
    fn take_device(&mut self, name: Text) -> Result<(), ReadError>
        ensures { Leaves result (draft_record self.new) (device_next (draft_record self.old) name) }
    {
        if !self.stage.is(Stage::Devices) {
            return Err(ReadError::Fault(TextFault::BadLine));
        }
        if self.devices.len() >= Limits::DEVICES {
            return Err(ReadError::Fault(TextFault::OutOfRange));
        }
        self.devices.push(name)?;
        Ok(())
    }

    /// Adds the class that is being read to the whole classes, if all its lines were read.
    #[tactic(auto, unfolding(crate::specs::Steps::closed), using(crate::proofs::Problems::problem_is, crate::proofs::Problems::problem_isnt))]
    fn close(&mut self, alloc: Global) -> Result<(), ReadError>
        ensures { Leaves result (draft_record self.new) (closed (draft_record self.old)) }
    {
        if self.stage.is(Stage::Devices) {
            return Ok(());
        }
        if !self.stage.is(Stage::PlacePrices)
            || self.opened.place_prices.len() != self.devices.len()
        {
            return Err(ReadError::Fault(TextFault::BadLine));
        }
        if !is_class(&self.opened.ids, &self.opened.rows, &self.opened.waits) {
            return Err(ReadError::Fault(TextFault::OutOfRange));
        }
        self.keep_opened(alloc)
    }

    /// Adds the class that is being read to the whole classes.
    fn keep_opened(&mut self, alloc: Global) -> Result<(), ReadError>
        requires { IsClass (problem_of (opened_of self.old.opened)) }
        ensures { Leaves result (draft_record self.new) (Ok (opened_kept (draft_record self.old))) }
    {
        let empty = OpenClass::new(alloc, self.opened.priority);
        let whole = replace(&mut self.opened, empty);
        self.last = 0;
        self.classes.push(whole.planned())?;
        Ok(())
    }

    #[tactic(auto, unfolding(crate::specs::Steps::class_opened))]
    fn open_class(&mut self, alloc: Global, priority: Priority) -> Result<(), ReadError>
        ensures { Leaves result (draft_record self.new) (class_opened (draft_record self.old) priority) }
    {
        let level = priority.level();
        if level >= self.below {
            return Err(ReadError::Fault(TextFault::OutOfRange));
        }
        self.stage = Stage::Jobs;
        self.below = level;
        self.last = 0;
        self.opened = OpenClass::new(alloc, priority);
        Ok(())
    }

    #[tactic(auto, unfolding(crate::specs::Steps::class_next))]
    fn take_class(&mut self, alloc: Global, priority: Priority) -> Result<(), ReadError>
        ensures { Leaves result (draft_record self.new) (class_next (draft_record self.old) priority) }
    {
        self.close(alloc)?;
        self.open_class(alloc, priority)
    }

    /// Returns whether a further line of a job may come, and its id is above the id of the job before.
    fn may_have(&self, id: JobId) -> bool
        ensures { result ≡ may_have (draft_record self.now) id }
    {
        self.jobs < Limits::UNFINISHED_JOBS && self.last < id.number()
    }

    #[tactic(auto, unfolding(crate::specs::Steps::job_next))]
    fn take_job(&mut self, id: JobId, times: Vec<Option<u64>>) -> Result<(), ReadError>
        ensures { Leaves result (draft_record self.new) (job_next (draft_record self.old) id times.items) }
    {
        if !self.stage.is(Stage::Jobs) || times.len() != self.devices.len() {
            return Err(ReadError::Fault(TextFault::BadLine));
        }
        if !self.may_have(id) {
            return Err(ReadError::Fault(TextFault::OutOfRange));
        }
        self.opened.ids.push(id)?;
        self.opened.rows.push(Row::new(times))?;
        self.jobs += 1;
        self.last = id.number();
        Ok(())
    }

    #[tactic(auto, unfolding(crate::specs::Steps::wait_next))]
    fn take_wait(&mut self, waits: Vec<u64>) -> Result<(), ReadError>
        ensures { Leaves result (draft_record self.new) (wait_next (draft_record self.old) waits.items) }
    {
        if !self.stage.is(Stage::Jobs) || waits.len() != self.devices.len() {
            return Err(ReadError::Fault(TextFault::BadLine));
        }
        self.opened.waits = waits;
        self.stage = Stage::Ways;
        Ok(())
    }

    /// Returns whether the device at a place has a name.
    fn is_named(&self, place: usize, name: &Text) -> bool
        ensures { result ≡ is_named (draft_record self.now) place name.now }
    {
        place < self.devices.len() && self.devices[place].as_bytes() == name.as_bytes()
    }

    #[tactic(auto, unfolding(crate::specs::Steps::way_next))]
    fn take_way(&mut self, device: &Text, jobs: Vec<JobId>) -> Result<(), ReadError>
        ensures { Leaves result (draft_record self.new) (way_next (draft_record self.old) device.now jobs.items) }
    {
        if !self.stage.is(Stage::Ways) || !self.is_named(self.opened.queues.len(), device) {
            return Err(ReadError::Fault(TextFault::BadLine));
        }
        self.opened.queues.push(Queue::new(jobs))?;
        Ok(())
    }

    #[tactic(auto, unfolding(crate::specs::Steps::total_next))]
    fn take_total(&mut self, total: u64) -> Result<(), ReadError>
        ensures { Leaves result (draft_record self.new) (total_next (draft_record self.old) total) }
    {
        if !self.stage.is(Stage::Ways) || self.opened.queues.len() != self.devices.len() {
            return Err(ReadError::Fault(TextFault::BadLine));
        }
        self.opened.total = total;
        self.stage = Stage::JobPrices;
        Ok(())
    }

    #[tactic(auto, unfolding(crate::specs::Steps::job_prices_next))]
    fn take_job_prices(&mut self, prices: Vec<i64>) -> Result<(), ReadError>
        ensures { Leaves result (draft_record self.new) (job_prices_next (draft_record self.old) prices.items) }
    {
        if !self.stage.is(Stage::JobPrices) {
            return Err(ReadError::Fault(TextFault::BadLine));
        }
        self.opened.job_prices = prices;
        self.stage = Stage::PlacePrices;
        Ok(())
    }

    #[tactic(auto, unfolding(crate::specs::Steps::place_prices_next))]
    fn take_place_prices(&mut self, device: &Text, prices: Vec<i64>) -> Result<(), ReadError>
        ensures { Leaves result (draft_record self.new) (place_prices_next (draft_record self.old) device.now prices.items) }
    {
        let place = self.opened.place_prices.len();
        if !self.stage.is(Stage::PlacePrices) || !self.is_named(place, device) {
            return Err(ReadError::Fault(TextFault::BadLine));
        }
        self.opened.place_prices.push(PlacePrices::new(prices))?;
        Ok(())
    }

    /// Ends the classes: no class may follow.
    #[tactic(auto, unfolding(crate::specs::Steps::classes_over))]
    fn end_classes(&mut self, alloc: Global) -> Result<(), ReadError>
        ensures { Leaves result (draft_record self.new) (classes_over (draft_record self.old)) }
    {
        if self.stage.is(Stage::Stranded) {
            return Ok(());
        }
        self.close(alloc)
    }

    #[tactic(auto, unfolding(crate::specs::Steps::stranded_added))]
    fn add_stranded(&mut self, stranded: Stranded) -> Result<(), ReadError>
        ensures { Leaves result (draft_record self.new) (stranded_added (draft_record self.old) stranded) }
    {
        if !self.may_have(stranded.job) {
            return Err(ReadError::Fault(TextFault::OutOfRange));
        }
        self.jobs += 1;
        self.last = stranded.job.number();
        self.stage = Stage::Stranded;
        self.stranded.push(stranded)?;
        Ok(())
    }

    #[tactic(auto, unfolding(crate::specs::Steps::stranded_next))]
    fn take_stranded(&mut self, alloc: Global, stranded: Stranded) -> Result<(), ReadError>
        ensures { Leaves result (draft_record self.new) (stranded_next (draft_record self.old) stranded) }
    {
        self.end_classes(alloc)?;
        self.add_stranded(stranded)
    }

    #[tactic(auto, unfolding(crate::specs::Steps::end_next))]
    fn take_end(&mut self, alloc: Global) -> Result<(), ReadError>
        ensures { Leaves result (draft_record self.new) (end_next (draft_record self.old)) }
    {
        self.end_classes(alloc)?;
        self.stage = Stage::Ended;
        Ok(())
    }
}
