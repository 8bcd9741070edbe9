//! The jobs whose documents stopped coming.
ghost use Rattle.std.specs.Prelude.{◌≡◌, map};
ghost use Rattle.spool.specs.Spooled.{expired};
ghost use Rattle.spool.specs.Kept.{retained};
ghost use Rattle.spool.specs.OnDevice.{AllStay};

use crate::spool::Spool;
use base_types::Moment;

impl Spool {
    /// Aborts each job whose documents stopped coming: its last document, or its creation if there is no
    /// document, is [`base_types::Limits::INCOMING_JOB_TIME`] old or older.
    pub fn expire(&mut self, now: Moment)
        ensures jobs { self.new ≡ record self.old { jobs = retained (map (expired now) self.old.jobs) } }
        ensures stay { AllStay self.old.jobs self.new.jobs }
    {
        self.expire_all(now);
        self.forget();
    }

    /// Aborts each job whose documents stopped coming.
    fn expire_all(&mut self, now: Moment)
        ensures { self.new ≡ record self.old { jobs = map (expired now) self.old.jobs } }
    {
        for place in 0..self.len() {
            self.expire_at(place, now);
        }
    }
}
