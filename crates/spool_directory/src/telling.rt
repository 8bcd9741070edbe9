//! Reports of what a start found, and of what became of the jobs.
use crate::directory::Directory;
use base_types::Text;
use journal::{JournaledEngine, Resubmitted, SavedJob};
use quotes::Quoted;

impl Directory<'_> {
    /// Reports how many jobs wait, if any do.
    pub(crate) fn tell_waiting(&self, engine: &JournaledEngine) {
        let waiting = engine.unfinished_jobs();
        if waiting > 0 {
            let _printed = eprintln!(self.rt; "printd: jobs that wait: {waiting}");
        }
    }

    /// Reports which jobs devices had in hand.
    pub(crate) fn tell_in_hand(&self, jobs: &[SavedJob]) {
        for job in jobs {
            let (id, owner) = (job.id.number(), Quoted(job.owner.as_bytes()));
            let _printed = eprintln!(self.rt;
                "printd: job {id} of {owner} was in a device's hand, and is aborted"
            );
        }
    }

    /// Reports which printers were paused, and are not.
    pub(crate) fn tell_unpaused(&self, names: &[Text]) {
        for name in names {
            let name = Quoted(name.as_bytes());
            let _printed = eprintln!(self.rt;
                "printd: printer {name} was paused and is not: the settings name no operator"
            );
        }
    }

    /// Reports what became of jobs that were submitted again.
    pub(crate) fn tell_resubmitted(&self, jobs: &[Resubmitted]) {
        for resubmitted in jobs {
            let (id, owner) = (
                resubmitted.job.id.number(),
                Quoted(resubmitted.job.owner.as_bytes()),
            );
            let _printed = match resubmitted.new {
                Some(new) => {
                    let new = new.number();
                    eprintln!(self.rt; "printd: job {id} of {owner} is now {new}")
                }
                None => {
                    let path = self.path;
                    eprintln!(self.rt;
                        "printd: job {id} of {owner} is refused by these settings; its documents are the files job-{id}-* of {path}"
                    )
                }
            };
        }
    }
}
