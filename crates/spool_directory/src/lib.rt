//! The directory in which a print server keeps its journal, so that its jobs survive a restart.
//!
//! A directory holds files `000001.trace`, `000002.trace` and so on, and a file `lock`. A file is a *base* or it
//! *goes on* after the file before it. A base has the settings, a line `.`, a line `recorded MS VERSION first N`
//! and turns; `N` is the id of its first job. A file that goes on has a line `#goes on behind 000001.trace`, a line
//! `#started MS VERSION`, and turns. The last base and the files after it are the journal.
//!
//! [`SpoolDirectory::start`] plays the journal, and refuses a file that isn't as the server wrote it: nothing is
//! written or deleted then. Only lines after the last turn of the last file are cut off. [`SpoolFiles`] stores the
//! lines of the server that has started: all lines of a call or none.
//!
//! A new file gets its name only once its first lines are on the disk, so each file has all of them. The engine of a
//! start is at the trace of the stored lines. These are a list in contracts alone: nothing is proved of what is on
//! the disk.
#![tactic(auto)]

mod clock;
mod directory;
mod draft;
mod fault;
mod following;
mod head;
mod keeping;
mod listing;
mod marks;
mod named;
mod opening;
mod playing;
mod removing;
mod renewing;
mod spool_files;
mod starting;
mod system_error;
mod telling;
mod trouble;
mod watching;
mod writer;

pub use clock::{day_of, millis_of, now};
pub use fault::{FileFault, SpoolFault, Why};
pub use opening::SpoolDirectory;
pub use spool_files::{SpoolFiles, SpoolOptions};
pub use starting::StartingServer;
pub use system_error::SystemError;
pub use watching::leads_to;
