//! The rows of a rows file.

use crate::step::Step;
use std::alloc::Global;

/// A script, and the log that the adapter writes with it.
#[derive(Drop)]
pub(crate) struct AdapterRow {
    pub(crate) name: String,
    pub(crate) steps: Vec<Step>,
    pub(crate) log: String,
}

impl AdapterRow {
    /// A row without a name, steps and a log.
    pub(crate) fn new(alloc: Global) -> AdapterRow {
        AdapterRow {
            name: String::new(alloc),
            steps: Vec::new(alloc),
            log: String::new(alloc),
        }
    }
}
