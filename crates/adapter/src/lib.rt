//! The adapter of a printer. It is one device of the server, and prints the jobs that it gets.
//!
//! [`attach`] connects to the devices' port, connects again after a lost connection, and takes turns by the
//! clock. The server's orders go to an [`adapter_core::AdapterState`], and the work that it allows goes to one
//! of the `adapter_printers`. The contracts of the reports and of the bytes that are sent are in
//! `adapter_core`. This crate has the connection to the server, the clock and the log. An [`Adapter`] takes
//! its turns over any network.
//!
//! Tests: `adapter_tests`, and with the program `tools/clients/try_printers.py` and
//! `tools/clients/try_cups.sh`.
#![tactic(auto)]

mod adapter;
mod clock;
mod config;
mod figures;
mod line;
mod log;
mod overdue;
mod run;

pub use adapter::{Adapter, Device};
pub use config::{AdapterConfig, ConfigWords, Target, WordFault, read_config};
pub use run::{attach, try_target};
