//! The promises of the server, as laws above all of its crates.
//!
//! Plans: the text of each good plan of a core is read back as that plan, and the checker, which reads
//! nothing but the text, accepts it. Bytes: one trace leads to one ledger, so the wire's calls with their
//! answers, the notes and the choices determine the bytes due on each connection; and after any calls an engine
//! is at the trace of exactly these calls. Devices: the reports of each device, and the end of each of
//! its connections, reach the core. Events: the observer was notified of each event that was dropped. The
//! functions compute nothing; their contracts are the laws.
#![tactic(auto)]

mod bytes;
mod exchanges;
mod plans;
mod run;

pub use bytes::{
    clients_are_answered, devices_are_sent_their_orders, due_after_calls, due_was_carried,
    one_ledger, one_seen_ledger, others_are_spared, reports_are_delivered,
};
pub use exchanges::exchanges_are_answered;
pub use plans::plan_is_its_text;
pub use run::dropped_events_are_notified;
