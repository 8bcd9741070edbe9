//! What settings allow and hardly anybody means.
//!
//! [`advice_on`] returns the [`Advice`] about settings: a base of URIs that clients can't use, a printer of
//! which no device can print a job that asks for nothing, a device that no printer has, and devices whose names
//! differ in case alone. Such settings are served as they are.
//!
//! Tests: `unit_tests`.
#![tactic(auto)]

mod advice;
mod devices;
mod printers;

pub use advice::{Advice, advice_on};
