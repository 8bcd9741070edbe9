//! The state of a printer, and its reason (RFC 8011, sections 5.4.11 and 5.4.12).
ghost use Rattle.std.specs.Prelude.{◌≡◌};
ghost use Rattle.printer_objects.specs.PrinterState.{is_printing_or_stopped, printer_keyword, printer_reason_of, printer_state_code, printer_state_of, is_busy_with};

use base_types::PrinterId;
use job_objects::{Job, JobState, Printer};

/// The state of a printer (RFC 8011, section 5.4.11).
#[derive(Clone, Copy, PartialEq, Eq)]
pub enum PrinterState {
    /// No job of the printer is on a device, and one may start.
    Idle,
    /// A job of the printer is on a device.
    Processing,
    /// The printer is paused, and no job of it is on a device.
    Stopped,
}

/// The reason of a printer's state (RFC 8011, section 5.4.12).
#[derive(Clone, Copy, PartialEq, Eq)]
pub enum PrinterReason {
    /// The keyword `none`.
    Nothing,
    /// The printer is paused, and a device still has a job of it.
    MovingToPaused,
    /// The printer is paused.
    Paused,
}

impl PrinterState {
    /// The value of printer-state.
    pub fn code(self) -> u32
        ensures { result ≡ printer_state_code self }
    {
        match self {
            PrinterState::Idle => 3,
            PrinterState::Processing => 4,
            PrinterState::Stopped => 5,
        }
    }
}

impl PrinterReason {
    /// The keyword of the reason.
    pub fn keyword(self) -> &'static str
        ensures { result.now ≡ printer_keyword self }
    {
        match self {
            PrinterReason::Nothing => "none",
            PrinterReason::MovingToPaused => "moving-to-paused",
            PrinterReason::Paused => "paused",
        }
    }
}

/// Returns whether a job keeps a printer processing: it was sent to that printer, and a running or stopped
/// device has it.
pub fn keeps_busy(job: &Job, printer: PrinterId) -> bool
    ensures { result ≡ is_busy_with printer job.now }
{
    job.needs.printer == printer && is_printing_or_stopped(job.state)
}

/// Returns whether a job of this state is processing or processing-stopped.
fn is_printing_or_stopped(state: JobState) -> bool
    ensures { result ≡ is_printing_or_stopped state }
{
    match state {
        JobState::Processing | JobState::Stopped => true,
        JobState::Pending | JobState::PendingHeld => false,
        JobState::Canceled | JobState::Aborted | JobState::Completed => false,
    }
}

/// The state of a printer. `busy` indicates whether some job keeps the printer busy ([`keeps_busy`]).
pub fn printer_state(printer: &Printer, busy: bool) -> PrinterState
    ensures { result ≡ printer_state_of busy printer.now }
{
    if busy {
        PrinterState::Processing
    } else if printer.is_paused() {
        PrinterState::Stopped
    } else {
        PrinterState::Idle
    }
}

/// The reason of a printer's state. `busy` indicates whether some job keeps the printer busy ([`keeps_busy`]).
pub fn printer_reason(printer: &Printer, busy: bool) -> PrinterReason
    ensures { result ≡ printer_reason_of busy printer.now }
{
    if !printer.is_paused() {
        PrinterReason::Nothing
    } else if busy {
        PrinterReason::MovingToPaused
    } else {
        PrinterReason::Paused
    }
}
