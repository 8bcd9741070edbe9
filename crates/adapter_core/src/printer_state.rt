/// The state of a printer, as it is reported to the server.
#[derive(Clone, Copy, PartialEq, Eq)]
pub enum PrinterState {
    Running,
    /// The printer prints nothing for now: paper is out, a cover is open, or it can't be reached.
    Stopped,
}
