/// A status that a printer sends by PJL.
#[derive(Clone, Copy, PartialEq, Eq)]
pub enum PjlStatus {
    /// This many pages of the job are printed.
    Page(u32),
    /// A job is printed, or was given up.
    JobEnded,
    /// The printer is in the state of this code.
    Device(u32),
    /// Any other message.
    Other,
}
