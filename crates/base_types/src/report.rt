use crate::text::Text;

/// A report of a device: a line that the device sent, or the end of its connection.
///
/// A job is named by the number that the device wrote, which may be that of no job.
#[derive(Drop)]
pub enum Report {
    /// The device gives its name. It does that once, in its first line.
    Hello(Text),
    /// Exactly these media are loaded.
    Media(Vec<Text>),
    /// The device runs.
    Ready,
    /// The device stops, with the job that it has.
    Stop,
    /// The device begins no job for this many ms from now on. The report replaces an earlier one.
    Busy(u32),
    /// This many impressions of the job are printed, all copies together.
    Pages { job: u32, printed: u32 },
    /// The job is printed.
    Done { job: u32 },
    /// The job can't be printed.
    Fail { job: u32 },
    /// The device's connection ended.
    Gone,
}
