use base_types::{JobId, Priority, Text};
use plan_prices::Stranded;

/// The content of a line of a plan's text.
#[derive(Drop)]
pub(crate) enum Line {
    Plan,
    /// The name of a device.
    Device(Text),
    /// The priority of a class.
    Class(Priority),
    /// A job, and its time on each device in ms, `None` if the device isn't able.
    Job(JobId, Vec<Option<u64>>),
    /// The wait of each device, in ms.
    Wait(Vec<u64>),
    /// The name of a device, and its jobs, the first to be printed first.
    Way(Text, Vec<JobId>),
    /// The total of a class, in ms.
    Total(u64),
    JobPrices(Vec<i64>),
    /// The name of a device, and the prices of its places, the last place first.
    PlacePrices(Text, Vec<i64>),
    Stranded(Stranded),
    End,
}
