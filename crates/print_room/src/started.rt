use base_types::{DeviceId, JobId};

/// A job that a device begins.
#[derive(Clone, Copy, PartialEq, Eq)]
pub struct Started {
    pub job: JobId,
    pub device: DeviceId,
    /// The estimated time of the job on the device, in ms: at most [`base_types::Limits::JOB_TIME`].
    pub time: u64,
}
