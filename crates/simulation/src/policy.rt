//! The policies.

/// A policy, which chooses a device of the job's printer that can print the job.
#[derive(Clone, Copy)]
pub enum Policy {
    /// The next free device, counted from the device after the device that got the last job of the printer;
    /// for the first job, from the device after the first. It is a class of CUPS
    /// (`cupsdFindAvailablePrinter` of its scheduler).
    RoundRobin,
    /// The first free device, in the order of the printer.
    FirstFree,
    /// The device for which the fewest jobs wait or print when the job comes. The job waits for that device,
    /// even if it isn't free.
    ShortestQueue,
    /// The device that ends the job first, free or not, after its own job and the waiting jobs before this
    /// one. Jobs of one priority are assigned in the order in which they came. All waiting jobs are assigned
    /// anew at each event.
    EndsFirst,
    /// As [`Policy::EndsFirst`], but jobs of one priority are assigned by their time on the fastest device,
    /// the shortest first.
    ShortestFirst,
}

impl Policy {
    /// All policies.
    pub const ALL: [Policy; 5] = [
        Policy::RoundRobin,
        Policy::FirstFree,
        Policy::ShortestQueue,
        Policy::EndsFirst,
        Policy::ShortestFirst,
    ];

    /// The name of the policy, as it is printed.
    pub fn name(self) -> &'static str {
        match self {
            Policy::RoundRobin => "round-robin",
            Policy::FirstFree => "first-free",
            Policy::ShortestQueue => "shortest-queue",
            Policy::EndsFirst => "ends-first",
            Policy::ShortestFirst => "shortest-first",
        }
    }
}
