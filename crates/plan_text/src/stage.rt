//! The lines that may come next.
ghost use Rattle.std.specs.Prelude.{◌≡◌, ◌==◌};
ghost use Rattle.plan_text.specs.Steps.{stage_number};

/// The lines of a plan's text that may come next.
#[derive(Clone, Copy)]
pub(crate) enum Stage {
    /// `plan`.
    Start,
    /// A device, a class, a stranded job or `end`.
    Devices,
    /// A job of a class, or the waits.
    Jobs,
    /// The way of the next device, or the total after the last.
    Ways,
    /// The prices of the jobs.
    JobPrices,
    /// The place prices of the next device; after the last a class, a stranded job or `end`.
    PlacePrices,
    /// A stranded job or `end`.
    Stranded,
    /// No line.
    Ended,
}

impl Stage {
    /// Returns whether it is this stage.
    pub(crate) fn is(self, stage: Stage) -> bool
        ensures { result ≡ (stage_number self == stage_number stage) }
    {
        self.number() == stage.number()
    }

    /// The place of the stage in the order of the stages.
    fn number(self) -> u8
        ensures { result ≡ stage_number self }
    {
        match self {
            Stage::Start => 0,
            Stage::Devices => 1,
            Stage::Jobs => 2,
            Stage::Ways => 3,
            Stage::JobPrices => 4,
            Stage::PlacePrices => 5,
            Stage::Stranded => 6,
            Stage::Ended => 7,
        }
    }
}
