/// The fault of a priced way. The faults are checked in this order.
#[derive(Clone, Copy, PartialEq, Eq)]
pub enum Fault {
    /// A list has a job that isn't of the class.
    UnknownName,
    /// A job is twice in the lists, or also in a class above or among the stranded.
    Twice,
    /// A job is in no list, or a job or a used place has no price, or there is a price too many.
    Missing,
    /// A job is in the list of a device that isn't able to print it.
    NotAble,
    /// The waits aren't those after the class above.
    WrongWait,
    /// The price of a place is above 0.
    PositivePlacePrice,
    /// The price of a job, together with that of a used place, or by itself at the next place, is more than
    /// the job costs there.
    PriceTooHigh,
    /// The stated total isn't that of the way, or isn't the sum of the prices.
    TotalsDiffer,
}

/// The verdict on a priced way.
#[derive(Clone, Copy, PartialEq, Eq)]
pub enum Verdict {
    /// The prices prove the way best.
    Yes,
    /// The first fault.
    No(Fault),
}

/// The verdict on a plan.
///
/// A fault has the place of its class, by which a reader of the verdict finds the class's priority. A yes has
/// none.
#[derive(Clone, Copy, PartialEq, Eq)]
pub enum PlanVerdict {
    /// Each class is proved best.
    Yes,
    /// The first class with a fault, by its place from the top, counted from 0, with its first fault.
    No { place: usize, fault: Fault },
}
