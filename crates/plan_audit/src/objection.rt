//! The objections to an input, as sentences for its writer.

use plan_checker::Fault;
use plan_text::TextFault;
use std::fmt;

/// The name of the input in the sentences.
const INPUT: &str = "<standard input>";

/// The reason why an input is no plan that is proved best. `Display` writes it as a sentence without a line
/// feed, which begins with the name of standard input.
#[derive(Clone, Copy, PartialEq, Eq)]
pub enum Objection {
    /// The input has more bytes than [`base_types::Limits::INPUT_BYTES`].
    Size,
    /// The input is no plan: it has this fault at this line, counted from 1.
    Text { line: usize, fault: TextFault },
    /// The plan is not proved best: the first fault is this fault, of the class of this priority.
    Plan { priority: u8, fault: Fault },
}

impl fmt::Display for Objection {
    fn fmt<W: fmt::Write>(&self, f: &mut fmt::Formatter<W>) -> fmt::Result {
        match self {
            Objection::Size => write!(f, "{INPUT}: this has more than 67,108,864 bytes"),
            Objection::Text { line, fault } => write!(
                f,
                "{INPUT}: line {line}: {}",
                text_meaning(*fault)
            ),
            Objection::Plan { priority, fault } => {
                write!(f, "{INPUT}: class {priority}: {}", plan_meaning(*fault))
            }
        }
    }
}

/// The meaning of a fault of a text.
fn text_meaning(fault: TextFault) -> &'static str {
    match fault {
        TextFault::BadLine => "this is no line of a plan, or none that may come here",
        TextFault::OutOfRange => {
            "a number is out of its range, a line is one too many, or a priority doesn't fall or an id doesn't rise"
        }
        TextFault::NoEnd => "the text ends here, before the line \"end\" and its line feed",
    }
}

/// The meaning of a fault of a plan.
fn plan_meaning(fault: Fault) -> &'static str {
    match fault {
        Fault::UnknownName => "a way names a job that is not of the class",
        Fault::Twice => "a job appears twice in the plan",
        Fault::Missing => "a job is in no way, or there are not as many prices as jobs or places",
        Fault::NotAble => "a job is on a device that cannot print it",
        Fault::WrongWait => "the waits are not those that the class above leaves",
        Fault::PositivePlacePrice => "the price of a place is above 0",
        Fault::PriceTooHigh => {
            "a job's price and a place's together are more than the job would add at that place"
        }
        Fault::TotalsDiffer => {
            "the total stated, the total of the ways and the sum of the prices are not one number"
        }
    }
}
