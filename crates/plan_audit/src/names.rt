//! The names of faults in answers.
ghost use Rattle.std.specs.Prelude.{◌≡◌};
ghost use Rattle.plan_audit.specs.Check.{text_fault_name, fault_name};

use plan_checker::Fault;
use plan_text::TextFault;

/// The name of a fault of a text in the answer.
pub fn text_fault_name(fault: TextFault) -> &'static str
    ensures { result.now ≡ text_fault_name fault }
{
    match fault {
        TextFault::BadLine => "BadLine",
        TextFault::OutOfRange => "OutOfRange",
        TextFault::NoEnd => "NoEnd",
    }
}

/// The name of a fault of a plan in the answer.
pub fn fault_name(fault: Fault) -> &'static str
    ensures { result.now ≡ fault_name fault }
{
    match fault {
        Fault::UnknownName => "UnknownName",
        Fault::Twice => "Twice",
        Fault::Missing => "Missing",
        Fault::NotAble => "NotAble",
        Fault::WrongWait => "WrongWait",
        Fault::PositivePlacePrice => "PositivePlacePrice",
        Fault::PriceTooHigh => "PriceTooHigh",
        Fault::TotalsDiffer => "TotalsDiffer",
    }
}
