//! The jobs that an operand names.
ghost use Rattle.std.specs.Prelude.{◌≡◌, ◌==◌, ◌||◌};
ghost use Rattle.std.specs.List.{list_any};
ghost use Rattle.listings.specs.Operand.{is_shown, names};

use base_types::Text;
use job_objects::Job;
use text::decimal;

/// Returns whether an operand names a job: by the job's id if the operand is digits alone, else by its owner.
fn names(operand: &Text, job: &Job) -> bool
    ensures { result ≡ names operand.now job.now }
{
    match decimal(operand.as_bytes()) {
        Some(number) => number == job.id.number(),
        None => operand.as_bytes() == job.owner.as_bytes(),
    }
}

/// Returns whether one of the operands names a job.
fn is_one_of(operands: &[Text], job: &Job) -> bool
    ensures { result ≡ list_any (λ operand. names operand job.now) operands.now }
{
    operands.iter().any(|operand| names(operand, job))
}

/// Returns whether a job is listed: one of the operands names it, or there are none.
pub(crate) fn is_shown(operands: &[Text], job: &Job) -> bool
    ensures { result ≡ is_shown operands.now job.now }
{
    operands.is_empty() || is_one_of(operands, job)
}
