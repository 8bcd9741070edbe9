//! The verdict on the text of a plan.
ghost use Rattle.std.specs.Prelude.{ℕ, ◌≡◌, ◌++◌, ◌<◌, Err, None, All, IfOk, IfSome, [], codes, if◌then◌else◌, length};
ghost use Rattle.std.specs.Fmt.{decimal};
ghost use Rattle.plan_prices.specs.Plan.{HasOneListEach};
ghost use Rattle.plan_prices.specs.Prices.{IsProved};
ghost use Rattle.plan_checker.specs.Plan.{IsPlanVerdict};
ghost use Rattle.plan_text.specs.Whole.{plan_at};
ghost use Rattle.plan_audit.specs.Check.{fault_name, text_fault_name, plan_starts, priority_at, refused_for, judged_of, IsJudged, IsAnswer, Checks};
ghost use Rattle.plan_audit.specs.Place.{IsFaultLine};

use crate::names::{fault_name, text_fault_name};
use crate::objection::Objection;
use crate::place::fault_line;
use crate::starts::put_starts;
use base_types::{Limits, Text};
use plan_checker::{Fault, PlanVerdict, check_plan};
use plan_prices::PlannedClass;
use plan_text::{PlanText, ReadError, TextFault, read_plan_text};
use program::{ExitStatus, InputFault, read_whole, refused_line, write_prefix};
use std::alloc::{AllocError, Global};
use std::io::{Read, Write};
use std::marker::Model;

/// The end of an audit.
#[derive(Clone, Copy, PartialEq, Eq)]
pub struct Audit {
    pub status: ExitStatus,
    /// The objection: present exactly where the status is that of a refusal or of a no.
    pub objection: Option<Objection>,
}

/// The text to be written, the exit status, and the objection.
#[derive(Drop)]
struct Answer {
    text: Vec<u8>,
    status: ExitStatus,
    objection: Option<Objection>,
}

impl Model for Answer {
    ghost use Rattle.plan_audit.specs.Check.{Judged};

    ghost Value = { Judged };

    ghost view = { λ a. record { text = a.text.items; status = a.status; objection = a.objection } };
}

/// Reads the text of a plan to its end, writes the verdict on it, and returns the exit status with the
/// objection.
///
/// The answer is one of three. `yes` means that the plan is proved best. If `starts` is set, a line for each
/// job follows, `start ID NAME S E`, with its start and end in ms from now. `no NAME class P` has the first
/// fault and the priority of its class. `refused NAME` means that the text is no plan, or has too many bytes.
/// The status states which answer it was, or that memory or a stream failed: then a prefix of the answer is
/// written.
pub fn run_check<R: Read, W: Write>(
    alloc: Global,
    reader: &mut R,
    writer: &mut W,
    starts: bool,
) -> Audit
    ensures { Checks starts (R.remaining reader.old) (R.remaining reader.new) (W.contents writer.old) (W.contents writer.new) result }
{
    let Some(answer) = answer_input(alloc, reader, starts) else {
        return failed();
    };
    if write_prefix(writer, &answer.text) == answer.text.len() {
        Audit {
            status: answer.status,
            objection: answer.objection,
        }
    } else {
        failed()
    }
}

/// The audit where memory or a stream failed.
fn failed() -> Audit
    ensures { result ≡ record { status = ExitStatus.Failed; objection = None } }
{
    Audit {
        status: ExitStatus::Failed,
        objection: None,
    }
}

/// The answer to an input; `None` where memory or the stream fails.
fn answer_input<R: Read>(alloc: Global, reader: &mut R, starts: bool) -> Option<Answer>
    ensures { IfSome result (λ answer. IsAnswer starts (R.remaining reader.old) (R.remaining reader.new) answer) }
{
    match read_whole(alloc, reader, Limits::INPUT_BYTES, Limits::INPUT_READS) {
        Ok(text) => answer_text(alloc, &text, starts).ok(),
        Err(InputFault::Size) => refused(alloc, "size", Objection::Size).ok(),
        Err(InputFault::Stream | InputFault::OutOfMemory) => None,
    }
}

/// The answer to a text. The only error is out of memory.
fn answer_text(alloc: Global, text: &[u8], starts: bool) -> Result<Answer, AllocError>
    ensures { IfOk result (λ answer. IsJudged starts text.now answer) }
{
    match read_plan_text(alloc, text) {
        Ok(named) => judge(alloc, &named, starts),
        Err(ReadError::Fault(fault)) => refused_at(alloc, text, fault),
        Err(ReadError::OutOfMemory) => Err(AllocError),
    }
}

/// The answer to a text with this fault. The only error is out of memory.
fn refused_at(alloc: Global, text: &[u8], fault: TextFault) -> Result<Answer, AllocError>
    requires { plan_at text.now ≡ Err fault }
    ensures { IfOk result (λ answer. (line : ℕ) × IsFaultLine text.now fault line × (answer ≡ refused_for (text_fault_name fault) (Objection.Text line fault))) }
{
    let line = fault_line(alloc, text, fault)?;
    refused(
        alloc,
        text_fault_name(fault),
        Objection::Text { line, fault },
    )
}

/// The answer to a refused input. The only error is out of memory.
fn refused(alloc: Global, name: &str, objection: Objection) -> Result<Answer, AllocError>
    ensures { IfOk result (λ answer. answer ≡ refused_for name.now objection) }
{
    Ok(Answer {
        text: refused_line(alloc, name.as_bytes())?,
        status: ExitStatus::Refused,
        objection: Some(objection),
    })
}

/// The answer to a plan. The only error is out of memory.
fn judge(alloc: Global, named: &PlanText, starts: bool) -> Result<Answer, AllocError>
    requires { All HasOneListEach named.now.plan.classes }
    ensures { IfOk result (λ answer. (verdict : PlanVerdict) × IsPlanVerdict named.now.plan verdict × (answer ≡ judged_of starts named.now verdict)) }
{
    match check_plan(named.plan()) {
        PlanVerdict::Yes => Ok(Answer {
            text: yes_text(alloc, named.devices(), named.plan().classes(), starts)?,
            status: ExitStatus::Done,
            objection: None,
        }),
        PlanVerdict::No { place, fault } => {
            let priority = priority_at(named.plan().classes(), place);
            Ok(Answer {
                text: no_text(alloc, fault, priority)?,
                status: ExitStatus::No,
                objection: Some(Objection::Plan { priority, fault }),
            })
        }
    }
}

fn no_text(alloc: Global, fault: Fault, priority: u8) -> Result<Vec<u8>, AllocError>
    ensures { IfOk result (λ text. text.items ≡ codes "no " ++ (fault_name fault ++ (codes " class " ++ (decimal priority ++ codes "\n")))) }
{
    let name = fault_name(fault);
    let line = format!(in alloc; "no {name} class {priority}\n")?;
    Vec::from_slice(alloc, line.as_bytes())
}

/// The priority of the class at a place.
fn priority_at(classes: &[PlannedClass], place: usize) -> u8
    requires { place < length classes.now }
    ensures { result ≡ priority_at classes.now place }
{
    classes[place].priority.level()
}

fn yes_text(
    alloc: Global,
    devices: &[Text],
    classes: &[PlannedClass],
    starts: bool,
) -> Result<Vec<u8>, AllocError>
    requires { All (λ class. IsProved class.problem class.priced.way class.priced.prices class.priced.total) classes.now }
    ensures { IfOk result (λ text. text.items ≡ codes "yes\n" ++ (if starts then plan_starts devices.now classes.now else [])) }
{
    let mut text = Vec::from_slice(alloc, b"yes\n")?;
    if starts {
        put_starts(alloc, &mut text, devices, classes)?;
    }
    Ok(text)
}
