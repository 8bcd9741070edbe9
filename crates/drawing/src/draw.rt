//! The text of a plan, drawn.
ghost use Rattle.std.specs.Prelude.{All};
ghost use Rattle.plan_prices.specs.Plan.{HasOneListEach};

use crate::chart_of::chart_of;
use crate::form::{Form, draw_charts};
use crate::ways::{follow_one_another, have_ways};
use base_types::Limits;
use plan_audit::{Audit, Objection, fault_line};
use plan_checker::{PlanVerdict, check_plan};
use plan_text::{PlanText, ReadError, read_plan_text};
use program::{ExitStatus, InputFault, read_whole, write_prefix};
use std::alloc::{AllocError, Global};
use std::io::{Read, Write};
use std::slice;

/// A picture, with the exit status and the objections of the program.
#[derive(Drop)]
struct Drawing {
    picture: String,
    audit: Audit,
}

/// Reads the text of a plan to its end, writes its picture, and returns the exit status with the objections.
///
/// The statuses and objections are those of [`plan_audit::run_check`]. Nothing is written in three cases: the
/// text is no plan, the lists of a class are no way of the class, or a class has other waits than the class
/// above leaves. Any other plan is drawn, and its title states whether the plan is proved the best. Where
/// memory or a stream fails, a prefix of the picture is written.
pub fn run_draw<R: Read, W: Write>(
    alloc: Global,
    reader: &mut R,
    writer: &mut W,
    form: Form,
) -> Audit {
    let Some(drawing) = draw_input(alloc, reader, form) else {
        return failed();
    };
    let picture = drawing.picture.as_bytes();
    if write_prefix(writer, picture) == picture.len() {
        drawing.audit
    } else {
        failed()
    }
}

/// The audit where memory or a stream failed.
fn failed() -> Audit {
    Audit {
        status: ExitStatus::Failed,
        objection: None,
    }
}

/// The drawing of an input; `None` where memory or the stream fails.
fn draw_input<R: Read>(alloc: Global, reader: &mut R, form: Form) -> Option<Drawing> {
    match read_whole(alloc, reader, Limits::INPUT_BYTES, Limits::INPUT_READS) {
        Ok(text) => draw_text(alloc, &text, form).ok(),
        Err(InputFault::Size) => Some(refused(alloc, Objection::Size)),
        Err(InputFault::Stream | InputFault::OutOfMemory) => None,
    }
}

/// The drawing of a text. The only error is out of memory.
fn draw_text(alloc: Global, text: &[u8], form: Form) -> Result<Drawing, AllocError> {
    match read_plan_text(alloc, text) {
        Ok(named) => draw_plan(alloc, &named, form),
        Err(ReadError::Fault(fault)) => {
            let line = fault_line(alloc, text, fault)?;
            Ok(refused(alloc, Objection::Text { line, fault }))
        }
        Err(ReadError::OutOfMemory) => Err(AllocError),
    }
}

/// The drawing of a refused input: an empty picture, with the objection.
fn refused(alloc: Global, objection: Objection) -> Drawing {
    Drawing {
        picture: String::new(alloc),
        audit: Audit {
            status: ExitStatus::Refused,
            objection: Some(objection),
        },
    }
}

/// The drawing of a plan. The only error is out of memory.
fn draw_plan(alloc: Global, named: &PlanText, form: Form) -> Result<Drawing, AllocError>
    requires { All HasOneListEach named.now.plan.classes }
{
    let audit = judge(named);
    let is_proved = audit.status == ExitStatus::Done;
    Ok(Drawing {
        picture: picture_of(alloc, named, form, is_proved)?,
        audit,
    })
}

/// The verdict on a plan, as an exit status with the objections.
fn judge(named: &PlanText) -> Audit
    requires { All HasOneListEach named.now.plan.classes }
{
    match check_plan(named.plan()) {
        PlanVerdict::Yes => Audit {
            status: ExitStatus::Done,
            objection: None,
        },
        PlanVerdict::No { place, fault } => {
            let priority = named.plan().classes()[place].priority.level();
            Audit {
                status: ExitStatus::No,
                objection: Some(Objection::Plan { priority, fault }),
            }
        }
    }
}

/// The picture of a plan; an empty picture where its lists are no timetable. The only error is out of memory.
fn picture_of(
    alloc: Global,
    named: &PlanText,
    form: Form,
    is_proved: bool,
) -> Result<String, AllocError> {
    let classes = named.plan().classes();
    if !have_ways(classes) {
        return Ok(String::new(alloc));
    }
    if !follow_one_another(classes) {
        return Ok(String::new(alloc));
    }
    let chart = chart_of(alloc, named, is_proved)?;
    draw_charts(alloc, slice::from_ref(&chart), form)
}
