//! The plan of a text, or its first fault.
ghost use Rattle.std.specs.Prelude.{◌≡◌, All, IfOk, map};
ghost use Rattle.plan_prices.specs.Plan.{HasOneListEach};
ghost use Rattle.plan_text.specs.NamedPlan.{HasOneEach};
ghost use Rattle.plan_text.specs.Reading.{Gives};
ghost use Rattle.plan_text.specs.TextOf.{IsTextOf};
ghost use Rattle.plan_text.specs.Steps.{Leaves, draft_record};
ghost use Rattle.plan_text.specs.Whole.{empty_draft, line_next, lines_next, ended, plan_from, plan_in, plan_at};

use crate::draft::Draft;
use crate::fault::{ReadError, TextFault};
use crate::named_plan::PlanText;
use crate::open_class::OpenClass;
use crate::read_line::read_line;
use crate::stage::Stage;
use base_types::{Limits, Priority};
use plan_prices::Plan;
use std::alloc::Global;
use text::{parts, words};

/// Reads the plan of a text. The text is exactly that of this plan, whose numbers, names and orders are those
/// of a text. Each of its classes has a wait, a list of jobs and a list of place prices for each device, so
/// the plan may be checked and written.
///
/// # Errors
///
/// The fault of the first faulty line, or out of memory. A line is checked by itself, first for its form and
/// then for its ranges, and then against the lines before it. A text without the line `end` has the fault
/// [`TextFault::NoEnd`].
#[tactic(auto, using(crate::proofs::Sound::judged_since, crate::proofs::Sound::written_since, crate::proofs::DraftOfLines::drafted_since))]
pub fn read_plan_text(alloc: Global, text: &[u8]) -> Result<PlanText, ReadError>
    ensures plan { Gives (λ plan. plan) result (plan_at text.now) }
    ensures text { IfOk result (λ named. IsTextOf text.now named) }
    ensures judged { IfOk result (λ named. All HasOneListEach named.plan.classes) }
    ensures written { IfOk result (λ named. All (HasOneEach named.devices) named.plan.classes) }
{
    let parts = parts(alloc, text, b'\n')?;
    read_parts(alloc, &parts)
}

/// Reads the plan of the parts of a text between line feeds.
#[tactic(auto, using(crate::proofs::Parts::no_parts, crate::proofs::Parts::some_parts))]
fn read_parts(alloc: Global, parts: &[&[u8]]) -> Result<PlanText, ReadError>
    ensures { Gives (λ plan. plan) result (plan_in (map (λ part. part.now) parts.now)) }
{
    if parts.is_empty() {
        return Err(ReadError::Fault(TextFault::NoEnd));
    }
    let count = parts.len() - 1;
    read_from(alloc, &parts[..count], parts[count])
}

/// Reads the plan of the lines, where `rest` follows the last of them.
#[tactic(auto, unfolding(crate::specs::Whole::plan_from))]
fn read_from(alloc: Global, lines: &[&[u8]], rest: &[u8]) -> Result<PlanText, ReadError>
    ensures { Gives (λ plan. plan) result (plan_from (map (λ line. line.now) lines.now) rest.now) }
{
    let draft = read_lines(alloc, lines)?;
    finished(draft, rest)
}

/// The state after these first lines of a text.
fn read_lines(alloc: Global, lines: &[&[u8]]) -> Result<Draft, ReadError>
    ensures { Gives draft_record result (lines_next (empty_draft Limits.DEFAULT_PRIORITY) (map (λ line. line.now) lines.now)) }
{
    let mut draft = new_draft(alloc);
    for line in lines {
        take_line(alloc, &mut draft, *line)?;
    }
    Ok(draft)
}

/// The state before the first line.
fn new_draft(alloc: Global) -> Draft
    ensures { draft_record result ≡ empty_draft Limits.DEFAULT_PRIORITY }
{
    Draft {
        stage: Stage::Start,
        devices: Vec::new(alloc),
        classes: Vec::new(alloc),
        stranded: Vec::new(alloc),
        jobs: 0,
        below: Limits::HIGHEST_PRIORITY + 1,
        last: 0,
        opened: OpenClass::new(alloc, Priority::normal()),
    }
}

/// Takes the step of a line.
#[tactic(auto, unfolding(crate::specs::Whole::line_next))]
fn take_line(alloc: Global, draft: &mut Draft, line: &[u8]) -> Result<(), ReadError>
    ensures { Leaves result (draft_record draft.new) (line_next (draft_record draft.old) line.now) }
{
    if draft.stage.is(Stage::Ended) {
        return Err(ReadError::Fault(TextFault::BadLine));
    }
    let words = words(alloc, line)?;
    let line = read_line(alloc, &words)?;
    draft.take(alloc, line)
}

/// The plan, if its last line was read and nothing follows it.
#[tactic(auto, unfolding(crate::specs::Whole::ended))]
fn finished(draft: Draft, rest: &[u8]) -> Result<PlanText, ReadError>
    ensures { Gives (λ plan. plan) result (ended (draft_record draft) rest.now) }
{
    if !draft.stage.is(Stage::Ended) {
        return Err(ReadError::Fault(TextFault::NoEnd));
    }
    if !rest.is_empty() {
        return Err(ReadError::Fault(TextFault::BadLine));
    }
    let plan = Plan {
        classes: draft.classes,
        stranded: draft.stranded,
    };
    Ok(PlanText::new(draft.devices, plan))
}
