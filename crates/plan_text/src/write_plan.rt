//! The writer of a plan's text.
ghost use Rattle.std.specs.Prelude.{◌≡◌, ◌++◌, IfOk, OnOk, OnErr, length};
ghost use Rattle.plan_text.specs.Line.{DeviceLine, ClassLine, JobLine, WaitLine, WayLine, TotalLine, JobPricesLine, PlacePricesLine, StrandedLine};
ghost use Rattle.plan_text.specs.Writing.{line_text, lines_text, job_lines, way_lines, place_price_lines, device_lines, stranded_lines, class_job_lines, class_way_lines, class_price_lines, class_lines, classes_lines, plan_text};

use crate::named_plan::PlanText;
use crate::write_word::{cause_word, put_entries, put_ids, put_number, put_numbers, put_prices};
use base_types::{JobId, Text};
use plan_prices::{PlacePrices, Plan, PlannedClass, Queue, Stranded};
use plan_problem::Row;
use std::alloc::{AllocError, Global};

/// Appends the text of a plan with the names of its devices. The only error is out of memory, and nothing is
/// appended then.
pub fn write_plan_text(
    alloc: Global,
    plan: &PlanText,
    output: &mut Vec<u8>,
) -> Result<(), AllocError>
    ensures ok { OnOk result (output.new.items ≡ output.old.items ++ plan_text plan.now) }
    ensures err { OnErr result (output.new.items ≡ output.old.items) }
{
    write_named_plan(alloc, plan.devices(), plan.plan(), output)
}

/// Appends the text of a plan whose devices have these names. If a class has fewer or more lists than there
/// are names, the rest of either is left out; a plan of the core has one list for each device. The only error
/// is out of memory, and nothing is appended then.
pub fn write_named_plan(
    alloc: Global,
    devices: &[Text],
    plan: &Plan,
    output: &mut Vec<u8>,
) -> Result<(), AllocError>
    ensures ok { OnOk result (output.new.items ≡ output.old.items ++ plan_text (record { devices = devices.now; plan = plan.now })) }
    ensures err { OnErr result (output.new.items ≡ output.old.items) }
{
    let text = text_of(alloc, devices, plan.classes(), plan.stranded())?;
    output.extend_from_slice(&text)
}

/// The text of a plan.
#[tactic(auto, using(crate::proofs::Lines::plan_text_is))]
fn text_of(
    alloc: Global,
    devices: &[Text],
    classes: &[PlannedClass],
    stranded: &[Stranded],
) -> Result<Vec<u8>, AllocError>
    ensures { IfOk result (λ text. text.items ≡ plan_text (record { devices = devices.now; plan = record { classes = classes.now; stranded = stranded.now } })) }
{
    let mut text = Vec::from_slice(alloc, b"plan\n")?;
    put_devices(&mut text, devices)?;
    put_classes(alloc, &mut text, devices, classes)?;
    put_stranded(alloc, &mut text, stranded)?;
    text.extend_from_slice(b"end\n")?;
    Ok(text)
}

#[tactic(auto, unfolding(crate::specs::Writing::line_text))]
fn put_device(output: &mut Vec<u8>, name: &Text) -> Result<(), AllocError>
    ensures { OnOk result (output.new.items ≡ output.old.items ++ line_text (DeviceLine name.now)) }
{
    output.extend_from_slice(b"device ")?;
    output.extend_from_slice(name.as_bytes())?;
    output.extend_from_slice(b"\n")
}

fn put_devices(output: &mut Vec<u8>, names: &[Text]) -> Result<(), AllocError>
    ensures { OnOk result (output.new.items ≡ output.old.items ++ lines_text (device_lines names.now)) }
{
    for name in names {
        put_device(output, name)?;
    }
    Ok(())
}

#[tactic(auto, unfolding(crate::specs::Writing::line_text))]
fn put_job(alloc: Global, output: &mut Vec<u8>, id: JobId, row: &Row) -> Result<(), AllocError>
    ensures { OnOk result (output.new.items ≡ output.old.items ++ line_text (JobLine id row.now)) }
{
    output.extend_from_slice(b"job ")?;
    put_number(alloc, output, u64::from(id.number()))?;
    put_entries(alloc, output, row.times())?;
    output.extend_from_slice(b"\n")
}

fn put_jobs(
    alloc: Global,
    output: &mut Vec<u8>,
    ids: &[JobId],
    rows: &[Row],
) -> Result<(), AllocError>
    requires { length rows.now ≡ length ids.now }
    ensures { OnOk result (output.new.items ≡ output.old.items ++ lines_text (job_lines ids.now rows.now)) }
{
    for (place, id) in ids.iter().enumerate() {
        put_job(alloc, output, *id, &rows[place])?;
    }
    Ok(())
}

#[tactic(auto, unfolding(crate::specs::Writing::line_text))]
fn put_wait(alloc: Global, output: &mut Vec<u8>, waits: &[u64]) -> Result<(), AllocError>
    ensures { OnOk result (output.new.items ≡ output.old.items ++ line_text (WaitLine waits.now)) }
{
    output.extend_from_slice(b"wait")?;
    put_numbers(alloc, output, waits)?;
    output.extend_from_slice(b"\n")
}

#[tactic(auto, unfolding(crate::specs::Writing::line_text))]
fn put_way(
    alloc: Global,
    output: &mut Vec<u8>,
    device: &Text,
    queue: &Queue,
) -> Result<(), AllocError>
    ensures { OnOk result (output.new.items ≡ output.old.items ++ line_text (WayLine device.now queue.now)) }
{
    output.extend_from_slice(b"way ")?;
    output.extend_from_slice(device.as_bytes())?;
    put_ids(alloc, output, queue.jobs())?;
    output.extend_from_slice(b"\n")
}

fn put_ways(
    alloc: Global,
    output: &mut Vec<u8>,
    devices: &[Text],
    queues: &[Queue],
) -> Result<(), AllocError>
    ensures { OnOk result (output.new.items ≡ output.old.items ++ lines_text (way_lines devices.now queues.now)) }
{
    let mut rest = queues;
    for device in devices {
        let [queue, more @ ..] = rest else {
            return Ok(());
        };
        put_way(alloc, output, device, queue)?;
        rest = more;
    }
    Ok(())
}

#[tactic(auto, unfolding(crate::specs::Writing::line_text))]
fn put_total(alloc: Global, output: &mut Vec<u8>, total: u64) -> Result<(), AllocError>
    ensures { OnOk result (output.new.items ≡ output.old.items ++ line_text (TotalLine total)) }
{
    output.extend_from_slice(b"total ")?;
    put_number(alloc, output, total)?;
    output.extend_from_slice(b"\n")
}

#[tactic(auto, unfolding(crate::specs::Writing::line_text))]
fn put_job_prices(alloc: Global, output: &mut Vec<u8>, prices: &[i64]) -> Result<(), AllocError>
    ensures { OnOk result (output.new.items ≡ output.old.items ++ line_text (JobPricesLine prices.now)) }
{
    output.extend_from_slice(b"jobprices")?;
    put_prices(alloc, output, prices)?;
    output.extend_from_slice(b"\n")
}

#[tactic(auto, unfolding(crate::specs::Writing::line_text))]
fn put_place_prices(
    alloc: Global,
    output: &mut Vec<u8>,
    device: &Text,
    places: &PlacePrices,
) -> Result<(), AllocError>
    ensures { OnOk result (output.new.items ≡ output.old.items ++ line_text (PlacePricesLine device.now places.now)) }
{
    output.extend_from_slice(b"placeprices ")?;
    output.extend_from_slice(device.as_bytes())?;
    put_prices(alloc, output, places.prices())?;
    output.extend_from_slice(b"\n")?;
    Ok(())
}

fn put_places(
    alloc: Global,
    output: &mut Vec<u8>,
    devices: &[Text],
    lists: &[PlacePrices],
) -> Result<(), AllocError>
    ensures { OnOk result (output.new.items ≡ output.old.items ++ lines_text (place_price_lines devices.now lists.now)) }
{
    let mut rest = lists;
    for device in devices {
        let [prices, more @ ..] = rest else {
            return Ok(());
        };
        put_place_prices(alloc, output, device, prices)?;
        rest = more;
    }
    Ok(())
}

#[tactic(auto, unfolding(crate::specs::Writing::line_text))]
fn put_priority(alloc: Global, output: &mut Vec<u8>, class: &PlannedClass) -> Result<(), AllocError>
    ensures { OnOk result (output.new.items ≡ output.old.items ++ line_text (ClassLine class.now.priority)) }
{
    output.extend_from_slice(b"class ")?;
    put_number(alloc, output, u64::from(class.priority.level()))?;
    output.extend_from_slice(b"\n")
}

/// Appends the lines of a class's priority and jobs.
fn put_class_jobs(
    alloc: Global,
    output: &mut Vec<u8>,
    class: &PlannedClass,
) -> Result<(), AllocError>
    ensures { OnOk result (output.new.items ≡ output.old.items ++ lines_text (class_job_lines class.now)) }
{
    put_priority(alloc, output, class)?;
    put_jobs(alloc, output, class.problem.ids(), class.problem.rows())
}

/// Appends the lines of a class's waits and ways.
fn put_class_ways(
    alloc: Global,
    output: &mut Vec<u8>,
    devices: &[Text],
    class: &PlannedClass,
) -> Result<(), AllocError>
    ensures { OnOk result (output.new.items ≡ output.old.items ++ lines_text (class_way_lines devices.now class.now)) }
{
    put_wait(alloc, output, class.problem.waits())?;
    put_ways(alloc, output, devices, class.priced.way.queues())
}

/// Appends the lines of a class's total and prices.
fn put_class_prices(
    alloc: Global,
    output: &mut Vec<u8>,
    devices: &[Text],
    class: &PlannedClass,
) -> Result<(), AllocError>
    ensures { OnOk result (output.new.items ≡ output.old.items ++ lines_text (class_price_lines devices.now class.now)) }
{
    let prices = &class.priced.prices;
    put_total(alloc, output, class.priced.total)?;
    put_job_prices(alloc, output, prices.jobs())?;
    put_places(alloc, output, devices, prices.places())
}

#[tactic(auto, using(crate::proofs::Lines::class_text_is))]
fn put_class(
    alloc: Global,
    output: &mut Vec<u8>,
    devices: &[Text],
    class: &PlannedClass,
) -> Result<(), AllocError>
    ensures { OnOk result (output.new.items ≡ output.old.items ++ lines_text (class_lines devices.now class.now)) }
{
    put_class_jobs(alloc, output, class)?;
    put_class_ways(alloc, output, devices, class)?;
    put_class_prices(alloc, output, devices, class)?;
    Ok(())
}

#[tactic(auto, using(crate::proofs::Lines::classes_text_is))]
fn put_classes(
    alloc: Global,
    output: &mut Vec<u8>,
    devices: &[Text],
    classes: &[PlannedClass],
) -> Result<(), AllocError>
    ensures { OnOk result (output.new.items ≡ output.old.items ++ lines_text (classes_lines devices.now classes.now)) }
{
    for class in classes {
        put_class(alloc, output, devices, class)?;
    }
    Ok(())
}

#[tactic(auto, unfolding(crate::specs::Writing::line_text))]
fn put_stranded_job(
    alloc: Global,
    output: &mut Vec<u8>,
    stranded: Stranded,
) -> Result<(), AllocError>
    ensures { OnOk result (output.new.items ≡ output.old.items ++ line_text (StrandedLine stranded)) }
{
    output.extend_from_slice(b"stranded ")?;
    put_number(alloc, output, u64::from(stranded.job.number()))?;
    output.extend_from_slice(b" ")?;
    output.extend_from_slice(cause_word(stranded.cause).as_bytes())?;
    output.extend_from_slice(b"\n")
}

fn put_stranded(
    alloc: Global,
    output: &mut Vec<u8>,
    stranded: &[Stranded],
) -> Result<(), AllocError>
    ensures { OnOk result (output.new.items ≡ output.old.items ++ lines_text (stranded_lines stranded.now)) }
{
    for job in stranded {
        put_stranded_job(alloc, output, *job)?;
    }
    Ok(())
}
