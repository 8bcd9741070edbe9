//! A queue as metrics.
use base_types::{DeviceId, Finishings, JobId, Moment, PrinterId, Sides, Text};
use queue_reports::metrics_of;
use queue_views::{
    Clock, DeviceState, DeviceView, JobView, NeedsView, PrinterTotals, PrinterView, Prospect,
    QueueView,
};
use std::alloc::{AllocError, Global};
use std::test::Fail;

/// The metrics of the queue of the test.
const METRICS: &str = "\
# HELP printd_jobs Unfinished jobs of a printer, by what is to become of them.
# TYPE printd_jobs gauge
printd_jobs{printer=\"lab\",state=\"printing\"} 0
printd_jobs{printer=\"lab\",state=\"planned\"} 0
printd_jobs{printer=\"lab\",state=\"stranded\"} 0
printd_jobs{printer=\"lab\",state=\"held\"} 2
printd_jobs{printer=\"lab\",state=\"incoming\"} 0
printd_jobs{printer=\"lab\",state=\"paused\"} 0
printd_jobs{printer=\"lab\",state=\"unplanned\"} 0
printd_jobs{printer=\"a\\\"b\\\\c\",state=\"printing\"} 1
printd_jobs{printer=\"a\\\"b\\\\c\",state=\"planned\"} 0
printd_jobs{printer=\"a\\\"b\\\\c\",state=\"stranded\"} 0
printd_jobs{printer=\"a\\\"b\\\\c\",state=\"held\"} 0
printd_jobs{printer=\"a\\\"b\\\\c\",state=\"incoming\"} 0
printd_jobs{printer=\"a\\\"b\\\\c\",state=\"paused\"} 0
printd_jobs{printer=\"a\\\"b\\\\c\",state=\"unplanned\"} 0
# HELP printd_jobs_finished_total Jobs of a printer that were completed, canceled or aborted, since the recording began.
# TYPE printd_jobs_finished_total counter
printd_jobs_finished_total{printer=\"lab\",state=\"completed\"} 7
printd_jobs_finished_total{printer=\"lab\",state=\"canceled\"} 2
printd_jobs_finished_total{printer=\"lab\",state=\"aborted\"} 1
printd_jobs_finished_total{printer=\"a\\\"b\\\\c\",state=\"completed\"} 0
printd_jobs_finished_total{printer=\"a\\\"b\\\\c\",state=\"canceled\"} 0
printd_jobs_finished_total{printer=\"a\\\"b\\\\c\",state=\"aborted\"} 0
# HELP printd_job_wait_seconds Time for which the ended jobs of a printer waited for their devices, since the recording began.
# TYPE printd_job_wait_seconds summary
printd_job_wait_seconds_sum{printer=\"lab\"} 61.007
printd_job_wait_seconds_count{printer=\"lab\"} 8
printd_job_wait_seconds_sum{printer=\"a\\\"b\\\\c\"} 0.000
printd_job_wait_seconds_count{printer=\"a\\\"b\\\\c\"} 0
# HELP printd_printer_paused Whether a printer is paused.
# TYPE printd_printer_paused gauge
printd_printer_paused{printer=\"lab\"} 0
printd_printer_paused{printer=\"a\\\"b\\\\c\"} 1
# HELP printd_device_state Whether a device is in a state.
# TYPE printd_device_state gauge
printd_device_state{device=\"window\",state=\"away\"} 0
printd_device_state{device=\"window\",state=\"stopped\"} 0
printd_device_state{device=\"window\",state=\"ready\"} 0
printd_device_state{device=\"window\",state=\"printing\"} 0
printd_device_state{device=\"window\",state=\"late\"} 1
# HELP printd_last_turn_timestamp_seconds Time of the last turn of the server that was read.
# TYPE printd_last_turn_timestamp_seconds gauge
printd_last_turn_timestamp_seconds 1795943149.387
";

/// A printer.
fn printer(
    alloc: Global,
    name: &[u8],
    paused: bool,
    totals: PrinterTotals,
) -> Result<PrinterView, AllocError> {
    Ok(PrinterView {
        name: Text::copy_of(alloc, name)?,
        paused,
        devices: Vec::new(alloc),
        totals,
    })
}

/// A job of a printer.
fn job(alloc: Global, printer: usize, prospect: Prospect) -> Result<Option<JobView>, AllocError> {
    let Some(id) = JobId::new(1) else {
        return Ok(None);
    };
    Ok(Some(JobView {
        id,
        printer: PrinterId::new(printer),
        owner: Text::copy_of(alloc, b"ann")?,
        name: Text::copy_of(alloc, b"")?,
        impressions: 1,
        came: Moment::start(),
        needs: NeedsView {
            media: Text::copy_of(alloc, b"iso_a4_210x297mm")?,
            formats: Vec::new(alloc),
            sides: Sides::One,
            finishings: Finishings::none(),
        },
        prospect,
    }))
}

/// The jobs: two of the first printer are held, and a device has one of the second.
fn jobs(alloc: Global) -> Result<Vec<JobView>, AllocError> {
    let taken = Prospect::Taken {
        device: DeviceId::new(0),
        end: None,
    };
    let mut jobs = Vec::new(alloc);
    for made in [
        job(alloc, 0, Prospect::Held)?,
        job(alloc, 1, taken)?,
        job(alloc, 0, Prospect::Held)?,
    ] {
        if let Some(job) = made {
            jobs.push(job)?;
        }
    }
    Ok(jobs)
}

/// The printers.
fn printers(alloc: Global) -> Result<Vec<PrinterView>, AllocError> {
    let totals = PrinterTotals {
        completed: 7,
        canceled: 2,
        aborted: 1,
        begun: 8,
        waited: 61_007,
    };
    let mut printers = Vec::new(alloc);
    printers.push(printer(alloc, b"lab", false, totals)?)?;
    printers.push(printer(alloc, b"a\"b\\c", true, PrinterTotals::none())?)?;
    Ok(printers)
}

/// The devices: one, which is late.
fn devices(alloc: Global) -> Result<Vec<DeviceView>, AllocError> {
    let mut devices = Vec::new(alloc);
    devices.push(DeviceView {
        name: Text::copy_of(alloc, b"window")?,
        state: DeviceState::Late { seconds: 70 },
        since: None,
        taken: None,
        media: Vec::new(alloc),
        busy_until: None,
    })?;
    Ok(devices)
}

/// The queue at 2002 ms, by a clock whose moment 0 was at 2026-11-29T09:05:47.385Z.
fn queue(alloc: Global) -> Result<QueueView, AllocError> {
    let mut clock = Clock::new(alloc);
    clock.set(Moment::start(), 1_795_943_147_385)?;
    Ok(QueueView {
        moment: Moment::new(2_002).unwrap_or(Moment::start()),
        clock,
        printers: printers(alloc)?,
        devices: devices(alloc)?,
        jobs: jobs(alloc)?,
        finished: Vec::new(alloc),
        printed: Vec::new(alloc),
    })
}

#[test]
fn metrics_of_a_queue(rt: HostRuntime) -> Result<(), Fail> {
    let alloc = rt.alloc();
    let text = metrics_of(alloc, &queue(alloc)?)?;
    assert_eq!(rt; text.as_str(), METRICS);
    Ok(())
}

#[test]
fn no_time_without_a_clock(rt: HostRuntime) -> Result<(), Fail> {
    let alloc = rt.alloc();
    let mut view = queue(alloc)?;
    view.clock = Clock::new(alloc);
    let text = metrics_of(alloc, &view)?;
    assert!(rt; !text.contains("timestamp"));
    Ok(())
}
