//! The metrics of a queue.
use crate::exposition::{Exposition, Metric, MetricLabel, MetricType, MetricValue};
use base_types::{PrinterId, Text};
use queue_views::{DeviceState, DeviceView, PrinterView, Prospect, QueueView};
use std::alloc::{AllocError, Global};

const JOBS: Metric = Metric {
    name: "printd_jobs",
    metric_type: MetricType::Gauge,
    help: "Unfinished jobs of a printer, by what is to become of them.",
};

const FINISHED: Metric = Metric {
    name: "printd_jobs_finished_total",
    metric_type: MetricType::Counter,
    help: "Jobs of a printer that were completed, canceled or aborted, since the recording began.",
};

const WAITED: Metric = Metric {
    name: "printd_job_wait_seconds",
    metric_type: MetricType::Summary,
    help: "Time for which the ended jobs of a printer waited for their devices, since the recording began.",
};

const PAUSED: Metric = Metric {
    name: "printd_printer_paused",
    metric_type: MetricType::Gauge,
    help: "Whether a printer is paused.",
};

const DEVICE: Metric = Metric {
    name: "printd_device_state",
    metric_type: MetricType::Gauge,
    help: "Whether a device is in a state.",
};

const LAST_TURN: Metric = Metric {
    name: "printd_last_turn_timestamp_seconds",
    metric_type: MetricType::Gauge,
    help: "Time of the last turn of the server that was read.",
};

/// The states of unfinished jobs.
const JOB_STATES: [&str; 7] = [
    "printing",
    "planned",
    "stranded",
    "held",
    "incoming",
    "paused",
    "unplanned",
];

/// The states of devices.
const DEVICE_STATES: [&str; 5] = ["away", "stopped", "ready", "printing", "late"];

/// The state of an unfinished job.
fn job_state(prospect: &Prospect) -> &'static str {
    match prospect {
        Prospect::Taken { .. } => "printing",
        Prospect::Planned { .. } => "planned",
        Prospect::Stranded { .. } => "stranded",
        Prospect::Held => "held",
        Prospect::Incoming => "incoming",
        Prospect::Paused => "paused",
        Prospect::Unplanned => "unplanned",
    }
}

/// The value of the label `state` for a device.
fn device_state(device: &DeviceView) -> &'static str {
    match device.state {
        DeviceState::Away => "away",
        DeviceState::Stopped => "stopped",
        DeviceState::Ready => "ready",
        DeviceState::Printing => "printing",
        DeviceState::Late { .. } => "late",
    }
}

/// A name of the settings, which is ASCII.
fn name_of(name: &Text) -> &str {
    str::from_utf8(name.as_bytes()).unwrap_or("?")
}

/// The label `printer` with a printer's name.
fn printer_label(printer: &PrinterView) -> MetricLabel<'_> {
    MetricLabel {
        name: "printer",
        value: name_of(&printer.name),
    }
}

/// The label `state` with this value.
fn state_label(state: &'static str) -> MetricLabel<'static> {
    MetricLabel {
        name: "state",
        value: state,
    }
}

/// The number of unfinished jobs of a printer in a state.
fn jobs_in(view: &QueueView, printer: PrinterId, state: &str) -> u64 {
    let mut count = 0_u64;
    for job in &view.jobs {
        if job.printer == printer && job_state(&job.prospect) == state {
            count = count.saturating_add(1);
        }
    }
    count
}

/// Writes the samples of the unfinished jobs of a printer.
fn put_jobs_of(
    text: &mut Exposition,
    view: &QueueView,
    id: PrinterId,
    printer: &PrinterView,
) -> Result<(), AllocError> {
    for state in JOB_STATES {
        let labels = [printer_label(printer), state_label(state)];
        text.sample(
            JOBS.name,
            &labels,
            MetricValue::Count(jobs_in(view, id, state)),
        )?;
    }
    Ok(())
}

/// Writes the unfinished jobs.
fn put_jobs(text: &mut Exposition, view: &QueueView) -> Result<(), AllocError> {
    text.begin(JOBS)?;
    for (place, printer) in view.printers.iter().enumerate() {
        put_jobs_of(text, view, PrinterId::new(place), printer)?;
    }
    Ok(())
}

/// Writes the samples of the finished jobs of a printer.
fn put_finished_of(text: &mut Exposition, printer: &PrinterView) -> Result<(), AllocError> {
    let totals = printer.totals;
    let counts = [
        ("completed", totals.completed),
        ("canceled", totals.canceled),
        ("aborted", totals.aborted),
    ];
    for (state, count) in counts {
        let labels = [printer_label(printer), state_label(state)];
        text.sample(FINISHED.name, &labels, MetricValue::Count(count))?;
    }
    Ok(())
}

/// Writes the finished jobs.
fn put_finished(text: &mut Exposition, view: &QueueView) -> Result<(), AllocError> {
    text.begin(FINISHED)?;
    for printer in &view.printers {
        put_finished_of(text, printer)?;
    }
    Ok(())
}

/// Writes the times for which jobs waited.
fn put_waited(text: &mut Exposition, view: &QueueView) -> Result<(), AllocError> {
    text.begin(WAITED)?;
    for printer in &view.printers {
        let labels = [printer_label(printer)];
        let totals = printer.totals;
        text.sample(
            "printd_job_wait_seconds_sum",
            &labels,
            MetricValue::Millis(totals.waited),
        )?;
        text.sample(
            "printd_job_wait_seconds_count",
            &labels,
            MetricValue::Count(totals.begun),
        )?;
    }
    Ok(())
}

/// Writes which printers are paused.
fn put_paused(text: &mut Exposition, view: &QueueView) -> Result<(), AllocError> {
    text.begin(PAUSED)?;
    for printer in &view.printers {
        let paused = MetricValue::Count(u64::from(printer.paused));
        text.sample(PAUSED.name, &[printer_label(printer)], paused)?;
    }
    Ok(())
}

/// Writes the samples of a device.
fn put_device(text: &mut Exposition, device: &DeviceView) -> Result<(), AllocError> {
    let label = MetricLabel {
        name: "device",
        value: name_of(&device.name),
    };
    for state in DEVICE_STATES {
        let is_in = MetricValue::Count(u64::from(device_state(device) == state));
        text.sample(DEVICE.name, &[label, state_label(state)], is_in)?;
    }
    Ok(())
}

/// Writes the states of the devices.
fn put_devices(text: &mut Exposition, view: &QueueView) -> Result<(), AllocError> {
    text.begin(DEVICE)?;
    for device in &view.devices {
        put_device(text, device)?;
    }
    Ok(())
}

/// Writes the time of the last turn, if the recording has times.
fn put_last_turn(text: &mut Exposition, view: &QueueView) -> Result<(), AllocError> {
    let Some(time) = view.clock.time_at(view.moment.millis()) else {
        return Ok(());
    };
    text.begin(LAST_TURN)?;
    text.sample(LAST_TURN.name, &[], MetricValue::Millis(time))
}

/// The metrics of a queue. The only error is out of memory.
pub fn metrics_of(alloc: Global, view: &QueueView) -> Result<String, AllocError> {
    let mut text = Exposition::new(alloc);
    put_jobs(&mut text, view)?;
    put_finished(&mut text, view)?;
    put_waited(&mut text, view)?;
    put_paused(&mut text, view)?;
    put_devices(&mut text, view)?;
    put_last_turn(&mut text, view)?;
    Ok(text.into_text())
}
