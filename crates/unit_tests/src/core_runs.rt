//! Lists of events, and the notes of their plans.
use base_types::{DeviceId, Moment, Report};
use dispatcher::{
    AllocationSite, Core, DeviceRefusal, Dispatch, Dispatched, Handled, Observer, Timed,
};
use events::{Cancel, Event};
use ipp_operations::{ParsedRequest, ipp_event};
use plan_solver::AugmentingPaths;
use settings_file::read_settings;
use std::alloc::Global;
use std::test::Fail;
use wires::WireId;

const ONE_DEVICE: &str = "version = 1\n\
uri_base = \"ipp://localhost:631\"\n\
[[device]]\n\
name = \"A\"\n\
rate_one = 10\n\
media = [\"iso_a4_210x297mm\"]\n\
formats = [\"text/plain\"]\n\
[[printer]]\n\
name = \"lab\"\n\
devices = [\"A\"]\n\
media_default = \"iso_a4_210x297mm\"\n\
format_default = \"text/plain\"\n";

/// A Print-Job of five octets.
const PRINT_JOB: &[u8] =
    b"\x01\x01\x00\x02\x00\x00\x00\x01\x01\x47\x00\x12attributes-charset\x00\x05utf-8\x48\x00\x1Battributes-natural-language\x00\x02en\x45\x00\x0Bprinter-uri\x00\x20ipp://localhost:631/printers/lab\x03hello";

/// The number of plans and of starts of which the observer was notified.
#[derive(Drop)]
struct Counts {
    plans: u64,
    starts: u64,
}

impl Observer for Counts {
    ghost notified = { λ old note new. Unit {0} };

    fn dispatched(&mut self, made: &Dispatched<'_>) {
        if made.plan().is_some() {
            self.plans = self.plans.wrapping_add(1);
        }
        self.starts = self.starts.wrapping_add(made.started().len() as u64);
    }

    fn canceled(&mut self, _cancel: Cancel) {}

    fn device_refused(&mut self, _id: WireId, _why: DeviceRefusal) {}

    fn refused(&mut self, _place: AllocationSite, _id: Option<WireId>) {}
}

/// The events of a day: the device runs, a job comes, and a tick.
fn day(alloc: Global) -> Result<Vec<Timed>, Fail> {
    let ParsedRequest::Event(_, print) = ipp_event(alloc, PRINT_JOB)? else {
        return Err(Fail::from("no event"));
    };
    let ready = Event::Report(DeviceId::new(0), Report::Ready);
    let events = [ready, print, Event::Tick].map(|event| Timed {
        event,
        moment: Moment::start(),
    });
    Ok(Vec::from_array(alloc, events)?)
}

/// Returns whether a dispatch followed an event.
fn is_dispatched(handled: &Option<Handled>) -> bool {
    match handled {
        Some(handled) => matches!(handled.dispatch, Dispatch::Idle | Dispatch::Planned),
        None => false,
    }
}

/// The number of these events that a core dispatches, and the numbers of plans and starts.
fn counts_of(
    alloc: Global,
    core: &mut Core<AugmentingPaths>,
    events: Vec<Timed>,
) -> Result<(usize, u64, u64), Fail> {
    let mut counts = Counts {
        plans: 0,
        starts: 0,
    };
    let results = core.run(alloc, events, &mut counts)?;
    let dispatched = results.iter().filter(|it| is_dispatched(it)).count();
    Ok((dispatched, counts.plans, counts.starts))
}

/// The numbers of [`counts_of`] for the day, on a core that has just started.
fn counts_of_day(alloc: Global) -> Result<(usize, u64, u64), Fail> {
    let events = day(alloc)?;
    let settings = read_settings(alloc, ONE_DEVICE)?;
    let Ok(mut core) = Core::new(alloc, settings, AugmentingPaths::new(alloc)) else {
        return Err(Fail::from("out of memory"));
    };
    counts_of(alloc, &mut core, events)
}

/// A job that comes to a running device makes one plan and one start.
#[test]
fn run_of_events(rt: HostRuntime) -> Result<(), Fail> {
    assert_eq!(rt; counts_of_day(rt.alloc())?, (3, 1, 1));
    Ok(())
}
