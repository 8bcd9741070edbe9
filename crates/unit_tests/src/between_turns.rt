//! Bodies, reports and ticks without a wire.
use crate::exchanges::{BODY, REPLY, SETTINGS};
use base_types::{DeviceId, Moment, Report};
use plan_solver::AugmentingPaths;
use server::{Engine, LoggedNote, NoteLog, Served};
use settings_file::read_settings;
use std::alloc::Global;
use std::test::Fail;

/// The answer to a body. After the body, the device runs and a tick comes.
fn answered(
    engine: &mut Engine<AugmentingPaths>,
    body: &[u8],
    notes: &mut NoteLog,
) -> Option<Served> {
    let moment = Moment::start();
    let served = engine.serve_body(body, notes, moment);
    let runs = engine.report(DeviceId::new(0), Report::Ready, notes, moment);
    let ticks = engine.tick(notes, moment);
    if runs.is_ok() && ticks.is_ok() {
        served.ok()
    } else {
        None
    }
}

/// The answer of a server that has just started to a body; its notes go to `notes`.
fn served(alloc: Global, body: &[u8], notes: &mut NoteLog) -> Option<Served> {
    let Ok(settings) = read_settings(alloc, SETTINGS) else {
        return None;
    };
    let Ok(mut engine) = Engine::new(alloc, settings, AugmentingPaths::new(alloc)) else {
        return None;
    };
    answered(&mut engine, body, notes)
}

/// Returns whether the answer is a reply of these bytes.
fn is_reply(served: Option<Served>, wanted: &[u8]) -> bool {
    match &served {
        Some(Served::Reply(bytes)) => bytes.as_slice() == wanted,
        _ => false,
    }
}

/// A job is stranded until the device runs, and begins then.
#[test]
fn body_then_report(rt: HostRuntime) -> Result<(), Fail> {
    let mut notes = NoteLog::new(rt.alloc());
    let replied = is_reply(served(rt.alloc(), BODY, &mut notes), REPLY);
    assert!(rt; replied);
    let logged = notes.take()?;
    assert_eq!(rt; logged.len(), 5);
    assert!(rt; matches!(logged.get(1), Some(LoggedNote::Stranded(_))));
    assert!(rt; matches!(logged.get(3), Some(LoggedNote::Class { total: 10, .. })));
    assert!(rt; matches!(logged.get(4), Some(LoggedNote::Began(_))));
    Ok(())
}

/// A body without a whole header gets a bad request, and no note.
#[test]
fn short_body(rt: HostRuntime) -> Result<(), Fail> {
    let mut notes = NoteLog::new(rt.alloc());
    let served = served(rt.alloc(), b"\x01\x01\x00\x02\x00\x00\x00", &mut notes);
    assert!(rt; matches!(&served, Some(Served::BadRequest)));
    let logged = notes.take()?;
    assert_eq!(rt; logged.len(), 0);
    Ok(())
}
