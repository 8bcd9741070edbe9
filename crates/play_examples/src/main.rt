//! Plays each example of `data/`, which `examples/README.md` describes, and compares what is written with its
//! file of expected output; for a trace the checker also reads the texts of its plans. It prints a
//! line for each, and ends with status 1 where one differs.
//!
//! What a trace or a plan gives is the contract of `replay` and of `plan_audit`; here the definitions
//! of these contracts are compared with rows that were worked out by hand. How the picture of a plan
//! or of a day looks is in its rows alone.
#![tactic(auto)]

mod accounts;
mod cuts;
mod days;
mod example;
mod many_jobs;
mod pages;
mod texts;

use crate::accounts::{ACCOUNTED, is_accounted_so};
use crate::cuts::{CutStream, STREAMS, stays_in_two_segments};
use crate::days::{
    COMPARED, COMPARED_DAYS, CROWDED, DAYS, DRAWN, DrawnDay, SETS, SimulatedDay, compared_texts,
    is_compared, is_drawn_so, is_played_so,
};
use crate::example::{EXAMPLES, Program};
use crate::many_jobs::CROWDS;
use crate::pages::{PAGED, is_paged_so};
use crate::texts::each_is_proved;
use drawing::{Form, run_draw};
use plan_audit::run_check;
use playback::Shows;
use program::ExitStatus;
use replay::run_replay;
use simulation::{Comparison, Round};
use std::process::ExitCode;
use std::{fs, io};

/// Draws a plan, and gives its status.
fn draw(rt: &HostRuntime, reader: &mut &[u8], output: &mut Vec<u8>, form: Form) -> ExitStatus {
    run_draw(rt.alloc(), reader, output, form).status
}

/// Plays a recorded day, and gives its status.
fn verify(rt: &HostRuntime, reader: &mut &[u8], output: &mut Vec<u8>, shows: Shows) -> ExitStatus {
    playback::play(rt.alloc(), "<standard input>", reader, output, shows).status
}

/// How an example ends, and what it writes.
fn play(rt: &HostRuntime, program: Program, input: &[u8]) -> (ExitStatus, Vec<u8>) {
    let mut reader = input;
    let mut output = Vec::new(rt.alloc());
    let status = match program {
        Program::Replay => run_replay(rt.alloc(), &mut reader, &mut output, false).status,
        Program::Check => run_check(rt.alloc(), &mut reader, &mut output, true).status,
        Program::Draw | Program::NoDrawing => draw(rt, &mut reader, &mut output, Form::Svg),
        Program::DrawText | Program::NoText => draw(rt, &mut reader, &mut output, Form::Text),
        Program::Verify | Program::Same => verify(rt, &mut reader, &mut output, Shows::Verdict),
        Program::Log => verify(rt, &mut reader, &mut output, Shows::Log),
    };
    (status, output)
}

/// Whether the texts of a trace's plans are proved; any other example has none.
fn has_proved_plans(
    rt: &HostRuntime,
    program: Program,
    input: &[u8],
    wanted: &[u8],
) -> io::Result<bool> {
    match program {
        Program::Replay => Ok(each_is_proved(rt.alloc(), input, wanted)?),
        _ => Ok(true),
    }
}

/// Whether a program ends and writes as it must. The error is the system's, of its files.
fn is_as_wanted(
    rt: &HostRuntime,
    program: Program,
    input: &str,
    output: &str,
    status: ExitStatus,
) -> io::Result<bool> {
    let input = fs::read(rt, input)?;
    let wanted = fs::read(rt, output)?;
    let (ended, written) = play(rt, program, &input);
    Ok(
        ended.code() == status.code()
            && written.as_slice() == wanted.as_slice()
            && has_proved_plans(rt, program, &input, &wanted)?,
    )
}

/// Says of a file or a day by name whether what is written is as it must be.
fn report(rt: &HostRuntime, name: &str, as_wanted: bool) -> io::Result<()> {
    if as_wanted {
        println!(rt; "{name}: as wanted")
    } else {
        println!(rt; "{name}: DIFFERS")
    }
}

/// Plays the files: whether each is as it must be.
fn play_files(rt: &HostRuntime) -> io::Result<bool> {
    let mut all = true;
    for &(name, program, status) in &EXAMPLES {
        let input = program.input(rt.alloc(), name)?;
        let output = program.output(rt.alloc(), name)?;
        let as_wanted = is_as_wanted(rt, program, &input, &output, status)?;
        report(rt, &input, as_wanted)?;
        all = all && as_wanted;
    }
    Ok(all)
}

/// Plays the days with as many jobs as there can be: whether each is as it must be.
fn play_crowds(rt: &HostRuntime) -> io::Result<bool> {
    let mut all = true;
    for crowd in &CROWDS {
        let as_wanted = crowd.is_as_wanted(rt.alloc())?;
        report(rt, crowd.name(), as_wanted)?;
        all = all && as_wanted;
    }
    Ok(all)
}

/// Whether what is written or drawn of a day that is simulated is as it must be. The error is the system's, of
/// its files.
fn is_simulated_so(rt: &HostRuntime, day: &SimulatedDay, drawn: Option<Form>) -> io::Result<bool> {
    let settings = fs::read(rt, day.settings)?;
    let jobs = fs::read(rt, day.jobs)?;
    let wanted = fs::read(rt, day.output)?;
    Ok(is_played_so(rt.alloc(), &settings, &jobs, drawn, &wanted))
}

/// Whether the picture of a day is as it must be. The error is the system's, of its files.
fn is_drawn_as_wanted(rt: &HostRuntime, drawn: &DrawnDay) -> io::Result<bool> {
    let trace = fs::read(rt, drawn.trace)?;
    let wanted = fs::read(rt, drawn.picture)?;
    Ok(is_drawn_so(rt.alloc(), &trace, drawn.form, &wanted))
}

/// Draws the day of many jobs, and the days of traces: whether each is as it must be.
fn draw_days(rt: &HostRuntime) -> io::Result<bool> {
    let mut all = is_simulated_so(rt, &CROWDED, Some(Form::Text))?;
    report(rt, CROWDED.output, all)?;
    for drawn in &DRAWN {
        let as_wanted = is_drawn_as_wanted(rt, drawn)?;
        report(rt, drawn.picture, as_wanted)?;
        all = all && as_wanted;
    }
    Ok(all)
}

/// Simulates the days: whether each is as it must be.
fn play_days(rt: &HostRuntime) -> io::Result<bool> {
    let mut all = true;
    for day in &DAYS {
        let as_wanted = is_simulated_so(rt, day, None)?;
        report(rt, day.output, as_wanted)?;
        all = all && as_wanted;
    }
    Ok(all)
}

/// Adds the days of a comparison on the set of devices at a place, whose settings are in a file. Returns whether
/// they could be played. The error is the system's, of its files.
fn compare_on(
    rt: &HostRuntime,
    comparison: &mut Comparison,
    set: usize,
    file: &str,
) -> io::Result<bool> {
    let settings = fs::read(rt, file)?;
    let mut all = true;
    for (day, jobs) in COMPARED_DAYS.iter().enumerate() {
        let jobs = fs::read(rt, *jobs)?;
        let round = Round { set, day };
        all = all && is_compared(rt.alloc(), comparison, round, &settings, &jobs);
    }
    Ok(all)
}

/// Compares sets of devices on several days: whether the table and the figures are as they must be.
fn compare_sets(rt: &HostRuntime) -> io::Result<bool> {
    let mut comparison = Comparison::new(rt.alloc());
    let mut all = true;
    for (set, file) in SETS.iter().enumerate() {
        all = all && compare_on(rt, &mut comparison, set, file)?;
    }
    for (file, text) in COMPARED
        .iter()
        .zip(&compared_texts(rt.alloc(), &comparison)?)
    {
        let as_wanted = fs::read(rt, *file)?.as_slice() == text.as_bytes();
        report(rt, file, as_wanted)?;
        all = all && as_wanted;
    }
    Ok(all)
}

/// Whether what comes of a stream is as it must be, wherever it is cut in two. The error is the
/// system's, of its files.
fn is_the_same_when_cut(rt: &HostRuntime, stream: &CutStream) -> io::Result<bool> {
    let input = fs::read(rt, stream.input)?;
    let wanted = fs::read(rt, stream.output)?;
    Ok(stays_in_two_segments(rt.alloc(), &input, &wanted)?)
}

/// Plays the streams in two segments, cut at each byte: whether each is as it must be.
fn play_cuts(rt: &HostRuntime) -> io::Result<bool> {
    let mut all = true;
    for stream in &STREAMS {
        let as_wanted = is_the_same_when_cut(rt, stream)?;
        print!(rt; "in two pieces ")?;
        report(rt, stream.input, as_wanted)?;
        all = all && as_wanted;
    }
    Ok(all)
}

/// Writes the pages of days: whether each is as it must be. The error is the system's, of its files.
fn write_pages(rt: &HostRuntime) -> io::Result<bool> {
    let mut all = true;
    for paged in &PAGED {
        let day = fs::read(rt, paged.day)?;
        let wanted = fs::read(rt, paged.body)?;
        let as_wanted = is_paged_so(rt.alloc(), &day, paged, &wanted);
        report(rt, paged.body, as_wanted)?;
        all = all && as_wanted;
    }
    Ok(all)
}

/// Writes the jobs of days as tables: whether each is as it must be. The error is the system's, of its files.
fn write_accounts(rt: &HostRuntime) -> io::Result<bool> {
    let mut all = true;
    for accounted in &ACCOUNTED {
        let day = fs::read(rt, accounted.day)?;
        let wanted = fs::read(rt, accounted.table)?;
        let as_wanted = is_accounted_so(rt.alloc(), &day, &wanted);
        report(rt, accounted.table, as_wanted)?;
        all = all && as_wanted;
    }
    Ok(all)
}

/// Plays them all: whether each is as it must be.
fn play_all(rt: &HostRuntime) -> io::Result<bool> {
    let mut all = play_files(rt)?;
    all &= play_days(rt)?;
    all &= compare_sets(rt)?;
    all &= draw_days(rt)?;
    all &= write_pages(rt)?;
    all &= write_accounts(rt)?;
    all &= play_crowds(rt)?;
    all &= play_cuts(rt)?;
    Ok(all)
}

fn main(rt: HostRuntime) -> ExitCode {
    let status = match play_all(&rt) {
        Ok(true) => ExitStatus::Done,
        Ok(false) => ExitStatus::No,
        Err(_) => ExitStatus::Failed,
    };
    ExitCode::from(status.code())
}
