//! The jobs of a day as comma-separated values.
use base_types::{Finishings, JobId, Moment, Priority, Sides, Text};
use job_objects::JobState;
use queue_reports::AccountTable;
use queue_views::{Clock, JobAccount};
use settings_file::read_settings_bytes;
use simulation::{JobList, read_list};
use std::alloc::{AllocError, Global};
use std::test::Fail;

/// The head of each table.
const HEAD: &str =
    "id,printer,owner,title,octets,impressions,copies,sides,media,format,finishings,priority,device,time,began,ended,seconds-waited,seconds-printed,state\n";

/// The time of moment 0 by the clock of the tests: 2026-11-29T09:05:47.385Z, in ms since the beginning of 1970.
const ZERO: u64 = 1_795_943_147_385;

/// The settings of a room with one device.
const ROOM: &str =
    "version = 1\nuri_base = \"ipp://localhost:631\"\n[[device]]\nname = \"window\"\nrate_one = 1000\nmedia = [\"iso_a4_210x297mm\"]\nformats = [\"text/plain\"]\n[[printer]]\nname = \"lab\"\ndevices = [\"window\"]\nmedia_default = \"iso_a4_210x297mm\"\nformat_default = \"text/plain\"\n";

/// Titles, and the cell of each.
const TITLES: [(&[u8], &str); 12] = [
    (b"Minutes.pdf", "Minutes.pdf"),
    (b"", ""),
    (b"a, b", "\"a, b\""),
    (b"say \"hi\"", "\"say \"\"hi\"\"\""),
    (b"=1+1", "'=1+1"),
    (b"+49 170", "'+49 170"),
    (b"-2", "'-2"),
    (b"@SUM(A1)", "'@SUM(A1)"),
    (b"  =1+1", "'  =1+1"),
    (b"\t=1+1", "\\t=1+1"),
    (b"two\nlines", "two\\nlines"),
    (b"\xEF\xBC\x9D1", "'\u{ff1d}1"),
];

/// A text.
fn text(alloc: Global, bytes: &[u8]) -> Result<Text, AllocError> {
    Text::copy_of(alloc, bytes)
}

/// A moment.
fn at(millis: u64) -> Moment {
    Moment::new(millis).unwrap_or(Moment::start())
}

/// The clock of the tests.
fn dated(alloc: Global) -> Result<Clock, AllocError> {
    let mut clock = Clock::new(alloc);
    clock.set(Moment::start(), ZERO)?;
    Ok(clock)
}

/// A job of one page, which came at 1500 and waits.
fn waiting(alloc: Global, title: &[u8]) -> Result<Option<JobAccount>, AllocError> {
    let Some(id) = JobId::new(7) else {
        return Ok(None);
    };
    Ok(Some(JobAccount {
        id,
        printer: text(alloc, b"lab")?,
        owner: text(alloc, b"ann")?,
        title: text(alloc, title)?,
        octets: 5,
        impressions: 1,
        copies: 2,
        sides: Sides::One,
        media: text(alloc, b"iso_a4_210x297mm")?,
        format: Some(text(alloc, b"text/plain")?),
        finishings: Finishings::none(),
        priority: Priority::normal(),
        device: None,
        came: at(1_500),
        began: None,
        ended: None,
        state: Some(JobState::Pending),
    }))
}

/// The table of a job.
fn table_of(alloc: Global, job: Option<JobAccount>, clock: &Clock) -> Result<Vec<u8>, AllocError> {
    let mut table = AccountTable::new(alloc)?;
    if let Some(job) = &job {
        table.add(job, clock)?;
    }
    table.finish()
}

#[test]
fn job_that_waits(rt: HostRuntime) -> Result<(), Fail> {
    let alloc = rt.alloc();
    let job = waiting(alloc, b"Minutes.pdf")?;
    let table = table_of(alloc, job, &Clock::new(alloc))?;
    let wanted = format!(in alloc;
        "{HEAD}7,lab,ann,Minutes.pdf,5,1,2,one-sided,iso_a4_210x297mm,text/plain,,50,,1500,,,,,pending\n"
    )?;
    assert_eq!(rt; table.as_slice(), wanted.as_bytes());
    Ok(())
}

/// The job, stapled, bound and printed on two sides at 2615 to 14615.
fn printed(alloc: Global) -> Result<Option<JobAccount>, AllocError> {
    let mut job = waiting(alloc, b"Minutes.pdf")?;
    if let Some(job) = &mut job {
        job.device = Some(text(alloc, b"window")?);
        job.finishings.staple = true;
        job.finishings.bind = true;
        job.sides = Sides::LongEdge;
        job.began = Some(at(2_615));
        job.ended = Some(at(14_615));
        job.state = Some(JobState::Completed);
    }
    Ok(job)
}

#[test]
fn job_that_was_printed(rt: HostRuntime) -> Result<(), Fail> {
    let alloc = rt.alloc();
    let table = table_of(alloc, printed(alloc)?, &dated(alloc)?)?;
    let wanted = format!(in alloc;
        "{HEAD}7,lab,ann,Minutes.pdf,5,1,2,two-sided-long-edge,iso_a4_210x297mm,text/plain,staple bind,50,window,2026-11-29T09:05:48.885Z,2026-11-29T09:05:50Z,2026-11-29T09:06:02Z,1.115,12.000,completed\n"
    )?;
    assert_eq!(rt; table.as_slice(), wanted.as_bytes());
    Ok(())
}

/// The server ended at 2000, and was started again an hour later.
#[test]
fn job_that_waited_over_a_restart(rt: HostRuntime) -> Result<(), Fail> {
    let alloc = rt.alloc();
    let mut clock = dated(alloc)?;
    clock.set(at(2_000), ZERO.saturating_add(3_600_000))?;
    let table = table_of(alloc, printed(alloc)?, &clock)?;
    let wanted = format!(in alloc;
        "{HEAD}7,lab,ann,Minutes.pdf,5,1,2,two-sided-long-edge,iso_a4_210x297mm,text/plain,staple bind,50,window,2026-11-29T09:05:48.885Z,2026-11-29T10:05:50Z,2026-11-29T10:06:02Z,3601.115,12.000,completed\n"
    )?;
    assert_eq!(rt; table.as_slice(), wanted.as_bytes());
    Ok(())
}

#[test]
fn titles_are_texts(rt: HostRuntime) -> Result<(), Fail> {
    let alloc = rt.alloc();
    for &(title, cell) in &TITLES {
        let job = waiting(alloc, title)?;
        let table = table_of(alloc, job, &Clock::new(alloc))?;
        let wanted = format!(in alloc;
            "{HEAD}7,lab,ann,{cell},5,1,2,one-sided,iso_a4_210x297mm,text/plain,,50,,1500,,,,,pending\n"
        )?;
        assert_eq!(rt; table.as_slice(), wanted.as_bytes());
    }
    Ok(())
}

/// Returns whether a table is a list of the job that waits, with nine columns that are ignored.
fn is_list(alloc: Global, table: &[u8]) -> bool {
    match read_settings_bytes(alloc, ROOM.as_bytes()) {
        Ok(settings) => match read_list(alloc, table, &settings) {
            Ok(list) => is_of_waiting(&list),
            Err(_) => false,
        },
        Err(_) => false,
    }
}

/// Returns whether the one job of a list is that which waits, with nine columns that are ignored.
fn is_of_waiting(list: &JobList) -> bool {
    match list.jobs.as_slice() {
        [job] => job.needs.copies == 2 && job.needs.impressions == 1 && list.ignored.len() == 9,
        _ => false,
    }
}

#[test]
fn table_is_a_list_of_jobs(rt: HostRuntime) -> Result<(), Fail> {
    let alloc = rt.alloc();
    let job = waiting(alloc, b"Minutes.pdf")?;
    let table = table_of(alloc, job, &dated(alloc)?)?;
    assert!(rt; is_list(alloc, &table));
    Ok(())
}
