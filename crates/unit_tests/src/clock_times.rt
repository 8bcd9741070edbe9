//! The times of a server's moments.
use base_types::Moment;
use queue_views::{Clock, read_clock};
use std::alloc::{AllocError, Global};
use std::test::Fail;

/// Comments of a recording without their `#`, and the time of moment 0 that each gives.
const COMMENTS: [(&[u8], Option<u64>); 5] = [
    (b" clock 1970-01-01T00:00:01.5Z", Some(1_500)),
    (b" clock 2026-11-29T09:05:47.385Z", Some(1_795_943_147_385)),
    (b" clock 1969-12-31T23:59:59Z", None),
    (b" clock then", None),
    (b" open 0 ipp 127.0.0.1:37008", None),
];

/// Moments of a server that was started again at moment 100, and their times. It was started at time 1,000 and again
/// 3,900 ms after its last turn.
const TIMES: [(u64, u64); 4] = [(0, 1_000), (99, 1_099), (100, 5_000), (150, 5_050)];

/// Times, and their moments: before the start, while no server ran, and others.
const MOMENTS: [(u64, u64); 6] = [
    (0, 0),
    (1_000, 0),
    (1_050, 50),
    (1_101, 100),
    (4_999, 100),
    (5_100, 200),
];

/// Two moments, and the ms on the wall between them.
const LENGTHS: [(u64, u64, u64); 3] = [(0, 99, 99), (50, 150, 4_000), (100, 150, 50)];

/// The clock of that server.
fn restarted_clock(alloc: Global) -> Result<Clock, AllocError> {
    let mut clock = Clock::new(alloc);
    clock.set(Moment::start(), 1_000)?;
    clock.set(Moment::new(40).unwrap_or(Moment::start()), 1_000)?;
    clock.set(Moment::new(100).unwrap_or(Moment::start()), 4_900)?;
    Ok(clock)
}

#[test]
fn comments_give_the_time_of_moment_0(rt: HostRuntime) -> Result<(), Fail> {
    for &(comment, zero) in &COMMENTS {
        assert_eq!(rt; read_clock(comment), zero);
    }
    Ok(())
}

#[test]
fn moments_have_times(rt: HostRuntime) -> Result<(), Fail> {
    let clock = restarted_clock(rt.alloc())?;
    for &(moment, time) in &TIMES {
        assert_eq!(rt; clock.time_at(moment), Some(time));
    }
    for &(time, moment) in &MOMENTS {
        assert_eq!(rt; clock.moment_at(time), Some(moment));
    }
    for &(from, to, length) in &LENGTHS {
        assert_eq!(rt; clock.between(from, to), length);
    }
    Ok(())
}

#[test]
fn a_new_clock_gives_no_time(rt: HostRuntime) -> Result<(), Fail> {
    let clock = Clock::new(rt.alloc());
    assert_eq!(rt; clock.is_set(), false);
    assert_eq!(rt; clock.time_at(1), None);
    assert_eq!(rt; clock.moment_at(1), None);
    assert_eq!(rt; clock.between(3, 10), 7);
    Ok(())
}
