//! The rates and the setup time measured from jobs: the expected values were computed by hand.
use adapter_core::Measurement;
use base_types::Sides;
use std::alloc::{AllocError, Global};
use std::test::Fail;

/// A job that is done: its sides, the estimate of its impressions, the number of impressions that the printer
/// reported with the time of the report in ms since the start of the job (0 without a report), and the length
/// of the print in ms.
type Job = (Sides, u32, (u32, u64), u64);

/// No job; then one job, and two jobs on a line.
const NONE: [Job; 0] = [];

const ONE: [Job; 1] = [(Sides::One, 3, (0, 0), 2600)];

const ON_A_LINE: [Job; 2] = [(Sides::One, 1, (0, 0), 1200), (Sides::One, 3, (0, 0), 2600)];

/// The sums over the jobs on one side are 7 impressions, 7,100 ms, 21 and 19,900. The setup is (7,100 * 21 -
/// 7 * 19,900) / (3 * 21 - 7 * 7) = 700, and the rate is (19,900 - 700 * 7) / 21 = 714.3. With that setup,
/// the rate of the two other jobs is (24,000 - 700 * 8) / 34 = 541.2.
const ON_BOTH: [Job; 5] = [
    (Sides::One, 1, (0, 0), 1500),
    (Sides::LongEdge, 3, (0, 0), 2500),
    (Sides::One, 2, (0, 0), 2000),
    (Sides::ShortEdge, 5, (0, 0), 3300),
    (Sides::One, 4, (0, 0), 3600),
];

/// The line of least squares begins at -100: the setup is 0, and the rate is 14,100 / 14 = 1,007.1.
const BELOW_NOTHING: [Job; 3] = [
    (Sides::One, 1, (0, 0), 1000),
    (Sides::One, 2, (0, 0), 1900),
    (Sides::One, 3, (0, 0), 3100),
];

/// A printer that reports its pages: the estimates are far off, and don't count.
const REPORTED: [Job; 2] = [
    (Sides::One, 74, (1, 1200), 1200),
    (Sides::One, 80, (2, 1900), 1900),
];

/// A printer that takes no time.
const AT_ONCE: [Job; 2] = [(Sides::One, 1, (0, 0), 0), (Sides::One, 2, (0, 0), 0)];

const ON_TWO_SIDES: [Job; 2] = [
    (Sides::LongEdge, 1, (0, 0), 900),
    (Sides::LongEdge, 2, (0, 0), 1300),
];

/// Jobs, and the text of the measurement.
const ROWS: [(&[Job], &str); 8] = [
    (
        &NONE,
        "# one side: jobs 0, pages 0; two sides: jobs 0, pages 0\n# rate_one: no such job yet\n# rate_two: no such job yet\n# setup: jobs of different lengths are needed\n",
    ),
    (
        &ONE,
        "# one side: jobs 1, pages 3; two sides: jobs 0, pages 0\n# rate_one: jobs of different lengths are needed\n# rate_two: no such job yet\n# setup: jobs of different lengths are needed\n",
    ),
    (
        &ON_A_LINE,
        "# one side: jobs 2, pages 4; two sides: jobs 0, pages 0\nrate_one = 700\n# rate_two: no such job yet\nsetup = 500\n",
    ),
    (
        &ON_BOTH,
        "# one side: jobs 3, pages 7; two sides: jobs 2, pages 8\nrate_one = 714\nrate_two = 541\nsetup = 700\n",
    ),
    (
        &BELOW_NOTHING,
        "# one side: jobs 3, pages 6; two sides: jobs 0, pages 0\nrate_one = 1007\n# rate_two: no such job yet\nsetup = 0\n",
    ),
    (
        &REPORTED,
        "# one side: jobs 2, pages 3; two sides: jobs 0, pages 0\nrate_one = 700\n# rate_two: no such job yet\nsetup = 500\n",
    ),
    (
        &AT_ONCE,
        "# one side: jobs 2, pages 3; two sides: jobs 0, pages 0\nrate_one = 1\n# rate_two: no such job yet\nsetup = 0\n",
    ),
    (
        &ON_TWO_SIDES,
        "# one side: jobs 0, pages 0; two sides: jobs 2, pages 3\n# rate_one: no such job yet\nrate_two = 400\nsetup = 500\n",
    ),
];

/// The text of the measurement of jobs, one after the other. The only error is out of memory.
fn measured(alloc: Global, jobs: &[Job]) -> Result<String, AllocError> {
    let mut measurement = Measurement::new();
    let mut now = 0u64;
    for (sides, impressions, printed, ms) in jobs {
        measurement.begin(*sides, *impressions, now);
        if printed.0 > 0 {
            measurement.pages(printed.0, now.saturating_add(printed.1));
        }
        now = now.saturating_add(*ms);
        let _measured = measurement.finish(now);
    }
    format!(in alloc; "{measurement}")
}

#[test]
fn measured_rates(rt: HostRuntime) -> Result<(), Fail> {
    for &(jobs, wanted) in &ROWS {
        let text = measured(rt.alloc(), jobs)?;
        assert!(rt; text.as_str() == wanted, "{text}");
    }
    Ok(())
}

#[test]
fn only_jobs_that_are_done(rt: HostRuntime) {
    let mut measurement = Measurement::new();
    assert!(rt; !measurement.finish(10));
    measurement.begin(Sides::One, 1, 10);
    measurement.leave();
    assert!(rt; !measurement.finish(20));
    measurement.begin(Sides::One, 1, 20);
    assert!(rt; measurement.finish(30));
}
