//! The totals that the planners find.
use base_types::JobId;
use plan_prices::{Planner, each_able};
use plan_problem::{ClassProblem, Row, is_class};
use plan_solver::{AugmentingPaths, Counted, DenseAugmentingPaths, Times};
use std::alloc::Global;
use std::test::Fail;

/// The times of three jobs on two devices.
const THREE: &[&[Option<u64>]] = &[
    &[Some(10), Some(20)],
    &[Some(10), Some(12)],
    &[Some(30), Some(15)],
];

/// The times of the first two jobs of [`THREE`].
const TWO: &[&[Option<u64>]] = &[&[Some(10), Some(20)], &[Some(10), Some(12)]];

/// The times of the longest possible job: 10,000 impressions and 999 copies at a minute each, after an hour
/// of setup.
const LONGEST: &[Option<u64>] = &[Some(599_403_600_000)];

/// The times of three jobs on one device.
const ALONE: &[&[Option<u64>]] = &[&[Some(5)], &[Some(3)], &[Some(4)]];

/// The class of jobs with these times, numbered from 1, and with these waits.
fn class_of(alloc: Global, times: &[&[Option<u64>]], waits: &[u64]) -> Result<ClassProblem, Fail> {
    let mut ids = Vec::new(alloc);
    let mut rows = Vec::new(alloc);
    for (number, row) in (1..).zip(times) {
        ids.push(JobId::new(number).ok_or("id")?)?;
        rows.push(Row::new(Vec::from_slice(alloc, *row)?))?;
    }
    let waits = Vec::from_slice(alloc, waits)?;
    if !is_class(&ids, &rows, &waits) {
        return Err(Fail::from("not a class"));
    }
    Ok(ClassProblem::from_rows(ids, rows, waits))
}

/// The total of a planner's way; an error where a job has no device.
fn planned(planner: &mut impl Planner, class: &ClassProblem) -> Result<u64, Fail> {
    if !each_able(class) {
        return Err(Fail::from("a job without a device"));
    }
    Ok(planner.plan_class(class)?.total)
}

/// The planner finds the best way, and looks at each time at most as often as promised.
#[test]
fn best_of_three(rt: HostRuntime) -> Result<(), Fail> {
    let alloc = rt.alloc();
    let class = class_of(alloc, THREE, &[0, 0])?;
    if !each_able(&class) {
        return Err(Fail::from("a job without a device"));
    }
    let mut counted = Counted::new(&class);
    let marked = AugmentingPaths::new(alloc).plan_counted(&mut counted)?;
    assert_eq!(rt; marked.priced.total, 45);
    assert!(rt; counted.looks() <= 6);
    Ok(())
}

/// Each job goes to the device on which it is short, a device that is free late prints no job, the shortest
/// job goes first, and waits count.
#[test]
fn known_totals(rt: HostRuntime) -> Result<(), Fail> {
    let alloc = rt.alloc();
    let rows: [(&[&[Option<u64>]], &[u64], u64); 4] = [
        (THREE, &[0, 0], 45),
        (TWO, &[100, 0], 44),
        (ALONE, &[0], 22),
        (TWO, &[0, 15], 30),
    ];
    for (times, waits, total) in rows {
        let class = class_of(alloc, times, waits)?;
        assert_eq!(rt;
            planned(&mut DenseAugmentingPaths::new(alloc), &class)?,
            total
        );
    }
    Ok(())
}

/// Both planners find the total of 127 of the longest jobs on one device, which waits for one more of them: 2
/// + 3 + .. + 128 times its length.
#[test]
fn largest_totals(rt: HostRuntime) -> Result<(), Fail> {
    let alloc = rt.alloc();
    let class = class_of(alloc, &[LONGEST; 127], &[599_403_600_000])?;
    assert_eq!(rt;
        planned(&mut AugmentingPaths::new(alloc), &class)?,
        4_948_076_718_000_000
    );
    assert_eq!(rt;
        planned(&mut DenseAugmentingPaths::new(alloc), &class)?,
        4_948_076_718_000_000
    );
    Ok(())
}
