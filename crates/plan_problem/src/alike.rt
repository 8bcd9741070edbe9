//! Jobs with the same needs.
ghost use Rattle.std.specs.Prelude.{◌≡◌, ◌≤◌, IsTrue, length};
ghost use Rattle.plan_problem.specs.Alike.{NeedSame, FromAlike};

use crate::class_job::ClassJob;
use crate::row::Row;
use base_types::{Finishings, Needs, Sides, Text};

/// The number of earlier jobs that are compared with a job.
const NEAR: usize = 8;

/// The times of one of the last jobs before, if it has the same needs; else no times. `rows` are those of the
/// jobs before.
pub(crate) fn times_of_alike<'a>(
    jobs: &[ClassJob],
    rows: &'a [Row],
    needs: &Needs,
) -> &'a [Option<u64>]
    requires { length rows.now ≤ length jobs.now }
    ensures { FromAlike jobs.now rows.now needs.now result.now }
{
    for place in rows.len().saturating_sub(NEAR)..rows.len() {
        let job = &jobs[place];
        if need_same(job.needs, needs) {
            return rows[place].times();
        }
    }
    &[]
}

/// Returns true only if two jobs have the same needs, except for their lengths.
fn need_same(one: &Needs, other: &Needs) -> bool
    ensures { IsTrue result → NeedSame one.now other.now }
{
    one.printer == other.printer
        && same_sides(one.sides, other.sides)
        && same_finishings(one.finishings, other.finishings)
        && one.media.is(other.media.as_bytes())
        && same_texts(&one.formats, &other.formats)
}

/// Returns true only if the sides are the same.
fn same_sides(one: Sides, other: Sides) -> bool
    ensures { IsTrue result → one ≡ other }
{
    match (one, other) {
        (Sides::One, Sides::One) => true,
        (Sides::LongEdge, Sides::LongEdge) => true,
        (Sides::ShortEdge, Sides::ShortEdge) => true,
        _ => false,
    }
}

/// Returns true only if the finishings are the same.
fn same_finishings(one: Finishings, other: Finishings) -> bool
    ensures { IsTrue result → one ≡ other }
{
    one.staple == other.staple && one.punch == other.punch && one.bind == other.bind
}

/// Returns true only if the texts are the same.
fn same_texts(one: &[Text], other: &[Text]) -> bool
    ensures { IsTrue result → one.now ≡ other.now }
{
    let mut rest = other;
    for text in one {
        let [next, more @ ..] = rest else {
            return false;
        };
        if !text.is(next.as_bytes()) {
            return false;
        }
        rest = more;
    }
    rest.is_empty()
}
