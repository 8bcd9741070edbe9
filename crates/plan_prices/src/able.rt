//! The test whether each job of a class has a device that is able.
ghost use Rattle.std.specs.Prelude.{ℕ, ◌↔◌, IsSome, IsTrue, None, slice_index_or};
ghost use Rattle.plan_prices.specs.Able.{EachAble};

use plan_problem::ClassProblem;

/// Returns whether each job of the class has a device that is able.
pub fn each_able(class: &ClassProblem) -> bool
    ensures { IsTrue result ↔ EachAble class.now }
{
    for row in class.rows() {
        if !has_time(row.times()) {
            return false;
        }
    }
    true
}

/// Returns whether one of the entries is a time.
fn has_time(times: &[Option<u64>]) -> bool
    ensures { IsTrue result ↔ ((device : ℕ) × IsSome (slice_index_or times.now device None)) }
{
    for time in times {
        if time.is_some() {
            return true;
        }
    }
    false
}
