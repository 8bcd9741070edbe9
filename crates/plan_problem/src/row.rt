//! The times of a job on the devices.
ghost use Rattle.std.specs.Prelude.{◌≡◌, ◌↔◌, All, IfSome, IsTrue, length};
ghost use Rattle.plan_problem.specs.Time.{IsTime};

use base_types::Limits;
use std::marker::Model;

/// The times of one job in ms, one for each device, `None` if the device isn't able. In clauses it is the
/// list of them.
#[derive(Drop)]
pub struct Row {
    times: Vec<Option<u64>>,
}

impl Model for Row {
    ghost use Rattle.std.specs.Prelude.{ℕ, List, Option};

    ghost Value = { List (Option ℕ) };

    ghost view = { λ row. row.times.items };
}

impl Row {
    /// A row of times.
    pub fn new(times: Vec<Option<u64>>) -> Row
        ensures { result ≡ times.items }
    {
        Row { times }
    }

    /// The times of the row.
    pub fn times(&self) -> &[Option<u64>]
        ensures { result.now ≡ self.now }
    {
        &self.times
    }
}

/// Returns whether there is one entry for each of `devices` devices, each a time in range or none.
pub(crate) fn is_row(times: &[Option<u64>], devices: usize) -> bool
    ensures { IsTrue result ↔ (length times.now ≡ devices) × All (λ entry. IfSome entry IsTime) times.now }
{
    if times.len() != devices {
        return false;
    }
    for entry in times {
        if !is_entry(*entry) {
            return false;
        }
    }
    true
}

/// Returns whether an entry is a time in range or none.
fn is_entry(entry: Option<u64>) -> bool
    ensures { IsTrue result ↔ IfSome entry IsTime }
{
    match entry {
        None => true,
        Some(time) => 1 <= time && time <= Limits::JOB_TIME,
    }
}
