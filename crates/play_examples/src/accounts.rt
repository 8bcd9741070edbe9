//! Accounts: the table of the jobs of each recorded day must equal its file.

use crate::pages::plays;
use playback::Follower;
use queue_reports::AccountTable;
use std::alloc::Global;

/// A recorded day, and the file with the table of its jobs.
pub struct Accounted {
    pub day: &'static str,
    pub table: &'static str,
}

pub const ACCOUNTED: [Accounted; 2] = [
    Accounted {
        day: "recorded_day.trace",
        table: "recorded_jobs.csv",
    },
    Accounted {
        day: "markup_in_names.trace",
        table: "markup_in_names.rows",
    },
];

/// Adds the jobs of a day to a table. Returns whether the day can be played.
fn adds_day(alloc: Global, table: &mut AccountTable, day: &[u8]) -> bool {
    let mut follower = Follower::new(alloc);
    follower.keep_accounts();
    if !plays(&mut follower, day) {
        return false;
    }
    match follower.take_accounts() {
        Ok(Some(accounts)) => table.add_day(&accounts).is_ok(),
        _ => false,
    }
}

/// The table of a day.
fn table_of(alloc: Global, day: &[u8]) -> Option<Vec<u8>> {
    let mut table = AccountTable::new(alloc).ok()?;
    if !adds_day(alloc, &mut table, day) {
        return None;
    }
    table.finish().ok()
}

/// Whether the table of a day is just this.
pub fn is_accounted_so(alloc: Global, day: &[u8], wanted: &[u8]) -> bool {
    match table_of(alloc, day) {
        Some(table) => table.as_slice() == wanted,
        None => false,
    }
}
