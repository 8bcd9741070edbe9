//! Plays the rows of the files in `data/`. A row is a script of a server and a printer in memory, step by step, with
//! the moments at which time passes, and the log that the adapter writes. The expected bytes are from RFC 1179,
//! RFC 8010, RFC 8011, RFC 9112 and docs/PRINTERS.md. `rows_reader.rt` has the form of the files.
//!
//! The program prints the number of rows of each file that went as they are written, and a line for each row that
//! differs: the step at which it does, counted from 0, and the log that was written. It ends with status 1 if a
//! row differs or a file can't be read.
#![tactic(auto)]

mod data_fault;
mod escapes;
mod folders;
mod ipp;
mod play;
mod printers;
mod row;
mod rows_reader;
mod script;
mod step;
mod step_reader;

use crate::printers::{FILES, RowPrinter, play_row};
use crate::row::AdapterRow;
use crate::rows_reader::read_rows;
use std::process::ExitCode;
use std::{fs, io};

/// Plays the rows of a file. Returns whether all went as they are written.
fn play_rows(
    rt: &HostRuntime,
    name: &str,
    printer: RowPrinter,
    rows: Vec<AdapterRow>,
) -> io::Result<bool> {
    let total = rows.len();
    let mut count = 0usize;
    for row in rows {
        match play_row(rt, printer, row)? {
            None => count = count.saturating_add(1),
            Some(difference) => println!(rt; "{name}: {difference}")?,
        }
    }
    println!(rt; "{name}: {count} rows")?;
    Ok(count == total)
}

/// Reads and plays a file. Returns whether all its rows went as they are written.
fn play_file(rt: &HostRuntime, name: &str, printer: RowPrinter) -> io::Result<bool> {
    let Ok(text) = fs::read_to_string(rt, name) else {
        println!(rt; "{name}: the file can't be read")?;
        return Ok(false);
    };
    match read_rows(rt.alloc(), text.as_str()) {
        Ok(rows) => play_rows(rt, name, printer, rows),
        Err(fault) => {
            println!(rt; "{name}, {fault}")?;
            Ok(false)
        }
    }
}

/// Plays all files. Returns whether all rows went as they are written.
fn play_files(rt: &HostRuntime) -> io::Result<bool> {
    let mut all = true;
    for &(name, printer) in &FILES {
        all &= play_file(rt, name, printer)?;
    }
    Ok(all)
}

fn main(rt: HostRuntime) -> ExitCode {
    match play_files(&rt) {
        Ok(true) => ExitCode::SUCCESS,
        Ok(false) | Err(_) => ExitCode::FAILURE,
    }
}
