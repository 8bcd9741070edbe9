//! The words of `printd simulate`.

use crate::doors::invalid;
use crate::subcommand::Subcommand;
use crate::words_error::WordsError;
use clap::ArgMatches;
use std::alloc::{AllocError, Global};

/// The options of `printd simulate`.
#[derive(Debug, Drop)]
pub struct Simulating<'a> {
    /// The files of the settings, at least one.
    pub settings: Vec<&'a str>,
    /// The files of the jobs, a day each; at least one.
    pub jobs: Vec<&'a str>,
    /// How many times as fast the jobs come, in thousandths.
    pub load: u32,
    /// The most by which devices miss their estimates, in per cent.
    pub noise: u8,
    pub seed: u64,
    /// The names of devices that are away.
    pub without: Vec<&'a str>,
    /// The additional devices.
    pub with: Vec<Addition<'a>>,
    /// Whether each additional device and each that is away makes a set of devices of its own.
    pub each: bool,
    /// The names of the policies in the table. If there are none, the table has all policies.
    pub policies: Vec<&'a str>,
    /// Whether the figures of each day are written as comma-separated values.
    pub csv: bool,
    /// The name of a policy whose day is drawn below the planned day.
    pub draw: Option<&'a str>,
    /// Whether the drawing is for a terminal.
    pub text: bool,
}

/// An additional device.
#[derive(Clone, Copy, Debug)]
pub struct Addition<'a> {
    pub name: &'a str,
    /// The device whose settings it has, if the words name it before all else.
    pub like: Option<&'a str>,
    /// Words about its settings, as `rate_one=1000 setup=2000`.
    pub words: &'a str,
}

/// The text about a drawing of several days.
const SEVERAL_DRAWN: &str =
    "error: the argument '--draw [<POLICY>]' draws one day: it cannot be used with several of '--settings <FILE>' or '--jobs <FILE>'\n";

/// The most thousandths of a load: a hundred times the jobs' own.
const MOST_LOAD: u32 = 100_000;

/// The values of a word that may be given several times.
fn all_of<'a>(
    alloc: Global,
    found: &ArgMatches<'a>,
    name: &str,
) -> Result<Vec<&'a str>, AllocError> {
    Vec::from_slice(alloc, found.get_strs(name).unwrap_or(&[]))
}

/// An additional device by its text: its name, and after `=` that of the device that it is like, or after
/// `:` words about it.
fn addition_of(text: &str) -> Option<Addition<'_>> {
    if let Some((name, words)) = text.split_once(":") {
        return Some(Addition {
            name,
            like: None,
            words,
        });
    }
    let (name, like) = text.split_once("=")?;
    Some(Addition {
        name,
        like: Some(like),
        words: "",
    })
}

/// The additional devices.
fn additions<'a>(alloc: Global, found: &ArgMatches<'a>) -> Result<Vec<Addition<'a>>, WordsError> {
    let mut all = Vec::new(alloc);
    for text in found.get_strs("with").unwrap_or(&[]) {
        let Some(addition) = addition_of(text) else {
            return Err(invalid(
                alloc,
                text,
                "with <NAME=LIKE>",
                "an additional device is NAME=LIKE, where LIKE is a device of the settings, or NAME: and words as rate_one=1000 setup=2000",
            ));
        };
        all.push(addition)?;
    }
    Ok(all)
}

/// The thousandths that up to three digits after a point mean.
fn thousandths_of(digits: &str) -> Option<u32> {
    let number = digits.parse::<u32>().ok()?;
    match digits.len() {
        1 => number.checked_mul(100),
        2 => number.checked_mul(10),
        3 => Some(number),
        _ => None,
    }
}

/// The load of a text, in thousandths, if it is one.
fn load_of(text: &str) -> Option<u32> {
    let (whole, part) = text.split_once(".").unwrap_or((text, "0"));
    let whole = whole.parse::<u32>().ok()?.checked_mul(1000)?;
    let load = whole.checked_add(thousandths_of(part)?)?;
    if 1 <= load && load <= MOST_LOAD {
        Some(load)
    } else {
        None
    }
}

/// The load that the words give.
fn load_in(alloc: Global, found: &ArgMatches<'_>) -> Result<u32, WordsError> {
    let text = found.get_str("load").unwrap_or("1");
    match load_of(text) {
        Some(load) => Ok(load),
        None => Err(invalid(
            alloc,
            text,
            "load <FACTOR>",
            "a load is 0.001 to 100, with up to three digits after the point",
        )),
    }
}

/// The options that the words of the command give. The error is the text about an invalid word, or out of
/// memory.
fn options<'a>(alloc: Global, found: &ArgMatches<'a>) -> Result<Simulating<'a>, WordsError> {
    Ok(Simulating {
        settings: all_of(alloc, found, "settings")?,
        jobs: all_of(alloc, found, "jobs")?,
        load: load_in(alloc, found)?,
        noise: found.get_one::<u8>("noise").unwrap_or(0),
        seed: found.get_one::<u64>("seed").unwrap_or(1),
        without: all_of(alloc, found, "without")?,
        with: additions(alloc, found)?,
        each: found.get_flag("each"),
        policies: all_of(alloc, found, "policy")?,
        csv: found.get_flag("csv"),
        draw: found.get_str("draw"),
        text: found.get_flag("text"),
    })
}

/// The subcommand that the words give. One day alone is drawn. The error is the text about an invalid word, or out
/// of memory.
pub(crate) fn simulate_words<'a>(
    alloc: Global,
    found: &ArgMatches<'a>,
) -> Result<Subcommand<'a>, WordsError> {
    let simulating = options(alloc, found)?;
    let is_one = simulating.settings.len() == 1 && simulating.jobs.len() == 1;
    if simulating.draw.is_some() && !is_one {
        return Err(WordsError::fault(alloc, SEVERAL_DRAWN));
    }
    Ok(Subcommand::Simulate(simulating))
}
