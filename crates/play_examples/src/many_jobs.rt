//! As many jobs as there can be, in traces too long for `data/`: each job as long as one can
//! be, at the last moment; and on as many devices as there can be.

use program::ExitStatus;
use replay::run_replay;
use std::alloc::{AllocError, Global};

/// A device that is as slow as one can be, at the last moment.
const SLOW_DEVICE: &str = "version = 1\n\
uri_base = \"ipp://localhost:631\"\n\
operators = [\"root\"]\n\
[[device]]\n\
name = \"A\"\n\
rate_one = 60000\n\
setup = 3600000\n\
media = [\"iso_a4_210x297mm\"]\n\
formats = [\"text/plain\"]\n\
[[printer]]\n\
name = \"lab\"\n\
devices = [\"A\"]\n\
media_default = \"iso_a4_210x297mm\"\n\
format_default = \"text/plain\"\n\
.\n\
at 281474976710656\n\
dev A READY\n\
";

/// A Print-Job of 10,000 impressions and 999 copies, the longest that there is: 599,403,600,000 ms.
const LONGEST_JOB: &str =
    "ipp 010100020000000101470012617474726962757465732d6368617273657400057574662d3848001b617474726962757465732d6e61747572616c2d6c616e67756167650002656e45000b7072696e7465722d75726900206970703a2f2f6c6f63616c686f73743a3633312f7072696e746572732f6c616221000f6a6f622d696d7072657373696f6e7300040000271002210006636f706965730004000003e70368656c6c6f\n";

/// The first job is taken, and starts at once.
const FIRST: &str =
    "reply 010100000000000101470012617474726962757465732d6368617273657400057574662d3848001b617474726962757465732d6e61747572616c2d6c616e67756167650002656e024500076a6f622d757269001a6970703a2f2f6c6f63616c686f73743a3633312f6a6f62732f312100066a6f622d69640004000000012300096a6f622d73746174650004000000034400116a6f622d73746174652d726561736f6e7300046e6f6e6503\n\
plan 50:599403600000\n\
start 1 A\n\
";

/// With the first job begun, 511 wait after it: 2 + 3 + .. + 512 = 131,327 times its time. The
/// next request is answered that the server is busy, and the plan stays.
const LAST: &str = "plan 50:78717876577200000\n\
reply 010105070000000101470012617474726962757465732d6368617273657400057574662d3848001b617474726962757465732d6e61747572616c2d6c616e67756167650002656e03\n\
plan 50:78717876577200000\n\
";

/// How many lines of the output begin so.
fn lines_with(output: &[u8], prefix: &[u8]) -> usize {
    output
        .split(|byte| *byte == b'\n')
        .filter(|line| line.starts_with(prefix))
        .count()
}

/// The output of a trace that is played to its end; nothing, where it isn't.
fn output_of(alloc: Global, trace: &str) -> Option<Vec<u8>> {
    let mut output = Vec::new(alloc);
    let mut input = trace.as_bytes();
    match run_replay(alloc, &mut input, &mut output, false).status {
        ExitStatus::Done => Some(output),
        _ => None,
    }
}

/// Appends a text so many times.
fn put_repeated(whole: &mut String, text: &str, count: usize) -> Result<(), AllocError> {
    for _ in 0..count {
        whole.push_str(text)?;
    }
    Ok(())
}

/// A trace of so many of the longest jobs.
fn longest_jobs(alloc: Global) -> Result<String, AllocError> {
    let mut trace = String::from_str(alloc, SLOW_DEVICE)?;
    put_repeated(&mut trace, LONGEST_JOB, 513)?;
    Ok(trace)
}

/// Whether 513 of the longest jobs, one after the other, are planned and answered as they must be.
fn has_largest_totals(alloc: Global) -> Result<bool, AllocError> {
    let trace = longest_jobs(alloc)?;
    let Some(output) = output_of(alloc, trace.as_str()) else {
        return Ok(false);
    };
    let output = output.as_slice();
    Ok(
        output.starts_with(FIRST.as_bytes())
            && output.ends_with(LAST.as_bytes())
            && lines_with(output, b"reply 01010000") == 512
            && lines_with(output, b"plan ") == 513
            && lines_with(output, b"start ") == 1,
    )
}

/// An operator pauses the printer.
const PAUSE: &str =
    "ipp 010100100000000101470012617474726962757465732d6368617273657400057574662d3848001b617474726962757465732d6e61747572616c2d6c616e67756167650002656e45000b7072696e7465722d75726900206970703a2f2f6c6f63616c686f73743a3633312f7072696e746572732f6c616242001472657175657374696e672d757365722d6e616d650004726f6f7403\n";

/// An operator ends the pause.
const RESUME: &str =
    "ipp 010100110000000201470012617474726962757465732d6368617273657400057574662d3848001b617474726962757465732d6e61747572616c2d6c616e67756167650002656e45000b7072696e7465722d75726900206970703a2f2f6c6f63616c686f73743a3633312f7072696e746572732f6c616242001472657175657374696e672d757365722d6e616d650004726f6f7403\n";

/// Once the pause ends, all 512 jobs are planned: 1 + 2 + .. + 512 = 131,328 times the time of one. The
/// device begins one of them.
const RESUMED: &str =
    "reply 010105070000000101470012617474726962757465732d6368617273657400057574662d3848001b617474726962757465732d6e61747572616c2d6c616e67756167650002656e03\n\
reply 010100000000000201470012617474726962757465732d6368617273657400057574662d3848001b617474726962757465732d6e61747572616c2d6c616e67756167650002656e03\n\
plan 50:78718475980800000\n\
start ";

/// Appends the longest jobs, which come in a pause.
fn put_pause(trace: &mut String) -> Result<(), AllocError> {
    trace.push_str(PAUSE)?;
    put_repeated(trace, LONGEST_JOB, 513)?;
    trace.push_str(RESUME)
}

/// A trace of the longest jobs, which come in a pause.
fn longest_jobs_in_a_pause(alloc: Global) -> Result<String, AllocError> {
    let mut trace = String::from_str(alloc, SLOW_DEVICE)?;
    put_pause(&mut trace)?;
    Ok(trace)
}

/// Whether 513 of the longest jobs that come in a pause are all planned at its end.
fn has_largest_totals_after_a_pause(alloc: Global) -> Result<bool, AllocError> {
    let trace = longest_jobs_in_a_pause(alloc)?;
    let Some(output) = output_of(alloc, trace.as_str()) else {
        return Ok(false);
    };
    let (output, resumed) = (output.as_slice(), RESUMED.as_bytes());
    Ok(
        output.windows(resumed.len()).any(|part| part == resumed)
            && output.ends_with(b" A\n")
            && lines_with(output, b"reply 01010000") == 514
            && lines_with(output, b"plan ") == 1
            && lines_with(output, b"start ") == 1,
    )
}

/// A Print-Job of five octets, 10 ms on each of the devices.
const SHORT_JOB: &str =
    "ipp 010100020000000101470012617474726962757465732d6368617273657400057574662d3848001b617474726962757465732d6e61747572616c2d6c616e67756167650002656e45000b7072696e7465722d75726900206970703a2f2f6c6f63616c686f73743a3633312f7072696e746572732f6c61620368656c6c6f\n";

/// With 32 jobs begun, 480 wait after them, 15 for each device: 32 times 20 + 30 + .. + 160. The next
/// request is answered that the server is busy, and the plan stays.
const FULL: &str = "plan 50:43200\n\
reply 010105070000000101470012617474726962757465732d6368617273657400057574662d3848001b617474726962757465732d6e61747572616c2d6c616e67756167650002656e03\n\
plan 50:43200\n\
";

/// How many devices there are where there are many.
const DEVICES: usize = 32;

/// Appends the tables of equal devices.
fn put_devices(text: &mut String) -> Result<(), AllocError> {
    for place in 0..DEVICES {
        write!(
            text,
            "[[device]]\nname = \"D{place}\"\nrate_one = 10\nmedia = [\"iso_a4_210x297mm\"]\nformats = [\"text/plain\"]\n"
        )?;
    }
    Ok(())
}

/// Appends the table of a printer that has them all.
fn put_printer(text: &mut String) -> Result<(), AllocError> {
    text.push_str("[[printer]]\nname = \"lab\"\ndevices = [")?;
    for place in 0..DEVICES {
        write!(text, "\"D{place}\",")?;
    }
    text.push_str("]\nmedia_default = \"iso_a4_210x297mm\"\nformat_default = \"text/plain\"\n")
}

/// Appends lines by which each device reports that it is ready.
fn put_ready(text: &mut String) -> Result<(), AllocError> {
    for place in 0..DEVICES {
        write!(text, "dev D{place} READY\n")?;
    }
    Ok(())
}

/// Appends settings with many equal devices, each of which reports that it is ready.
fn put_settings(text: &mut String) -> Result<(), AllocError> {
    text.push_str("version = 1\nuri_base = \"ipp://localhost:631\"\n")?;
    put_devices(text)?;
    put_printer(text)?;
    text.push_str(".\nat 0\n")?;
    put_ready(text)
}

/// A trace of many short jobs on many devices.
fn many_short_jobs(alloc: Global) -> Result<String, AllocError> {
    let mut trace = String::new(alloc);
    put_settings(&mut trace)?;
    put_repeated(&mut trace, SHORT_JOB, 513)?;
    Ok(trace)
}

/// Whether 513 short jobs on 32 devices are planned and answered as they must be.
fn fills_many_devices(alloc: Global) -> Result<bool, AllocError> {
    let trace = many_short_jobs(alloc)?;
    let Some(output) = output_of(alloc, trace.as_str()) else {
        return Ok(false);
    };
    let output = output.as_slice();
    Ok(
        output.ends_with(FULL.as_bytes())
            && lines_with(output, b"plan ") == 513
            && lines_with(output, b"start ") == 32,
    )
}

/// A day with as many jobs as there can be.
#[derive(Clone, Copy)]
pub enum Crowd {
    LongestJobs,
    LongestJobsInAPause,
    ManyDevices,
}

pub const CROWDS: [Crowd; 3] = [
    Crowd::LongestJobs,
    Crowd::LongestJobsInAPause,
    Crowd::ManyDevices,
];

impl Crowd {
    pub fn name(self) -> &'static str {
        match self {
            Crowd::LongestJobs => "longest jobs",
            Crowd::LongestJobsInAPause => "longest jobs in a pause",
            Crowd::ManyDevices => "jobs on many devices",
        }
    }

    /// Whether what is written of the day is as it must be.
    pub fn is_as_wanted(self, alloc: Global) -> Result<bool, AllocError> {
        match self {
            Crowd::LongestJobs => has_largest_totals(alloc),
            Crowd::LongestJobsInAPause => has_largest_totals_after_a_pause(alloc),
            Crowd::ManyDevices => fills_many_devices(alloc),
        }
    }
}
