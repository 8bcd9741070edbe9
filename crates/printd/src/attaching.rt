//! `printd attach`.
use crate::failure::{cannot, cannot_with, out_of_memory};
use adapter::{ConfigWords, WordFault, attach, read_config, try_target};
use command_line::Attaching;
use program::ExitStatus;
use std::io;

/// Attaches a printer until the adapter is asked to stop. An error is reported, and its exit status
/// returned.
pub(crate) fn run_attach(
    rt: &HostRuntime,
    attaching: Attaching<'_>,
) -> Result<ExitStatus, ExitStatus> {
    let words = ConfigWords {
        name: attaching.name,
        server: attaching.server,
        to: attaching.to,
        format: attaching.format,
        ms_per_page: attaching.ms_per_page,
        linger: attaching.linger,
        timeout: attaching.timeout,
        pjl: attaching.pjl,
        turns: attaching.turns,
        logs: attaching.log,
        measures: attaching.measure,
        until_closed: attaching.until_closed,
    };
    let plan = match read_config(rt.alloc(), words) {
        Ok(plan) => plan,
        Err(fault) => return Err(refuse(rt, fault, words)),
    };
    if let Err(error) = try_target(rt.alloc(), rt, &plan) {
        return Err(cannot_with(rt, "write to", words.to, error));
    }
    let mut errors = rt.stderr();
    let mut output = rt.stdout();
    match attach(rt.alloc(), rt, plan, &mut errors, &mut output) {
        Ok(()) => Ok(ExitStatus::Done),
        Err(error) => Err(cannot(rt, "attach a printer", error)),
    }
}

/// Reports the invalid word, and returns the exit status.
fn refuse(rt: &HostRuntime, fault: WordFault, words: ConfigWords<'_>) -> ExitStatus {
    let sentence = match fault {
        WordFault::Name => say(
            rt,
            "--name",
            words.name,
            "letters, digits, _ and -, 32 at most",
        ),
        WordFault::Server => say(rt, "--server", words.server, "HOST:PORT"),
        WordFault::To => say(
            rt,
            "--to",
            words.to,
            "file:DIR, socket://HOST[:PORT], lpd://HOST[:PORT]/QUEUE or ipp://HOST[:PORT]/PATH",
        ),
        WordFault::Format => say(
            rt,
            "--format",
            words.format.unwrap_or(""),
            "a media type, as application/pdf",
        ),
        WordFault::Pjl => say(rt, "--to", words.to, "with --pjl, socket://HOST[:PORT]"),
        WordFault::OutOfMemory => return cannot(rt, "attach a printer", out_of_memory()),
    };
    match sentence {
        Ok(()) => ExitStatus::Refused,
        Err(_) => ExitStatus::Failed,
    }
}

/// Reports an invalid value of an option, and the values that are valid.
fn say(rt: &HostRuntime, option: &str, value: &str, wanted: &str) -> io::Result<()> {
    eprintln!(rt; "error: '{value}' makes no sense for {option}: it is {wanted}")
}
