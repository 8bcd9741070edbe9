//! The words of the program's command line.
use command_line::{WordsError, read_words};
use program::ExitStatus;
use std::alloc::{AllocError, Global};
use std::test::Fail;

/// Lines of words that are read, and the subcommand of each.
const READ: [(&str, &str); 32] = [
    (
        "printd replay",
        "Replay(Replaying { file: None, plans: false, verify: false })",
    ),
    (
        "printd replay --plans",
        "Replay(Replaying { file: None, plans: true, verify: false })",
    ),
    ("printd jobs a.trace", "Jobs { files: [\"a.trace\"] }"),
    (
        "printd jobs 000001.trace 000002.trace 000003.trace",
        "Jobs { files: [\"000001.trace\", \"000002.trace\", \"000003.trace\"] }",
    ),
    ("printd check", "Check { file: None, starts: false }"),
    (
        "printd check a.plan --starts",
        "Check { file: Some(\"a.plan\"), starts: true }",
    ),
    (
        "printd draw",
        "Draw { text: false, drawn: Plan { file: None } }",
    ),
    (
        "printd draw --text a.plan",
        "Draw { text: true, drawn: Plan { file: Some(\"a.plan\") } }",
    ),
    (
        "printd draw --trace a.trace --text",
        "Draw { text: true, drawn: Day { trace: \"a.trace\" } }",
    ),
    (
        "printd simulate --settings a.toml --jobs b.csv",
        "Simulate(Simulating { settings: [\"a.toml\"], jobs: [\"b.csv\"], load: 1000, noise: 0, seed: 1, without: [], with: [], each: false, policies: [], csv: false, draw: None, text: false })",
    ),
    (
        "printd simulate --settings a --jobs b --noise 20 --seed 7 --without A --without B --with C=D --draw first-free --text",
        "Simulate(Simulating { settings: [\"a\"], jobs: [\"b\"], load: 1000, noise: 20, seed: 7, without: [\"A\", \"B\"], with: [Addition { name: \"C\", like: Some(\"D\"), words: \"\" }], each: false, policies: [], csv: false, draw: Some(\"first-free\"), text: true })",
    ),
    (
        "printd simulate --settings a --jobs b --policy shortest-first --policy ends-first",
        "Simulate(Simulating { settings: [\"a\"], jobs: [\"b\"], load: 1000, noise: 0, seed: 1, without: [], with: [], each: false, policies: [\"shortest-first\", \"ends-first\"], csv: false, draw: None, text: false })",
    ),
    (
        "printd simulate --settings a --settings b --jobs c --jobs d --load 1.5 --with E:rate_one=7 --each --csv",
        "Simulate(Simulating { settings: [\"a\", \"b\"], jobs: [\"c\", \"d\"], load: 1500, noise: 0, seed: 1, without: [], with: [Addition { name: \"E\", like: None, words: \"rate_one=7\" }], each: true, policies: [], csv: true, draw: None, text: false })",
    ),
    (
        "printd simulate --settings a --jobs b --load 0.025 --draw",
        "Simulate(Simulating { settings: [\"a\"], jobs: [\"b\"], load: 25, noise: 0, seed: 1, without: [], with: [], each: false, policies: [], csv: false, draw: Some(\"round-robin\"), text: false })",
    ),
    ("printd settings", "Settings(BuiltIn)"),
    (
        "printd settings lab.toml",
        "Settings(Judge { file: \"lab.toml\" })",
    ),
    (
        "printd settings --avahi lab.toml",
        "Settings(Avahi { file: \"lab.toml\", printer: None, lpd: 515 })",
    ),
    (
        "printd settings lab.toml --avahi --printer lab --lpd 8515",
        "Settings(Avahi { file: \"lab.toml\", printer: Some(\"lab\"), lpd: 8515 })",
    ),
    (
        "printd serve",
        "Serve(Serving { settings: None, ipp: [127.0.0.1:8631], lpd: [127.0.0.1:8515], devices: [127.0.0.1:8632], turns: 1000000000000, log: None, record: None, record_heads: false, spool: None })",
    ),
    (
        "printd serve --settings lab.toml --ipp 631 --lpd 515 --devices 0 --log --turns 7",
        "Serve(Serving { settings: Some(\"lab.toml\"), ipp: [127.0.0.1:631], lpd: [127.0.0.1:515], devices: [127.0.0.1:0], turns: 7, log: Some(StandardError), record: None, record_heads: false, spool: None })",
    ),
    (
        "printd serve --log printd.log --ipp 631",
        "Serve(Serving { settings: None, ipp: [127.0.0.1:631], lpd: [127.0.0.1:8515], devices: [127.0.0.1:8632], turns: 1000000000000, log: Some(File(\"printd.log\")), record: None, record_heads: false, spool: None })",
    ),
    (
        "printd serve --address 0.0.0.0 --ipp 631 --devices 127.0.0.1:8632",
        "Serve(Serving { settings: None, ipp: [0.0.0.0:631], lpd: [0.0.0.0:8515], devices: [127.0.0.1:8632], turns: 1000000000000, log: None, record: None, record_heads: false, spool: None })",
    ),
    (
        "printd serve --ipp 10.0.0.1:631 --ipp [::1]:632 --lpd 515 --lpd 516",
        "Serve(Serving { settings: None, ipp: [10.0.0.1:631, [::1]:632], lpd: [127.0.0.1:515, 127.0.0.1:516], devices: [127.0.0.1:8632], turns: 1000000000000, log: None, record: None, record_heads: false, spool: None })",
    ),
    (
        "printd serve --address ::",
        "Serve(Serving { settings: None, ipp: [[::]:8631], lpd: [[::]:8515], devices: [[::]:8632], turns: 1000000000000, log: None, record: None, record_heads: false, spool: None })",
    ),
    (
        "printd serve --record day.trace --record-heads --turns 7",
        "Serve(Serving { settings: None, ipp: [127.0.0.1:8631], lpd: [127.0.0.1:8515], devices: [127.0.0.1:8632], turns: 7, log: None, record: Some(\"day.trace\"), record_heads: true, spool: None })",
    ),
    ("printd log day.trace", "Log { file: Some(\"day.trace\") }"),
    (
        "printd page",
        "Page(Paging { files: [], follow: None, at: None, to: None, metrics: None, names: false, zone: \"UTC\" })",
    ),
    (
        "printd page a.trace b.trace --at 09:10 --to queue.html --names --zone Europe/Berlin",
        "Page(Paging { files: [\"a.trace\", \"b.trace\"], follow: None, at: Some(\"09:10\"), to: Some(\"queue.html\"), metrics: None, names: true, zone: \"Europe/Berlin\" })",
    ),
    (
        "printd page --follow spool --to queue.html --metrics printd.prom",
        "Page(Paging { files: [], follow: Some(\"spool\"), at: None, to: Some(\"queue.html\"), metrics: Some(\"printd.prom\"), names: false, zone: \"UTC\" })",
    ),
    (
        "printd replay --verify day.trace",
        "Replay(Replaying { file: Some(\"day.trace\"), plans: false, verify: true })",
    ),
    (
        "printd attach --name window --to file:printed",
        "Attach(Attaching { name: \"window\", server: \"127.0.0.1:8632\", to: \"file:printed\", format: None, ms_per_page: 0, linger: 30, timeout: 300, pjl: false, turns: 18446744073709551615, log: false, measure: false, until_closed: false })",
    ),
    (
        "printd attach --name a --to lpd://b/c --server d:1 --format application/pdf --ms-per-page 2 --linger 3 --timeout 4 --pjl --turns 5 --log --measure --until-closed",
        "Attach(Attaching { name: \"a\", server: \"d:1\", to: \"lpd://b/c\", format: Some(\"application/pdf\"), ms_per_page: 2, linger: 3, timeout: 4, pjl: true, turns: 5, log: true, measure: true, until_closed: true })",
    ),
];

/// Lines of words that are refused: an unknown word, a word without the word that it needs, an invalid port,
/// an invalid address, turns out of their range, an unknown policy, a load out of its range, a device without
/// words, several days that are drawn, and words that exclude each other.
const REFUSED: [&str; 25] = [
    "printd",
    "printd reply",
    "printd settings --avahi",
    "printd settings lab.toml --printer lab",
    "printd serve --devices 65536",
    "printd serve --ipp localhost:631",
    "printd serve --address office",
    "printd serve --record-heads",
    "printd serve --turns 0",
    "printd serve --turns 1000000000001",
    "printd simulate --settings a --jobs b --policy best",
    "printd simulate --settings a --jobs b --policy ends-first --draw",
    "printd draw a.plan --trace a.trace",
    "printd simulate --settings a --jobs b --load 0",
    "printd simulate --settings a --jobs b --load 100.001",
    "printd simulate --settings a --jobs b --load 1.0005",
    "printd simulate --settings a --jobs b --with C",
    "printd simulate --settings a --jobs b --jobs c --draw",
    "printd simulate --settings a --jobs b --csv --draw",
    "printd jobs",
    "printd page --follow day.trace",
    "printd page --follow day.trace --to a.html day.trace",
    "printd page --follow day.trace --to a.html --at 5",
    "printd attach --name window",
    "printd attach --to file:printed",
];

/// Lines of words that ask for a text.
const ASKING: [&str; 3] = ["printd --version", "printd --help", "printd serve --help"];

/// The exit status for this text: `status` if the text ends with a line feed, else that of a failure.
fn ends_with(text: &str, status: ExitStatus) -> ExitStatus {
    if text.ends_with('\n') {
        status
    } else {
        ExitStatus::Failed
    }
}

/// The outcome of a line of words: its subcommand, as `Debug` writes it, or the exit status.
fn outcome(alloc: Global, line: &str) -> Result<Result<String, ExitStatus>, AllocError> {
    let words: Vec<&str> = line.split(' ').collect(alloc)?;
    match read_words(alloc, &words) {
        Ok(asked) => Ok(Ok(format!(in alloc; "{asked:?}")?)),
        Err(WordsError::Help(text)) => Ok(Err(ends_with(&text, ExitStatus::Done))),
        Err(WordsError::Fault(text)) => Ok(Err(ends_with(&text, ExitStatus::Refused))),
        Err(WordsError::OutOfMemory) => Ok(Err(ExitStatus::Failed)),
    }
}

/// Returns whether a line of words asks for this subcommand.
fn is_read(alloc: Global, line: &str, wanted: &str) -> Result<bool, AllocError> {
    Ok(match outcome(alloc, line)? {
        Ok(asked) => asked.as_str() == wanted,
        Err(_) => false,
    })
}

/// Returns whether a line of words gives a text with this exit status.
fn ends(alloc: Global, line: &str, wanted: ExitStatus) -> Result<bool, AllocError> {
    Ok(match outcome(alloc, line)? {
        Ok(_) => false,
        Err(status) => status == wanted,
    })
}

#[test]
fn words_that_are_read(rt: HostRuntime) -> Result<(), Fail> {
    for &(line, asked) in &READ {
        let read = is_read(rt.alloc(), line, asked)?;
        assert!(rt; read, "{line}");
    }
    Ok(())
}

#[test]
fn words_that_are_refused(rt: HostRuntime) -> Result<(), Fail> {
    for &line in &REFUSED {
        let refused = ends(rt.alloc(), line, ExitStatus::Refused)?;
        assert!(rt; refused, "{line}");
    }
    Ok(())
}

#[test]
fn words_that_ask_for_a_text(rt: HostRuntime) -> Result<(), Fail> {
    for &line in &ASKING {
        let done = ends(rt.alloc(), line, ExitStatus::Done)?;
        assert!(rt; done, "{line}");
    }
    Ok(())
}
