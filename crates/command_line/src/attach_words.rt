//! The words of `printd attach`.

use clap::ArgMatches;

/// The options of `printd attach`.
#[derive(Clone, Copy, Debug)]
pub struct Attaching<'a> {
    /// The name of the device of the settings that the printer serves as.
    pub name: &'a str,
    /// The host and the port of the server's door for devices.
    pub server: &'a str,
    /// The address of the printer or folder that prints, as it was written.
    pub to: &'a str,
    /// The media type of every document, if it is given.
    pub format: Option<&'a str>,
    /// The time that a folder takes for a page, in ms.
    pub ms_per_page: u32,
    /// The silence after which the job of a printer that has taken all its octets counts as printed, in
    /// seconds.
    pub linger: u32,
    /// The longest time in which a job may make no progress at the printer, in seconds.
    pub timeout: u32,
    /// Whether the printer speaks PJL.
    pub pjl: bool,
    pub turns: u64,
    /// Whether a log is written to standard error.
    pub log: bool,
    /// Whether the printer's rates and its setup time are measured and written.
    pub measure: bool,
    /// Whether the program ends when its standard input ends.
    pub until_closed: bool,
}

/// The options that the words of the command give; `None` where a required word is missing.
pub(crate) fn attach_words<'a>(found: &ArgMatches<'a>) -> Option<Attaching<'a>> {
    Some(Attaching {
        name: found.get_str("name")?,
        server: found.get_str("server")?,
        to: found.get_str("to")?,
        format: found.get_str("format"),
        ms_per_page: found.get_one::<u32>("ms-per-page")?,
        linger: found.get_one::<u32>("linger")?,
        timeout: found.get_one::<u32>("timeout")?,
        pjl: found.get_flag("pjl"),
        turns: found.get_one::<u64>("turns").unwrap_or(u64::MAX),
        log: found.get_flag("log"),
        measure: found.get_flag("measure"),
        until_closed: found.get_flag("until-closed"),
    })
}
