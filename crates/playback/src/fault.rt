//! Why a recorded day isn't played further.
ghost use Rattle.std.specs.Prelude.{IfOk};
ghost use Rattle.settings_file.specs.Settings.{MeetsLimits};

use program::ExitStatus;
use settings_file::{Settings, SettingsFault, explain, read_settings_bytes};
use std::alloc::{AllocError, Global};

/// Why a recorded day isn't played further.
#[derive(Drop)]
pub enum DayFault {
    /// The exit status, and the reason as a sentence, which begins with the name of the day's file.
    Reported(ExitStatus, String),
    OutOfMemory,
}

impl From<AllocError> for DayFault {
    fn from(_error: AllocError) -> DayFault {
        DayFault::OutOfMemory
    }
}

impl DayFault {
    /// The fault with a sentence.
    fn reported(status: ExitStatus, sentence: Result<String, AllocError>) -> DayFault {
        match sentence {
            Ok(sentence) => DayFault::Reported(status, sentence),
            Err(_) => DayFault::OutOfMemory,
        }
    }

    /// The line after the settings isn't that of a recording.
    pub(crate) fn no_start(alloc: Global, file: &str) -> DayFault {
        let sentence = format!(in alloc;
            "{file}: this is no recorded day: the line after \".\" isn't recorded and a number"
        );
        DayFault::reported(ExitStatus::Refused, sentence)
    }

    /// The file continues another.
    pub(crate) fn goes_on(alloc: Global, file: &str) -> DayFault {
        let sentence = format!(in alloc;
            "{file}: this continues another file, which its first line names: play both as one, the earlier first"
        );
        DayFault::reported(ExitStatus::Refused, sentence)
    }

    /// The file has no line after the settings.
    pub(crate) fn no_stop(alloc: Global, file: &str) -> DayFault {
        let sentence = format!(in alloc; "{file}: no line after the settings is \".\" alone");
        DayFault::reported(ExitStatus::Refused, sentence)
    }

    /// The line of a number isn't a line of a recording.
    pub(crate) fn bad_line(alloc: Global, file: &str, number: u64) -> DayFault {
        let sentence = format!(in alloc;
            "{file}: line {number}: this is no line of a recorded day"
        );
        DayFault::reported(ExitStatus::Refused, sentence)
    }

    /// Memory was refused to the server in the turn with the line of a number.
    pub(crate) fn refused(alloc: Global, file: &str, number: u64) -> DayFault {
        let sentence = format!(in alloc;
            "{file}: line {number}: memory was refused to the server here, and what follows isn't played"
        );
        DayFault::reported(ExitStatus::No, sentence)
    }

    /// In the turn that the line of a number ends, the server makes another call than the recorded one.
    pub(crate) fn differs(alloc: Global, file: &str, number: u64) -> DayFault {
        let sentence = format!(in alloc;
            "{file}: line {number}: in this turn the server does something else than was recorded"
        );
        DayFault::reported(ExitStatus::No, sentence)
    }

    /// The settings of a file are refused.
    fn settings(alloc: Global, file: &str, text: &[u8], fault: &SettingsFault) -> DayFault {
        if matches!(fault, SettingsFault::OutOfMemory) {
            return DayFault::OutOfMemory;
        }
        match explain(alloc, file, text) {
            Ok(Some(sentence)) => DayFault::Reported(ExitStatus::Refused, sentence),
            Ok(None) => DayFault::reported(
                ExitStatus::Refused,
                format!(in alloc; "{file}: the settings are refused"),
            ),
            Err(_) => DayFault::OutOfMemory,
        }
    }
}

/// Reads the settings of a file.
pub(crate) fn settings_of(alloc: Global, file: &str, text: &[u8]) -> Result<Settings, DayFault>
    ensures { IfOk result MeetsLimits }
{
    match read_settings_bytes(alloc, text) {
        Ok(settings) => Ok(settings),
        Err(fault) => Err(DayFault::settings(alloc, file, text, &fault)),
    }
}
