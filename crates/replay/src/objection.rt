//! The faults of a trace, in sentences for its writer.

use settings_file::explain;
use std::alloc::Global;
use std::fmt;
use traces::LineFault;

/// The name of the settings' file in the sentences.
const INPUT: &str = "<standard input>";

/// Why an input isn't a trace that can be played to its end. Displayed, it is a sentence without a line feed,
/// which begins with the name of standard input.
#[derive(Drop)]
pub enum Objection {
    /// The input has more bytes than [`base_types::Limits::INPUT_BYTES`].
    Size,
    /// No line is only a point, as the line after the settings has to be.
    NoPoint,
    /// The settings are refused. The sentence has the reason, unless memory for it was refused.
    Settings(Option<String>),
    /// The line of this number, counted from 1, is bad.
    Line { number: usize, fault: LineFault },
}

impl fmt::Display for Objection {
    fn fmt<W: fmt::Write>(&self, f: &mut fmt::Formatter<W>) -> fmt::Result {
        match self {
            Objection::Size => write!(f, "{INPUT}: this has more than 67,108,864 bytes"),
            Objection::NoPoint => {
                write!(f, "{INPUT}: no line after the settings is \".\" alone")
            }
            Objection::Settings(Some(sentence)) => f.write_str(sentence),
            Objection::Settings(None) => write!(f, "{INPUT}: the settings are refused"),
            Objection::Line { number, fault } => write!(f, "{INPUT}: line {number}: {fault}"),
        }
    }
}

/// The fault of the settings of a trace, with these bytes.
pub(crate) fn about_settings(alloc: Global, settings: &[u8]) -> Objection {
    match explain(alloc, INPUT, settings) {
        Ok(sentence) => Objection::Settings(sentence),
        Err(_) => Objection::Settings(None),
    }
}
