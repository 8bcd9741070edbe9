//! The endings of jobs on their devices, as pictures show them.

use crate::chart::Ending;
use crate::colour::Fill;

/// The endings that a picture shows: a bar without such an ending was printed.
pub(crate) const SHOWN: [Ending; 3] = [Ending::Canceled, Ending::Failed, Ending::Open];

/// The words for an ending; none for a printed job.
pub(crate) fn words_of(ending: Ending) -> &'static str {
    match ending {
        Ending::Printed => "",
        Ending::Canceled => "canceled",
        Ending::Failed => "failed",
        Ending::Open => "not ended",
    }
}

/// The filling of the strip below a bar with this ending; `None` for a printed job.
pub(crate) fn strip_of(ending: Ending) -> Option<Fill> {
    let name = match ending {
        Ending::Printed => return None,
        Ending::Canceled => "url(#canceled)",
        Ending::Failed => "#d00000",
        Ending::Open => "url(#open)",
    };
    Some(Fill::Named(name))
}

/// The character at the end of a bar in a terminal's picture.
pub(crate) fn edge_of(ending: Ending) -> u8 {
    match ending {
        Ending::Printed => b'|',
        Ending::Canceled => b'x',
        Ending::Failed => b'!',
        Ending::Open => b'>',
    }
}
