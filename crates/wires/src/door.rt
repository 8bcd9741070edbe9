//! The words for doors.
ghost use Rattle.std.specs.Prelude.{◌≡◌, IfNone, IfSome};
ghost use Rattle.wires.specs.Door.{IsWordOf, door_option, door_word};

use crate::wire::Door;

impl Door {
    /// Returns the word for the door in a trace and in a recording.
    pub fn word(self) -> &'static str
        ensures { result.now ≡ door_word self }
    {
        match self {
            Door::Ipp => "ipp",
            Door::Lpd => "lpd",
            Door::Devices => "device",
        }
    }

    /// Returns the door of a word of a trace or of a recording, if there is one.
    pub fn of_word(word: &[u8]) -> Option<Door>
        ensures some { IfSome result (IsWordOf word.now) }
        ensures none { IfNone result ((door : Door) → IsWordOf word.now door → ⊥) }
    {
        if word == Door::Ipp.word().as_bytes() {
            Some(Door::Ipp)
        } else if word == Door::Lpd.word().as_bytes() {
            Some(Door::Lpd)
        } else if word == Door::Devices.word().as_bytes() {
            Some(Door::Devices)
        } else {
            None
        }
    }

    /// Returns the option of the command line that states where the door listens, by which the log names it.
    pub fn option(self) -> &'static str
        ensures { result.now ≡ door_option self }
    {
        match self {
            Door::Ipp => "ipp",
            Door::Lpd => "lpd",
            Door::Devices => "devices",
        }
    }
}
