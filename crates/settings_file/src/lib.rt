//! The settings of a server, read from a text of TOML, and the faults of such a text.
//!
//! [`read_settings`] returns exactly the settings of the text, within the limits of [`base_types::Limits`],
//! and a refused text is refused for its first fault, in the order of `docs/SETTINGS.md`. The crate opens no
//! file and prints nothing: [`write_fault`] appends the words of a fault, and [`explain`] makes a sentence
//! for the writer of the file. The sentence has the line, the device or the printer whose table it is, the
//! value that is there, and the values that may be there. Nothing is proved of the sentence, except that
//! making it is safe and ends.
//!
//! The crate `toml` reads the text, so a key that is written twice isn't TOML, and the order of the keys in a
//! table makes no difference.
//!
//! Examples: the traces in `crates/play_examples/data`. Tests of the sentences: `unit_tests`.
#![tactic(auto)]

mod device;
mod entry;
mod fault;
mod hint;
mod key;
mod last_table;
mod place;
mod printer;
mod read;
mod sentence;
mod settings;
mod statement;
mod wanted;

pub use fault::{SettingsFault, write_fault};
pub use key::Key;
pub use read::{read_settings, read_settings_bytes};
pub use sentence::explain;
pub use settings::{DeviceSettings, PrinterSettings, Settings};
