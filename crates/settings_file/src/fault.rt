//! The faults of settings.
ghost use Rattle.std.specs.Prelude.{◌≡◌, ◌++◌, IfOk, OnOk, OnErr, Some};
ghost use Rattle.settings_file.specs.Fault.{Fault, fault_of, fault_words, words_about};

use crate::key::Key;
use base_types::Text;
use std::alloc::{AllocError, AllocFailed, Global};
use thiserror::Error;

/// Why settings are refused: the first fault of a text, or out of memory.
#[derive(Debug, Drop, Error)]
pub enum SettingsFault {
    /// The text isn't TOML.
    #[error("the settings are no TOML")]
    NotToml,
    /// A key that must be there is missing.
    #[error("the key {} is missing", .0.name())]
    Missing(Key),
    /// The value of a key is of a wrong kind.
    #[error("the value of {} is of a wrong kind", .0.name())]
    WrongKind(Key),
    /// The value of a key is of the right kind, but out of range.
    #[error("the value of {} is out of range", .0.name())]
    OutOfRange(Key),
    /// A key that its table may not have, or a device that isn't in the settings.
    #[error("an unknown name: {0:?}")]
    Unknown(Text),
    /// A name that two devices or two printers have.
    #[error("a name is given twice: {0:?}")]
    Twice(Text),
    #[error("out of memory")]
    OutOfMemory,
}

impl From<AllocError> for SettingsFault {
    ghost use Rattle.settings_file.specs.declared.fault.SettingsFault.TheVariants.{OutOfMemory};

    ghost from_gives = { λ _ fault. fault ≡ OutOfMemory };

    fn from(_error: AllocError) -> SettingsFault {
        SettingsFault::OutOfMemory
    }
}

impl<T: Drop> From<AllocFailed<T>> for SettingsFault {
    ghost use Rattle.settings_file.specs.declared.fault.SettingsFault.TheVariants.{OutOfMemory};

    ghost from_gives = { λ _ fault. fault ≡ OutOfMemory };

    fn from(_error: AllocFailed<T>) -> SettingsFault {
        SettingsFault::OutOfMemory
    }
}

/// Appends the words of a fault, such as `settings Missing name`.
///
/// # Errors
///
/// The only error is out of memory: for the words, or as `fault` itself, which is not a fault of the settings
/// and has no words. Nothing is appended then.
pub fn write_fault(fault: &SettingsFault, output: &mut Vec<u8>) -> Result<(), AllocError>
    ensures ok { OnOk result ((named : Fault) × (fault_of fault.now ≡ Some named) × (output.new.items ≡ output.old.items ++ fault_words named)) }
    ensures err { OnErr result (output.new.items ≡ output.old.items) }
{
    let words = fault_words(*output.allocator(), fault)?;
    output.extend_from_slice(&words)
}

// The words of a fault.
fn fault_words(alloc: Global, fault: &SettingsFault) -> Result<Vec<u8>, AllocError>
    ensures { IfOk result (λ words. (named : Fault) × (fault_of fault.now ≡ Some named) × (words.items ≡ fault_words named)) }
{
    match fault {
        SettingsFault::NotToml => Vec::from_slice(alloc, b"settings NotToml"),
        SettingsFault::Missing(key) => words_about(alloc, "Missing", key.name().as_bytes()),
        SettingsFault::WrongKind(key) => words_about(alloc, "WrongKind", key.name().as_bytes()),
        SettingsFault::OutOfRange(key) => words_about(alloc, "OutOfRange", key.name().as_bytes()),
        SettingsFault::Unknown(name) => words_about(alloc, "Unknown", name.as_bytes()),
        SettingsFault::Twice(name) => words_about(alloc, "Twice", name.as_bytes()),
        SettingsFault::OutOfMemory => Err(AllocError),
    }
}

// The words of a fault at a key or a name.
fn words_about(alloc: Global, kind: &str, name: &[u8]) -> Result<Vec<u8>, AllocError>
    ensures { IfOk result (λ words. words.items ≡ words_about kind.now name.now) }
{
    let mut words = Vec::from_slice(alloc, b"settings ")?;
    words.extend_from_slice(kind.as_bytes())?;
    words.extend_from_slice(b" ")?;
    words.extend_from_slice(name)?;
    Ok(words)
}
