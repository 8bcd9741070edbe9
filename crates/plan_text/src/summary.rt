//! The words for a plan, and for a job and its device, in a played trace and in a server's log.
ghost use Rattle.std.specs.Prelude.{◌≡◌, ◌++◌, OnOk};
ghost use Rattle.plan_text.specs.Summary.{class_word, stranded_word, job_words};

use crate::names::name_of;
use crate::write_word::cause_word;
use base_types::{DeviceId, JobId, Priority, Text};
use plan_prices::Stranded;
use std::alloc::{AllocError, Global};

/// Appends a class: its priority and the total of its completion times in ms.
pub fn put_class_word(
    alloc: Global,
    output: &mut Vec<u8>,
    priority: Priority,
    total: u64,
) -> Result<(), AllocError>
    ensures { OnOk result (output.new.items ≡ output.old.items ++ class_word priority total) }
{
    let level = priority.level();
    let word = format!(in alloc; " {level}:{total}")?;
    output.extend_from_slice(word.as_bytes())
}

/// Appends a job that no device can print, with its cause.
pub fn put_stranded_word(
    alloc: Global,
    output: &mut Vec<u8>,
    stranded: Stranded,
) -> Result<(), AllocError>
    ensures { OnOk result (output.new.items ≡ output.old.items ++ stranded_word stranded) }
{
    let id = stranded.job.number();
    let cause = cause_word(stranded.cause);
    let word = format!(in alloc; " -{id}:{cause}")?;
    output.extend_from_slice(word.as_bytes())
}

/// Appends a word, the id of a job, and the name of its device; the name is empty if the device has none.
pub fn put_job_words(
    alloc: Global,
    output: &mut Vec<u8>,
    word: &str,
    names: &[Text],
    job: JobId,
    device: DeviceId,
) -> Result<(), AllocError>
    ensures { OnOk result (output.new.items ≡ output.old.items ++ job_words word.now names.now job device) }
{
    let id = job.number();
    let words = format!(in alloc; "{word} {id} ")?;
    output.extend_from_slice(words.as_bytes())?;
    output.extend_from_slice(name_of(names, device))
}
