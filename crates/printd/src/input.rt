//! The input of a command: a file, or standard input.
use crate::failure::{cannot, or_cannot_with, out_of_memory, say};
use program::ExitStatus;
use std::alloc::AllocError;
use std::fmt::Display;
use std::fs::File;

/// The name of standard input in sentences about its text.
pub(crate) const INPUT: &str = "<standard input>";

/// Opens a file for reading. An error is reported, and its exit status returned.
pub(crate) fn open(rt: &HostRuntime, file: &str) -> Result<File, ExitStatus> {
    or_cannot_with(rt, "read", file, File::open(rt, file))
}

/// The name of an input in a sentence about reading it.
pub(crate) fn spoken(name: &str) -> &str {
    if name == INPUT {
        "standard input"
    } else {
        name
    }
}

/// Reports an objection to the text of an input with this name. It begins with the name of standard input, in
/// place of which it gets this name.
pub(crate) fn say_of<T: Display>(rt: &HostRuntime, name: &str, objection: &T) {
    if say_named(rt, name, objection).is_err() {
        let _status = cannot(rt, "say what is wrong", out_of_memory());
    }
}

/// Reports an objection as [`say_of`] does. The only error is out of memory.
fn say_named<T: Display>(rt: &HostRuntime, name: &str, objection: &T) -> Result<(), AllocError> {
    let sentence = format!(in rt.alloc(); "{objection}")?;
    match sentence.as_str().strip_prefix(INPUT) {
        Some(rest) => {
            let named = format!(in rt.alloc(); "{name}{rest}")?;
            say(rt, &named);
        }
        None => say(rt, &sentence),
    }
    Ok(())
}
