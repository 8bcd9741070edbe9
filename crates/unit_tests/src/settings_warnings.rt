//! Advice about settings that are allowed.
use settings_advice::advice_on;
use settings_file::{Settings, read_settings_bytes};
use std::alloc::{AllocError, Global};
use std::test::Fail;

/// Two devices and a printer, of which each row below changes a text.
const WHOLE: &str =
    "version = 1\nuri_base = \"ipp://localhost:631\"\n[[device]]\nname = \"window\"\nrate_one = 10\nmedia = [\"iso_a4_210x297mm\"]\nformats = [\"text/plain\"]\n[[device]]\nname = \"hall\"\nrate_one = 10\nmedia = [\"iso_a3_297x420mm\"]\nformats = [\"image/jpeg\"]\n[[printer]]\nname = \"lab\"\ndevices = [\"window\", \"hall\"]\nmedia_default = \"iso_a4_210x297mm\"\nformat_default = \"text/plain\"\n";

/// A text in the whole file, the text in its place, and the lines about the changed file.
const ROWS: [(&str, &str, &str); 10] = [
    ("setup", "", ""),
    (
        "ipp://localhost:631",
        "localhost:631",
        "uri_base \"localhost:631\" doesn't begin with ipp://, so clients can't print by IPP\n",
    ),
    (
        "ipp://localhost:631",
        "http://localhost:631",
        "uri_base \"http://localhost:631\" doesn't begin with ipp://, so clients can't print by IPP\n",
    ),
    (
        "ipp://localhost:631",
        "ipp://localhost:631/",
        "uri_base \"ipp://localhost:631/\" ends in a slash, so clients can't print by IPP\n",
    ),
    (
        "media_default = \"iso_a4_210x297mm\"",
        "media_default = \"na_letter_8.5x11in\"",
        "printer \"lab\": none of its devices prints \"text/plain\" on \"na_letter_8.5x11in\", its defaults\n",
    ),
    (
        "format_default = \"text/plain\"",
        "format_default = \"jpg\"",
        "printer \"lab\": none of its devices prints \"jpg\" on \"iso_a4_210x297mm\", its defaults\n",
    ),
    (
        "format_default = \"text/plain\"",
        "format_default = \"image/jpeg\"",
        "printer \"lab\": none of its devices prints \"image/jpeg\" on \"iso_a4_210x297mm\", its defaults\n",
    ),
    (
        "[\"window\", \"hall\"]",
        "[\"window\"]",
        "device \"hall\": no printer has it\n",
    ),
    (
        "[\"window\", \"hall\"]",
        "[]",
        "device \"window\": no printer has it\ndevice \"hall\": no printer has it\nprinter \"lab\": none of its devices prints \"text/plain\" on \"iso_a4_210x297mm\", its defaults\n",
    ),
    (
        "\"hall\"",
        "\"Window\"",
        "devices \"window\" and \"Window\": their names differ in case alone\n",
    ),
];

/// The advice about the whole file with a text replaced, a line each. The only error is out of memory.
fn advised(alloc: Global, old: &str, new: &str) -> Result<String, AllocError> {
    let text = WHOLE.replace(alloc, old, new)?;
    match read_settings_bytes(alloc, text.as_bytes()) {
        Ok(settings) => lines_on(alloc, &settings),
        Err(_) => Ok(String::new(alloc)),
    }
}

/// The advice about settings, a line each. The only error is out of memory.
fn lines_on(alloc: Global, settings: &Settings) -> Result<String, AllocError> {
    let mut lines = String::new(alloc);
    for advice in &advice_on(alloc, settings)? {
        writeln!(lines, "{advice}")?;
    }
    Ok(lines)
}

#[test]
fn settings_hardly_meant(rt: HostRuntime) -> Result<(), Fail> {
    for &(old, new, lines) in &ROWS {
        let advised = advised(rt.alloc(), old, new)?;
        assert_eq!(rt; advised.as_str(), lines);
    }
    Ok(())
}
