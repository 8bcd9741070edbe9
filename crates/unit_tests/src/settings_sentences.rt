//! Sentences about the first fault of a settings file.
use settings_file::explain;
use std::alloc::{AllocError, Global};
use std::test::Fail;

/// A device and a printer, of which each row below changes a line.
const WHOLE: &str =
    "version = 1\nuri_base = \"ipp://localhost:631\"\n[[device]]\nname = \"window\"\nrate_one = 10\nmedia = [\"iso_a4_210x297mm\"]\nformats = [\"text/plain\"]\n[[printer]]\nname = \"lab\"\ndevices = [\"window\"]\nmedia_default = \"iso_a4_210x297mm\"\nformat_default = \"text/plain\"\n";

/// A text in the whole file, the text in its place, and the sentence about the changed file.
const ROWS: [(&str, &str, &str); 18] = [
    (
        "rate_one = 10",
        "rate_one = 0",
        "f: line 5, device \"window\": rate_one is 0, and may be 1 to 60,000, in ms",
    ),
    (
        "rate_one = 10",
        "# [[device]]\nrate_one = \"fast\"",
        "f: line 6, device \"window\": rate_one is \"fast\", and may be 1 to 60,000, in ms",
    ),
    (
        "rate_one = 10\n",
        "",
        "f: line 3, device \"window\": rate_one is missing; it is 1 to 60,000, in ms",
    ),
    ("version = 1\n", "", "f: version is missing; it is 1 or 2"),
    (
        "version = 1",
        "version = 3",
        "f: line 1: version is 3, and may be 1 or 2",
    ),
    (
        "rate_one = 10",
        "rate_one = 10\ncolour = [1,\n 2]",
        "f: line 6, device \"window\": colour is no key of a device",
    ),
    (
        "devices = [\"window\"]",
        "devices = [\"door\"]",
        "f: line 8, printer \"lab\": there is no device \"door\"",
    ),
    (
        "[[printer]]",
        "[[device]]\nname = 'window'\nrate_one = 1\nmedia = []\nformats = []\n[[printer]]",
        "f: line 9, device 'window': an earlier device has the name \"window\"",
    ),
    (
        "name = \"window\"",
        "name = \"the window\"",
        "f: line 4, device \"the window\": name is \"the window\", and may be 1 to 32 letters, digits, '_' and '-'",
    ),
    ("setup", "", ""),
    (
        "version = 1",
        "version = ",
        "f: line 1, column 11: this is no TOML: invalid value, expected a string, number, boolean, date-time, array or inline table",
    ),
    (
        "version = 1",
        "extra = 1\nversion = 1",
        "f: line 1: extra is no key of the settings",
    ),
    (
        "version = 1",
        "\"\\u001b[2J\" = 1\nversion = 1",
        "f: line 1: \\u{1b}[2J is no key of the settings",
    ),
    (
        "version = 1",
        "version = \"1\"",
        "f: line 1: version is \"1\", and may be 1 or 2, without quotation marks",
    ),
    (
        "rate_one = 10",
        "rate-one = 10",
        "f: line 3, device \"window\": rate_one is missing; line 5 has rate-one, which is no key",
    ),
    (
        "rate_one = 10",
        "rate_one = 10\nfinishings = [\"staple\"]",
        "f: line 6, device \"window\": finishings is a key of a device in version 2: write version = 2",
    ),
    (
        "media = [\"iso_a4_210x297mm\"]",
        "media = [\"A4\"]",
        "f: line 6, device \"window\": media is [\"A4\"], and may be a list of at most 16 texts, each a medium's name, as \"iso_a4_210x297mm\": 1 to 64 of a to z, digits, '.', '_' and '-'; A4 is \"iso_a4_210x297mm\"",
    ),
    (
        "format_default = \"text/plain\"",
        "format_default = \"Text/Plain\"",
        "f: line 12, printer \"lab\": format_default is \"Text/Plain\", and may be a document format, as \"application/pdf\": at most 64 bytes that print, without space, ',' and capitals",
    ),
];

/// The sentence about the whole file with a text replaced; empty where the file has no fault. The only error
/// is out of memory.
fn sentence_about(alloc: Global, old: &str, new: &str) -> Result<String, AllocError> {
    let text = WHOLE.replace(alloc, old, new)?;
    let sentence = explain(alloc, "f", text.as_bytes())?;
    Ok(sentence.unwrap_or(String::new(alloc)))
}

#[test]
fn sentences_about_settings(rt: HostRuntime) -> Result<(), Fail> {
    for &(old, new, sentence) in &ROWS {
        let found = sentence_about(rt.alloc(), old, new)?;
        assert_eq!(rt; found.as_str(), sentence);
    }
    Ok(())
}
