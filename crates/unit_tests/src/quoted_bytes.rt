//! Bytes as terminals and logs show them.
use quotes::{Escaped, Quoted, Word};
use std::test::Fail;

/// Bytes in quotation marks, and as a word.
const ROWS: [(&[u8], &str, &str); 10] = [
    (b"alice", "\"alice\"", "alice"),
    (b"b.o-b_2@x+y/z:1", "\"b.o-b_2@x+y/z:1\"", "b.o-b_2@x+y/z:1"),
    (b"", "\"\"", "\"\""),
    (b"Anna Meier", "\"Anna Meier\"", "\"Anna Meier\""),
    (b"J\xC3\xBCrg", "\"J\u{fc}rg\"", "\"J\u{fc}rg\""),
    (
        b"say \"hi\" \\",
        "\"say \\\"hi\\\" \\\\\"",
        "\"say \\\"hi\\\" \\\\\"",
    ),
    (b"Ann's", "\"Ann's\"", "\"Ann's\""),
    (b"a\nb\tc\r", "\"a\\nb\\tc\\r\"", "\"a\\nb\\tc\\r\""),
    (b"\x1B[2J", "\"\\u{1b}[2J\"", "\"\\u{1b}[2J\""),
    (b"\xFF\x1B", "\"\\xff\\x1b\"", "\"\\xff\\x1b\""),
];

#[test]
fn bytes_are_escaped(rt: HostRuntime) -> Result<(), Fail> {
    let shown = format!(in rt.alloc(); "{}", Escaped(b"open 1 \x1B[2J"))?;
    assert_eq!(rt; shown.as_str(), "open 1 \\u{1b}[2J");
    let shown = format!(in rt.alloc(); "{}", Escaped(b"it's 1 \"day\""))?;
    assert_eq!(rt; shown.as_str(), "it's 1 \"day\"");
    Ok(())
}

#[test]
fn bytes_are_shown_without_controls(rt: HostRuntime) -> Result<(), Fail> {
    for &(bytes, quoted, word) in &ROWS {
        let shown = format!(in rt.alloc(); "{}", Quoted(bytes))?;
        assert_eq!(rt; shown.as_str(), quoted);
        let shown = format!(in rt.alloc(); "{}", Word(bytes))?;
        assert_eq!(rt; shown.as_str(), word);
    }
    Ok(())
}
