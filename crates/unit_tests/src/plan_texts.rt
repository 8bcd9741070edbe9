//! Texts that are no plan.
use plan_text::{ReadError, TextFault, read_plan_text};
use std::alloc::Global;
use std::test::Fail;

/// The fault of a text; `None` for a plan.
fn fault_of(alloc: Global, text: &str) -> Result<Option<TextFault>, Fail> {
    match read_plan_text(alloc, text.as_bytes()) {
        Ok(_) => Ok(None),
        Err(ReadError::Fault(fault)) => Ok(Some(fault)),
        Err(ReadError::OutOfMemory) => Err(Fail::from("memory")),
    }
}

/// Texts that are no plan, each for one reason, and the shortest text that is a plan.
const TEXTS: [(&str, Option<TextFault>); 11] = [
    ("", Some(TextFault::NoEnd)),
    ("plan\nend", Some(TextFault::NoEnd)),
    ("plan\nend\n", None),
    ("plan\nend\n\n", Some(TextFault::BadLine)),
    (
        "plan\ndevice A\nclass 50\nwait 0\nway A\n",
        Some(TextFault::NoEnd),
    ),
    (
        "plan\ndevice A\nclass 50\nwait 18014398509481985\n",
        Some(TextFault::OutOfRange),
    ),
    (
        "plan\ndevice A\nclass 50\nwait 0\nway  A\n",
        Some(TextFault::BadLine),
    ),
    (
        "plan\ndevice A\nclass 50\njob 1 01\n",
        Some(TextFault::BadLine),
    ),
    ("plan\nclass 101\nclass\n", Some(TextFault::OutOfRange)),
    (
        "plan\nstranded 2 Media\nstranded 1 Format\n",
        Some(TextFault::OutOfRange),
    ),
    (
        "plan\nclass 5\nwait\ntotal 0\njobprices -0\n",
        Some(TextFault::BadLine),
    ),
];

#[test]
fn refused_texts(rt: HostRuntime) -> Result<(), Fail> {
    for &(text, fault) in &TEXTS {
        assert_eq!(rt; fault_of(rt.alloc(), text)?, fault);
    }
    Ok(())
}
