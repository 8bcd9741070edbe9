//! The sentences about the objections to the text of a plan.
use plan_audit::run_check;
use std::alloc::{AllocError, Global};
use std::test::Fail;

/// Inputs, and the sentence about each; empty for an input that is proved best.
const SENTENCES: [(&str, &str); 8] = [
    ("plan\nend\n", ""),
    (
        "",
        "<standard input>: line 1: the text ends here, before the line \"end\" and its line feed",
    ),
    (
        "plan\nend",
        "<standard input>: line 2: the text ends here, before the line \"end\" and its line feed",
    ),
    (
        "plam\nend\n",
        "<standard input>: line 1: this is no line of a plan, or none that may come here",
    ),
    (
        "plan\ndevice A\nclass 50 60\nend\n",
        "<standard input>: line 3: this is no line of a plan, or none that may come here",
    ),
    (
        "plan\nend\nplan\nend\n",
        "<standard input>: line 3: this is no line of a plan, or none that may come here",
    ),
    (
        "plan\nclass 101\nclass\n",
        "<standard input>: line 2: a number is out of its range, a line is one too many, or a priority doesn't fall or an id doesn't rise",
    ),
    (
        "plan\nclass 5\nwait\ntotal 1\njobprices\nend\n",
        "<standard input>: class 5: the total stated, the total of the ways and the sum of the prices are not one number",
    ),
];

/// The sentence about an input. The only error is out of memory.
fn sentence_of(alloc: Global, text: &str) -> Result<String, AllocError> {
    let mut input = text.as_bytes();
    let mut output = Vec::new(alloc);
    match run_check(alloc, &mut input, &mut output, false).objection {
        Some(objection) => Ok(format!(in alloc; "{objection}")?),
        None => Ok(String::new(alloc)),
    }
}

#[test]
fn objections(rt: HostRuntime) -> Result<(), Fail> {
    for &(text, expected) in &SENTENCES {
        let sentence = sentence_of(rt.alloc(), text)?;
        assert_eq!(rt; sentence.as_str(), expected);
    }
    Ok(())
}
