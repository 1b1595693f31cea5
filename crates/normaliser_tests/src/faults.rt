//! Faults: which rules are refused, and what is printed.

use crate::rules::refusal;
use normaliser::{LineFault, LoadFault};
use std::test::Fail;

const KEPT: &str = "export MAIN = \"a\";";

const EMPTY: &str = "export MAIN = CDRewrite[\"\" : \"b\", \"\", \"\", \"a\"*];";

/// Rules of a classifier and of a verbaliser, and the number of the first that may rewrite the empty text.
type Row = (&'static [&'static str], &'static [&'static str], usize);

const REFUSED: [Row; 5] = [
    (&[EMPTY], &[], 0),
    (&[KEPT, EMPTY], &[EMPTY], 1),
    (&[KEPT], &[EMPTY], 1),
    (&[KEPT, KEPT], &[KEPT, EMPTY, EMPTY], 3),
    (&[KEPT, KEPT, KEPT, KEPT], &[KEPT, KEPT, KEPT, EMPTY], 7),
];

#[test]
fn rules_that_are_refused(rt: HostRuntime) -> Result<(), Fail> {
    let alloc = rt.alloc();
    for (row, (classifier, verbaliser, rule)) in REFUSED.iter().enumerate() {
        let fault = refusal(alloc, *classifier, *verbaliser)?;
        assert!(rt;
            fault == Some(LoadFault::RewritesEmpty { rule: *rule }),
            "row {row}"
        );
    }
    Ok(())
}

const LOAD_FAULTS: [(LoadFault, &str); 2] = [
    (LoadFault::RewritesEmpty { rule: 3 }, "RewritesEmpty"),
    (LoadFault::Memory, "Memory"),
];

const LINE_FAULTS: [(LineFault, &str); 7] = [
    (LineFault::NulByte { at: 3 }, "NulByte"),
    (LineFault::LongLine, "LongLine"),
    (LineFault::NoPath, "NoPath"),
    (LineFault::NotTokens { token: 3 }, "NotTokens"),
    (LineFault::TooManyFields { token: 3 }, "TooManyFields"),
    (LineFault::NoWords { token: 3 }, "NoWords"),
    (LineFault::Memory, "Memory"),
];

#[test]
fn names_that_are_printed(rt: HostRuntime) -> Result<(), Fail> {
    let alloc = rt.alloc();
    for (fault, name) in &LOAD_FAULTS {
        let printed = format!(in alloc; "{fault}")?;
        assert_eq!(rt; printed.as_str(), *name);
    }
    for (fault, name) in &LINE_FAULTS {
        let printed = format!(in alloc; "{fault}")?;
        assert_eq!(rt; printed.as_str(), *name);
    }
    Ok(())
}
