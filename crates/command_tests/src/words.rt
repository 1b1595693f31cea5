//! What the words ask for.

use speak_words::{Asked, Mode, Settings, read_words};
use std::alloc::{AllocError, Global};
use std::test::Fail;

// The words after the program's name, and what they ask for.
const ROWS: [(&[&str], &str); 59] = [
    // Each option given, missing, repeated, without its value and misspelt.
    (&["--setup", "s"], "speak s"),
    (&[], "refused"),
    (&["--setup", "s", "--setup", "s"], "refused"),
    (&["--setup"], "refused"),
    (&["--setup", "--mode", "check"], "refused"),
    (&["--setp", "s"], "refused"),
    (&["--set", "s"], "refused"),
    (&["-setup", "s"], "refused"),
    (&["--setup", "s", "--mod", "check"], "refused"),
    (&["--mode", "sample", "--counts", "7"], "refused"),
    (&["--mode", "sample", "--Start", "7"], "refused"),
    (&["--setup", "s", "--mode", "speak"], "speak s"),
    (&["--mode", "classify", "--setup", "s"], "classify s"),
    (&["--setup", "s", "--mode", "check"], "check s"),
    (&["--mode", "sample"], "sample 1000 1"),
    (&["--setup", "s", "--mode"], "refused"),
    (
        &["--setup", "s", "--mode", "check", "--mode", "check"],
        "refused",
    ),
    (&["--setup", "s", "--mode", "talk"], "refused"),
    (&["--setup", "s", "--mode", "Speak"], "refused"),
    (&["--mode", "sample", "--count", "7"], "sample 7 1"),
    (
        &["--count", "7", "--start", "9", "--mode", "sample"],
        "sample 7 9",
    ),
    (&["--mode", "sample", "--count"], "refused"),
    (
        &["--mode", "sample", "--count", "7", "--count", "7"],
        "refused",
    ),
    (&["--mode", "sample", "--start"], "refused"),
    (
        &["--mode", "sample", "--start", "7", "--start", "7"],
        "refused",
    ),
    // A setup belongs to each mode but sample.
    (&["--mode", "speak"], "refused"),
    (&["--mode", "classify"], "refused"),
    (&["--mode", "check"], "refused"),
    (&["--mode", "sample", "--setup", "s"], "refused"),
    // The ends of the numbers.
    (&["--mode", "sample", "--count", "0"], "refused"),
    (&["--mode", "sample", "--count", "1"], "sample 1 1"),
    (
        &["--mode", "sample", "--count", "100000"],
        "sample 100000 1",
    ),
    (&["--mode", "sample", "--count", "100001"], "refused"),
    (&["--mode", "sample", "--start", "0"], "sample 1000 0"),
    (
        &["--mode", "sample", "--start", "2147483647"],
        "sample 1000 2147483647",
    ),
    (&["--mode", "sample", "--start", "2147483648"], "refused"),
    // They are read in the other modes too.
    (&["--setup", "s", "--count", "5", "--start", "7"], "speak s"),
    (&["--setup", "s", "--count", "0"], "refused"),
    // What a number is.
    (&["--mode", "sample", "--count", "+3"], "sample 3 1"),
    (&["--mode", "sample", "--count", "007"], "sample 7 1"),
    (&["--mode", "sample", "--count", "-3"], "refused"),
    (&["--mode", "sample", "--count", "three"], "refused"),
    (&["--mode", "sample", "--count", ""], "refused"),
    // With `=`, and empty values.
    (&["--mode=sample", "--count=3", "--start=4"], "sample 3 4"),
    (&["--setup=s"], "speak s"),
    (&["--setup=a=b"], "speak a=b"),
    (&["--setup", ""], "speak "),
    (&["--setup", "s", "--mode="], "refused"),
    (&["--mode=sample", "--count="], "refused"),
    (&["--mode=sample", "--start="], "refused"),
    (&["--mode=sample", "--count=100001"], "refused"),
    (&["--mode=sample", "--start=2147483648"], "refused"),
    // Words that are no options.
    (&["--setup", "s", "--"], "speak s"),
    (&["--", "--setup", "s"], "refused"),
    (&["--setup", "s", "t"], "refused"),
    (&["--help"], "refused"),
    (&["-h"], "refused"),
    (&["help"], "refused"),
    (&["--version"], "refused"),
];

// And how it is to be done.
const HOW_ROWS: [(&[&str], &str); 27] = [
    (&["--setup", "s", "--places", "0"], "refused"),
    (&["--setup", "s", "--places", "1"], "speak s, 1 places"),
    (
        &["--setup", "s", "--places", "4096"],
        "speak s, 4096 places",
    ),
    (&["--setup", "s", "--places", "256"], "speak s"),
    (&["--setup", "s", "--places", "4097"], "refused"),
    (&["--setup", "s", "--places"], "refused"),
    (
        &["--setup", "s", "--places", "7", "--places", "7"],
        "refused",
    ),
    (&["--setup", "s", "--places=seven"], "refused"),
    (&["--setup", "s", "--jobs", "0"], "refused"),
    (&["--setup", "s", "--jobs", "1"], "speak s"),
    (&["--setup", "s", "--jobs", "63"], "speak s, 63 jobs"),
    (&["--setup", "s", "--jobs", "64"], "refused"),
    (&["--setup", "s", "--jobs"], "refused"),
    (&["--setup", "s", "--jobs", "2", "--jobs", "2"], "refused"),
    (&["--setup", "s", "--jobs=two"], "refused"),
    (&["--setup", "s", "--sweep", "0"], "speak s"),
    (
        &["--setup", "s", "--sweep", "10000"],
        "speak s, 10000 rounds",
    ),
    (&["--setup", "s", "--sweep", "10001"], "refused"),
    (&["--setup", "s", "--sweep", "-1"], "refused"),
    (&["--setup", "s", "--sweep"], "refused"),
    (&["--setup", "s", "--sweep=1", "--sweep=1"], "refused"),
    (
        &["--mode=sample", "--sweep=1", "--jobs=8", "--places=1"],
        "sample 1000 1, 1 places, 8 jobs, 1 rounds",
    ),
    (&["--setup", "s", "--report"], "speak s, with a report"),
    (
        &["--report", "--mode=sample"],
        "sample 1000 1, with a report",
    ),
    (&["--setup", "s", "--report", "--report"], "refused"),
    (&["--setup", "s", "--report=true"], "refused"),
    (&["--setup", "s", "--report", "true"], "refused"),
];

fn words_of(alloc: Global, all: &[&str]) -> Result<Vec<String>, AllocError> {
    let mut words = Vec::new(alloc);
    words.push(String::from_str(alloc, "jackdawtray")?)?;
    for word in all {
        words.push(String::from_str(alloc, *word)?)?;
    }
    Ok(words)
}

fn told(alloc: Global, asked: Option<Asked<'_>>) -> Result<String, AllocError> {
    let Some(asked) = asked else {
        return String::from_str(alloc, "refused");
    };
    let mut text = match asked.mode {
        Mode::Speak { setup } => format!(in alloc; "speak {setup}"),
        Mode::Classify { setup } => format!(in alloc; "classify {setup}"),
        Mode::Check { setup } => format!(in alloc; "check {setup}"),
        Mode::Sample { count, start } => format!(in alloc; "sample {count} {start}"),
    }?;
    let Settings {
        places,
        jobs,
        sweep,
        report,
    } = asked.settings;
    if places != 256 {
        text.push_str(&format!(in alloc; ", {places} places")?)?;
    }
    if jobs != 1 {
        text.push_str(&format!(in alloc; ", {jobs} jobs")?)?;
    }
    if sweep != 0 {
        text.push_str(&format!(in alloc; ", {sweep} rounds")?)?;
    }
    if report {
        text.push_str(", with a report")?;
    }
    Ok(text)
}

#[test]
fn asks(rt: HostRuntime) -> Result<(), Fail> {
    let alloc = rt.alloc();
    for (row, (given, wanted)) in ROWS.iter().enumerate() {
        let words = words_of(alloc, *given)?;
        let told = told(alloc, read_words(alloc, &words)?)?;
        assert_eq!(rt; told.as_str(), *wanted, "in row {row}");
    }
    Ok(())
}

#[test]
fn asks_how(rt: HostRuntime) -> Result<(), Fail> {
    let alloc = rt.alloc();
    for (row, (given, wanted)) in HOW_ROWS.iter().enumerate() {
        let words = words_of(alloc, *given)?;
        let told = told(alloc, read_words(alloc, &words)?)?;
        assert_eq!(rt; told.as_str(), *wanted, "in row {row}");
    }
    Ok(())
}
