//! What a transducer reads, as a list of its paths.

use fst_core::{Arc, Fst};
use std::alloc::{AllocError, Global};

/// A way through a transducer: where it is, and what it has read, written and cost.
#[derive(Drop)]
struct Way {
    state: usize,
    input: String,
    output: String,
    weight: u64,
}

/// The readings of the paths of at most so many arcs, each as often as it comes, in the order of their bytes.
pub fn readings(alloc: Global, m: &Fst, arcs: u8) -> Result<String, AllocError> {
    let lines = listed(alloc, m, None, arcs)?;
    lines.concat(alloc)
}

/// The readings of the paths of at most so many arcs that read this line, each once.
pub fn readings_of(alloc: Global, m: &Fst, line: &str, arcs: u8) -> Result<String, AllocError> {
    let mut lines = listed(alloc, m, Some(line), arcs)?;
    lines.dedup();
    lines.concat(alloc)
}

/// The readings as `input|output|weight ` or, where the line is given that is read, as `output/weight `.
fn listed(alloc: Global, m: &Fst, line: Option<&str>, arcs: u8) -> Result<Vec<String>, AllocError> {
    let mut lines = Vec::new(alloc);
    let mut ways = Vec::new(alloc);
    ways.push(Way {
        state: m.start(),
        input: String::new(alloc),
        output: String::new(alloc),
        weight: 0,
    })?;
    for _ in 0..usize::from(arcs) + 1 {
        ways = walked(alloc, m, line, &ways, &mut lines)?;
    }
    lines.sort()?;
    Ok(lines)
}

/// The ways of one arc more. Those that end are written down.
fn walked(
    alloc: Global,
    m: &Fst,
    line: Option<&str>,
    ways: &[Way],
    lines: &mut Vec<String>,
) -> Result<Vec<Way>, AllocError> {
    let mut longer = Vec::new(alloc);
    for way in ways {
        if way.state < m.len() {
            if let Some(last) = m.final_of(way.state) {
                note(alloc, line, way, last, lines)?;
            }
            follow(alloc, m.arcs_of(way.state), line, way, &mut longer)?;
        }
    }
    Ok(longer)
}

/// Writes down the reading of a way that ends with this weight.
fn note(
    alloc: Global,
    line: Option<&str>,
    way: &Way,
    last: u64,
    lines: &mut Vec<String>,
) -> Result<(), AllocError> {
    let weight = way.weight.saturating_add(last);
    match line {
        None => lines.push(format!(in alloc; "{}|{}|{weight} ", way.input, way.output)?)?,
        Some(line) if way.input.as_str() == line => {
            lines.push(format!(in alloc; "{}/{weight} ", way.output)?)?
        }
        Some(_) => {}
    }
    Ok(())
}

/// A way with one more of these arcs, where the line has what it reads.
fn follow(
    alloc: Global,
    arcs: &[Arc],
    line: Option<&str>,
    way: &Way,
    longer: &mut Vec<Way>,
) -> Result<(), AllocError> {
    for arc in arcs {
        let input = more(alloc, &way.input, arc.input)?;
        if line.is_none_or(|line| line.starts_with(input.as_str())) {
            longer.push(Way {
                state: arc.next,
                input,
                output: more(alloc, &way.output, arc.output)?,
                weight: way.weight.saturating_add(arc.weight),
            })?;
        }
    }
    Ok(())
}

/// A text with one label more, which may be the empty label.
fn more(alloc: Global, text: &str, label: u16) -> Result<String, AllocError> {
    let mut longer = String::from_str(alloc, text)?;
    if label != 0 {
        longer.push(char::from_u32(u32::from(label)).unwrap_or('?'))?;
    }
    Ok(longer)
}
