// What is told of a setup or a grammar that is refused.

ghost use Rattle.std.specs.Prelude.{◌≡◌, ◌++◌, IfOk, OnOk};
ghost use Rattle.std.specs.List.{flat_map};
ghost use Rattle.speak_setup.specs.declared.setup.SetupFault.TheVariants.{Memory};
ghost use Rattle.speak_core.specs.Texts.{arity_text, at_byte, at_statement, cause_text, empty_text, marked_text, no_rule_text, read_text, refusal_text, setup_text};

use norm_base::Name;
use speak_setup::SetupFault;
use std::alloc::{AllocError, Global};
use thrax_link::Why;
use thrax_syntax::ReadFault;

/// The text of a setup's first fault.
pub(crate) fn setup(alloc: Global, fault: SetupFault) -> Result<Vec<u8>, AllocError>
    ensures text { IfOk result (λ text. text.items ≡ setup_text fault) }
    ensures told { OnOk result (fault ≡ Memory → ⊥) }
{
    match fault {
        SetupFault::BadLine { line } => {
            let text = format!(in alloc; "setup: line {line} not understood\n")?;
            joined(alloc, &[text.as_bytes()])
        }
        SetupFault::Repeated { line } => {
            let text = format!(in alloc; "setup: line {line} repeats a key\n")?;
            joined(alloc, &[text.as_bytes()])
        }
        SetupFault::Missing { key } => joined(alloc, &[b"setup: ", key.bytes(), b" is missing\n"]),
        SetupFault::Memory => Err(AllocError),
    }
}

/// The text of a rule that a grammar file doesn't export.
pub(crate) fn no_rule(alloc: Global, rule: &Name, file: &Name) -> Result<Vec<u8>, AllocError>
    ensures { IfOk result (λ text. text.items ≡ no_rule_text rule.now file.now) }
{
    joined(
        alloc,
        &[
            b"setup: no rule ",
            rule.bytes(),
            b" in ",
            file.bytes(),
            b"\n",
        ],
    )
}

/// The text of a rule that may hold a mark.
pub(crate) fn marked(alloc: Global, rule: &Name, file: &Name) -> Result<Vec<u8>, AllocError>
    ensures { IfOk result (λ text. text.items ≡ marked_text rule.now file.now) }
{
    joined(
        alloc,
        &[
            b"setup: rule ",
            rule.bytes(),
            b" in ",
            file.bytes(),
            b" holds a mark\n",
        ],
    )
}

/// The text of a rule that may rewrite the empty text.
pub(crate) fn rewrites_empty(alloc: Global, rule: &Name) -> Result<Vec<u8>, AllocError>
    ensures { IfOk result (λ text. text.items ≡ empty_text rule.now) }
{
    joined(
        alloc,
        &[b"setup: rule ", rule.bytes(), b" rewrites the empty text\n"],
    )
}

/// The text of a refusal of a grammar file, or of one of its statements.
pub(crate) fn refusal(
    alloc: Global,
    file: &Name,
    statement: u64,
    why: Why,
) -> Result<Vec<u8>, AllocError>
    ensures { IfOk result (λ text. text.items ≡ refusal_text file.now statement why) }
{
    match why {
        Why::Read(fault) => unread(alloc, file, fault),
        why => {
            let cause = cause(alloc, why)?;
            at_statement(alloc, file, statement, &cause)
        }
    }
}

/// The cause of a refusal at a statement.
fn cause(alloc: Global, why: Why) -> Result<Vec<u8>, AllocError>
    ensures { IfOk result (λ text. text.items ≡ cause_text why) }
{
    match why {
        Why::Read(_) => Ok(Vec::new(alloc)),
        Why::NotFound { name } => pair(alloc, b"not found ", name.bytes()),
        Why::Unknown { name } => pair(alloc, b"unknown name ", name.bytes()),
        Why::NotExported { name } => pair(alloc, name.bytes(), b" not exported"),
        Why::Twice { name } => pair(alloc, name.bytes(), b" defined twice"),
        Why::ImportLoop { name } => pair(alloc, name.bytes(), b" imports itself"),
        Why::ImportDepth => Vec::from_slice(alloc, b"imports deeper than 32"),
        Why::Arity { wanted, given } => arity(alloc, wanted, given),
        Why::NotAcceptor => Vec::from_slice(alloc, b"not an acceptor"),
        Why::IsWeighted => Vec::from_slice(alloc, b"weighted"),
        Why::Unsupported => Vec::from_slice(alloc, b"not supported"),
        Why::BadPair { file, line } => {
            let place = format!(in alloc; " line {line}")?;
            let pairs = pair(alloc, file.bytes(), place.as_bytes())?;
            pair(alloc, b"bad pair in ", &pairs)
        }
        Why::TooLarge => Vec::from_slice(alloc, b"too large"),
    }
}

/// The cause of a call with another number of arguments.
fn arity(alloc: Global, wanted: u64, given: u64) -> Result<Vec<u8>, AllocError>
    ensures { IfOk result (λ text. text.items ≡ arity_text wanted given) }
{
    let first = format!(in alloc; "wants {wanted}")?;
    let second = format!(in alloc; " arguments, has {given}")?;
    pair(alloc, first.as_bytes(), second.as_bytes())
}

/// The text of a file that isn't of the grammar language.
fn unread(alloc: Global, file: &Name, fault: ReadFault) -> Result<Vec<u8>, AllocError>
    ensures { IfOk result (λ text. text.items ≡ read_text file.now fault) }
{
    match fault {
        ReadFault::BadLexeme { at } => at_byte(alloc, file, at, b"bad lexeme"),
        ReadFault::Syntax { statement } => at_statement(alloc, file, statement, b"syntax"),
        ReadFault::BadWeight { at } => at_byte(alloc, file, at, b"bad weight"),
        ReadFault::TooDeep { at } => at_byte(alloc, file, at, b"brackets too deep"),
        ReadFault::Memory => Err(AllocError),
    }
}

/// The text of a fault at a byte of a file.
fn at_byte(alloc: Global, file: &Name, byte: u64, what: &[u8]) -> Result<Vec<u8>, AllocError>
    ensures { IfOk result (λ text. text.items ≡ at_byte file.now byte what.now) }
{
    let number = format!(in alloc; "{byte}")?;
    joined(
        alloc,
        &[
            file.bytes(),
            b": byte ",
            number.as_bytes(),
            b": ",
            what,
            b"\n",
        ],
    )
}

/// The text of a refusal at a statement of a file.
fn at_statement(
    alloc: Global,
    file: &Name,
    statement: u64,
    what: &[u8],
) -> Result<Vec<u8>, AllocError>
    ensures { IfOk result (λ text. text.items ≡ at_statement file.now statement what.now) }
{
    let number = format!(in alloc; "{statement}")?;
    joined(
        alloc,
        &[
            file.bytes(),
            b": statement ",
            number.as_bytes(),
            b": ",
            what,
            b"\n",
        ],
    )
}

/// One text after another.
fn pair(alloc: Global, first: &[u8], second: &[u8]) -> Result<Vec<u8>, AllocError>
    ensures { IfOk result (λ text. text.items ≡ first.now ++ second.now) }
{
    let mut text = Vec::from_slice(alloc, first)?;
    text.extend_from_slice(second)?;
    Ok(text)
}

/// The pieces of a text, one after another.
pub(crate) fn joined(alloc: Global, pieces: &[&[u8]]) -> Result<Vec<u8>, AllocError>
    ensures { IfOk result (λ text. text.items ≡ flat_map (λ piece. piece.now) pieces.now) }
{
    let mut text = Vec::new(alloc);
    let mut rest = pieces;
    while let [piece, after @ ..] = rest {
        text.extend_from_slice(piece)?;
        rest = after;
    }
    Ok(text)
}
