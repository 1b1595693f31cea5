ghost use Rattle.std.specs.Prelude.{List, Result, map};
ghost use Rattle.thrax_lexer.specs.Lexemes.{lex_of};
ghost use Rattle.thrax_syntax.specs.Files.{IsAnswer, IsRead, Reading};
ghost use Rattle.thrax_syntax.specs.FileOutcomes.{FileAnswers, StatesAs};
ghost use Rattle.thrax_syntax.specs.Trees.{StatementTerm};
ghost use Rattle.thrax_syntax.specs.declared.fault.ReadFault.{ReadFault};

use crate::fault::ReadFault;
use crate::fronts::Lexemes;
use crate::statements::next_statement;
use crate::tree::{File, Statement};
use std::alloc::Global;
use thrax_lexer::lex;

/// The file that a text is, or the first fault of a text that is no file.
///
/// Each loop takes at least one lexeme. Chains are read by loops, and brackets by calls, of which at most 128 are open at once. The
/// tree of a chain of marks or of operators that group to the left nests as deep as the chain is long.
pub fn read_file(alloc: Global, text: &[u8]) -> Result<File, ReadFault>
    // the answer is a reading of the text
    ensures found { IsRead text.now result }
    // a text has one reading
    ensures only { (reading : Result (List StatementTerm) ReadFault) → Reading text.now reading → IsAnswer reading result }
{
    read(alloc, text)
}

fn read(alloc: Global, text: &[u8]) -> Result<File, ReadFault>
    ensures { FileAnswers text.now result }
{
    let lexed = lex(alloc, text)?;
    if let Some(at) = lexed.too_deep {
        return Err(ReadFault::TooDeep { at });
    }
    let statements = statements(alloc, &lexed.lexemes)?;
    Ok(File { statements })
}

/// The statements that lexemes are.
fn statements<'l, 't>(alloc: Global, lexemes: Lexemes<'l, 't>) -> Result<Vec<Statement>, ReadFault>
    ensures { StatesAs (map lex_of lexemes.now) result }
{
    let mut found = Vec::new(alloc);
    let (_, mut rest) = lexemes.split_at(0);
    while let Some((statement, after)) = next_statement(alloc, rest)? {
        found.push(statement)?;
        rest = after;
    }
    if rest.is_empty() {
        return Ok(found);
    }
    Err(ReadFault::Syntax {
        statement: found.len() as u64 + 1,
    })
}
