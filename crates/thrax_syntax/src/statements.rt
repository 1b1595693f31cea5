ghost use Rattle.std.specs.Prelude.{◌≡◌, ◌<◌, ◌∷◌, IfNone, IfOk, IfSome, List, length, map, ℕ};
ghost use Rattle.text_forms.specs.Answers.{Next};
ghost use Rattle.thrax_lexer.specs.Lexemes.{Lex, keyword, lex_of, quoted, symbol, word};
ghost use Rattle.thrax_lexer.specs.declared.bytes.Symbol.TheVariants.{CloseBracket, Semicolon};
ghost use Rattle.thrax_lexer.specs.declared.lexemes.Keyword.TheVariants.{As, Export, Import};
ghost use Rattle.thrax_syntax.specs.FileOutcomes.{body_term};
ghost use Rattle.thrax_syntax.specs.Grammar.{Spells, expr};
ghost use Rattle.thrax_syntax.specs.Outcomes.{Gives};
ghost use Rattle.thrax_syntax.specs.Statements.{Body, Defined, Function, Locals, Params, Stated};
ghost use Rattle.thrax_syntax.specs.Trees.{define, local_term, statement_term, tree_term};

use crate::expressions::expression;
use crate::fronts::{
    Lexemes, after_keyword, after_symbol, front_name, front_quoted, front_word, named_after,
};
use crate::stop::Stop;
use crate::tree::{Local, Statement, Tree};
use norm_base::Name;
use std::alloc::{AllocError, Global};
use thrax_lexer::{Keyword, Symbol};

/// The statement that comes first, and what follows it.
pub fn statement<'l, 't>(
    alloc: Global,
    lexemes: Lexemes<'l, 't>,
) -> Result<(Statement, Lexemes<'l, 't>), Stop>
    ensures shorter { IfOk result (λ x. length x.1.now < length lexemes.now) }
    ensures exact { Gives (λ x. statement_term x.0) (λ x. map lex_of x.1.now) (Stated (map lex_of lexemes.now)) result }
{
    if let Some(after) = after_keyword(lexemes, Keyword::Import) {
        return import(alloc, after);
    }
    if let Some(after) = after_keyword(lexemes, Keyword::Func) {
        return function(alloc, after);
    }
    match after_keyword(lexemes, Keyword::Export) {
        Some(after) => exported(alloc, after),
        None => {
            let (local, rest) = definition(alloc, lexemes)?;
            Ok((define(false, local), rest))
        }
    }
}

/// What follows `export`: a function or a definition.
fn exported<'l, 't>(
    alloc: Global,
    lexemes: Lexemes<'l, 't>,
) -> Result<(Statement, Lexemes<'l, 't>), Stop>
    ensures shorter { IfOk result (λ x. length x.1.now < length lexemes.now) }
    ensures exact { Gives (λ x. statement_term x.0) (λ x. map lex_of x.1.now) (Stated (keyword Export ∷ map lex_of lexemes.now)) result }
{
    match after_keyword(lexemes, Keyword::Func) {
        Some(after) => function(alloc, after),
        None => {
            let (local, rest) = definition(alloc, lexemes)?;
            Ok((define(true, local), rest))
        }
    }
}

fn define(export: bool, local: Local) -> Statement
    ensures { statement_term result ≡ define export (local_term local).name (local_term local).value }
{
    Statement::Define {
        export,
        name: local.name,
        value: local.value,
    }
}

/// What follows `import`.
fn import<'l, 't>(
    alloc: Global,
    lexemes: Lexemes<'l, 't>,
) -> Result<(Statement, Lexemes<'l, 't>), Stop>
    ensures shorter { IfOk result (λ x. length x.1.now < length lexemes.now) }
    ensures exact { Gives (λ x. statement_term x.0) (λ x. map lex_of x.1.now) (Stated (keyword Import ∷ map lex_of lexemes.now)) result }
{
    let Some((file, alias, rest)) = imported(lexemes) else {
        return Err(Stop::Syntax);
    };
    let file = Name::new(alloc, file)?;
    let alias = Name::new(alloc, alias)?;
    Ok((Statement::Import { file, alias }, rest))
}

/// The file and the alias of an import.
fn imported<'l, 't>(lexemes: Lexemes<'l, 't>) -> Option<(&'t [u8], &'t [u8], Lexemes<'l, 't>)>
    ensures shorter { IfSome result (λ x. length x.2.now < length lexemes.now) }
    ensures found { IfSome result (λ x. map lex_of lexemes.now ≡ quoted x.0.now ∷ keyword As ∷ word x.1.now ∷ symbol Semicolon ∷ map lex_of x.2.now) }
    ensures none { IfNone result ((file alias : List ℕ) (c : List Lex) → map lex_of lexemes.now ≡ quoted file ∷ keyword As ∷ word alias ∷ symbol Semicolon ∷ c → ⊥) }
{
    let (file, rest) = front_quoted(lexemes)?;
    let rest = after_keyword(rest, Keyword::As)?;
    let (alias, rest) = front_name(rest, Symbol::Semicolon)?;
    Some((file, alias, rest))
}

/// A name, `=`, an expression and `;`.
fn definition<'l, 't>(
    alloc: Global,
    lexemes: Lexemes<'l, 't>,
) -> Result<(Local, Lexemes<'l, 't>), Stop>
    ensures shorter { IfOk result (λ x. length x.1.now < length lexemes.now) }
    ensures exact { Gives (λ x. local_term x.0) (λ x. map lex_of x.1.now) (Defined (map lex_of lexemes.now)) result }
{
    let Some((name, after)) = front_name(lexemes, Symbol::Equals) else {
        return Err(Stop::Syntax);
    };
    let name = Name::new(alloc, name)?;
    let (value, rest) = ended(alloc, after)?;
    Ok((Local { name, value }, rest))
}

/// An expression and the semicolon after it.
fn ended<'l, 't>(alloc: Global, lexemes: Lexemes<'l, 't>) -> Result<(Tree, Lexemes<'l, 't>), Stop>
    ensures shorter { IfOk result (λ x. length x.1.now < length lexemes.now) }
    ensures exact { Gives (λ x. tree_term x.0) (λ x. map lex_of x.1.now) (λ t c. Spells expr (map lex_of lexemes.now) t (symbol Semicolon ∷ c)) result }
{
    let (value, left) = expression(alloc, lexemes)?;
    match after_symbol(left, Symbol::Semicolon) {
        Some(rest) => Ok((value, rest)),
        None => Err(Stop::Syntax),
    }
}

/// What follows `func`: a name, parameters in brackets and a body in braces.
fn function<'l, 't>(
    alloc: Global,
    lexemes: Lexemes<'l, 't>,
) -> Result<(Statement, Lexemes<'l, 't>), Stop>
    ensures shorter { IfOk result (λ x. length x.1.now < length lexemes.now) }
    ensures exact { Gives (λ x. statement_term x.0) (λ x. map lex_of x.1.now) (Function (map lex_of lexemes.now)) result }
{
    let Some((name, after)) = front_name(lexemes, Symbol::OpenBracket) else {
        return Err(Stop::Syntax);
    };
    let name = Name::new(alloc, name)?;
    let (params, after) = params(alloc, after)?;
    let (body, rest) = body(alloc, after)?;
    let statement = Statement::Func {
        name,
        params,
        body: body.locals,
        result: body.result,
    };
    Ok((statement, rest))
}

/// Parameters and the bracket behind them.
fn params<'l, 't>(
    alloc: Global,
    lexemes: Lexemes<'l, 't>,
) -> Result<(Vec<Name>, Lexemes<'l, 't>), Stop>
    ensures shorter { IfOk result (λ x. length x.1.now < length lexemes.now) }
    ensures exact { Gives (λ x. x.0.items) (λ x. map lex_of x.1.now) (Params (map lex_of lexemes.now)) result }
{
    match after_symbol(lexemes, Symbol::CloseBracket) {
        Some(rest) => Ok((Vec::new(alloc), rest)),
        None => some_params(alloc, lexemes),
    }
}

/// One or more parameters and the bracket behind them.
fn some_params<'l, 't>(
    alloc: Global,
    lexemes: Lexemes<'l, 't>,
) -> Result<(Vec<Name>, Lexemes<'l, 't>), Stop>
    requires { (c : List Lex) → map lex_of lexemes.now ≡ symbol CloseBracket ∷ c → ⊥ }
    ensures shorter { IfOk result (λ x. length x.1.now < length lexemes.now) }
    ensures exact { Gives (λ x. x.0.items) (λ x. map lex_of x.1.now) (Params (map lex_of lexemes.now)) result }
{
    let Some((first, mut rest)) = front_word(lexemes) else {
        return Err(Stop::Syntax);
    };
    let first = Name::new(alloc, first)?;
    let mut params = Vec::new(alloc);
    params.push(first)?;
    while let Some((next, after)) = named_after(rest, Symbol::Comma) {
        let param = Name::new(alloc, next)?;
        params.push(param)?;
        rest = after;
    }
    match after_symbol(rest, Symbol::CloseBracket) {
        Some(after) => Ok((params, after)),
        None => Err(Stop::Syntax),
    }
}

/// What a function says of its parameters.
#[derive(Drop)]
pub struct FunctionBody {
    pub locals: Vec<Local>,
    pub result: Tree,
}

/// Local definitions in a brace, `return`, an expression, `;` and `}`.
fn body<'l, 't>(
    alloc: Global,
    lexemes: Lexemes<'l, 't>,
) -> Result<(FunctionBody, Lexemes<'l, 't>), Stop>
    ensures shorter { IfOk result (λ x. length x.1.now < length lexemes.now) }
    ensures exact { Gives (λ x. body_term x.0) (λ x. map lex_of x.1.now) (Body (map lex_of lexemes.now)) result }
{
    let (locals, after) = locals(alloc, lexemes)?;
    let (result, left) = ended(alloc, after)?;
    match after_symbol(left, Symbol::CloseBrace) {
        Some(rest) => Ok((FunctionBody { locals, result }, rest)),
        None => Err(Stop::Syntax),
    }
}

/// An opening brace, local definitions and the `return` behind them.
fn locals<'l, 't>(
    alloc: Global,
    lexemes: Lexemes<'l, 't>,
) -> Result<(Vec<Local>, Lexemes<'l, 't>), Stop>
    ensures shorter { IfOk result (λ x. length x.1.now < length lexemes.now) }
    ensures exact { Gives (λ x. map local_term x.0.items) (λ x. map lex_of x.1.now) (Locals (map lex_of lexemes.now)) result }
{
    let Some(mut rest) = after_symbol(lexemes, Symbol::OpenBrace) else {
        return Err(Stop::Syntax);
    };
    let mut locals = Vec::new(alloc);
    while let Some((local, after)) = next_definition(alloc, rest)? {
        locals.push(local)?;
        rest = after;
    }
    match after_keyword(rest, Keyword::Return) {
        Some(after) => Ok((locals, after)),
        None => Err(Stop::Syntax),
    }
}

/// The definition that comes first, if one does.
fn next_definition<'l, 't>(
    alloc: Global,
    lexemes: Lexemes<'l, 't>,
) -> Result<Option<(Local, Lexemes<'l, 't>)>, AllocError>
    ensures shorter { IfOk result (λ o. IfSome o (λ x. length x.1.now < length lexemes.now)) }
    ensures exact { IfOk result (Next (λ x. local_term x.0) (λ x. map lex_of x.1.now) (Defined (map lex_of lexemes.now))) }
{
    match definition(alloc, lexemes) {
        Ok(found) => Ok(Some(found)),
        Err(Stop::Syntax) => Ok(None),
        Err(Stop::Memory) => Err(AllocError),
    }
}

/// The statement that comes first, if one does.
pub fn next_statement<'l, 't>(
    alloc: Global,
    lexemes: Lexemes<'l, 't>,
) -> Result<Option<(Statement, Lexemes<'l, 't>)>, AllocError>
    ensures shorter { IfOk result (λ o. IfSome o (λ x. length x.1.now < length lexemes.now)) }
    ensures exact { IfOk result (Next (λ x. statement_term x.0) (λ x. map lex_of x.1.now) (Stated (map lex_of lexemes.now))) }
{
    match statement(alloc, lexemes) {
        Ok(found) => Ok(Some(found)),
        Err(Stop::Syntax) => Ok(None),
        Err(Stop::Memory) => Err(AllocError),
    }
}
