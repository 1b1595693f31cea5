use norm_base::Name;

/// What one grammar file states, in the order of the file.
#[derive(Drop)]
pub struct File {
    pub statements: Vec<Statement>,
}

/// One statement of a grammar file.
#[derive(Drop)]
pub enum Statement {
    /// The names that another file exports can be used after the alias and a dot.
    Import {
        file: Name,
        alias: Name,
    },
    /// A name for an expression; another file sees it where it is exported.
    Define {
        export: bool,
        name: Name,
        value: Tree,
    },
    /// A name for an expression with parameters and with names of its own.
    Func {
        name: Name,
        params: Vec<Name>,
        body: Vec<Local>,
        result: Tree,
    },
}

/// A name that a function gives to an expression inside its body.
#[derive(Drop)]
pub struct Local {
    pub name: Name,
    pub value: Tree,
}

/// An expression as it is written, with its brackets resolved.
///
/// A label is a number below 258: 0 is the empty label, 1 to 255 are bytes, 256 and 257 are the marks of the
/// beginning and the end of a text. Weights are in ten-thousandths.
#[derive(Drop)]
pub enum Tree {
    /// The labels of a string; none of them is 0.
    Text(Vec<u16>),
    /// The bytes between two single quotes, as an argument.
    Quoted(Name),
    Use(Name),
    /// An alias and a name that its file exports.
    Member(Name, Name),
    Call(Name, Vec<Tree>),
    /// An alias, a function that its file exports, and the arguments.
    CallMember(Name, Name, Vec<Tree>),
    Union(Vec<Tree>),
    Concat(Vec<Tree>),
    Cross(Box<Tree>, Box<Tree>),
    Compose(Box<Tree>, Box<Tree>),
    Minus(Box<Tree>, Box<Tree>),
    Weighted(Box<Tree>, u32),
    Star(Box<Tree>),
    Plus(Box<Tree>),
    Maybe(Box<Tree>),
    /// At least the first number of times and at most the second.
    Times(Box<Tree>, u32, u32),
}
