//! Expressions over strings.

/// One of the two lists of a reading.
#[derive(Clone, Copy, Debug, PartialEq, Eq)]
pub enum Side {
    Input,
    Output,
}

/// Whether a rewrite that begins has to be made.
#[derive(Clone, Copy, Debug, PartialEq, Eq)]
pub enum Mode {
    Obligatory,
    Optional,
}

/// An expression, which stands for a relation on strings with weights.
///
/// A label is 1 to 255 for a byte, 256 for the mark of the beginning and 257 for that of the end. A weight is
/// in ten-thousandths.
#[cycle(expression)]
#[derive(Drop)]
pub enum Expr {
    /// The one string of these labels, accepted at weight 0.
    Text(Vec<u16>),
    /// The readings of an expression, each with the weight added.
    Weighted(Box<Expr>, u32),
    /// The readings of each member; of no member, no reading.
    Union(Vec<Expr>),
    /// A reading of each member, joined in order; of no member, the empty text.
    Concat(Vec<Expr>),
    /// Any number of readings, joined.
    Star(Box<Expr>),
    /// The strings of one acceptor as inputs with those of another as outputs.
    Cross(Box<Expr>, Box<Expr>),
    /// The readings of the first, each with those of the second that read its output.
    Compose(Box<Expr>, Box<Expr>),
    /// The readings of the first acceptor whose string the second doesn't accept.
    Minus(Box<Expr>, Box<Expr>),
    /// The readings with input and output exchanged.
    Invert(Box<Expr>),
    /// The readings with the chosen side as both sides.
    Project(Box<Expr>, Side),
    /// The readings of a context rewrite.
    Rewrite(Box<RewriteOf>),
}

/// A context rewrite: what tau reads, between the two contexts, becomes what it writes, from left to right in
/// the strings of sigma.
#[cycle(expression)]
#[derive(Drop)]
pub struct RewriteOf {
    pub tau: Expr,
    pub left: Expr,
    pub right: Expr,
    pub sigma: Expr,
    pub mode: Mode,
}
