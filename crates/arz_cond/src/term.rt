// What a simple condition spells.
use arz_expr::Expr;
use arz_json::Text;
use sqlite_items::{Boxed, Items};

/// A simple condition, or a part of one (Arazzo 1.0.1, section 4.6.11.1). Parentheses leave nothing behind.
#[cycle(term)]
#[derive(Debug, Drop)]
pub enum Term {
    /// `||`: one of these is true. Two or more.
    Any(Items<Term>),
    /// `&&`: each of these is true. Two or more.
    All(Items<Term>),
    /// `!`: it isn't true.
    Not(Boxed<Term>),
    /// A comparison of two values.
    Compare(Boxed<Term>, Comparison, Boxed<Term>),
    /// A value that is written.
    Literal(Literal),
    /// The value of an expression.
    Value(Expr),
}

/// A literal of a condition.
#[derive(Debug, Drop)]
pub enum Literal {
    Null,
    Flag(bool),
    /// An integer of -2^63 to 2^64 - 1.
    Int(i128),
    Text(Text),
}

/// A comparison operator.
#[derive(Clone, Copy, Debug, PartialEq, Eq)]
pub enum Comparison {
    Equal,
    Unequal,
    Less,
    LessOrEqual,
    Greater,
    GreaterOrEqual,
}
