use crate::text::Text;
use sqlite_items::{Boxed, Items};

/// A segment (RFC 9535, section 2.5).
#[cycle(query)]
#[derive(Debug, Drop)]
pub enum Segment {
    /// Selects among the children of a node (2.5.1).
    Child(Items<Selector>),
    /// Selects among the children of a node and of all its descendants (2.5.2).
    Descendant(Items<Selector>),
}

/// A selector (RFC 9535, section 2.3).
#[cycle(query)]
#[derive(Debug, Drop)]
pub enum Selector {
    /// The member with this name (2.3.1).
    Name(Text),
    /// Every child (2.3.2).
    Wildcard,
    /// The item at this index, from the end where it is negative (2.3.3).
    Index(i64),
    /// A range of items (2.3.4).
    Slice(Slice),
    /// The children for which an expression is true (2.3.5).
    Filter(Test),
}

/// Which items of an array a slice takes (RFC 9535, section 2.3.4). A bound that isn't written is None.
#[derive(Clone, Copy, Debug, PartialEq, Eq)]
pub struct Slice {
    pub start: Option<i64>,
    pub end: Option<i64>,
    /// 1 where it isn't written.
    pub step: i64,
}

/// A logical expression of a filter (RFC 9535, section 2.3.5).
#[cycle(query)]
#[derive(Debug, Drop)]
pub enum Test {
    /// `||`: one of them holds.
    Any(Items<Test>),
    /// `&&`: each holds.
    All(Items<Test>),
    /// `!`: it doesn't hold.
    Not(Boxed<Test>),
    /// A query selects a node (2.3.5.2.1).
    Exists(Start, Items<Segment>),
    /// A comparison (2.3.5.2.2).
    Compare(Operand, Comparison, Operand),
    /// `match(text, pattern)`: the whole text matches (2.4.6).
    Match(Operand, Operand),
    /// `search(text, pattern)`: some part of the text matches (2.4.7).
    Search(Operand, Operand),
}

/// What stands for a value, or for nothing (RFC 9535, sections 2.3.5.1 and 2.4.1).
#[cycle(query)]
#[derive(Debug, Drop)]
pub enum Operand {
    Null,
    Flag(bool),
    Int(i128),
    Text(Text),
    /// A singular query: the value of its node, or nothing (2.3.5.1).
    Query(Start, Items<Segment>),
    /// `length(value)` (2.4.4).
    Length(Boxed<Operand>),
    /// `count(nodes)` (2.4.5).
    Count(Start, Items<Segment>),
    /// `value(nodes)`: the value of the only node, or nothing (2.4.8).
    Value(Start, Items<Segment>),
}

/// Where a query of a filter starts (RFC 9535, section 2.3.5.1).
#[derive(Clone, Copy, Debug, PartialEq, Eq)]
pub enum Start {
    /// `$`, the root of the document.
    Root,
    /// `@`, the current node.
    Current,
}

/// A comparison operator (RFC 9535, section 2.3.5.1).
#[derive(Clone, Copy, Debug, PartialEq, Eq)]
pub enum Comparison {
    Equal,
    Unequal,
    Less,
    LessOrEqual,
    Greater,
    GreaterOrEqual,
}
