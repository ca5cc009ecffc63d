// How kinds of trees are made up.
use crate::kinds::Kind;

/// Whether an object must have a member.
#[derive(Clone, Copy, Debug, PartialEq, Eq)]
pub enum Need {
    /// It must be there.
    Must,
    /// It may be missing.
    May,
}

/// A member that an object may have: its name, whether it must be there, and its kind.
#[derive(Clone, Copy, Debug)]
pub struct Field(pub &'static str, pub Need, pub Kind);

/// A choice: an object whose member of this name is there and has the first kind is of the second.
#[derive(Clone, Copy, Debug)]
pub struct Choice(pub &'static str, pub Kind, pub Kind);

/// How many items a list has.
#[derive(Clone, Copy, Debug, PartialEq, Eq)]
pub enum Size {
    /// Any number.
    Any,
    /// One or more.
    NotEmpty,
}

/// The members of an object that no row names.
#[derive(Clone, Copy, Debug, PartialEq, Eq)]
pub enum Others {
    /// They are of one kind, whatever their names.
    Are(Kind),
    /// Their names are tokens (RFC 9110, section 5.6.2), and they are of one kind.
    Tokens(Kind),
    /// Their names begin with `/`, and they are of one kind; those whose names begin with `x-` may be
    /// anything (OpenAPI 3.1.0, sections 4.8.8 and 4.9).
    Paths(Kind),
}

/// How a kind is made up.
#[derive(Clone, Copy, Debug)]
pub enum Form {
    /// Any value.
    Anything,
    /// No value.
    Nothing,
    /// A text.
    Text,
    /// `true` or `false`.
    Flag,
    /// An integer that is not negative.
    Count,
    /// The same, or a number that is kept without its value.
    AnyCount,
    /// An integer from the first to the second.
    Between(u64, u64),
    /// One of these texts.
    Words(&'static [&'static str]),
    /// One of these texts, or an object.
    WordsOrObject(&'static [&'static str]),
    /// This text, followed by a name.
    Prefixed(&'static str),
    /// The text of a JSON Pointer (RFC 6901).
    Pointer,
    /// A text without control characters but the tab.
    FieldValue,
    /// A value in which no number is kept without its value.
    Solid,
    /// A list of so many items, each of this kind.
    List(Size, Kind),
    /// An object with these members, and others.
    Object(&'static [Field], Others),
    /// The kind of the first choice that the tree meets, or else this one. That kind is itself no choice.
    Chosen(&'static [Choice], Kind),
}
