use crate::many::Many;
use crate::text::Text;

/// A JSON value (RFC 8259, section 3).
#[cycle(tree)]
#[derive(Debug, Drop)]
pub enum Json {
    /// `null`.
    Null,
    /// `true` or `false`.
    Flag(bool),
    /// A number that is spelt without fraction and exponent, and isn't `-0`.
    Int(i128),
    /// A string.
    Text(Text),
    /// An array.
    List(Many<Json>),
    /// An object.
    Object(Members),
    /// Every other number, whose value is not kept.
    Opaque,
}

/// A name and a value of an object (RFC 8259, section 4).
#[cycle(tree)]
#[derive(Debug, Drop)]
pub struct Member {
    pub name: Text,
    pub value: Json,
}

/// An object's members. Those of a well-formed tree have their names in strictly ascending byte order.
pub type Members = Many<Member>;

/// A source document under the name that the description gives it.
#[derive(Debug, Drop)]
pub struct Named {
    pub name: Text,
    pub root: Json,
}

/// A text under a name.
#[derive(Debug, Drop)]
pub struct NamedText {
    pub name: Text,
    pub text: Text,
}

/// Where a parameter of a request stands (OpenAPI 3.1, 4.8.12.1).
#[derive(Clone, Copy, Debug, PartialEq, Eq)]
pub enum Location {
    Path,
    Query,
    Header,
    Cookie,
}

/// How a parameter's value is written (OpenAPI 3.1, 4.8.12.3).
#[derive(Clone, Copy, Debug, PartialEq, Eq)]
pub enum Style {
    Matrix,
    Label,
    Simple,
    Form,
    SpaceDelimited,
    PipeDelimited,
    DeepObject,
}

/// The first rule that a document fails: its number, the label of the document, and the place as a
/// JSON Pointer (RFC 6901) within it.
#[derive(Debug, Drop)]
pub struct Refusal {
    pub rule: u8,
    pub label: Text,
    pub pointer: Text,
}
