use arz_json::{Location, Many, Style, Text};

/// A parameter that a document describes (OpenAPI 3.1.0, section 4.8.12).
#[derive(Debug, Drop)]
pub struct Described {
    /// Its name, as it is written.
    pub name: Text,
    /// Where it stands in a request.
    pub place: Location,
    /// How its value is written.
    pub style: Style,
    /// Whether lists and objects are written as parameters of their own.
    pub explode: bool,
}

/// An operation of a document (OpenAPI 3.1.0, section 4.8.10).
#[derive(Debug, Drop)]
pub struct Operation {
    /// The path that it stands under.
    pub path: Text,
    /// The member of the path item that it stands under: its method, in lower case.
    pub method: Text,
    /// The parameters of its path, and then its own. No two have one name and place.
    pub parameters: Many<Described>,
    /// The media types of its request body, in byte order.
    pub types: Many<Text>,
    /// The URL of the server that applies, with the defaults of its variables, where there is a server.
    pub server: Option<Text>,
}

/// What a step calls (Arazzo 1.0.1, section 4.6.5).
#[derive(Debug, Drop)]
pub enum Call {
    /// The operation with this operationId: in the source with this name where one is written, else in any.
    Id(Option<Text>, Text),
    /// The operation at a place of the source with this name: a JSON Pointer (RFC 6901), as it is written.
    At(Text, Text),
    /// The workflow with this workflowId.
    Flow(Text),
}
