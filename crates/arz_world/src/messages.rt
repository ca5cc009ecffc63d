// A request as it is sent, and the reply that it gets.
use arz_json::{Bytes, Json, Location, Many, Text};

/// The server that a request goes to, as its `http` base URL names it (RFC 3986, 3.2).
#[derive(Debug, Drop)]
pub struct Server {
    /// The host: a registered name or an IPv4 address, without the port.
    pub host: Text,
    /// The TCP port, 80 where the URL names none.
    pub port: u16,
    /// The path of the base URL, which the request target begins with.
    pub base: Text,
}

/// One header line (RFC 9110, 6.3).
#[derive(Debug, Drop)]
pub struct Header {
    /// The field's name. A reply's names are in ASCII lower case.
    pub name: Text,
    /// The field's value, byte for byte, without the white space around it.
    pub value: Bytes,
}

/// A parameter's value as it was sent, before it was written in its style (Arazzo 1.0.1, 4.6.6).
#[derive(Debug, Drop)]
pub struct Sent {
    /// Where in the request the parameter stands.
    pub place: Location,
    /// The parameter's name.
    pub name: Text,
    /// The parameter's value.
    pub value: Json,
}

/// A request (RFC 9112, 3), and what the `$request` expressions read of it.
#[derive(Debug, Drop)]
pub struct Request {
    /// The method, in upper case.
    pub method: Text,
    /// Where the request is sent.
    pub server: Server,
    /// The request target in origin form (RFC 9112, 3.2.1): the path, with the base before it, and
    /// the query where there is one.
    pub target: Text,
    /// All lines behind the request line, in order.
    pub headers: Many<Header>,
    /// The bytes of the body, or `None` where the request has none.
    pub body: Option<Bytes>,
    /// The values of the parameters, which `$request.path`, `$request.query` and `$request.header`
    /// read.
    pub values: Many<Sent>,
    /// The body before it was written as bytes, which `$request.body` reads.
    pub payload: Option<Json>,
}

/// The final reply to a request (RFC 9112, 4).
#[derive(Debug, Drop)]
pub struct Reply {
    /// The status code, 200 to 599 (RFC 9110, 15).
    pub status: u16,
    /// The header lines in order, with their names in ASCII lower case.
    pub headers: Many<Header>,
    /// The bytes of the body after the transfer coding was taken off; empty where there is none.
    pub body: Bytes,
}
