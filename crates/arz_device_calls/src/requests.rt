// The bytes of requests.
use arz_cases::{Case, CaseFault, Outcome};
use arz_http::write_request;
use arz_json::{Bytes, Many, Text};
use arz_world::{Header, Request, Server};
use serde_json::Value;
use std::alloc::{AllocError, Global};

/// How many bytes the request of `request` has, and the bytes.
pub fn request_bytes(alloc: Global, case: &Case<'_>) -> Result<Outcome, CaseFault> {
    let request = request_of(alloc, case)?;
    let bytes = write_request(alloc, &request)?;
    let text = counted(alloc, bytes.as_slice())?;
    Ok(Outcome { text, status: None })
}

// How many bytes, and the bytes.
fn counted(alloc: Global, bytes: &[u8]) -> Result<Vec<u8>, AllocError> {
    let mut text = format!(in alloc; "{} ", bytes.len())?.into_bytes();
    text.extend_from_slice(bytes)?;
    Ok(text)
}

/// The request that the case describes by its method, target, header lines and body.
pub fn request_of(alloc: Global, case: &Case<'_>) -> Result<Request, CaseFault> {
    let headers = headers_of(alloc, case)?;
    let body = body_of(alloc, case)?;
    let (method, target) = line_of(alloc, case)?;
    Ok(Request {
        method,
        server: server(alloc)?,
        target,
        headers,
        body,
        values: Many::new(alloc),
        payload: None,
    })
}

fn line_of(alloc: Global, case: &Case<'_>) -> Result<(Text, Text), AllocError> {
    let method = plain_text(alloc, case.word("method"))?;
    let target = plain_text(alloc, case.word("target"))?;
    Ok((method, target))
}

fn headers_of(alloc: Global, case: &Case<'_>) -> Result<Many<Header>, CaseFault> {
    let mut headers = Vec::new(alloc);
    for line in case.items("headers") {
        headers.push(header_of(alloc, case, line)?)?;
    }
    Ok(Many::from_std(headers))
}

// A header line is a list of its name and its value.
fn header_of<'a>(alloc: Global, case: &Case<'a>, line: &'a Value) -> Result<Header, CaseFault> {
    let name = line.get(0).and_then(Value::as_str);
    let name = name.ok_or(CaseFault::Malformed("headers"))?;
    let value = line.get(1).ok_or(CaseFault::Malformed("headers"))?;
    let value = Bytes::from_std(case.bytes_of(alloc, value)?);
    let name = plain_text(alloc, name)?;
    Ok(Header { name, value })
}

fn body_of(alloc: Global, case: &Case<'_>) -> Result<Option<Bytes>, CaseFault> {
    match case.member("body") {
        Some(body) => Ok(Some(Bytes::from_std(case.bytes_of(alloc, body)?))),
        None => Ok(None),
    }
}

/// The server of each case.
pub fn server(alloc: Global) -> Result<Server, AllocError> {
    Ok(Server {
        host: plain_text(alloc, "localhost")?,
        port: 8080,
        base: Text::from_std(String::new(alloc)),
    })
}

fn plain_text(alloc: Global, text: &str) -> Result<Text, AllocError> {
    Ok(Text::from_std(String::from_str(alloc, text)?))
}
