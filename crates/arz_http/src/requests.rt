// The bytes of a request.
ghost use Rattle.std.specs.Prelude.{◌≡◌, ◌++◌, ◌∷◌, [], IfOk, OnOk, codes};
ghost use Rattle.std.specs.List.{flat_map};
ghost use Rattle.arz_world.specs.Requests.{request_bytes, request_line, header_line, line_end, body_of};

use arz_json::{Bytes, Text};
use arz_world::{Header, Request};
use std::alloc::{AllocError, Global};

/// The bytes of a request as they are sent (RFC 9112, 2.1 and 3): the request line, the header lines
/// as the request has them, in order, the empty line and the body.
pub fn write_request(alloc: Global, request: &Request) -> Result<Bytes, AllocError>
    ensures { IfOk result (λ bytes. bytes ≡ request_bytes request.now) }
{
    let mut bytes = Vec::new(alloc);
    put_request_line(&mut bytes, &request.method, &request.target)?;
    put_headers(&mut bytes, request.headers.as_slice())?;
    bytes.extend_from_slice(b"\r\n")?;
    put_body(&mut bytes, &request.body)?;
    Ok(Bytes::from_std(bytes))
}

fn put_request_line(bytes: &mut Vec<u8>, method: &Text, target: &Text) -> Result<(), AllocError>
    ensures { OnOk result (bytes.new.items
        ≡ bytes.old.items ++ (method.now ++ codes " " ++ target.now ++ codes " HTTP/1.1" ++ line_end)) }
{
    bytes.extend_from_slice(method.as_str().as_bytes())?;
    bytes.extend_from_slice(b" ")?;
    bytes.extend_from_slice(target.as_str().as_bytes())?;
    bytes.extend_from_slice(b" HTTP/1.1\r\n")
}

fn put_headers(bytes: &mut Vec<u8>, headers: &[Header]) -> Result<(), AllocError>
    ensures { OnOk result (bytes.new.items ≡ bytes.old.items ++ flat_map header_line headers.now) }
{
    for header in headers {
        put_header(bytes, header)?;
    }
    Ok(())
}

fn put_header(bytes: &mut Vec<u8>, header: &Header) -> Result<(), AllocError>
    ensures { OnOk result (bytes.new.items ≡ bytes.old.items ++ header_line header.now) }
{
    bytes.extend_from_slice(header.name.as_str().as_bytes())?;
    bytes.extend_from_slice(b": ")?;
    bytes.extend_from_slice(header.value.as_slice())?;
    bytes.extend_from_slice(b"\r\n")
}

fn put_body(bytes: &mut Vec<u8>, body: &Option<Bytes>) -> Result<(), AllocError>
    ensures { OnOk result (bytes.new.items ≡ bytes.old.items ++ body_of body.now) }
{
    match body {
        Some(body) => bytes.extend_from_slice(body.as_slice()),
        None => Ok(()),
    }
}
