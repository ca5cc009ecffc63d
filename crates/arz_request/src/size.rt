// How many bytes a request has (RFC 9112, 2.1 and 3), counted without making them.
ghost use Rattle.std.specs.Prelude.{◌≡◌, ◌+◌, nat_le, length, min};
ghost use Rattle.std.specs.List.{flat_map};
ghost use Rattle.arz_world.specs.Requests.{request_bytes, header_line, body_of};
ghost use Rattle.arz_request.specs.Requests.{request_limit};

use arz_json::{Bytes, Text};
use arz_world::{Header, Request};

/// The most bytes that a request may have.
pub(crate) const LIMIT: usize = 1_048_576;

/// Whether a request has no more bytes than it may have.
pub(crate) fn is_within_limit(request: &Request) -> bool
    ensures { result ≡ nat_le (length (request_bytes request.now)) request_limit }
{
    let line = line_size(&request.method, &request.target);
    let headers = headers_size(request.headers.as_slice());
    let body = body_size(&request.body);
    line.saturating_add(headers)
        .saturating_add(2)
        .saturating_add(body)
        <= LIMIT
}

// METHOD TARGET HTTP/1.1 and CR LF; past the range of `usize` its largest number.
fn line_size(method: &Text, target: &Text) -> usize
    ensures { result ≡ min (length method.now + length target.now + 12) usize.MAX }
{
    let method = method.as_str().len();
    let target = target.as_str().len();
    method.saturating_add(target).saturating_add(12)
}

fn headers_size(headers: &[Header]) -> usize
    ensures { result ≡ min (length (flat_map header_line headers.now)) usize.MAX }
{
    let mut size: usize = 0;
    for header in headers {
        size = size.saturating_add(header_size(header));
    }
    size
}

// NAME: VALUE and CR LF.
fn header_size(header: &Header) -> usize
    ensures { result ≡ min (length (header_line header.now)) usize.MAX }
{
    let name = header.name.as_str().len();
    let value = header.value.as_slice().len();
    name.saturating_add(value).saturating_add(4)
}

fn body_size(body: &Option<Bytes>) -> usize
    ensures { result ≡ min (length (body_of body.now)) usize.MAX }
{
    match body {
        Some(body) => body.as_slice().len(),
        None => 0,
    }
}
