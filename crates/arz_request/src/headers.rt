// The header lines of a request (RFC 9110, section 5; RFC 9112, section 5).
ghost use Rattle.std.specs.Prelude.{◌≡◌, ◌++◌, ◌∷◌, [], length, codes, IfOk, OnOk, string_bytes};
ghost use Rattle.std.specs.Fmt.{decimal};
ghost use Rattle.std.specs.Option.{option_copied};
ghost use Rattle.arz_world.specs.Requests.{authority, port_suffix};
ghost use Rattle.arz_request.specs.Parameters.{texts_at as texts_of};
ghost use Rattle.arz_request.specs.Requests.{header as header_of, fixed_headers, given_headers, cookie_line, type_line, length_line, length_lines, tells_length as length_told, headers_of};

use crate::body::Content;
use crate::joined::{is_filled_at, joined, texts_at};
use crate::parameters::Written;
use arz_json::{Bytes, Location, Many, Text};
use arz_world::{Header, Server};
use std::alloc::{AllocError, Global};

/// All lines behind the request line, in order.
pub(crate) fn headers(
    alloc: Global,
    server: &Server,
    method: &str,
    written: &[Written],
    content: Option<&Content>,
) -> Result<Many<Header>, AllocError>
    ensures { IfOk result (λ lines. lines ≡ headers_of server.now method.now written.now (option_copied content.entry)) }
{
    let mut lines = fixed(alloc, server)?;
    push_given(alloc, &mut lines, written)?;
    push_cookies(alloc, &mut lines, written)?;
    push_content(alloc, &mut lines, method, content)?;
    Ok(Many::from_std(lines))
}

fn header(alloc: Global, name: &str, value: &[u8]) -> Result<Header, AllocError>
    ensures { IfOk result (λ h. h ≡ header_of name.now value.now) }
{
    Ok(Header {
        name: Text::from_str(alloc, name)?,
        value: Bytes::from_std(value.to_vec(alloc)?),
    })
}

fn push_line(
    alloc: Global,
    lines: &mut Vec<Header>,
    name: &str,
    value: &[u8],
) -> Result<(), AllocError>
    ensures { OnOk result (lines.new.items ≡ lines.old.items ++ header_of name.now value.now ∷ []) }
{
    lines.push(header(alloc, name, value)?)?;
    Ok(())
}

// ---- the lines of each request

fn fixed(alloc: Global, server: &Server) -> Result<Vec<Header>, AllocError>
    ensures { IfOk result (λ lines. lines.items ≡ fixed_headers server.now) }
{
    let host = host(alloc, server)?;
    Ok(vec![in alloc;
        header(alloc, "Host", host.as_bytes())?,
        header(alloc, "Connection", b"close")?,
        header(alloc, "Accept-Encoding", b"identity")?,
    ]?)
}

fn host(alloc: Global, server: &Server) -> Result<String, AllocError>
    ensures { IfOk result (λ host. string_bytes host ≡ authority server.now) }
{
    let mut host = String::from_str(alloc, server.host.as_str())?;
    push_port(&mut host, server.port)?;
    Ok(host)
}

fn push_port(host: &mut String, port: u16) -> Result<(), AllocError>
    ensures { OnOk result (string_bytes host.new ≡ string_bytes host.old ++ port_suffix port) }
{
    if port == 80 {
        return Ok(());
    }
    write!(host, ":{port}")
}

// ---- the parameters

fn push_given(alloc: Global, lines: &mut Vec<Header>, written: &[Written]) -> Result<(), AllocError>
    ensures { OnOk result (lines.new.items ≡ lines.old.items ++ given_headers written.now) }
{
    for parameter in written {
        if is_filled_at(parameter, Location::Header) {
            push_line(alloc, lines, parameter.name(), parameter.text().as_bytes())?;
        }
    }
    Ok(())
}

fn push_cookies(
    alloc: Global,
    lines: &mut Vec<Header>,
    written: &[Written],
) -> Result<(), AllocError>
    ensures { OnOk result (lines.new.items ≡ lines.old.items ++ cookie_line (texts_of Location.Cookie written.now)) }
{
    let texts = texts_at(alloc, Location::Cookie, written)?;
    match texts.as_slice() {
        [] => Ok(()),
        texts => {
            let line = joined(alloc, "; ", texts)?;
            push_line(alloc, lines, "Cookie", line.as_bytes())
        }
    }
}

// ---- the body

fn push_content(
    alloc: Global,
    lines: &mut Vec<Header>,
    method: &str,
    content: Option<&Content>,
) -> Result<(), AllocError>
    ensures { OnOk result (lines.new.items ≡ lines.old.items ++ (type_line (option_copied content.entry) ++ length_lines method.now (option_copied content.entry))) }
{
    match content {
        Some(content) => push_body(alloc, lines, content),
        None => push_no_length(alloc, lines, method),
    }
}

fn push_body(alloc: Global, lines: &mut Vec<Header>, content: &Content) -> Result<(), AllocError>
    ensures { OnOk result (lines.new.items ≡ lines.old.items ++ header_of (codes "Content-Type") content.now.kind ∷ length_line (length content.now.bytes)) }
{
    push_line(
        alloc,
        lines,
        "Content-Type",
        content.kind.as_str().as_bytes(),
    )?;
    push_length(alloc, lines, content.bytes.as_slice().len())
}

fn digits(alloc: Global, number: usize) -> Result<String, AllocError>
    ensures { IfOk result (λ text. string_bytes text ≡ decimal number) }
{
    format!(in alloc; "{number}")
}

fn push_length(alloc: Global, lines: &mut Vec<Header>, size: usize) -> Result<(), AllocError>
    ensures { OnOk result (lines.new.items ≡ lines.old.items ++ length_line size) }
{
    let digits = digits(alloc, size)?;
    push_line(alloc, lines, "Content-Length", digits.as_bytes())
}

// What says that there is no body, where the method asks for that.
fn push_no_length(alloc: Global, lines: &mut Vec<Header>, method: &str) -> Result<(), AllocError>
    ensures { OnOk result (lines.new.items ≡ lines.old.items ++ length_lines method.now None) }
{
    if tells_length(method) {
        push_length(alloc, lines, 0)
    } else {
        Ok(())
    }
}

fn tells_length(method: &str) -> bool
    ensures { result ≡ length_told method.now }
{
    method == "POST" || method == "PUT" || method == "PATCH"
}
