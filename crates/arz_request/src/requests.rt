// The request that an operation takes.
ghost use Rattle.std.specs.Prelude.{All, ◌≡◌, IfOk, IfSome, map, option_map};
ghost use Rattle.std.specs.Option.{option_copied};
ghost use Rattle.arz_json.specs.Answer.{Gives};
ghost use Rattle.arz_json.specs.Shallow.{IsShallow};
ghost use Rattle.arz_request.specs.Causes.{told};
ghost use Rattle.arz_request.specs.Parameters.{all_written};
ghost use Rattle.arz_request.specs.Requests.{target_of, method_of, request_with, optional_content as content_meant, within_limit, request as request_for};
ghost use Rattle.arz_world.specs.Shallow.{SendsShallow};

use crate::body::{Content, content_for};
use crate::cause::{BuildFault, Cause};
use crate::described::ByPlace;
use crate::headers::headers;
use crate::parameters::{Written, write_all};
use crate::size::is_within_limit;
use crate::target::target;
use arz_expr::{Body, Given, Scope};
use arz_json::{Bytes, Json, Many, Text};
use arz_operation::Operation;
use arz_world::{Request, Sent, Server};
use std::alloc::{AllocError, Global};

/// The request that an operation of a server takes (OpenAPI 3.1.1, sections 4.8.10 and 4.8.12; RFC 9112, section 3),
/// with the parameters and the body that a step gives (Arazzo 1.0.1, section 4.6.5). Each parameter is filled with what
/// the scope finds, and written in the style that the operation's parameter of its name and place has, else in the
/// default one of its place.
///
/// Errors: `Stuck` with the first cause, of the parameters in order, then of the body, and then `RequestTooLarge` where
/// the request has more than 1,048,576 bytes. Its values and its payload nest at most 127 deep.
#[tactic(auto, unfolding(crate::specs::Requests::request))]
pub fn build<S: Scope>(
    alloc: Global,
    operation: &Operation,
    server: &Server,
    given: &Many<Given>,
    body: Option<&Body>,
    scope: &S,
) -> Result<Request, BuildFault>
    ensures builds { Gives (λ q. q) told result (request_for (S.found scope.now) operation.now server.now given.now (option_copied body.entry)) }
    ensures shallow { IfOk result SendsShallow }
{
    let written = write_given(alloc, operation, given, scope)?;
    let content = optional_content(alloc, operation, body, scope)?;
    make(alloc, operation, server, written, content)
}

fn write_given<S: Scope>(
    alloc: Global,
    operation: &Operation,
    given: &Many<Given>,
    scope: &S,
) -> Result<Vec<Written>, BuildFault>
    ensures { Gives (λ all. all.items) told result (all_written (S.found scope.now) operation.now.parameters given.now) }
{
    let described = ByPlace::of(alloc, operation.parameters.as_slice())?;
    write_all(alloc, &described, given.as_slice(), scope)
}

fn optional_content<S: Scope>(
    alloc: Global,
    operation: &Operation,
    body: Option<&Body>,
    scope: &S,
) -> Result<Option<Content>, BuildFault>
    ensures content { Gives (λ c. c) told result (content_meant (S.found scope.now) operation.now.types (option_copied body.entry)) }
    ensures shallow { IfOk result (λ c. IfSome c (λ content. IsShallow content.payload)) }
{
    match body {
        Some(body) => Ok(Some(content_for(alloc, operation.types.as_slice(), body, scope)?)),
        None => Ok(None),
    }
}

fn make(
    alloc: Global,
    operation: &Operation,
    server: &Server,
    written: Vec<Written>,
    content: Option<Content>,
) -> Result<Request, BuildFault>
    requires { IfSome content (λ c. IsShallow c.payload) }
    ensures builds { Gives (λ q. q) told result (within_limit (request_with operation.now server.now written.items content)) }
    ensures shallow { IfOk result SendsShallow }
{
    let target = target(alloc, server, operation, written.as_slice())?;
    let request = assemble(alloc, operation, server, target, written, content)?;
    within(request)
}

fn assemble(
    alloc: Global,
    operation: &Operation,
    server: &Server,
    target: Text,
    written: Vec<Written>,
    content: Option<Content>,
) -> Result<Request, AllocError>
    requires target { target ≡ target_of server.now operation.now written.items }
    requires content { IfSome content (λ c. IsShallow c.payload) }
    ensures request { IfOk result (λ q. q ≡ request_with operation.now server.now written.items content) }
    ensures shallow { IfOk result SendsShallow }
{
    let method = method(alloc, operation)?;
    let lines = headers(
        alloc,
        server,
        method.as_str(),
        written.as_slice(),
        content.as_ref(),
    )?;
    let server = copy_server(alloc, server)?;
    let values = values(alloc, written)?;
    let (body, payload) = parts(content);
    Ok(Request {
        method,
        server,
        target,
        headers: lines,
        body,
        values,
        payload,
    })
}

fn within(request: Request) -> Result<Request, BuildFault>
    requires { SendsShallow request }
    ensures builds { Gives (λ q. q) told result (within_limit request) }
    ensures shallow { IfOk result SendsShallow }
{
    if is_within_limit(&request) {
        Ok(request)
    } else {
        Err(BuildFault::Stuck(Cause::RequestTooLarge))
    }
}

// ---- the parts of a request

// The operation's method, in upper case.
fn method(alloc: Global, operation: &Operation) -> Result<Text, AllocError>
    ensures { IfOk result (λ text. text ≡ method_of operation.now) }
{
    let mut name = String::from_str(alloc, operation.method.as_str())?;
    name.make_ascii_uppercase();
    Ok(Text::from_std(name))
}

fn copy_server(alloc: Global, server: &Server) -> Result<Server, AllocError>
    ensures { IfOk result (λ copy. copy ≡ server.now) }
{
    Ok(Server {
        host: server.host.copy(alloc)?,
        port: server.port,
        base: server.base.copy(alloc)?,
    })
}

fn values(alloc: Global, written: Vec<Written>) -> Result<Many<Sent>, AllocError>
    ensures values { IfOk result (λ values. values ≡ map (λ w. w.sent) written.items) }
    ensures shallow { IfOk result (All (λ s. IsShallow s.value)) }
{
    let mut values = Vec::with_capacity(alloc, written.len())?;
    for parameter in written {
        values.push(parameter.into_sent())?;
    }
    Ok(Many::from_std(values))
}

// The bytes and the payload, where there is a body.
fn parts(content: Option<Content>) -> (Option<Bytes>, Option<Json>)
    ensures bytes { result.0 ≡ option_map (λ c. c.bytes) content }
    ensures payload { result.1 ≡ option_map (λ c. c.payload) content }
{
    match content {
        Some(content) => {
            let Content {
                kind: _,
                payload,
                bytes,
            } = content;
            (Some(bytes), Some(payload))
        }
        None => (None, None),
    }
}
