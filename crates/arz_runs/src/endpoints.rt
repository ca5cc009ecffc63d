// What the steps of a workflow call.
ghost use Rattle.std.specs.Prelude.{◌≡◌, IfOk, option_map};
ghost use Rattle.std.specs.Option.{option_copied, option_or};
ghost use Rattle.arz_target.specs.Seen.{seen};
ghost use Rattle.arz_sources.specs.Seen.{seen_target};
ghost use Rattle.arz_flow.specs.Requests.{server_named, server_at as server_of_url, endpoint_at as endpoint_of_target, no_endpoint as nothing_called};
ghost use Rattle.arz_sources.specs.Served.{found_in};
ghost use Rattle.arz_runs.specs.Reached.{endpoint_if, called_as};

use arz_flow::Endpoint;
use arz_json::{Json, Many, Text};
use arz_operation::Operation;
use arz_sources::{Sources, Target, target_of};
use arz_target::{ServerUrl, server_url};
use arz_world::Server;
use std::alloc::{AllocError, Global};

/// The operation that a step calls, and the server that its requests are sent to (Arazzo 1.0.1, 4.6.5).
pub(crate) fn endpoint_of(
    alloc: Global,
    sources: &Sources<'_, '_>,
    step: &Json,
) -> Result<Endpoint, AllocError>
    ensures { IfOk result (λ e. e ≡ called_as (found_in sources.now) step.now) }
{
    endpoint(alloc, target_of(alloc, sources, step)?)
}

fn endpoint<'a>(alloc: Global, target: Option<Target<'a>>) -> Result<Endpoint, AllocError>
    ensures { IfOk result (λ e. e ≡ endpoint_if (option_map seen_target target.entry)) }
{
    match target {
        Some(target) => endpoint_at(alloc, target),
        None => no_endpoint(alloc),
    }
}

fn endpoint_at<'a>(alloc: Global, target: Target<'a>) -> Result<Endpoint, AllocError>
    ensures { IfOk result (λ e. e ≡ endpoint_of_target (seen_target target.entry)) }
{
    let Target {
        operation,
        server: given,
    } = target;
    let server = server_at(alloc, url_of(given, &operation))?;
    Ok(Endpoint { operation, server })
}

// Where a step calls no operation.
fn no_endpoint(alloc: Global) -> Result<Endpoint, AllocError>
    ensures { IfOk result (λ e. e ≡ nothing_called) }
{
    let operation = Operation {
        path: Text::from_str(alloc, "")?,
        method: Text::from_str(alloc, "")?,
        parameters: Many::new(alloc),
        types: Many::new(alloc),
        server: None,
    };
    let server = server_at(alloc, None)?;
    Ok(Endpoint { operation, server })
}

// ---- the server that a URL names (OpenAPI 3.1.1, 4.8.5)

// The URL that is given, or else the one of the operation.
fn url_of<'u>(given: Option<&'u str>, operation: &'u Operation) -> Option<&'u str>
    ensures { option_copied result ≡ option_or (option_copied given.entry) operation.now.server }
{
    match (given, &operation.server) {
        (Some(url), _) => Some(url),
        (None, Some(url)) => Some(url.as_str()),
        (None, None) => None,
    }
}

fn server_at(alloc: Global, url: Option<&str>) -> Result<Server, AllocError>
    ensures { IfOk result (λ s. s ≡ server_of_url (option_copied url.entry)) }
{
    make_server(alloc, address_at(url))
}

// A server without a host, at port 80, where there is no URL, or one of another form.
fn address_at(url: Option<&str>) -> ServerUrl<'_>
    ensures { server_named (seen result) ≡ server_of_url (option_copied url.entry) }
{
    let Some(address) = url.and_then(|url| server_url(url)) else {
        return ServerUrl {
            host: "",
            port: 80,
            base: "",
        };
    };
    address
}

fn make_server(alloc: Global, address: ServerUrl) -> Result<Server, AllocError>
    ensures { IfOk result (λ s. s ≡ server_named (seen address.entry)) }
{
    Ok(Server {
        host: Text::from_str(alloc, address.host)?,
        port: address.port,
        base: Text::from_str(alloc, address.base)?,
    })
}
