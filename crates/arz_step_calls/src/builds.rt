// The request of a step.
use crate::bases::bases_of;
use arz_cases::{Case, CaseFault, Outcome};
use arz_description::{Description, Step, described};
use arz_http::write_request;
use arz_json::Text;
use arz_openapi::find_id;
use arz_operation::Operation;
use arz_request::{BuildFault, Cause, build as build_request};
use arz_rules::RuleFault;
use arz_target::server_url;
use arz_world::Server;
use std::alloc::Global;

/// The bytes of the request of the first step of the description `description`, for the operation of the OpenAPI
/// document `document` with the operationId `id`, at the server URL `server`, where expressions stand for the members
/// of the object `bases`; or why there is none.
pub fn build(alloc: Global, case: &Case<'_>) -> Result<Outcome, CaseFault> {
    let scope = bases_of(alloc, case)?;
    let operation = operation(alloc, case)?;
    let server = server(alloc, case)?;
    let tree = case.json(alloc, "description")?;
    let description = described(alloc, &tree)?;
    let step = first_step(&description).ok_or(CaseFault::Malformed("description"))?;
    let parameters = &step.parameters;
    match build_request(
        alloc,
        &operation,
        &server,
        parameters,
        step.body.as_ref(),
        &scope,
    ) {
        Ok(request) => Ok(Outcome {
            text: write_request(alloc, &request)?.into_std(),
            status: None,
        }),
        Err(BuildFault::Stuck(cause)) => Ok(Outcome::words(alloc, cause_word(cause))?),
        Err(BuildFault::Memory) => Err(CaseFault::Memory),
    }
}

fn operation(alloc: Global, case: &Case<'_>) -> Result<Operation, CaseFault> {
    let tree = case.json(alloc, "document")?;
    match find_id(alloc, &tree, case.word("id")) {
        Ok(Some(operation)) => Ok(operation),
        Ok(None) | Err(RuleFault::Refused(_)) => Err(CaseFault::Malformed("id")),
        Err(RuleFault::Memory) => Err(CaseFault::Memory),
    }
}

fn server(alloc: Global, case: &Case<'_>) -> Result<Server, CaseFault> {
    let url = server_url(case.word("server")).ok_or(CaseFault::Malformed("server"))?;
    Ok(Server {
        host: Text::from_str(alloc, url.host)?,
        port: url.port,
        base: Text::from_str(alloc, url.base)?,
    })
}

fn first_step(description: &Description) -> Option<&Step> {
    description.workflows.get(0)?.steps.get(0)
}

fn cause_word(cause: Cause) -> &'static str {
    match cause {
        Cause::Unresolved => "Unresolved",
        Cause::FractionUsed => "FractionUsed",
        Cause::TooNested => "TooNested",
        Cause::NotSerializable => "NotSerializable",
        Cause::BadHeaderValue => "BadHeaderValue",
        Cause::PayloadTarget => "PayloadTarget",
        Cause::RequestTooLarge => "RequestTooLarge",
        Cause::TooWide => "TooWide",
    }
}
