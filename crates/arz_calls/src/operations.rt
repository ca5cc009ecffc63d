// Operations of OpenAPI documents.
use arz_cases::{Case, CaseFault, Outcome};
use arz_json::{Json, Location, Style, Text};
use arz_openapi::{Operations, check, find_id, find_path};
use arz_operation::{Described, Operation};
use arz_rules::RuleFault;
use std::alloc::Global;

/// The least rule that the OpenAPI document `document` fails and the pointer of its least place, or `none`.
pub fn openapi(alloc: Global, case: &Case<'_>) -> Result<Outcome, CaseFault> {
    let tree = case.json(alloc, "document")?;
    match check(alloc, &tree) {
        Ok(()) => Ok(Outcome::words(alloc, "none")?),
        Err(RuleFault::Refused(refusal)) => Ok(Outcome::text(format!(in alloc;
            "{} {}",
            refusal.rule,
            refusal.pointer.as_str()
        )?)),
        Err(RuleFault::Memory) => Err(CaseFault::Memory),
    }
}

/// The operation of `document` with the operationId `id`, or else at the pointer `pointer`: its method and path; of
/// each parameter the name, place and style, with `*` where it is exploded; the media types of its body; and its
/// server. Or `none`, or the rule that fails. It is looked for in the document and by its maps, which must agree.
pub fn operation(alloc: Global, case: &Case<'_>) -> Result<Outcome, CaseFault> {
    let tree = case.json(alloc, "document")?;
    let plain = told(alloc, in_document(alloc, case, &tree))?;
    let mapped = told(alloc, by_maps(alloc, case, &tree))?;
    if plain.as_str() != mapped.as_str() {
        return Ok(Outcome::words(alloc, "differs by the maps")?);
    }
    Ok(Outcome::text(plain))
}

fn in_document(
    alloc: Global,
    case: &Case<'_>,
    tree: &Json,
) -> Result<Option<Operation>, RuleFault> {
    match case.member("id") {
        Some(_) => find_id(alloc, tree, case.word("id")),
        None => find_path(alloc, tree, case.word("pointer")),
    }
}

fn by_maps(alloc: Global, case: &Case<'_>, tree: &Json) -> Result<Option<Operation>, RuleFault> {
    let operations = Operations::of(alloc, tree)?;
    match case.member("id") {
        Some(_) => operations.find_id(alloc, case.word("id")),
        None => operations.find_path(alloc, case.word("pointer")),
    }
}

fn told(alloc: Global, found: Result<Option<Operation>, RuleFault>) -> Result<String, CaseFault> {
    match found {
        Ok(Some(operation)) => operation_words(alloc, &operation),
        Ok(None) => Ok(String::from_str(alloc, "none")?),
        Err(RuleFault::Refused(refusal)) => Ok(format!(in alloc; "{}", refusal.rule)?),
        Err(RuleFault::Memory) => Err(CaseFault::Memory),
    }
}

fn operation_words(alloc: Global, operation: &Operation) -> Result<String, CaseFault> {
    let mut text = format!(in alloc; "{} {}", operation.method.as_str(), operation.path.as_str())?;
    add_parameters(alloc, operation.parameters.as_slice(), &mut text)?;
    add_types(operation.types.as_slice(), &mut text)?;
    if let Some(server) = &operation.server {
        text.push_str(" at ")?;
        text.push_str(server.as_str())?;
    }
    Ok(text)
}

fn add_parameters(
    alloc: Global,
    parameters: &[Described],
    text: &mut String,
) -> Result<(), CaseFault> {
    for parameter in parameters {
        let words = format!(in alloc;
            " {}:{}:{}{}",
            parameter.name.as_str(),
            place_word(parameter.place),
            style_word(parameter.style),
            if parameter.explode { "*" } else { "" }
        )?;
        text.push_str(words.as_str())?;
    }
    Ok(())
}

fn add_types(types: &[Text], text: &mut String) -> Result<(), CaseFault> {
    for name in types {
        text.push_str(" ")?;
        text.push_str(name.as_str())?;
    }
    Ok(())
}

fn place_word(place: Location) -> &'static str {
    match place {
        Location::Path => "path",
        Location::Query => "query",
        Location::Header => "header",
        Location::Cookie => "cookie",
    }
}

fn style_word(style: Style) -> &'static str {
    match style {
        Style::Matrix => "matrix",
        Style::Label => "label",
        Style::Simple => "simple",
        Style::Form => "form",
        Style::SpaceDelimited => "spaceDelimited",
        Style::PipeDelimited => "pipeDelimited",
        Style::DeepObject => "deepObject",
    }
}
