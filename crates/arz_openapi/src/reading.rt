// What an operation says.
ghost use Rattle.std.specs.Prelude.{◌≡◌, ◌++◌, IfOk, OnOk, map, option_map};
ghost use Rattle.std.specs.Option.{option_to_list};
ghost use Rattle.arz_operation.specs.Named.{parameter_in, listed, types_in, body_in, operation_of};
ghost use Rattle.arz_operation.specs.Servers.{first_of, server_in, server_of, server_url, url_of};
ghost use Rattle.arz_openapi.specs.Sites.{seen};

use crate::joined::joined;
use crate::sites::{Site, item_behind};
use arz_json::{Json, Many, Member, Text, items_at, members_at, text_at};
use arz_operation::{Described, Operation, fill, read_parameter};
use std::alloc::{AllocError, Global};

fn parameter(alloc: Global, root: &Json, tree: &Json) -> Result<Option<Described>, AllocError>
    ensures { IfOk result (λ d. d ≡ parameter_in root.now tree.now) }
{
    match item_behind(root, tree) {
        Some(meant) => read_parameter(alloc, meant),
        None => Ok(None),
    }
}

fn push_if(out: &mut Vec<Described>, described: Option<Described>) -> Result<(), AllocError>
    ensures { OnOk result (out.new.items ≡ out.old.items ++ option_to_list described) }
{
    if let Some(described) = described {
        out.push(described)?;
    }
    Ok(())
}

fn parameters(alloc: Global, root: &Json, tree: &Json) -> Result<Vec<Described>, AllocError>
    ensures { IfOk result (λ ds. ds.items ≡ listed root.now tree.now) }
{
    let mut out = Vec::new(alloc);
    for item in items_at(tree, "parameters") {
        push_if(&mut out, parameter(alloc, root, item)?)?;
    }
    Ok(out)
}

fn names(alloc: Global, members: &[Member]) -> Result<Many<Text>, AllocError>
    ensures { IfOk result (λ ts. ts ≡ map (λ m. m.name) members.now) }
{
    let mut names = Vec::with_capacity(alloc, members.len())?;
    for member in members {
        names.push(member.name.copy(alloc)?)?;
    }
    Ok(Many::from_std(names))
}

fn body<'a>(root: &'a Json, operation: &'a Json) -> Option<&'a Json>
    ensures { option_map (λ j. j.now) result ≡ body_in root.now operation.now }
{
    item_behind(root, operation.get("requestBody")?)
}

fn types(alloc: Global, body: Option<&Json>) -> Result<Many<Text>, AllocError>
    ensures { IfOk result (λ ts. ts ≡ types_in (option_map (λ j. j.now) body.entry)) }
{
    match body {
        Some(body) => names(alloc, members_at(body, "content")),
        None => Ok(Many::new(alloc)),
    }
}

fn first_server<'a>(tree: &'a Json) -> Option<&'a Json>
    ensures { option_map (λ j. j.now) result ≡ server_in tree.now }
{
    items_at(tree, "servers").first()
}

fn server<'a>(root: &'a Json, item: &'a Json, operation: &'a Json) -> Option<&'a Json>
    ensures { option_map (λ j. j.now) result ≡ server_of root.now item.now operation.now }
{
    if let Some(server) = first_server(operation) {
        return Some(server);
    }
    if let Some(server) = first_server(item) {
        return Some(server);
    }
    first_server(root)
}

fn url(alloc: Global, server: &Json) -> Result<Text, AllocError>
    ensures { IfOk result (λ t. t ≡ url_of server.now) }
{
    fill(
        alloc,
        text_at(server, "url"),
        members_at(server, "variables"),
    )
}

fn server_text(
    alloc: Global,
    root: &Json,
    item: &Json,
    operation: &Json,
) -> Result<Option<Text>, AllocError>
    ensures { IfOk result (λ t. t ≡ server_url root.now item.now operation.now) }
{
    match server(root, item, operation) {
        Some(server) => Ok(Some(url(alloc, server)?)),
        None => Ok(None),
    }
}

/// The operation that stands at a site.
pub(crate) fn operation(alloc: Global, root: &Json, site: &Site) -> Result<Operation, AllocError>
    ensures { IfOk result (λ o. o ≡ operation_of root.now (seen site.now)) }
{
    let path = Text::from_str(alloc, site.path)?;
    let method = Text::from_str(alloc, site.method)?;
    let of_item = parameters(alloc, root, site.item)?;
    let own = parameters(alloc, root, site.operation)?;
    let parameters = joined(alloc, of_item.as_slice(), own.as_slice())?;
    let types = types(alloc, body(root, site.operation))?;
    let server = server_text(alloc, root, site.item, site.operation)?;
    Ok(Operation {
        path,
        method,
        parameters,
        types,
        server,
    })
}
