// Where the operations of a document stand.
ghost use Rattle.std.specs.Prelude.{◌≡◌, ◌++◌, IfOk, OnOk, map, option_map};
ghost use Rattle.std.specs.List.{filter_map};
ghost use Rattle.arz_operation.specs.Named.{under_method, all_under, in_member, item_of, is_path as begins_path, operations, id_of};
ghost use Rattle.arz_openapi.specs.Sites.{seen};

use arz_json::{Json, Member, members_at};
use arz_operation::{follow, is_reference};
use std::alloc::{AllocError, Global};

/// An operation where it stands in a document.
#[derive(Clone, Copy)]
pub(crate) struct Site<'a> {
    /// Its path.
    pub path: &'a str,
    /// Whether the path refers to its item.
    pub is_referred: bool,
    /// The path item.
    pub item: &'a Json,
    /// The method.
    pub method: &'a str,
    /// The operation itself.
    pub operation: &'a Json,
}

/// The fixed fields of a path item that hold operations (OpenAPI 3.1.0, section 4.8.9), in byte order.
pub(crate) const METHODS: [&'static str; 8] = [
    "delete", "get", "head", "options", "patch", "post", "put", "trace",
];

/// Whether a name is that of a path (OpenAPI 3.1.0, section 4.8.8).
pub(crate) fn is_path(name: &str) -> bool
    ensures { result ≡ begins_path name.now }
{
    match name.as_bytes() {
        [first, ..] => *first == b'/',
        [] => false,
    }
}

/// What stands under a method of a path item.
pub(crate) fn site_under<'a>(
    path: &'a str,
    is_referred: bool,
    item: &'a Json,
    method: &'a str,
) -> Option<Site<'a>>
    ensures { option_map seen result ≡ under_method path.now is_referred item.now method.now }
{
    match item.get(method) {
        Some(operation) => Some(Site {
            path,
            is_referred,
            item,
            method,
            operation,
        }),
        None => None,
    }
}

fn push_methods<'a>(
    sites: &mut Vec<Site<'a>>,
    path: &'a str,
    is_referred: bool,
    item: &'a Json,
    methods: &[&'a str],
) -> Result<(), AllocError>
    ensures { OnOk result (map seen sites.new.items ≡ map seen sites.old.items ++ filter_map (under_method path.now is_referred item.now) (map (λ m. m.now) methods.now)) }
{
    for method in methods {
        if let Some(site) = site_under(path, is_referred, item, method) {
            sites.push(site)?;
        }
    }
    Ok(())
}

fn push_item<'a>(
    sites: &mut Vec<Site<'a>>,
    path: &'a str,
    is_referred: bool,
    item: Option<&'a Json>,
) -> Result<(), AllocError>
    ensures { OnOk result (map seen sites.new.items ≡ map seen sites.old.items ++ all_under path.now is_referred (option_map (λ j. j.now) item.entry)) }
{
    match item {
        Some(item) => push_methods(sites, path, is_referred, item, &METHODS),
        None => Ok(()),
    }
}

/// The path item that stands for another, where there is one.
pub(crate) fn item_behind<'a>(root: &'a Json, item: &'a Json) -> Option<&'a Json>
    ensures { option_map (λ j. j.now) result ≡ item_of root.now item.now }
{
    match follow(root, item) {
        Ok(item) => Some(item),
        Err(_) => None,
    }
}

fn push_member<'a>(
    sites: &mut Vec<Site<'a>>,
    root: &'a Json,
    member: &'a Member,
) -> Result<(), AllocError>
    ensures { OnOk result (map seen sites.new.items ≡ map seen sites.old.items ++ in_member root.now member.now) }
{
    let path = member.name.as_str();
    if !is_path(path) {
        return Ok(());
    }
    let is_referred = is_reference(&member.value);
    push_item(sites, path, is_referred, item_behind(root, &member.value))
}

/// The operations of a document, by their paths and methods in byte order.
pub(crate) fn sites<'a>(alloc: Global, root: &'a Json) -> Result<Vec<Site<'a>>, AllocError>
    ensures { IfOk result (λ sites. map seen sites.items ≡ operations root.now) }
{
    let mut sites = Vec::new(alloc);
    for member in members_at(root, "paths") {
        push_member(&mut sites, root, member)?;
    }
    Ok(sites)
}

/// The operationId of an operation, where it has one.
pub(crate) fn id_of_site<'a>(site: &Site<'a>) -> Option<&'a str>
    ensures { option_map (λ t. t.now) result ≡ id_of (seen site.now) }
{
    site.operation.get("operationId")?.as_text()
}
