// The operation that a name means.
ghost use Rattle.std.specs.Prelude.{◌≡◌, ◌&&◌, if◌then◌else◌, None, IfOk, Some, codes, map, option_map, option_and_then, find};
ghost use Rattle.std.specs.Option.{option_copied};
ghost use Rattle.std.specs.Str.{is_utf8};
ghost use Rattle.arz_json.specs.Answer.{Gives};
ghost use Rattle.arz_json.specs.Look.{members_at as paths_at};
ghost use Rattle.arz_json.specs.Pointer.{member_named};
ghost use Rattle.arz_json.specs.Texts.{split_once as split_at_first};
ghost use Rattle.arz_rules.specs.Phases.{cause};
ghost use Rattle.arz_operation.specs.Named.{is_text, has_id, by_id, by_pointer, at_item, at_path, after, is_among, is_path as begins_path, methods};
ghost use Rattle.arz_openapi.specs.Parts.{found as found_at, percent_decoded, by_path};
ghost use Rattle.arz_openapi.specs.Sites.{seen};

use crate::parts::rule_of_operation;
use crate::reading::operation;
use crate::sites::{METHODS, Site, id_of_site, is_path, item_behind, site_under, sites};
use crate::tokens::decode;
use arz_json::{Json, Text, members_at, split_once, value_named};
use arz_operation::{Operation, is_reference};
use arz_rules::{RuleFault, refuse, root_place};
use percent_encoding::percent_decode;
use std::alloc::{AllocError, Global};

fn found_site(alloc: Global, root: &Json, site: &Site) -> Result<Option<Operation>, RuleFault>
    ensures { Gives (λ o. o) cause result (found_at root.now (Some (seen site.now))) }
{
    if let Some(rule) = rule_of_operation(alloc, root, site)? {
        return Err(refuse(alloc, rule, "", &root_place(alloc)));
    }
    let operation = operation(alloc, root, site)?;
    Ok(Some(operation))
}

/// The operation at a site, or none.
pub(crate) fn found(
    alloc: Global,
    root: &Json,
    site: Option<Site>,
) -> Result<Option<Operation>, RuleFault>
    ensures { Gives (λ o. o) cause result (found_at root.now (option_map seen site.entry)) }
{
    match site {
        Some(site) => found_site(alloc, root, &site),
        None => Ok(None),
    }
}

fn has_text(id: &str, text: Option<&str>) -> bool
    ensures { result ≡ is_text id.now (option_map (λ t. t.now) text.entry) }
{
    match text {
        Some(text) => text == id,
        None => false,
    }
}

fn first_with<'a>(sites: &[Site<'a>], id: &str) -> Option<Site<'a>>
    ensures { option_map seen result ≡ find (has_id id.now) (map seen sites.now) }
{
    for site in sites {
        if has_text(id, id_of_site(site)) {
            return Some(*site);
        }
    }
    None
}

/// The operation of a document with this operationId (OpenAPI 3.1.0, section 4.8.10), and `None` where there is none.
/// Refused with the least of the rules 3, 8, 18 and 19 that fails at the operation's parameters, its body or their
/// references, under an empty label and an empty pointer.
pub fn find_id(alloc: Global, root: &Json, id: &str) -> Result<Option<Operation>, RuleFault>
    ensures { Gives (λ o. o) cause result (found_at root.now (by_id root.now id.now)) }
{
    let sites = sites(alloc, root)?;
    found(alloc, root, first_with(sites.as_slice(), id))
}

fn is_method(name: &str) -> bool
    ensures { result ≡ is_among methods name.now }
{
    is_one_of(&METHODS, name)
}

fn is_one_of(words: &[&str], name: &str) -> bool
    ensures { result ≡ is_among (map (λ w. w.now) words.now) name.now }
{
    for word in words {
        if *word == name {
            return true;
        }
    }
    false
}

/// Whether a path and a method may name an operation.
pub(crate) fn is_named(path: &str, method: &str) -> bool
    ensures { result ≡ (begins_path path.now && is_among methods method.now) }
{
    is_path(path) && is_method(method)
}

/// The operation under a method of a path's item.
pub(crate) fn site_of_item<'a>(
    root: &'a Json,
    path: &'a str,
    method: &'a str,
    item: &'a Json,
) -> Option<Site<'a>>
    ensures { option_map seen result ≡ at_item path.now method.now root.now item.now }
{
    match item_behind(root, item) {
        Some(meant) => site_under(path, is_reference(item), meant, method),
        None => None,
    }
}

fn site_in<'a>(root: &'a Json, path: &'a str, method: &'a str) -> Option<Site<'a>>
    ensures { option_map seen result ≡ option_and_then (at_item path.now method.now root.now) (member_named (paths_at (codes "paths") root.now) path.now) }
{
    match value_named(members_at(root, "paths"), path) {
        Some(item) => site_of_item(root, path, method, item),
        None => None,
    }
}

fn site_at<'a>(root: &'a Json, path: &'a str, method: &'a str) -> Option<Site<'a>>
    ensures { option_map seen result ≡ at_path root.now path.now method.now }
{
    if is_named(path, method) {
        site_in(root, path, method)
    } else {
        None
    }
}

fn below_paths(pointer: &str) -> Option<&str>
    ensures { option_copied result ≡ after (codes "/paths/") pointer.now }
{
    pointer.strip_prefix("/paths/")
}

/// The token of the path, and the method, of a pointer `/paths/PATH/METHOD`.
pub(crate) fn path_and_method(pointer: &str) -> Option<(&str, &str)>
    ensures { option_map (λ p. (p.0.now, p.1.now)) result ≡ option_and_then (split_at_first 47) (after (codes "/paths/") pointer.now) }
{
    split_once(below_paths(pointer)?, '/')
}

fn find_at(alloc: Global, root: &Json, pointer: &str) -> Result<Option<Operation>, RuleFault>
    ensures { Gives (λ o. o) cause result (found_at root.now (by_pointer root.now pointer.now)) }
{
    let Some((token, method)) = path_and_method(pointer) else {
        return Ok(None);
    };
    let Some(path) = decode(alloc, token)? else {
        return Ok(None);
    };
    found(alloc, root, site_at(root, path.as_str(), method))
}

fn text_of(alloc: Global, bytes: &[u8]) -> Result<Option<Text>, AllocError>
    ensures { IfOk result (λ t. t ≡ (if is_utf8 bytes.now then Some bytes.now else None)) }
{
    match str::from_utf8(bytes) {
        Ok(text) => Ok(Some(Text::from_str(alloc, text)?)),
        Err(_) => Ok(None),
    }
}

/// The text that a pointer decodes to, where it is one.
pub(crate) fn decoded(alloc: Global, pointer: &str) -> Result<Option<Text>, AllocError>
    ensures { IfOk result (λ t. t ≡ percent_decoded pointer.now) }
{
    let mut bytes = Vec::new(alloc);
    percent_decode(pointer.as_bytes()).append_to(&mut bytes)?;
    text_of(alloc, bytes.as_slice())
}

/// The operation of a document at a JSON Pointer (RFC 6901) `/paths/PATH/METHOD`, which is percent-decoded first (RFC
/// 3986, section 2.1), and `None` where there is none. A `%` that begins no escape stays; what decodes to no text names
/// no operation. Refused as by `find_id`.
pub fn find_path(alloc: Global, root: &Json, pointer: &str) -> Result<Option<Operation>, RuleFault>
    ensures { Gives (λ o. o) cause result (found_at root.now (by_path root.now pointer.now)) }
{
    match decoded(alloc, pointer)? {
        Some(text) => find_at(alloc, root, text.as_str()),
        None => Ok(None),
    }
}
