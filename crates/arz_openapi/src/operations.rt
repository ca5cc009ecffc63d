// The operations of a document in maps.
ghost use Rattle.std.specs.Prelude.{◌≡◌, IfOk, OnOk, List, ℕ, codes, find, map, option_map, option_and_then, Some, if◌then◌else◌};
ghost use Rattle.arz_json.specs.Answer.{Gives};
ghost use Rattle.arz_json.specs.Look.{members_at as paths_at};
ghost use Rattle.arz_json.specs.Pointer.{member_named};
ghost use Rattle.arz_rules.specs.Phases.{cause};
ghost use Rattle.arz_operation.specs.Named.{has_id, by_id, by_pointer, at_item, at_path};
ghost use Rattle.arz_openapi.specs.Parts.{found as found_at, by_path};
ghost use Rattle.arz_openapi.specs.Sites.{seen};
ghost use Rattle.arz_openapi.specs.Indexes.{site_in_map, item_in_map};

use crate::finding::{decoded, found, is_named, path_and_method, site_of_item};
use crate::sites::{Site, id_of_site, sites};
use crate::tokens::decode;
use arz_json::{Json, Member, members_at};
use arz_operation::Operation;
use arz_rules::RuleFault;
use std::alloc::{AllocError, Global};
use std::collections::BTreeMap;
use std::marker::Model;

fn put_site<'a>(sites: &mut BTreeMap<&'a str, Site<'a>>, site: Site<'a>) -> Result<(), AllocError>
    ensures { OnOk result ((q : List ℕ) → site_in_map sites.new q ≡ (if has_id q (seen site.entry) then Some (seen site.entry) else site_in_map sites.old q)) }
{
    match id_of_site(&site) {
        Some(id) => {
            sites.insert(id, site)?;
            Ok(())
        }
        None => Ok(()),
    }
}

/// The first operation with each operationId.
fn index_sites<'a>(
    alloc: Global,
    sites: &[Site<'a>],
) -> Result<BTreeMap<&'a str, Site<'a>>, AllocError>
    ensures { IfOk result (λ m. (q : List ℕ) → site_in_map m q ≡ find (has_id q) (map seen sites.now)) }
{
    let mut ids = BTreeMap::new(alloc);
    for k in (0..sites.len()).rev() {
        put_site(&mut ids, sites[k])?;
    }
    Ok(ids)
}

/// The members by their names.
fn index_members<'a>(
    alloc: Global,
    members: &'a [Member],
) -> Result<BTreeMap<&'a str, &'a Json>, AllocError>
    ensures { IfOk result (λ m. (q : List ℕ) → item_in_map m q ≡ member_named members.now q) }
{
    let mut map = BTreeMap::new(alloc);
    for k in (0..members.len()).rev() {
        let member = &members[k];
        map.insert(member.name.as_str(), &member.value)?;
    }
    Ok(map)
}

/// The operations of a document, by operationId and by path. Contracts see the document.
#[derive(Drop)]
pub struct Operations<'a> {
    root: &'a Json,
    ids: BTreeMap<&'a str, Site<'a>>,
    paths: BTreeMap<&'a str, &'a Json>,
}

impl<'a> Model for Operations<'a> {
    ghost use Rattle.std.specs.Prelude.{List, ℕ, ◌≡◌, codes};
    ghost use Rattle.arz_json.specs.declared.tree.Json.{Json};
    ghost use Rattle.arz_json.specs.contracts.tree.Json as json;
    ghost use Rattle.arz_json.specs.Look.{members_at as paths_at};
    ghost use Rattle.arz_json.specs.Pointer.{member_named};
    ghost use Rattle.arz_operation.specs.Named.{by_id};
    ghost use Rattle.arz_openapi.specs.Indexes.{site_in_map, item_in_map};

    ghost Value = { Json };

    ghost coded = { json.the_row.coded };

    ghost view = { λ o. o.root.now };

    ghost invariant = { λ o. ((q : List ℕ) → site_in_map o.ids q ≡ by_id o.root.now q) × ((q : List ℕ) → item_in_map o.paths q ≡ member_named (paths_at (codes "paths") o.root.now) q) };
}

impl<'a> Operations<'a> {
    /// The operations of a document, found in logarithmic time. It takes memory for each operation and each path.
    pub fn of(alloc: Global, root: &'a Json) -> Result<Operations<'a>, AllocError>
        ensures { IfOk result (λ o. o ≡ root.now) }
    {
        let sites = sites(alloc, root)?;
        let ids = index_sites(alloc, sites.as_slice())?;
        let paths = index_members(alloc, members_at(root, "paths"))?;
        Ok(Operations { root, ids, paths })
    }

    fn root(&self) -> &'a Json
        ensures { result.now ≡ self.now }
    {
        self.root
    }

    fn with_id(&self, id: &str) -> Option<Site<'a>>
        ensures { option_map seen result ≡ by_id self.now id.now }
    {
        self.ids.get(id).copied()
    }

    fn item(&self, path: &str) -> Option<&'a Json>
        ensures { option_map (λ j. j.now) result ≡ member_named (paths_at (codes "paths") self.now) path.now }
    {
        self.paths.get(path).copied()
    }

    /// The operation with this operationId, as `find_id` gives it.
    pub fn find_id(&self, alloc: Global, id: &str) -> Result<Option<Operation>, RuleFault>
        ensures { Gives (λ o. o) cause result (found_at self.now (by_id self.now id.now)) }
    {
        found(alloc, self.root(), self.with_id(id))
    }

    /// The operation at a percent-encoded pointer, as `find_path` gives it.
    pub fn find_path(&self, alloc: Global, pointer: &str) -> Result<Option<Operation>, RuleFault>
        ensures { Gives (λ o. o) cause result (found_at self.now (by_path self.now pointer.now)) }
    {
        match decoded(alloc, pointer)? {
            Some(text) => find_in(alloc, self, text.as_str()),
            None => Ok(None),
        }
    }
}

fn site_below<'a: 's, 's>(
    operations: &Operations<'a>,
    path: &'s str,
    method: &'s str,
) -> Option<Site<'s>>
    ensures { option_map seen result ≡ option_and_then (at_item path.now method.now operations.now) (member_named (paths_at (codes "paths") operations.now) path.now) }
{
    match operations.item(path) {
        Some(item) => site_of_item(operations.root(), path, method, item),
        None => None,
    }
}

fn site_at<'a: 's, 's>(
    operations: &Operations<'a>,
    path: &'s str,
    method: &'s str,
) -> Option<Site<'s>>
    ensures { option_map seen result ≡ at_path operations.now path.now method.now }
{
    if is_named(path, method) {
        site_below(operations, path, method)
    } else {
        None
    }
}

fn find_in(
    alloc: Global,
    operations: &Operations,
    pointer: &str,
) -> Result<Option<Operation>, RuleFault>
    ensures { Gives (λ o. o) cause result (found_at operations.now (by_pointer operations.now pointer.now)) }
{
    let Some((token, method)) = path_and_method(pointer) else {
        return Ok(None);
    };
    let Some(path) = decode(alloc, token)? else {
        return Ok(None);
    };
    found(
        alloc,
        operations.root(),
        site_at(operations, path.as_str(), method),
    )
}
