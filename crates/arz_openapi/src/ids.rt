// OperationIds that stand a second time.
ghost use Rattle.std.specs.Prelude.{◌≡◌, ◌∷◌, [], ◌||◌, map, IfOk, OnOk, ℕ, List, Some, None, option_map, if◌then◌else◌};
ghost use Rattle.arz_rules.specs.Place.{least, tokens_in};
ghost use Rattle.arz_rules.specs.Sets.{has};
ghost use Rattle.arz_openapi.specs.Rules.{told, told_in, is_taken, taking, repeated, none_taken};
ghost use Rattle.arz_openapi.specs.Sites.{seen};

use crate::sites::{Site, id_of_site};
use arz_json::Place;
use arz_rules::{TextSet, below_name, lesser, root_place};
use std::alloc::{AllocError, Global};

// Whether the text was there.
fn put_id<'a>(set: &mut TextSet<'a>, id: Option<&'a str>) -> Result<bool, AllocError>
    ensures was { IfOk result (λ was. was ≡ is_taken (has set.old) (option_map (λ t. t.now) id.entry)) }
    ensures now { OnOk result ((q : List ℕ) → has set.new q ≡ taking (option_map (λ t. t.now) id.entry) (has set.old) q) }
{
    match id {
        Some(text) => set.put(text),
        None => Ok(false),
    }
}

fn place_in_item(alloc: Global, site: &Site) -> Result<Option<Place>, AllocError>
    ensures { IfOk result (λ p. tokens_in p ≡ Some (told_in (seen site.now))) }
{
    let here = Some(root_place(alloc));
    if site.is_referred {
        return Ok(here);
    }
    let id = below_name(alloc, "operationId", here)?;
    below_name(alloc, site.method, id)
}

fn place_of(alloc: Global, site: &Site) -> Result<Option<Place>, AllocError>
    ensures { IfOk result (λ p. tokens_in p ≡ Some (told (seen site.now))) }
{
    let inside = place_in_item(alloc, site)?;
    let item = below_name(alloc, site.path, inside)?;
    below_name(alloc, "paths", item)
}

fn place_if(alloc: Global, is_repeat: bool, site: &Site) -> Result<Option<Place>, AllocError>
    ensures { IfOk result (λ p. tokens_in p ≡ least (if is_repeat then told (seen site.now) ∷ [] else [])) }
{
    if !is_repeat {
        return Ok(None);
    }
    place_of(alloc, site)
}

/// The least place of an operationId that an earlier operation has.
pub(crate) fn first_repeat(alloc: Global, sites: &[Site]) -> Result<Option<Place>, AllocError>
    ensures { IfOk result (λ p. tokens_in p ≡ least (repeated none_taken (map seen sites.now))) }
{
    let mut ids = TextSet::new(alloc);
    let mut best = None;
    for site in sites {
        let is_repeat = put_id(&mut ids, id_of_site(site))?;
        let found = place_if(alloc, is_repeat, site)?;
        best = lesser(best, found);
    }
    Ok(best)
}
