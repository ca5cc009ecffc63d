// Names, and the version.
ghost use Rattle.std.specs.Prelude.{◌≡◌, true, IfOk};
ghost use Rattle.arz_json.specs.Tree.{has_form};
ghost use Rattle.arz_rules.specs.Place.{least, tokens_in};
ghost use Rattle.arz_names.specs.Names.{bad_version, wrong_names};

use arz_json::{Json, Place};
use arz_rules::Way::Member;
use arz_rules::{BadName, BadNames, Way, first_at, first_at_each, lesser};
use arz_sites::{Wanted, named, names};
use std::alloc::{AllocError, Global};

const VERSION: [Way<'static>; 1] = [Member("arazzo")];

/// The place of a version that isn't one of Arazzo 1.0.
pub fn first_bad_version(alloc: Global, root: &Json) -> Result<Option<Place>, AllocError>
    requires { has_form root.now ≡ true }
    ensures { IfOk result (λ p. tokens_in p ≡ least (bad_version root.now)) }
{
    first_at(alloc, &VERSION, &Wanted::Version, root)
}

/// The least place at which a name is none.
pub fn first_wrong_name(alloc: Global, root: &Json) -> Result<Option<Place>, AllocError>
    requires { has_form root.now ≡ true }
    ensures { IfOk result (λ p. tokens_in p ≡ least (wrong_names root.now)) }
{
    let texts = first_at_each(alloc, names(), &BadName {}, root)?;
    let members = first_at_each(alloc, named(), &BadNames {}, root)?;
    Ok(lesser(texts, members))
}
