// Types of criteria that aren't taken.
ghost use Rattle.std.specs.Prelude.{◌≡◌, true, IfOk};
ghost use Rattle.arz_json.specs.Tree.{has_form};
ghost use Rattle.arz_rules.specs.Place.{least, tokens_in};
ghost use Rattle.arz_contents.specs.Contents.{xpaths, type_objects};

use arz_json::{Json, Place};
use arz_rules::Way::Member;
use arz_rules::{Check, Way, root_unless};
use arz_sites::{Below, Wanted, first_in_criteria};
use std::alloc::{AllocError, Global};

const TYPE: [Way<'static>; 1] = [Member("type")];

/// The least place of the type `xpath` of a criterion.
pub fn first_xpath(alloc: Global, root: &Json) -> Result<Option<Place>, AllocError>
    requires { has_form root.now ≡ true }
    ensures { IfOk result (λ p. tokens_in p ≡ least (xpaths root.now)) }
{
    let check = Below {
        ways: &TYPE,
        check: &Wanted::NotXpath,
    };
    first_in_criteria(alloc, &check, root)
}

/// No object.
#[derive(Clone, Copy, Debug)]
pub struct NoObject {}

impl Check for NoObject {
    ghost use Rattle.arz_contents.specs.Contents.{no_object};

    ghost places = { λ _. no_object };

    fn first(&self, alloc: Global, tree: &Json) -> Result<Option<Place>, AllocError> {
        Ok(root_unless(alloc, tree.as_object().is_none()))
    }
}

/// The least place of a type of a criterion that is an object (Arazzo 1.0.1, section 4.6.12).
pub fn first_type_object(alloc: Global, root: &Json) -> Result<Option<Place>, AllocError>
    requires { has_form root.now ≡ true }
    ensures { IfOk result (λ p. tokens_in p ≡ least (type_objects root.now)) }
{
    let check = Below {
        ways: &TYPE,
        check: &NoObject {},
    };
    first_in_criteria(alloc, &check, root)
}
