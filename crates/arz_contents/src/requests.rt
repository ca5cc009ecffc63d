// Header fields that a parameter may not give, and media types that aren't sent.
ghost use Rattle.std.specs.Prelude.{◌≡◌, true, IfOk};
ghost use Rattle.arz_json.specs.Tree.{has_form};
ghost use Rattle.arz_rules.specs.Place.{least, tokens_in};
ghost use Rattle.arz_contents.specs.Contents.{bad_headers, bad_media_types};

use arz_components::text_of;
use arz_json::{Json, Place};
use arz_rules::Way::{EachItem, EachMember, Member};
use arz_rules::{Check, Way, first_at, lesser};
use arz_sites::{Below, UnlessFlow, UnlessReuse, Wanted};
use std::alloc::{AllocError, Global};

const NAME: [Way<'static>; 1] = [Member("name")];

const PARAMETERS: [Way<'static>; 2] = [Member("parameters"), EachItem];

const WORKFLOW_PARAMETERS: [Way<'static>; 4] = [
    Member("workflows"),
    EachItem,
    Member("parameters"),
    EachItem,
];

const STEPS: [Way<'static>; 4] = [Member("workflows"), EachItem, Member("steps"), EachItem];

const SHARED_PARAMETERS: [Way<'static>; 3] = [
    Member("components"),
    Member("parameters"),
    EachMember,
];

const MEDIA_TYPES: [Way<'static>; 6] = [
    Member("workflows"),
    EachItem,
    Member("steps"),
    EachItem,
    Member("requestBody"),
    Member("contentType"),
];

/// A parameter that gives no header field, or one that it may give.
#[derive(Clone, Copy, Debug)]
struct RightHeader {}

impl Check for RightHeader {
    ghost use Rattle.arz_contents.specs.Contents.{bad_header};

    ghost places = { λ _. bad_header };

    fn first(&self, alloc: Global, tree: &Json) -> Result<Option<Place>, AllocError> {
        match text_of(tree, "in") {
            Some("header") => first_at(alloc, &NAME, &Wanted::Header, tree),
            _ => Ok(None),
        }
    }
}

/// The least place of the name of a header field that a parameter may not give.
pub fn first_bad_header(alloc: Global, root: &Json) -> Result<Option<Place>, AllocError>
    requires { has_form root.now ≡ true }
    ensures { IfOk result (λ p. tokens_in p ≡ least (bad_headers root.now)) }
{
    let header = RightHeader {};
    let own = UnlessReuse { check: &header };
    let of_workflows = first_at(alloc, &WORKFLOW_PARAMETERS, &own, root)?;
    let each = Below {
        ways: &PARAMETERS,
        check: &own,
    };
    let in_step = UnlessFlow { check: &each };
    let of_steps = first_at(alloc, &STEPS, &in_step, root)?;
    let shared = first_at(alloc, &SHARED_PARAMETERS, &header, root)?;
    let listed = lesser(of_workflows, of_steps);
    Ok(lesser(listed, shared))
}

/// The least place of a media type that can't be sent.
pub fn first_bad_media_type(alloc: Global, root: &Json) -> Result<Option<Place>, AllocError>
    requires { has_form root.now ≡ true }
    ensures { IfOk result (λ p. tokens_in p ≡ least (bad_media_types root.now)) }
{
    first_at(alloc, &MEDIA_TYPES, &Wanted::MediaType, root)
}
