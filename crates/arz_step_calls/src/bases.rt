// What the expressions of a case stand for.
ghost use Rattle.std.specs.Prelude.{◌≡◌, IfSome};
ghost use Rattle.std.specs.Option.{option_copied};
ghost use Rattle.arz_json.specs.Look.{member_in};
ghost use Rattle.arz_json.specs.Tree.{IsWithin};

use arz_cases::{Case, CaseFault};
use arz_expr::{Base, Scope};
use arz_json::Json;
use std::alloc::Global;

/// The scope of an object: `$inputs.NAME` is its member NAME, `$response.header.NAME` the member NAME of its member
/// `header`, and `$statusCode` and `$response.body` are its members `statusCode` and `body`. No other base has a value.
#[derive(Drop)]
pub struct Bases {
    root: Json,
    ghost within: { IsWithin 127 root },
}

impl Scope for Bases {
    ghost use Rattle.arz_step_calls.specs.Bases.{base_value};

    ghost found = { λ s b. base_value s.root b };

    fn find(&self, base: &Base) -> Option<&Json> {
        match base {
            Base::Input(name) => member(&self.root, name.as_str()),
            Base::ResponseHeader(name) => member(member(&self.root, "header")?, name.as_str()),
            Base::StatusCode => member(&self.root, "statusCode"),
            Base::ResponseBody => member(&self.root, "body"),
            _ => None,
        }
    }
}

// The value of a member, which nests no deeper than the whole.
fn member<'a>(tree: &'a Json, name: &str) -> Option<&'a Json>
    requires { IsWithin 127 tree.now }
    ensures value { option_copied result ≡ member_in name.now tree.now }
    ensures within { IfSome result (λ value. IsWithin 127 value.now) }
{
    tree.get(name)
}

/// The scope of the object `bases`.
pub fn bases_of(alloc: Global, case: &Case<'_>) -> Result<Bases, CaseFault> {
    let root = case.json(alloc, "bases")?;
    Ok(Bases { root })
}
