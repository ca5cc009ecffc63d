// The inputs of a run that a step makes (Arazzo 1.0.1, 4.6.5.1: parameters).
ghost use Rattle.std.specs.Prelude.{◌≡◌, [], All, map, IfOk};
ghost use Rattle.std.specs.BTreeMap.{values as values_in};
ghost use Rattle.arz_json.specs.Answer.{Gives};
ghost use Rattle.arz_request.specs.Causes.{filling, made_of, told};
ghost use Rattle.arz_scope.specs.Shallow.{IsShallow, AreShallow};
ghost use Rattle.arz_relation.specs.Requests.{all_filled, in_order, member_of};
ghost use Rattle.arz_runs.specs.Entries.{entries_in};
ghost use Rattle.arz_runs.specs.Planned.{inputs_by};

use arz_description::Given;
use arz_expr::{Scope, Template, fill};
use arz_json::{Json, Many, Member, Members, Text};
use arz_request::BuildFault;
use std::alloc::{AllocError, Global};
use std::collections::BTreeMap;

/// The inputs that these parameters give, each filled with what the scope finds, in ascending byte order of their names.
/// `Stuck` comes with the first cause, in the order of the parameters.
pub(crate) fn inputs<S: Scope>(
    alloc: Global,
    given: &Many<Given>,
    scope: &S,
) -> Result<Members, BuildFault>
    ensures fills { Gives (λ inputs. inputs) told result (inputs_by (S.found scope.now) given.now) }
    ensures shallow { IfOk result AreShallow }
{
    let values = values(alloc, given.as_slice(), scope)?;
    Ok(members(alloc, values)?)
}

// The value of each parameter, by its name. A later one with the same name takes the place of an earlier one.
fn values<'g, S: Scope>(
    alloc: Global,
    given: &'g [Given],
    scope: &S,
) -> Result<BTreeMap<&'g str, Json>, BuildFault>
    ensures fills { Gives entries_in told result (made_of (λ es. in_order es []) (all_filled (S.found scope.now) given.now)) }
    ensures shallow { IfOk result (λ m. All IsShallow (values_in m)) }
{
    let mut values = BTreeMap::new(alloc);
    for parameter in given {
        let value = filled(alloc, &parameter.value, scope)?;
        values.insert(parameter.name.as_str(), value)?;
    }
    Ok(values)
}

// The tree that a template gives, or the cause why it gives none.
fn filled<S: Scope>(alloc: Global, template: &Template, scope: &S) -> Result<Json, BuildFault>
    ensures filled { Gives (λ tree. tree) told result (filling (S.found scope.now) template.now) }
    ensures shallow { IfOk result IsShallow }
{
    Ok(fill(alloc, template, scope)?)
}

// The members of an object with these values, in the order of their names.
fn members(alloc: Global, values: BTreeMap<&str, Json>) -> Result<Members, AllocError>
    ensures { IfOk result (λ members. members ≡ map member_of (entries_in values.entry)) }
{
    let mut members = Vec::with_capacity(alloc, values.len())?;
    for (name, value) in values {
        let name = Text::from_str(alloc, name)?;
        members.push(Member { name, value })?;
    }
    Ok(Members::from_std(members))
}
