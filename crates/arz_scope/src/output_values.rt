// The outputs of a step and of a workflow.
ghost use Rattle.std.specs.Prelude.{◌≡◌, IfOk, IfSome};
ghost use Rattle.arz_json.specs.declared.Json.{Json};
ghost use Rattle.arz_json.specs.Tree.{IsWellFormed, has_opaque};
ghost use Rattle.arz_scope.specs.Outputs.{outputs_of, output_value as value_of};
ghost use Rattle.arz_scope.specs.Shallow.{IsShallow, AreShallow};

use arz_expr::{Expr, Scope, value};
use arz_json::{Json, Member, Members, copy, holds_opaque, members_at};
use std::alloc::{AllocError, Global};

/// The outputs that a step or a workflow lists (Arazzo 1.0.1, 4.6.4.1 and 4.6.5.1), in the order in
/// which it lists them: the value of each one's expression. An output whose expression has no value is
/// left out, and so is one whose text is no expression.
pub fn outputs<S: Scope>(alloc: Global, listed: &Json, scope: &S) -> Result<Members, AllocError>
    ensures value { IfOk result (λ given. given ≡ outputs_of (S.found scope.now) listed.now) }
    ensures shallow { IfOk result AreShallow }
    ensures well_formed { IfOk result (λ given. IsWellFormed listed.now → IsWellFormed (Json.Object given)) }
{
    let mut given = Vec::new(alloc);
    for output in members_at(listed, "outputs") {
        if let Some(value) = output_value(alloc, &output.value, scope)? {
            let name = output.name.copy(alloc)?;
            given.push(Member { name, value })?;
        }
    }
    Ok(Members::from_std(given))
}

// The value of the expression that a tree spells, where it has one.
fn output_value<S: Scope>(
    alloc: Global,
    written: &Json,
    scope: &S,
) -> Result<Option<Json>, AllocError>
    ensures value { IfOk result (λ given. given ≡ value_of (S.found scope.now) written.now) }
    ensures shallow { IfOk result (λ given. IfSome given IsShallow) }
{
    let Some(text) = written.as_text() else {
        return Ok(None);
    };
    let Some(expression) = Expr::read(alloc, text)? else {
        return Ok(None);
    };
    match value(&expression, scope) {
        Some(found) => Ok(Some(copy(alloc, found)?)),
        None => Ok(None),
    }
}

/// Whether an `Opaque` is inside of one of the values.
pub fn any_opaque(members: &[Member]) -> bool
    ensures { result ≡ has_opaque (Json.Object members.now) }
{
    for member in members {
        if holds_opaque(&member.value) {
            return true;
        }
    }
    false
}
