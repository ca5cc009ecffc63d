// Templates with the values of their expressions.
ghost use Rattle.std.specs.Prelude.{IfOk};
ghost use Rattle.arz_json.specs.Answer.{Gives};
ghost use Rattle.arz_json.specs.Shallow.{IsShallow};
ghost use Rattle.arz_request.specs.Causes.{filling, told};

use crate::cause::BuildFault;
use arz_expr::{Scope, Template, fill};
use arz_json::Json;
use std::alloc::Global;

/// The tree that a template gives (Arazzo 1.0.1, section 4.7), or the cause why it gives none. It nests at most 127
/// deep.
pub(crate) fn filled<S: Scope>(
    alloc: Global,
    template: &Template,
    scope: &S,
) -> Result<Json, BuildFault>
    ensures filled { Gives (λ tree. tree) told result (filling (S.found scope.now) template.now) }
    ensures shallow { IfOk result IsShallow }
{
    Ok(fill(alloc, template, scope)?)
}
