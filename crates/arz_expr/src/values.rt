// The values that expressions stand for.
ghost use Rattle.std.specs.Prelude.{◌≡◌, ◌≤◌, slice_get, IfSome};
ghost use Rattle.std.specs.Option.{option_copied};
ghost use Rattle.arz_json.specs.Tree.{depth, IsWellFormed};
ghost use Rattle.arz_expr.specs.Values.{value_in, steps_in, step_in};

use crate::syntax::{Base, Expr, Tail};
use arz_json::{Json, Many, at};

/// Where the values of expressions are looked up.
pub trait Scope {
    ghost use Rattle.std.specs.Prelude.{Option};
    ghost use Rattle.arz_json.specs.declared.tree.Json.{Json};
    ghost use Rattle.arz_expr.specs.declared.syntax.Base.{Base};

    ghost found: { Self → Base → Option Json };

    /// The value of a base, or `None` where it has none. It takes no memory. A value nests at most
    /// 127 deep, as JSON that is read does.
    fn find(&self, base: &Base) -> Option<&Json>
        ensures value { option_copied result ≡ found self.now base.now }
        ensures well_formed { IfSome result (λ j. IsWellFormed j.now) }
        ensures nests { IfSome result (λ j. depth j.now ≤ 127) };
}

/// The value that an expression stands for (Arazzo 1.0.1, section 4.7): from the value of its base the
/// steps of its tail go on, and from there its JSON Pointer (RFC 6901). It is `None` where one of these
/// isn't there or has another kind. It takes no memory.
pub fn value<'a, S: Scope>(expr: &Expr, scope: &'a S) -> Option<&'a Json>
    ensures value { option_copied result ≡ value_in (S.found scope.now) expr.now }
    ensures well_formed { IfSome result (λ j. IsWellFormed j.now) }
    ensures nests { IfSome result (λ j. depth j.now ≤ 127) }
{
    let base = scope.find(&expr.base)?;
    let target = walk(&expr.tail, base)?;
    match &expr.pointer {
        Some(pointer) => at(target, pointer.as_str()),
        None => Some(target),
    }
}

fn walk<'a>(tail: &Many<Tail>, base: &'a Json) -> Option<&'a Json>
    ensures { option_copied result ≡ steps_in tail.now base.now }
{
    let mut target = base;
    for step in tail.as_slice() {
        target = step_into(target, step)?;
    }
    Some(target)
}

fn step_into<'a>(target: &'a Json, step: &Tail) -> Option<&'a Json>
    ensures { option_copied result ≡ step_in step.now target.now }
{
    match step {
        Tail::Member(name) => target.get(name.as_str()),
        Tail::Index(i) => item(target.as_list()?, *i as usize),
    }
}

fn item(items: &[Json], at: usize) -> Option<&Json>
    ensures { option_copied result ≡ slice_get items.now at }
{
    items.get(at)
}
