// Values put into a payload (Arazzo 1.0.1, section 4.6.14).
ghost use Rattle.std.specs.Prelude.{◌≡◌, IfOk, OnOk};
ghost use Rattle.arz_json.specs.Answer.{Gives};
ghost use Rattle.arz_json.specs.Look.{text_in};
ghost use Rattle.arz_json.specs.Shallow.{IsShallow};
ghost use Rattle.arz_request.specs.Causes.{told};
ghost use Rattle.arz_request.specs.Payloads.{changed as changed_by, opened as opened_by, read_text as text_read, replaced, with_replacement, with_replacements};

use crate::cause::{BuildFault, Cause};
use crate::filling::filled;
use arz_expr::{Replacement, Scope};
use arz_json::{Json, JsonFault, PutFault, put, read};
use std::alloc::Global;

/// The payload with its replacements made in order, each in what the one before made. Where there is one, a text of
/// JSON is first read.
pub(crate) fn changed<S: Scope>(
    alloc: Global,
    is_json_text: bool,
    payload: Json,
    replacements: &[Replacement],
    scope: &S,
) -> Result<Json, BuildFault>
    requires { IsShallow payload }
    ensures changed { Gives (λ tree. tree) told result (changed_by (S.found scope.now) is_json_text payload replacements.now) }
    ensures shallow { IfOk result IsShallow }
{
    if replacements.is_empty() {
        return Ok(payload);
    }
    let tree = opened(alloc, is_json_text, payload)?;
    replace_all(alloc, tree, replacements, scope)
}

fn opened(alloc: Global, is_json_text: bool, payload: Json) -> Result<Json, BuildFault>
    requires { IsShallow payload }
    ensures opened { Gives (λ tree. tree) told result (opened_by is_json_text payload) }
    ensures shallow { IfOk result IsShallow }
{
    if is_json_text {
        read_text(alloc, &payload)
    } else {
        Ok(payload)
    }
}

// The JSON value that a text spells.
fn read_text(alloc: Global, payload: &Json) -> Result<Json, BuildFault>
    ensures read { Gives (λ tree. tree) told result (text_read (text_in payload.now)) }
    ensures shallow { IfOk result IsShallow }
{
    let Some(text) = payload.as_text() else {
        return Err(BuildFault::Stuck(Cause::PayloadTarget));
    };
    match read(alloc, text.as_bytes(), u64::MAX) {
        Ok(tree) => Ok(tree),
        Err(JsonFault::Memory) => Err(BuildFault::Memory),
        Err(JsonFault::NotJson | JsonFault::TooLarge) => {
            Err(BuildFault::Stuck(Cause::PayloadTarget))
        }
    }
}

fn replace_all<S: Scope>(
    alloc: Global,
    payload: Json,
    replacements: &[Replacement],
    scope: &S,
) -> Result<Json, BuildFault>
    requires { IsShallow payload }
    ensures replaced { Gives (λ tree. tree) told result (with_replacements (S.found scope.now) payload replacements.now) }
    ensures shallow { IfOk result IsShallow }
{
    let mut tree = payload;
    for replacement in replacements {
        replace(alloc, &mut tree, replacement, scope)?;
    }
    Ok(tree)
}

// One replacement: its value is filled before its target is looked up.
fn replace<S: Scope>(
    alloc: Global,
    tree: &mut Json,
    replacement: &Replacement,
    scope: &S,
) -> Result<(), BuildFault>
    requires { IsShallow tree.old }
    ensures replaced { Gives (λ _. tree.new) told result (with_replacement (S.found scope.now) tree.old replacement.now) }
    ensures shallow { OnOk result (IsShallow tree.new) }
{
    let value = filled(alloc, &replacement.value, scope)?;
    put_value(tree, replacement.target.as_str(), value)
}

fn put_value(tree: &mut Json, target: &str, value: Json) -> Result<(), BuildFault>
    requires tree { IsShallow tree.old }
    requires value { IsShallow value }
    ensures replaced { Gives (λ _. tree.new) told result (replaced target.now tree.old value) }
    ensures shallow { OnOk result (IsShallow tree.new) }
{
    match put(tree, target, value) {
        Ok(()) => Ok(()),
        Err(PutFault::NoPlace(_)) => Err(BuildFault::Stuck(Cause::PayloadTarget)),
        Err(PutFault::TooNested(_)) => Err(BuildFault::Stuck(Cause::TooNested)),
    }
}
