// Components that are read once, each under its name.
ghost use Rattle.std.specs.Prelude.{◌≡◌, IfOk, ℕ, List, Option, Some};
ghost use Rattle.arz_json.specs.declared.tree.Json.{Json};
ghost use Rattle.arz_actions.specs.Ready.{ready_of, IsTryable};
ghost use Rattle.arz_actions.specs.Shared.{AreRead, IsReadAs};

use crate::criteria::read_criteria;
use crate::ready::Ready;
use arz_description::read_act;
use arz_json::{Json, Text, items_at, text_at};
use std::alloc::{AllocError, Global};
use std::collections::BTreeMap;
use std::rc::Rc;

/// An action whose criteria can be read.
pub(crate) fn read(alloc: Global, action: &Json) -> Result<Rc<Ready>, AllocError>
    requires { IsTryable action.now }
    ensures { IfOk result (λ rc. rc.value ≡ ready_of action.now) }
{
    let name = Text::from_str(alloc, text_at(action, "name"))?;
    let act = read_act(alloc, action)?;
    let criteria = read_criteria(alloc, items_at(action, "criteria"))?;
    Ok(Rc::new(
        alloc,
        Ready {
            name,
            act,
            criteria,
        },
    )?)
}

/// The component with this name. It is read where it wasn't yet, and shared after that.
pub(crate) fn shared<'a>(
    alloc: Global,
    known: &mut BTreeMap<&'a str, Rc<Ready>>,
    name: &'a str,
    component: &Json,
) -> Result<Rc<Ready>, AllocError>
    requires tryable { IsTryable component.now }
    requires known { IsReadAs known.old name.now component.now }
    ensures ready { IfOk result (λ rc. rc.value ≡ ready_of component.now) }
    ensures known { (find : List ℕ → Option Json) → find name.now ≡ Some component.now → AreRead find known.old → AreRead find known.new }
{
    if let Some(ready) = known.get(name) {
        return ready.clone();
    }
    let ready = read(alloc, component)?;
    known.insert(name, ready.clone()?)?;
    Ok(ready)
}
