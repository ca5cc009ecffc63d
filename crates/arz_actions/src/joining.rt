// The actions of a step and those of its workflow together.
ghost use Rattle.std.specs.Prelude.{◌≡◌, ◌++◌, ◌∷◌, [], IfOk, OnOk, ℕ, List, if◌then◌else◌};
ghost use Rattle.arz_actions.specs.Ready.{readies, joined_actions};
ghost use Rattle.arz_actions.specs.Shared.{has_name, is_in};

use crate::ready::Ready;
use arz_json::Many;
use std::alloc::{AllocError, Global};
use std::collections::BTreeSet;
use std::rc::Rc;

/// The actions of a step, and then those of its workflow that have no name of these: a step's action stands in the
/// place of one of its workflow with the same name (Arazzo 1.0.1, sections 4.6.4.1 and 4.6.5.1).
pub fn joined(
    alloc: Global,
    own: &[Rc<Ready>],
    others: &[Rc<Ready>],
) -> Result<Many<Rc<Ready>>, AllocError>
    ensures { IfOk result (λ all. readies all ≡ joined_actions (readies own.now) (readies others.now)) }
{
    let names = names_of(alloc, own)?;
    let mut all = copies(alloc, own)?;
    for action in others {
        push_unless_named(&mut all, &names, action)?;
    }
    Ok(Many::from_std(all))
}

// The names of actions.
fn names_of<'r>(alloc: Global, actions: &'r [Rc<Ready>]) -> Result<BTreeSet<&'r str>, AllocError>
    ensures { IfOk result (λ names. (q : List ℕ) → is_in names q ≡ has_name (readies actions.now) q) }
{
    let mut names = BTreeSet::new(alloc);
    for action in actions {
        names.insert(action.name.as_str())?;
    }
    Ok(names)
}

fn copies(alloc: Global, actions: &[Rc<Ready>]) -> Result<Vec<Rc<Ready>>, AllocError>
    ensures { IfOk result (λ all. readies all.items ≡ readies actions.now) }
{
    let mut all = Vec::with_capacity(alloc, actions.len())?;
    for action in actions {
        all.push(action.clone()?)?;
    }
    Ok(all)
}

fn push_unless_named(
    all: &mut Vec<Rc<Ready>>,
    names: &BTreeSet<&str>,
    action: &Rc<Ready>,
) -> Result<(), AllocError>
    ensures { OnOk result (readies all.new.items ≡ readies all.old.items ++ (if is_in names.now action.now.value.name then [] else action.now.value ∷ [])) }
{
    if !names.contains(action.name.as_str()) {
        all.push(action.clone()?)?;
    }
    Ok(())
}
