// What a step and its workflow give to a request.
ghost use Rattle.std.specs.Prelude.{◌≡◌, ◌++◌, ◌∷◌, [], ℕ, List, IfOk, IfSome, OnOk, if◌then◌else◌, not, filter};
ghost use Rattle.std.specs.Option.{option_copied};
ghost use Rattle.arz_json.specs.Tree.{IsWellFormed};
ghost use Rattle.arz_json.specs.declared.tree.Location.{Location};
ghost use Rattle.arz_components.specs.Indexes.{finds};
ghost use Rattle.arz_description.specs.Requests.{AreWellFormed, joined_givens};
ghost use Rattle.arz_openapi.specs.Names.{taken_in};
ghost use Rattle.arz_runs.specs.Joining.{givens_if, joined_of, has_at, others_than};

use arz_components::Components;
use arz_description::{Given, read_givens};
use arz_json::{Json, Many, items_at};
use arz_openapi::Names;
use std::alloc::{AllocError, Global};

/// The parameters of a step, and then those of its workflow that the step doesn't give itself (Arazzo 1.0.1, 4.6.4.1).
pub(crate) fn given(
    alloc: Global,
    components: &Components,
    workflow: Option<&Json>,
    step: &Json,
) -> Result<Many<Given>, AllocError>
    requires components { AreWellFormed (finds components.now) }
    requires workflow { IfSome (option_copied workflow) IsWellFormed }
    requires step { IsWellFormed step.now }
    ensures { IfOk result (λ gs. gs ≡ joined_of (finds components.now) (option_copied workflow.entry) step.now) }
{
    let own = read_givens(alloc, components, items_at(step, "parameters"))?;
    let others = workflow_givens(alloc, components, workflow)?;
    joined(alloc, own, others)
}

fn workflow_givens(
    alloc: Global,
    components: &Components,
    workflow: Option<&Json>,
) -> Result<Many<Given>, AllocError>
    requires components { AreWellFormed (finds components.now) }
    requires workflow { IfSome (option_copied workflow) IsWellFormed }
    ensures { IfOk result (λ gs. gs ≡ givens_if (finds components.now) (option_copied workflow.entry)) }
{
    match workflow {
        Some(workflow) => read_givens(alloc, components, items_at(workflow, "parameters")),
        None => Ok(Many::new(alloc)),
    }
}

fn joined(alloc: Global, own: Many<Given>, others: Many<Given>) -> Result<Many<Given>, AllocError>
    ensures { IfOk result (λ gs. gs ≡ joined_givens own others) }
{
    let mut all = own;
    for given in others_than(alloc, &all, others)? {
        all.push(given)?;
    }
    Ok(all)
}

// The others whose place and name none of these has.
fn others_than(
    alloc: Global,
    own: &Many<Given>,
    others: Many<Given>,
) -> Result<Vec<Given>, AllocError>
    ensures { IfOk result (λ kept. kept.items ≡ others_than own.now others) }
{
    let names = names_of(alloc, own.as_slice())?;
    unnamed(alloc, &names, others.into_std())
}

// Those of which these names have none.
fn unnamed(alloc: Global, names: &Names, givens: Vec<Given>) -> Result<Vec<Given>, AllocError>
    ensures { IfOk result (λ kept. kept.items ≡ filter (λ g. not (taken_in names.now g.place g.name)) givens.items) }
{
    let mut kept = Vec::new(alloc);
    for given in givens {
        push_unless_named(&mut kept, names, given)?;
    }
    Ok(kept)
}

fn push_unless_named(kept: &mut Vec<Given>, names: &Names, given: Given) -> Result<(), AllocError>
    ensures { OnOk result (kept.new.items ≡ kept.old.items ++ (if taken_in names.now given.place given.name then [] else given ∷ [])) }
{
    if !names.has(given.place, given.name.as_str()) {
        kept.push(given)?;
    }
    Ok(())
}

// The names of parameters by their places.
fn names_of<'g>(alloc: Global, givens: &'g [Given]) -> Result<Names<'g>, AllocError>
    ensures { IfOk result (λ names. (place : Location) (q : List ℕ) → taken_in names place q ≡ has_at givens.now place q) }
{
    let mut names = Names::new(alloc);
    for given in givens {
        let _was = names.put(given.place, given.name.as_str())?;
    }
    Ok(names)
}
