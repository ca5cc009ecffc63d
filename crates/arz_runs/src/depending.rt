// The dependencies of a run (Arazzo 1.0.1, 4.6.4.1: dependsOn).
ghost use Rattle.std.specs.Prelude.{◌≡◌, IfOk, true, false, ℕ, List, [], ◌∷◌, map};
ghost use Rattle.arz_description.specs.Parts.{text_in_item};
ghost use Rattle.arz_flow.specs.declared.answers.Answer.{Answer};
ghost use Rattle.arz_relation.specs.Cases.{is_recorded};
ghost use Rattle.arz_relation.specs.Documents.{depends_of};
ghost use Rattle.arz_relation.specs.Verdicts.{Patterned};
ghost use Rattle.arz_scope.specs.Speaking.{completions_after};
ghost use Rattle.arz_runs.specs.Fronts.{IsNextDependency, depends_from};
ghost use Rattle.arz_runs.specs.Rests.{Goes};
ghost use Rattle.arz_runs.specs.ShallowRuns.{IsShallowFrame};
ghost use Rattle.arz_runs.specs.Turns.{Lands, is_over, is_plain_goal, is_waiting_goal, IsShallowGoal, leaves_send};
ghost use Rattle.arz_runs.specs.declared.frames.Frame.{Frame};

use crate::copies::copied_inputs;
use crate::frames::{Frame, Purpose, Then};
use crate::goals::{Goal, Opening};
use crate::ground::Ground;
use arz_flow::Spot;
use arz_json::{Json, Many, Text, items_at};
use arz_scope::Completion;
use std::alloc::AllocError;

/// What comes next in a run: the first of its dependencies from this index on that isn't completed, or else its first step.
pub(crate) fn depending(
    ground: &Ground<'_>,
    frame: &Frame,
    from: usize,
    done: &[Completion],
    newly: &[Completion],
) -> Result<Goal, AllocError>
    requires { IsShallowFrame frame.now }
    ensures lands { IfOk result (λ goal. (told : Patterned) (below : List Frame) (sends : ℕ) (r : List Answer)
        → Goes told ground.now.bundle.now (frame.now ∷ below) (completions_after newly.now done.now) sends r (depends_from told ground.now.bundle.now frame.now below from)
        → Lands told ground.now.bundle.now (frame.now ∷ below) (completions_after newly.now done.now) sends r goal) }
    ensures over { IfOk result (λ goal. is_over goal ≡ false) }
    ensures plain { IfOk result (λ goal. is_plain_goal goal ≡ true) }
    ensures shallow { IfOk result IsShallowGoal }
    ensures rests { IfOk result (λ goal. (sends limit : ℕ) → leaves_send sends limit goal ≡ true) }
    ensures waits { IfOk result (λ goal. is_waiting_goal goal ≡ false) }
{
    let dependencies = dependencies(ground, frame.workflow.as_str());
    match next_dependency(dependencies, from, done, newly) {
        Some(index) => Ok(Goal::Open(Opening {
            workflow: Text::from_str(ground.alloc, text_in(&dependencies[index]))?,
            inputs: copied_inputs(ground.alloc, &frame.inputs)?,
            purpose: Purpose::Dependency(index + 1),
            at: Spot {
                workflow: frame.workflow.copy(ground.alloc)?,
                step: None,
            },
        })),
        None => Ok(Goal::Attempt(0, Then::Acts(Many::new(ground.alloc)))),
    }
}

// The workflowIds of the dependencies of a workflow.
fn dependencies<'g>(ground: &'g Ground<'_>, workflow: &str) -> &'g [Json]
    ensures { map text_in_item result.now ≡ depends_of ground.now.bundle.now workflow.now }
{
    match ground.plan(workflow) {
        Some(plan) => items_at(plan.workflow, "dependsOn"),
        None => &[],
    }
}

// The index of the first of these, from this one on, that isn't completed.
fn next_dependency(
    dependencies: &[Json],
    from: usize,
    done: &[Completion],
    newly: &[Completion],
) -> Option<usize>
    ensures { IsNextDependency (completions_after newly.now done.now) (map text_in_item dependencies.now) from result }
{
    let mut index = from;
    while index < dependencies.len() {
        if !is_completed(text_in(&dependencies[index]), done, newly) {
            return Some(index);
        }
        index += 1;
    }
    None
}

// Whether a workflow is completed.
fn is_completed(workflow: &str, done: &[Completion], newly: &[Completion]) -> bool
    ensures { result ≡ is_recorded workflow.now (completions_after newly.now done.now) }
{
    is_among(newly, workflow) || is_among(done, workflow)
}

fn is_among(completions: &[Completion], workflow: &str) -> bool
    ensures { result ≡ is_recorded workflow.now completions.now }
{
    completions
        .iter()
        .any(|completion| completion.workflow.as_str() == workflow)
}

// A workflowId that is listed.
fn text_in(item: &Json) -> &str
    ensures { result.now ≡ text_in_item item.now }
{
    item.as_text().unwrap_or("")
}
