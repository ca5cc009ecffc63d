// Runs that are over, and what their results are for (Arazzo 1.0.1, 4.6.4 and 4.6.5).
ghost use Rattle.std.specs.Prelude.{◌≡◌, ◌≤◌, ◌∷◌, IfOk, IsErrOf, None, true, false, ℕ, List, All, length, reverse, take};
ghost use Rattle.arz_json.specs.Tree.{has_form};
ghost use Rattle.arz_json.specs.declared.Json.TheVariants.{Object};
ghost use Rattle.arz_path.specs.Results.{Asked};
ghost use Rattle.arz_rx.specs.Patterns.{Rose};
ghost use Rattle.arz_flow.specs.declared.answers.Answer.{Answer};
ghost use Rattle.arz_relation.specs.Executions.{end_of_result};
ghost use Rattle.arz_relation.specs.Verdicts.{Patterned, asks_patterns};
ghost use Rattle.arz_scope.specs.Shallow.{AreShallow, AreDoneShallow};
ghost use Rattle.arz_scope.specs.Speaking.{completions_after};
ghost use Rattle.arz_runs.specs.Fronts.{completed_more, result_of};
ghost use Rattle.arz_runs.specs.Plain.{has_plain_outputs};
ghost use Rattle.arz_runs.specs.Rests.{Goes};
ghost use Rattle.arz_runs.specs.Runs.{resume};
ghost use Rattle.arz_runs.specs.ShallowRuns.{IsShallowFrame};
ghost use Rattle.arz_runs.specs.Turns.{Lands, with_top, is_over, is_plain_goal, IsShallowGoal, IsShallowFact, leaves_send};
ghost use Rattle.arz_runs.specs.declared.frames.Frame.{Frame};
ghost use Rattle.arz_runs.specs.declared.frames.Purpose.TheVariants.{Dependency};

use crate::copies::copied_inputs;
use crate::depending::depending;
use crate::frames::{Frame, Purpose, State, Then};
use crate::goals::{Attempted, Ending, Goal};
use crate::ground::Ground;
use crate::machine::MachineFault;
use crate::steps::step_of;
use arz_flow::{Cause, Fact, Spot};
use arz_json::Many;
use arz_relation::{End, copied};
use arz_rx::Patterns;
use arz_scope::{Completion, Tried, any_opaque};
use std::alloc::{AllocError, Global};

/// What an answer has changed so far of the runs that were open.
#[derive(Drop)]
pub(crate) struct Settled {
    /// How many of them stay open.
    pub kept: usize,
    /// A fact of the innermost of those.
    pub fact: Option<Fact>,
    /// The completions, in order.
    pub newly: Many<Completion>,
    /// What is to be done next.
    pub goal: Goal,
}

/// Follows results down the open runs, of which the last is the innermost, up to a run that isn't over. `settled.fact` is
/// of the innermost of them, and its `kept` counts them all.
pub(crate) fn settle<P: Patterns>(
    ground: &Ground<'_>,
    frames: &[Frame],
    done: &[Completion],
    settled: Settled,
    rx: &mut P,
) -> Result<Settled, MachineFault>
    requires kept { settled.kept ≡ length frames.now }
    requires frames { All IsShallowFrame frames.now }
    requires done { AreDoneShallow done.now }
    requires newly { AreDoneShallow settled.newly }
    requires fact { IsShallowFact settled.fact }
    requires goal { IsShallowGoal settled.goal }
    requires plain { is_plain_goal settled.goal ≡ true }
    ensures lands { IfOk result (λ s. (sends : ℕ) (r : List Answer)
        → Lands (P.patterns rx.old).told ground.now.bundle.now (with_top settled.fact (reverse frames.now)) (completions_after settled.newly done.now) sends r settled.goal
        → Lands (P.patterns rx.old).told ground.now.bundle.now (with_top s.fact (reverse (take s.kept frames.now))) (completions_after s.newly done.now) sends r s.goal) }
    ensures over { IfOk result (λ s. is_over s.goal ≡ false) }
    ensures kept { IfOk result (λ s. s.kept ≤ length frames.now) }
    ensures shallow { IfOk result (λ s. IsShallowFact s.fact × (AreDoneShallow s.newly × IsShallowGoal s.goal)) }
    ensures plain { IfOk result (λ s. is_plain_goal s.goal ≡ true) }
    ensures rests { IfOk result (λ s. (sends limit : ℕ) → leaves_send sends limit settled.goal ≡ true → leaves_send sends limit s.goal ≡ true) }
    ensures pattern { IsErrOf result MachineFault.Pattern → Rose (P.patterns rx.old).too_big (P.patterns rx.new).too_big }
    ensures asks { IsErrOf result MachineFault.Pattern → asks_patterns ground.now.bundle.now ≡ true }
    ensures asked { Asked (P.patterns rx.old) (P.patterns rx.new) }
{
    let Settled {
        kept,
        fact,
        newly,
        goal,
    } = settled;
    let Goal::Over(ending) = goal else {
        return Ok(Settled {
            kept,
            fact,
            newly,
            goal,
        });
    };
    let Some((frame, below)) = frames.split_last() else {
        let goal = Goal::Rest(State::Ended(end_of(ground, ending)?));
        return Ok(Settled {
            kept,
            fact: None,
            newly,
            goal,
        });
    };
    let newly = recorded(ground.alloc, frame, &ending, newly)?;
    let next = resumed(ground, frame, below, done, newly.as_slice(), ending, rx)?;
    let settled = Settled {
        kept: below.len(),
        fact: next.fact,
        newly,
        goal: next.goal,
    };
    settle(ground, below, done, settled, rx)
}

// The completions, and that of this run where it was completed.
fn recorded(
    alloc: Global,
    frame: &Frame,
    ending: &Ending,
    newly: Many<Completion>,
) -> Result<Many<Completion>, AllocError>
    requires frame { IsShallowFrame frame.now }
    requires ending { AreShallow ending.now.outputs }
    requires newly { AreDoneShallow newly }
    ensures after { IfOk result (λ more. (done : List Completion) → completions_after more done ≡ completed_more frame.now (result_of ending.now) (completions_after newly done)) }
    ensures shallow { IfOk result AreDoneShallow }
{
    if !ending.completed {
        return Ok(newly);
    }
    let mut newly = newly;
    newly.push(Completion {
        workflow: frame.workflow.copy(alloc)?,
        inputs: copied_inputs(alloc, &frame.inputs)?,
        outputs: copied_inputs(alloc, &ending.outputs)?,
    })?;
    Ok(newly)
}

// The end of the execution where its run has ended so (Arazzo 1.0.1, 4.6.4). Outputs with a fraction can't be given.
fn end_of(ground: &Ground<'_>, ending: Ending) -> Result<End, AllocError>
    requires form { has_form (Object ending.outputs) ≡ true }
    requires shallow { AreShallow ending.outputs }
    ensures end { IfOk result (λ end. end ≡ end_of_result ground.now.bundle.now.workflow (result_of ending)) }
    ensures plain { IfOk result (λ end. has_plain_outputs end ≡ true) }
{
    let Ending { completed, outputs } = ending;
    if any_opaque(outputs.as_slice()) {
        let workflow = ground.bundle.workflow.copy(ground.alloc)?;
        let spot = Spot {
            workflow,
            step: None,
        };
        return Ok(End::Stuck(Cause::FractionUsed, spot));
    }
    if completed {
        return Ok(End::Completed(outputs));
    }
    Ok(End::Broke(outputs))
}

// What comes of the result of a run that ended so, in the innermost of the runs below, by what it is for.
fn resumed<'m, P: Patterns>(
    ground: &'m Ground<'_>,
    over: &Frame,
    below: &'m [Frame],
    done: &'m [Completion],
    newly: &'m [Completion],
    ending: Ending,
    rx: &mut P,
) -> Result<Attempted, MachineFault>
    requires below { All IsShallowFrame below.now }
    requires done { AreDoneShallow done.now }
    requires newly { AreDoneShallow newly.now }
    requires form { has_form (Object ending.outputs) ≡ true }
    requires shallow { AreShallow ending.outputs }
    ensures lands { IfOk result (λ a. (sends : ℕ) (r : List Answer)
        → Goes (P.patterns rx.old).told ground.now.bundle.now (reverse below.now) (completions_after newly.now done.now) sends r (resume (P.patterns rx.old).told ground.now.bundle.now over.now.purpose (reverse below.now) (result_of ending))
        → Lands (P.patterns rx.old).told ground.now.bundle.now (with_top a.fact (reverse below.now)) (completions_after newly.now done.now) sends r a.goal) }
    ensures shallow { IfOk result (λ a. IsShallowFact a.fact × IsShallowGoal a.goal) }
    ensures plain { IfOk result (λ a. is_plain_goal a.goal ≡ true) }
    ensures rests { IfOk result (λ a. (sends limit : ℕ) → leaves_send sends limit a.goal ≡ true) }
    ensures pattern { IsErrOf result MachineFault.Pattern → Rose (P.patterns rx.old).too_big (P.patterns rx.new).too_big }
    ensures asks { IsErrOf result MachineFault.Pattern → asks_patterns ground.now.bundle.now ≡ true }
    ensures asked { Asked (P.patterns rx.old) (P.patterns rx.new) }
{
    let Some((frame, _)) = below.split_last() else {
        return Ok(only(Goal::Rest(State::Ended(end_of(ground, ending)?))));
    };
    match &over.purpose {
        Purpose::Execution | Purpose::Instead => Ok(only(Goal::Over(ending))),
        Purpose::Dependency(from) => {
            Ok(only(depended(ground, frame, *from, done, newly, ending)?))
        }
        Purpose::Attempt(index, next) => {
            let depth = below.len();
            let Some((look, planned)) = step_of(ground, frame, depth, None, done, newly, *index)
            else {
                return Ok(only(Goal::Over(ending)));
            };
            let own = Tried::Inner(ending.outputs.as_slice());
            look.attempted(*index, planned, own, None, ending.completed, next, rx)
        }
        Purpose::Before(index, counts) => {
            let counts = copied(ground.alloc, counts.as_slice())?;
            Ok(only(Goal::Attempt(*index, Then::Acts(counts))))
        }
    }
}

// What comes next in a run whose dependency before this one has ended so: without it, the run is broken.
fn depended(
    ground: &Ground<'_>,
    frame: &Frame,
    from: usize,
    done: &[Completion],
    newly: &[Completion],
    ending: Ending,
) -> Result<Goal, AllocError>
    requires { IsShallowFrame frame.now }
    ensures lands { IfOk result (λ goal. (told : Patterned) (below : List Frame) (sends : ℕ) (r : List Answer)
        → Goes told ground.now.bundle.now (frame.now ∷ below) (completions_after newly.now done.now) sends r (resume told ground.now.bundle.now (Dependency from) (frame.now ∷ below) (result_of ending))
        → Lands told ground.now.bundle.now (frame.now ∷ below) (completions_after newly.now done.now) sends r goal) }
    ensures plain { IfOk result (λ goal. is_plain_goal goal ≡ true) }
    ensures shallow { IfOk result IsShallowGoal }
    ensures rests { IfOk result (λ goal. (sends limit : ℕ) → leaves_send sends limit goal ≡ true) }
{
    if ending.completed {
        return depending(ground, frame, from, done, newly);
    }
    Ok(Goal::Over(Ending {
        completed: false,
        outputs: Many::new(ground.alloc),
    }))
}

// No fact is left.
fn only(goal: Goal) -> Attempted
    ensures fact { result.fact ≡ None }
    ensures goal { result.goal ≡ goal }
{
    Attempted { fact: None, goal }
}
