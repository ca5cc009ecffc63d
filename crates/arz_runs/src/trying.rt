// What comes of an attempt, and what is done after it (Arazzo 1.0.1, 4.6.5.1, 4.6.7 and 4.6.8).
ghost use Rattle.std.specs.Prelude.{◌≡◌, ◌∷◌, ◌<◌, [], IfOk, IsErrOf, None, Some, true, false, ℕ, List, length, nat_le, slice_get};
ghost use Rattle.std.specs.Option.{option_copied};
ghost use Rattle.arz_path.specs.Results.{Asked};
ghost use Rattle.arz_rx.specs.Patterns.{Rose};
ghost use Rattle.arz_flow.specs.declared.answers.Answer.{Answer};
ghost use Rattle.arz_scope.specs.Shallow.{AreShallow};
ghost use Rattle.arz_relation.specs.Cases.{Goes_on, Retries, judged, acts, tries_again, spot as spot_of};
ghost use Rattle.arz_relation.specs.Retries.{made_of, once_more as one_more, delay_after as seconds_after};
ghost use Rattle.arz_relation.specs.Verdicts.{Patterned, asks_patterns};
ghost use Rattle.arz_runs.specs.Planned.{IsStepAt};
ghost use Rattle.arz_runs.specs.Rests.{Goes};
ghost use Rattle.arz_runs.specs.Runs.{run_at, then_of};
ghost use Rattle.arz_runs.specs.Scenes.{bundle_in, run_in, scene, own_of, IsShallowOwn};
ghost use Rattle.arz_runs.specs.Trying.{Leads, playing, tried_in, reply_in, IsAttempt, HasFact, Takes, actions_after, widened, opened, closed};
ghost use Rattle.arz_runs.specs.Turns.{Lands, with_top, IsOpenOver, is_over, is_plain_goal, is_waiting_goal, IsShallowGoal, IsShallowFact, leaves_send};
ghost use Rattle.arz_runs.specs.declared.frames.Frame.{Frame};

use crate::copies::{copied_first, copied_inputs};
use crate::frames::{Purpose, State, Then};
use crate::goals::{Attempted, Ending, Goal, Opening};
use crate::look::Look;
use crate::machine::MachineFault;
use crate::plans::Planned;
use arz_actions::Ready;
use arz_cond::CondFault;
use arz_description::{Act, First};
use arz_flow::{Cause, Fact};
use arz_json::{Many, Text};
use arz_relation::{Count, End, copied, delay, made, once_more};
use arz_rx::Patterns;
use arz_scope::Tried;
use arz_world::Reply;
use std::alloc::AllocError;

// An attempt of the step at this index, which has this of its own, and whether it succeeded.
#[derive(Clone, Copy)]
struct Judged<'t, 'a> {
    index: usize,
    planned: &'t Planned<'a>,
    own: Tried<'t>,
    // The reply that it has of its own.
    reply: Option<&'t Reply>,
    succeeded: bool,
}

impl<'m, 'a> Look<'m, 'a> {
    /// Judges an attempt of the step at this index, which has this of its own: whether it succeeded, its fact, and what is
    /// to be done next. `reply` is the reply that it has of its own. `plain` says whether it succeeded without criteria.
    pub fn attempted<P: Patterns>(
        &self,
        index: usize,
        planned: &Planned<'a>,
        own: Tried<'_>,
        reply: Option<&Reply>,
        plain: bool,
        next: &Then,
        rx: &mut P,
    ) -> Result<Attempted, MachineFault>
        requires fresh { self.now.fact ≡ None }
        requires step { IsStepAt (bundle_in self.now) self.now.frame.now.workflow index (Some planned.now) }
        requires own { IsShallowOwn own }
        requires reply { option_copied reply ≡ reply_in own }
        ensures lands { IfOk result (λ a. (below : List Frame) (sends : ℕ) (r : List Answer) → IsOpenOver self.now below
            → Goes (P.patterns rx.old).told (bundle_in self.now) (self.now.frame.now ∷ below) (scene self.now).done sends r
            (judged (P.patterns rx.old).told (bundle_in self.now) (run_at self.now.frame.now below) planned.now.step.now (own_of own.entry) plain (then_of (P.patterns rx.old).told (bundle_in self.now) index planned.now.step.now next.now))
            → Lands (P.patterns rx.old).told (bundle_in self.now) (with_top a.fact (self.now.frame.now ∷ below)) (scene self.now).done sends r a.goal) }
        ensures plain { IfOk result (λ a. is_plain_goal a.goal ≡ true) }
        ensures shallow { IfOk result (λ a. IsShallowFact a.fact × IsShallowGoal a.goal) }
        ensures rests { IfOk result (λ a. (sends limit : ℕ) → leaves_send sends limit a.goal ≡ true) }
        ensures pattern { IsErrOf result MachineFault.Pattern → Rose (P.patterns rx.old).too_big (P.patterns rx.new).too_big }
        ensures asks { IsErrOf result MachineFault.Pattern → asks_patterns (bundle_in self.now) ≡ true }
        ensures asked { Asked (P.patterns rx.old) (P.patterns rx.new) }
    {
        let succeeded = match self.verdict(planned, own, plain, rx) {
            Ok(succeeded) => succeeded,
            Err(CondFault::TooWide) => return Ok(self.unjudged(planned)?),
            Err(CondFault::Pattern) => return Err(MachineFault::Pattern),
            Err(CondFault::Memory) => return Err(MachineFault::Memory),
        };
        let fact = self.new_fact(planned, own)?;
        let judged = Judged {
            index,
            planned,
            own,
            reply,
            succeeded,
        };
        let goal = self.with(&fact).follow(&judged, next, rx)?;
        Ok(Attempted {
            fact: Some(fact),
            goal,
        })
    }

    /// What goes before the step at this index is tried again, whose retries were made so often.
    pub fn again(
        &self,
        index: usize,
        planned: &Planned<'a>,
        counts: &[Count],
        before: &First,
    ) -> Result<Goal, AllocError>
        requires step { IsStepAt (bundle_in self.now) self.now.frame.now.workflow index (Some planned.now) }
        ensures lands { IfOk result (λ goal. (told : Patterned) (below : List Frame) (sends : ℕ) (r : List Answer) → IsOpenOver self.now below
            → (frame : Frame) → run_at frame below ≡ run_in self.now
            → Goes told (bundle_in self.now) (frame ∷ below) (scene self.now).done sends r
            (tries_again told (bundle_in self.now) (run_at frame below) index (spot_of (run_at frame below) planned.now.step.now) counts.now before.now)
            → Lands told (bundle_in self.now) (frame ∷ below) (scene self.now).done sends r goal) }
        ensures over { IfOk result (λ goal. is_over goal ≡ false) }
        ensures plain { IfOk result (λ goal. is_plain_goal goal ≡ true) }
        ensures shallow { IfOk result IsShallowGoal }
        ensures rests { IfOk result (λ goal. (sends limit : ℕ) → leaves_send sends limit goal ≡ true) }
        ensures waits { IfOk result (λ goal. is_waiting_goal goal ≡ false) }
    {
        let counts = copied(self.ground.alloc, counts)?;
        self.begin_again(index, planned, counts, before)
    }

    // The same, where the counts are given away.
    fn begin_again(
        &self,
        index: usize,
        planned: &Planned<'a>,
        counts: Many<Count>,
        before: &First,
    ) -> Result<Goal, AllocError>
        requires { IsStepAt (bundle_in self.now) self.now.frame.now.workflow index (Some planned.now) }
        ensures lands { IfOk result (λ goal. (told : Patterned) (below : List Frame) (sends : ℕ) (r : List Answer) → IsOpenOver self.now below
            → (frame : Frame) → run_at frame below ≡ run_in self.now
            → Goes told (bundle_in self.now) (frame ∷ below) (scene self.now).done sends r
            (tries_again told (bundle_in self.now) (run_at frame below) index (spot_of (run_at frame below) planned.now.step.now) counts before.now)
            → Lands told (bundle_in self.now) (frame ∷ below) (scene self.now).done sends r goal) }
        ensures over { IfOk result (λ goal. is_over goal ≡ false) }
        ensures plain { IfOk result (λ goal. is_plain_goal goal ≡ true) }
        ensures shallow { IfOk result IsShallowGoal }
        ensures rests { IfOk result (λ goal. (sends limit : ℕ) → leaves_send sends limit goal ≡ true) }
        ensures waits { IfOk result (λ goal. is_waiting_goal goal ≡ false) }
    {
        Ok(match before {
            First::Nothing => Goal::Attempt(index, Then::Acts(counts)),
            First::Step(id) => Goal::Attempt(
                self.index_of(id.as_str()),
                Then::Again(index, counts),
            ),
            First::Flow(workflow) => {
                self.opening(planned, workflow, Purpose::Before(index, counts))?
            }
        })
    }

    // The run, where an attempt has left this fact.
    fn with<'f>(&self, fact: &'f Fact) -> Look<'f, 'a>
    where
        'm: 'f,
        requires fresh { self.now.fact ≡ None }
        requires shallow { AreShallow fact.now.outputs }
        ensures { HasFact self.now fact.now result }
    {
        Look {
            ground: self.ground,
            plan: self.plan,
            frame: self.frame,
            depth: self.depth,
            fact: Some(fact),
            done: self.done,
            newly: self.newly,
        }
    }

    // A selection of a criterion is too wide.
    fn widened(&self, planned: &Planned<'a>) -> Result<Goal, AllocError>
        ensures { IfOk result (λ goal. goal ≡ widened (run_in self.now) planned.now.step.now) }
    {
        let spot = self.spot(planned.step)?;
        Ok(Goal::Rest(State::Ended(End::Stuck(Cause::TooWide, spot))))
    }

    // A selection of a criterion of the step is too wide: there is no fact.
    fn unjudged(&self, planned: &Planned<'a>) -> Result<Attempted, AllocError>
        ensures fact { IfOk result (λ a. a.fact ≡ None) }
        ensures goal { IfOk result (λ a. a.goal ≡ widened (run_in self.now) planned.now.step.now) }
    {
        Ok(Attempted {
            fact: None,
            goal: self.widened(planned)?,
        })
    }

    // What comes after an attempt of the step at this index, whose fact the run has.
    fn follow<P: Patterns>(
        &self,
        judged: &Judged<'_, 'a>,
        next: &Then,
        rx: &mut P,
    ) -> Result<Goal, MachineFault>
        requires { IsAttempt self.now judged.now }
        ensures leads { IfOk result (Leads (P.patterns rx.old).told self.now (then_of (P.patterns rx.old).told (bundle_in self.now) judged.now.index judged.now.planned.now.step.now next.now (tried_in self.now judged.now))) }
        ensures plain { IfOk result (λ goal. is_plain_goal goal ≡ true) }
        ensures shallow { IfOk result IsShallowGoal }
        ensures rests { IfOk result (λ goal. (sends limit : ℕ) → leaves_send sends limit goal ≡ true) }
        ensures pattern { IsErrOf result MachineFault.Pattern → Rose (P.patterns rx.old).too_big (P.patterns rx.new).too_big }
        ensures asks { IsErrOf result MachineFault.Pattern → asks_patterns (bundle_in self.now) ≡ true }
        ensures asked { Asked (P.patterns rx.old) (P.patterns rx.new) }
    {
        match next {
            Then::Acts(counts) => self.act(judged, counts.as_slice(), rx),
            Then::Again(step, counts) => Ok(self.enter(*step, counts.as_slice())?),
        }
    }

    // The action that is chosen after an attempt is taken.
    fn act<P: Patterns>(
        &self,
        judged: &Judged<'_, 'a>,
        counts: &[Count],
        rx: &mut P,
    ) -> Result<Goal, MachineFault>
        requires { IsAttempt self.now judged.now }
        ensures leads { IfOk result (Leads (P.patterns rx.old).told self.now (acts (P.patterns rx.old).told (bundle_in self.now) judged.now.index judged.now.planned.now.step.now counts.now (tried_in self.now judged.now))) }
        ensures plain { IfOk result (λ goal. is_plain_goal goal ≡ true) }
        ensures shallow { IfOk result IsShallowGoal }
        ensures rests { IfOk result (λ goal. (sends limit : ℕ) → leaves_send sends limit goal ≡ true) }
        ensures pattern { IsErrOf result MachineFault.Pattern → Rose (P.patterns rx.old).too_big (P.patterns rx.new).too_big }
        ensures asks { IsErrOf result MachineFault.Pattern → asks_patterns (bundle_in self.now) ≡ true }
        ensures asked { Asked (P.patterns rx.old) (P.patterns rx.new) }
    {
        let planned = judged.planned;
        match self.choose(planned, judged.succeeded, counts, judged.own, rx) {
            Ok(None) => Ok(self.go_on(judged.index, judged.succeeded)?),
            Ok(Some(chosen)) => {
                let action = action_at(planned, judged.succeeded, chosen);
                Ok(self.take(judged, counts, action)?)
            }
            Err(CondFault::TooWide) => Ok(self.widened(planned)?),
            Err(CondFault::Pattern) => Err(MachineFault::Pattern),
            Err(CondFault::Memory) => Err(MachineFault::Memory),
        }
    }

    // No action is taken after an attempt of the step at this index: the next step is entered where the attempt
    // succeeded and there is one, and otherwise the run is over.
    fn go_on(&self, index: usize, succeeded: bool) -> Result<Goal, AllocError>
        requires { index < length self.now.plan.now.steps.items }
        ensures leads { IfOk result (λ goal. (told : Patterned) → Leads told self.now (playing (Goes_on (run_in self.now) index succeeded)) goal) }
        ensures plain { IfOk result (λ goal. is_plain_goal goal ≡ true) }
        ensures shallow { IfOk result IsShallowGoal }
        ensures rests { IfOk result (λ goal. (sends limit : ℕ) → leaves_send sends limit goal ≡ true) }
    {
        if succeeded && self.step(index + 1).is_some() {
            return Ok(self.enter_anew(index + 1));
        }
        self.close(succeeded)
    }

    // What this action does, after an attempt of the step at this index.
    fn take(
        &self,
        judged: &Judged<'_, 'a>,
        counts: &[Count],
        action: &Ready,
    ) -> Result<Goal, AllocError>
        requires { IsAttempt self.now judged.now }
        ensures takes { IfOk result (Takes self.now judged.now counts.now action.now) }
        ensures plain { IfOk result (λ goal. is_plain_goal goal ≡ true) }
        ensures shallow { IfOk result IsShallowGoal }
        ensures rests { IfOk result (λ goal. (sends limit : ℕ) → leaves_send sends limit goal ≡ true) }
    {
        let planned = judged.planned;
        match &action.act {
            Act::End => self.close(judged.succeeded),
            Act::GoStep(id) => Ok(self.enter_anew(self.index_of(id.as_str()))),
            Act::GoFlow(workflow) => self.opening(planned, workflow, Purpose::Instead),
            Act::Retry(seconds, limit, before) => {
                let counts = self.counted(counts, action.name.as_str(), *limit)?;
                self.retry(
                    judged.index,
                    planned,
                    counts,
                    judged.delay(*seconds),
                    before,
                )
            }
        }
    }

    // The counts where the retry of this name is made, which may be made so often. One that was made so often already
    // isn't chosen.
    fn counted(&self, counts: &[Count], name: &str, limit: u32) -> Result<Many<Count>, AllocError>
        ensures { IfOk result (λ more. nat_le limit (made_of name.now counts.now) ≡ false → more ≡ one_more name.now counts.now) }
    {
        let alloc = self.ground.alloc;
        if made(counts, name) < limit {
            once_more(alloc, counts, name)
        } else {
            copied(alloc, counts)
        }
    }

    // The step at this index is tried again after so many seconds, and after what goes first.
    fn retry(
        &self,
        index: usize,
        planned: &Planned<'a>,
        counts: Many<Count>,
        seconds: u32,
        before: &First,
    ) -> Result<Goal, AllocError>
        requires { IsStepAt (bundle_in self.now) self.now.frame.now.workflow index (Some planned.now) }
        ensures leads { IfOk result (λ goal. (told : Patterned) → Leads told self.now (playing (Retries (run_in self.now) index (spot_of (run_in self.now) planned.now.step.now) counts seconds before.now)) goal) }
        ensures plain { IfOk result (λ goal. is_plain_goal goal ≡ true) }
        ensures shallow { IfOk result IsShallowGoal }
        ensures rests { IfOk result (λ goal. (sends limit : ℕ) → leaves_send sends limit goal ≡ true) }
    {
        if seconds == 0 || self.ground.bundle.skip_delay {
            return self.begin_again(index, planned, counts, before);
        }
        let before = copied_first(self.ground.alloc, before)?;
        Ok(Goal::Rest(State::Waits(seconds, index, counts, before)))
    }

    // The step at this index is entered, whose retries were made so often.
    fn enter(&self, index: usize, counts: &[Count]) -> Result<Goal, AllocError>
        ensures { IfOk result (λ goal. goal ≡ Goal.Attempt index (Then.Acts counts.now)) }
    {
        let counts = copied(self.ground.alloc, counts)?;
        Ok(Goal::Attempt(index, Then::Acts(counts)))
    }

    // The step at this index is entered.
    fn enter_anew(&self, index: usize) -> Goal
        ensures { result ≡ Goal.Attempt index (Then.Acts []) }
    {
        Goal::Attempt(index, Then::Acts(Many::new(self.ground.alloc)))
    }

    // A run of the workflow with this workflowId is made from the step, with the inputs of this run.
    fn opening(
        &self,
        planned: &Planned<'a>,
        workflow: &Text,
        purpose: Purpose,
    ) -> Result<Goal, AllocError>
        ensures { IfOk result (λ goal. goal ≡ opened (run_in self.now) planned.now.step.now workflow.now purpose) }
    {
        let alloc = self.ground.alloc;
        Ok(Goal::Open(Opening {
            workflow: workflow.copy(alloc)?,
            inputs: copied_inputs(alloc, &self.frame.inputs)?,
            purpose,
            at: self.spot(planned.step)?,
        }))
    }

    // The run is over.
    fn close(&self, completed: bool) -> Result<Goal, AllocError>
        ensures closed { IfOk result (λ goal. goal ≡ closed (bundle_in self.now) (run_in self.now) (scene self.now).done completed) }
        ensures plain { IfOk result (λ goal. is_plain_goal goal ≡ true) }
        ensures shallow { IfOk result IsShallowGoal }
    {
        Ok(Goal::Over(Ending {
            completed,
            outputs: self.outputs()?,
        }))
    }
}

// The action at this index of those after a success, or after a failure.
fn action_at<'p>(planned: &'p Planned<'_>, succeeded: bool, index: usize) -> &'p Ready
    requires { index < length (actions_after planned.now succeeded) }
    ensures { slice_get (actions_after planned.now succeeded) index ≡ Some result.now }
{
    let actions = if succeeded {
        &planned.success
    } else {
        &planned.failure
    };
    &actions.as_slice()[index]
}

impl<'t, 'a> Judged<'t, 'a> {
    // The seconds before a retry that says so many.
    fn delay(&self, seconds: u32) -> u32
        requires { option_copied self.now.reply ≡ reply_in self.now.own }
        ensures { result ≡ seconds_after seconds (own_of self.now.own) }
    {
        match self.reply {
            Some(reply) => delay(seconds, reply),
            None => seconds,
        }
    }
}
