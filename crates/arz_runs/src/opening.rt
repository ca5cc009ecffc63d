// Steps that are attempted, and runs that are made, up to a request (Arazzo 1.0.1, 4.6.4 and 4.6.5).
ghost use Rattle.std.specs.Prelude.{◌≡◌, ◌<◌, ◌≤◌, ◌+◌, length, IfOk, IfSome, IfNone, None, true, false, List, [], All};
ghost use Rattle.arz_flow.specs.declared.answers.Answer.{Answer};
ghost use Rattle.arz_relation.specs.Cases.{deepest, spot as spot_of};
ghost use Rattle.arz_relation.specs.Verdicts.{Patterned};
ghost use Rattle.arz_runs.specs.Fronts.{bundle_at, done_at, runs_open, IsOnTop, IsAbsent, Attempts, weight};
ghost use Rattle.arz_runs.specs.Plain.{is_plain};
ghost use Rattle.arz_runs.specs.Rests.{Rests, rest_of, is_waiting};
ghost use Rattle.arz_runs.specs.Scenes.{run_in};
ghost use Rattle.arz_runs.specs.ShallowRuns.{IsShallowFrame, IsShallowState, leaves_send_at};
ghost use Rattle.arz_runs.specs.Turns.{Lands, is_over, is_plain_goal, is_waiting_goal, IsShallowGoal, leaves_send};

use crate::depending::depending;
use crate::frames::{Frame, Purpose, State, Then};
use crate::front::Front;
use crate::goals::{Goal, Opening};
use crate::look::Look;
use crate::plans::{Calls, Planned};
use crate::steps::step_of;
use arz_flow::{Cause, Spot};
use arz_json::Many;
use arz_relation::End;
use arz_request::BuildFault;
use std::alloc::{AllocError, Global};

// So many runs may be open at once.
const DEEPEST: usize = 32;

impl<'m, 'a> Front<'m, 'a> {
    /// Goes on up to where the execution rests, and gives that, and the runs that were made, the innermost last.
    pub fn rest(&self, goal: Goal) -> Result<(Many<Frame>, State), AllocError>
        requires over { is_over goal ≡ false }
        requires shallow { IsShallowGoal goal }
        requires plain { is_plain_goal goal ≡ true }
        requires rests { leaves_send self.now.sends (bundle_at self.now).max_attempts goal ≡ true }
        ensures lands { IfOk result (λ p. (told : Patterned) (r : List Answer)
            → Lands told (bundle_at self.now) (runs_open self.now []) (done_at self.now) self.now.sends r goal
            → Rests told (bundle_at self.now) (runs_open self.now p.0) (done_at self.now) self.now.sends p.1 r) }
        ensures plain { IfOk result (λ p. is_plain p.1 ≡ true) }
        ensures shallow { IfOk result (λ p. All IsShallowFrame p.0 × IsShallowState p.1) }
        ensures rests { IfOk result (λ p. leaves_send_at self.now.sends (bundle_at self.now).max_attempts p.1 ≡ true) }
        ensures few { IfOk result (λ p. length self.now.frames.now + length p.0 ≤ deepest) }
        ensures waits { IfOk result (λ p. is_waiting_goal goal ≡ false → is_waiting (rest_of p.1) ≡ false) }
    {
        self.go(Many::new(self.ground.alloc), goal)
    }

    // The same, where these runs were made so far.
    fn go(&self, made: Many<Frame>, goal: Goal) -> Result<(Many<Frame>, State), AllocError>
        requires made { All IsShallowFrame made }
        requires few { length self.now.frames.now + length made ≤ deepest }
        requires over { is_over goal ≡ false }
        requires shallow { IsShallowGoal goal }
        requires plain { is_plain_goal goal ≡ true }
        requires rests { leaves_send self.now.sends (bundle_at self.now).max_attempts goal ≡ true }
        ensures lands { IfOk result (λ p. (told : Patterned) (r : List Answer)
            → Lands told (bundle_at self.now) (runs_open self.now made) (done_at self.now) self.now.sends r goal
            → Rests told (bundle_at self.now) (runs_open self.now p.0) (done_at self.now) self.now.sends p.1 r) }
        ensures plain { IfOk result (λ p. is_plain p.1 ≡ true) }
        ensures shallow { IfOk result (λ p. All IsShallowFrame p.0 × IsShallowState p.1) }
        ensures rests { IfOk result (λ p. leaves_send_at self.now.sends (bundle_at self.now).max_attempts p.1 ≡ true) }
        ensures few { IfOk result (λ p. length self.now.frames.now + length p.0 ≤ deepest) }
        ensures waits { IfOk result (λ p. is_waiting_goal goal ≡ false → is_waiting (rest_of p.1) ≡ false) }
    {
        match goal {
            Goal::Rest(state) => Ok((made, state)),
            Goal::Over(_) => unreachable!(),
            Goal::Attempt(index, next) => {
                let goal = self.attempt(made.as_slice(), index, next)?;
                self.go(made, goal)
            }
            Goal::Open(opening) if self.frames.len() + made.len() == DEEPEST => {
                Ok((made, State::Ended(End::TooDeep(opening.at))))
            }
            Goal::Open(opening) => {
                let frame = opened(self.ground.alloc, opening);
                let goal = depending(self.ground, &frame, 0, self.done, self.newly)?;
                let mut made = made;
                made.push(frame)?;
                self.go(made, goal)
            }
        }
    }

    // The step at this index of the innermost run is attempted: its request is to be sent, or its run is made.
    fn attempt(&self, made: &[Frame], index: usize, next: Then) -> Result<Goal, AllocError>
        requires { All IsShallowFrame made.now }
        ensures lands { IfOk result (λ goal. Attempts self.now made.now index next goal) }
        ensures over { IfOk result (λ goal. is_over goal ≡ false) }
        ensures shallow { IfOk result IsShallowGoal }
        ensures plain { IfOk result (λ goal. is_plain_goal goal ≡ true) }
        ensures rests { IfOk result (λ goal. leaves_send self.now.sends (bundle_at self.now).max_attempts goal ≡ true) }
        ensures waits { IfOk result (λ goal. is_waiting_goal goal ≡ false) }
        ensures less { IfOk result (λ goal. weight goal < 2) }
    {
        let Some((look, planned)) = self.step(made, index) else {
            return self.nowhere();
        };
        match &planned.calls {
            Calls::Operation(endpoint, given, body) => {
                match look.request(endpoint, given, body.as_ref()) {
                    Ok(_) if self.sends == self.ground.bundle.max_attempts => {
                        Ok(Goal::Rest(State::Ended(End::Budget(self.sends))))
                    }
                    Ok(request) => Ok(Goal::Rest(State::Sends(request, index, next))),
                    Err(fault) => stuck(&look, planned, fault),
                }
            }
            Calls::Workflow(id, given) => match look.inputs(given) {
                Ok(inputs) => Ok(Goal::Open(Opening {
                    workflow: id.copy(self.ground.alloc)?,
                    inputs,
                    purpose: Purpose::Attempt(index, next),
                    at: look.spot(planned.step)?,
                })),
                Err(fault) => stuck(&look, planned, fault),
            },
        }
    }

    // The step at this index of the innermost run, as it is looked at.
    fn step<'s>(
        &'s self,
        made: &'s [Frame],
        index: usize,
    ) -> Option<(Look<'s, 'a>, &'s Planned<'a>)>
        requires { All IsShallowFrame made.now }
        ensures there { IfSome result (λ p. IsOnTop (bundle_at self.now) (runs_open self.now made.now) (done_at self.now) index p.0 p.1.now) }
        ensures absent { IfNone result (IsAbsent (bundle_at self.now) (runs_open self.now made.now) index) }
    {
        let depth = self.frames.len() + made.len();
        let (done, newly) = (self.done, self.newly);
        match made.split_last() {
            Some((frame, _)) => step_of(self.ground, frame, depth, None, done, newly, index),
            None => {
                let (frame, _) = self.frames.split_last()?;
                step_of(self.ground, frame, depth, self.fact, done, newly, index)
            }
        }
    }

    // The end where a step isn't there. No execution of a valid bundle comes to it.
    fn nowhere(&self) -> Result<Goal, AllocError>
        ensures { IfOk result (λ goal. goal ≡ Goal.Rest (State.Ended (End.Stuck Cause.Unresolved (record { workflow = (bundle_at self.now).workflow; step = None })))) }
    {
        let workflow = self.ground.bundle.workflow.copy(self.ground.alloc)?;
        let spot = Spot {
            workflow,
            step: None,
        };
        Ok(Goal::Rest(State::Ended(End::Stuck(Cause::Unresolved, spot))))
    }
}

// Everything ends at this step.
fn stuck(look: &Look<'_, '_>, planned: &Planned<'_>, fault: BuildFault) -> Result<Goal, AllocError>
    ensures { IfOk result (λ goal. (cause : Cause) × ((fault ≡ BuildFault.Stuck cause) × (goal ≡ Goal.Rest (State.Ended (End.Stuck cause (spot_of (run_in look.now) planned.now.step.now)))))) }
{
    match fault {
        BuildFault::Stuck(cause) => {
            let spot = look.spot(planned.step)?;
            Ok(Goal::Rest(State::Ended(End::Stuck(cause, spot))))
        }
        BuildFault::Memory => Err(AllocError),
    }
}

// A run before its first step.
fn opened(alloc: Global, opening: Opening) -> Frame
    ensures { result ≡ record { workflow = opening.workflow; inputs = opening.inputs; facts = []; purpose = opening.purpose } }
{
    Frame {
        workflow: opening.workflow,
        inputs: opening.inputs,
        facts: Many::new(alloc),
        purpose: opening.purpose,
    }
}
