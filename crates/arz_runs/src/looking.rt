// What the expressions of a run speak of while an answer is taken, and what they come to.
ghost use Rattle.std.specs.Prelude.{◌≡◌, All, List, map, IfOk, IsErrOf, true, if◌then◌else◌};
ghost use Rattle.std.specs.Option.{option_copied};
ghost use Rattle.arz_json.specs.Answer.{Gives};
ghost use Rattle.arz_json.specs.Tree.{IsWellFormed};
ghost use Rattle.arz_json.specs.declared.Json.{Json};
ghost use Rattle.arz_request.specs.Causes.{told};
ghost use Rattle.arz_scope.specs.Scopes.{Nothing};
ghost use Rattle.arz_scope.specs.Shallow.{AreShallow, SendsShallow};
ghost use Rattle.arz_request.specs.Requests.{request};
ghost use Rattle.arz_relation.specs.Cases.{spot as spot_of, new_fact, outputs_at_end, choice};
ghost use Rattle.arz_relation.specs.Documents.{criteria_of, steps_of, index_of, actions_at};
ghost use Rattle.arz_relation.specs.Verdicts.{verdict as verdict_of, asks_patterns};
ghost use Rattle.arz_cond.specs.Holding.{Answers};
ghost use Rattle.arz_path.specs.Results.{Asked};
ghost use Rattle.arz_runs.specs.Planned.{IsStep, IsStepAt, inputs_by};
ghost use Rattle.arz_runs.specs.Scenes.{bundle_in, scene, run_in, speaks, speaking, own_of, IsShallowOwn, Chooses};
ghost use Rattle.arz_runs.specs.Readable.{are_tryable};
ghost use Rattle.arz_runs.specs.Choosing.{taken, any_tried};
ghost use Rattle.arz_actions.specs.Ready.{ready_of, readies};
ghost use Rattle.arz_actions.specs.Tests.{any_matched};
ghost use Rattle.arz_cond.specs.Criteria.{IsRead};
ghost use Rattle.arz_relation.specs.Retries.{is_used_up_by, made_of};

use crate::inputs::inputs;
use crate::look::Look;
use crate::plans::Planned;
use arz_actions::{Ready, all_hold};
use arz_cond::CondFault;
use arz_description::{Act, Body, Given};
use arz_expr::Scope;
use arz_flow::{Endpoint, Fact, Spot};
use arz_json::{Json, Many, Members, Text, text_at};
use arz_relation::{Count, made};
use arz_request::{BuildFault, build};
use arz_rx::Patterns;
use arz_scope::{Remembered, RunScope, Tried, outputs};
use arz_world::Request;
use std::alloc::{AllocError, Global};
use std::rc::Rc;

impl<'m, 'a> Look<'m, 'a> {
    /// The step at this index, as it is read.
    pub fn step(&self, index: usize) -> Option<&'m Planned<'a>>
        ensures { IsStepAt (bundle_in self.now) self.now.frame.now.workflow index (option_copied result) }
    {
        self.plan.steps.get(index)
    }

    /// The index of the step with this stepId; that behind the last, where there is none.
    pub fn index_of(&self, id: &str) -> usize
        ensures { result ≡ index_of id.now (steps_of (bundle_in self.now) self.now.frame.now.workflow) }
    {
        match self.plan.indexes.get(id) {
            Some(index) => *index,
            None => self.plan.steps.len(),
        }
    }

    /// The request to an operation.
    pub fn request(
        &self,
        endpoint: &Endpoint,
        given: &Many<Given>,
        body: Option<&Body>,
    ) -> Result<Request, BuildFault>
        ensures builds { Gives (λ q. q) told result (request (speaks (scene self.now) Nothing) endpoint.now.operation endpoint.now.server given.now (option_copied body.entry)) }
        ensures shallow { IfOk result SendsShallow }
    {
        let scope = self.scope(Tried::Nothing)?;
        build(
            self.ground.alloc,
            &endpoint.operation,
            &endpoint.server,
            given,
            body,
            &scope,
        )
    }

    /// The inputs of a run that a step makes, by the parameters that the step gives.
    pub fn inputs(&self, given: &Many<Given>) -> Result<Members, BuildFault>
        ensures fills { Gives (λ inputs. inputs) told result (inputs_by (speaks (scene self.now) Nothing) given.now) }
        ensures shallow { IfOk result AreShallow }
    {
        let scope = self.scope(Tried::Nothing)?;
        inputs(self.ground.alloc, given, &scope)
    }

    /// Whether an attempt of this step succeeded, which has this of its own; `plain` says whether it succeeded without
    /// criteria.
    pub fn verdict<P: Patterns>(
        &self,
        planned: &Planned<'a>,
        own: Tried<'_>,
        plain: bool,
        rx: &mut P,
    ) -> Result<bool, CondFault>
        requires step { IsStep (bundle_in self.now) self.now.frame.now.workflow planned.now }
        requires own { IsShallowOwn own }
        ensures says { Answers result (verdict_of (P.patterns rx.old).told (speaks (scene self.now) (own_of own.entry)) plain (criteria_of planned.now.step.now)) (P.patterns rx.old) (P.patterns rx.new) }
        ensures asked { Asked (P.patterns rx.old) (P.patterns rx.new) }
        ensures pattern { IsErrOf result CondFault.Pattern → asks_patterns (bundle_in self.now) ≡ true }
    {
        let tests = planned.tests.as_slice();
        if tests.is_empty() {
            return Ok(plain);
        }
        let scope = self.scope(own)?;
        all_hold(self.ground.alloc, tests, &scope, rx)
    }

    /// The fact of an attempt of this step, which has this of its own.
    pub fn new_fact(&self, planned: &Planned<'a>, own: Tried<'_>) -> Result<Fact, AllocError>
        requires own { IsShallowOwn own }
        ensures fact { IfOk result (λ fact. fact ≡ new_fact (bundle_in self.now) (run_in self.now) (scene self.now).done planned.now.step.now (own_of own.entry)) }
        ensures shallow { IfOk result (λ fact. AreShallow fact.outputs) }
    {
        let alloc = self.ground.alloc;
        let scope = self.scope(own)?;
        let outputs = outputs(alloc, planned.step, &scope)?;
        Ok(Fact {
            step: Text::from_str(alloc, text_at(planned.step, "stepId"))?,
            outputs,
        })
    }

    /// The index of the first action of this step whose criteria all hold, among those after its success or after its
    /// failure; a retry that was made as often as it may be is passed over.
    pub fn choose<P: Patterns>(
        &self,
        planned: &Planned<'a>,
        succeeded: bool,
        counts: &[Count],
        own: Tried<'_>,
        rx: &mut P,
    ) -> Result<Option<usize>, CondFault>
        requires step { IsStep (bundle_in self.now) self.now.frame.now.workflow planned.now }
        requires own { IsShallowOwn own }
        ensures chooses { Chooses (actions_at (bundle_in self.now) self.now.frame.now.workflow planned.now.step.now succeeded)
            (choice (P.patterns rx.old).told (speaks (scene self.now) (own_of own.entry)) counts.now (actions_at (bundle_in self.now) self.now.frame.now.workflow planned.now.step.now succeeded))
            (P.patterns rx.old) (P.patterns rx.new) result }
        ensures asked { Asked (P.patterns rx.old) (P.patterns rx.new) }
        ensures pattern { IsErrOf result CondFault.Pattern → asks_patterns (bundle_in self.now) ≡ true }
    {
        let scope = self.scope(own)?;
        let actions = planned.actions(succeeded);
        first_that_holds(self.ground.alloc, actions, counts, &scope, rx)
    }

    /// The outputs of the run where it ends.
    pub fn outputs(&self) -> Result<Members, AllocError>
        ensures value { IfOk result (λ outputs. outputs ≡ outputs_at_end (bundle_in self.now) (run_in self.now) (scene self.now).done) }
        ensures shallow { IfOk result AreShallow }
        ensures well_formed { IfOk result (λ outputs. IsWellFormed (Json.Object outputs)) }
    {
        let scope = self.scope(Tried::Nothing)?;
        outputs(self.ground.alloc, self.plan.workflow, &scope)
    }

    /// The place of a step.
    pub fn spot(&self, step: &Json) -> Result<Spot, AllocError>
        ensures { IfOk result (λ spot. spot ≡ spot_of (run_in self.now) step.now) }
    {
        let alloc = self.ground.alloc;
        Ok(Spot {
            workflow: Text::from_str(alloc, self.frame.workflow.as_str())?,
            step: Some(Text::from_str(alloc, text_at(step, "stepId"))?),
        })
    }

    // What the expressions of the run speak of, and of what an attempt has of its own.
    fn scope<'s>(&'s self, own: Tried<'s>) -> Result<RunScope<'s>, AllocError>
        requires own { IsShallowOwn own }
        ensures { IfOk result (λ s. s ≡ speaking (scene self.now) own.entry) }
    {
        let remembered = Remembered {
            facts: self.frame.facts.as_slice(),
            fact: self.fact,
            done: self.done,
            newly: self.newly,
        };
        RunScope::new(
            self.ground.alloc,
            &self.ground.bundle.arazzo,
            self.frame.inputs.as_slice(),
            remembered,
            own,
        )
    }
}

impl<'a> Planned<'a> {
    // The actions after its success or after its failure.
    fn actions(&self, succeeded: bool) -> &[Rc<Ready>]
        ensures { result.now ≡ (if succeeded then self.now.success else self.now.failure) }
    {
        if succeeded {
            self.success.as_slice()
        } else {
            self.failure.as_slice()
        }
    }
}

// The index of the first action whose criteria all hold; a retry that is used up is passed over.
fn first_that_holds<S: Scope, P: Patterns>(
    alloc: Global,
    actions: &[Rc<Ready>],
    counts: &[Count],
    scope: &S,
    rx: &mut P,
) -> Result<Option<usize>, CondFault>
    requires { are_tryable (readies actions.now) ≡ true }
    ensures chooses { (raw : List Json) → readies actions.now ≡ map ready_of raw
        → Chooses raw (choice (P.patterns rx.old).told (S.found scope.now) counts.now raw) (P.patterns rx.old) (P.patterns rx.new) result }
    ensures asked { Asked (P.patterns rx.old) (P.patterns rx.new) }
    ensures matched { IsErrOf result CondFault.Pattern → any_tried (readies actions.now) ≡ true }
{
    for (index, action) in actions.iter().enumerate() {
        if may_be_taken(alloc, action, counts, scope, rx)? {
            return Ok(Some(index));
        }
    }
    Ok(None)
}

// Whether an action isn't a retry that is used up, and its criteria all hold.
fn may_be_taken<S: Scope, P: Patterns>(
    alloc: Global,
    action: &Ready,
    counts: &[Count],
    scope: &S,
    rx: &mut P,
) -> Result<bool, CondFault>
    requires { All IsRead action.now.criteria }
    ensures says { Answers result (taken (P.patterns rx.old).told (S.found scope.now) counts.now action.now) (P.patterns rx.old) (P.patterns rx.new) }
    ensures asked { Asked (P.patterns rx.old) (P.patterns rx.new) }
    ensures matched { IsErrOf result CondFault.Pattern → any_matched action.now.criteria ≡ true }
{
    if is_used_up(action, counts) {
        return Ok(false);
    }
    all_hold(alloc, action.criteria.as_slice(), scope, rx)
}

// Whether an action is a retry that was made as often as it may be.
fn is_used_up(action: &Ready, counts: &[Count]) -> bool
    ensures { result ≡ is_used_up_by action.now.act (made_of action.now.name counts.now) }
{
    match &action.act {
        Act::Retry(_, limit, _) => *limit <= made(counts, action.name.as_str()),
        _ => false,
    }
}
