// The turns of a run: a step is entered, an attempt leaves its fact, the run is closed.
ghost use Rattle.std.specs.Prelude.{◌≡◌, ℕ, ◌+◌, ◌<◌, ◌++◌, ◌∷◌, [], length, slice_get, true, IfOk, OnOk, OnErr, IsErrOf, None, Some};
ghost use Rattle.std.specs.Option.{option_copied};
ghost use Rattle.arz_json.specs.declared.Json.{Json};
ghost use Rattle.arz_json.specs.Answer.{Gives};
ghost use Rattle.arz_json.specs.Tree.{IsWellFormed};
ghost use Rattle.arz_request.specs.Causes.{told};
ghost use Rattle.arz_scope.specs.Remembering.{exchange_in, inner_in};
ghost use Rattle.arz_scope.specs.Shallow.{AreShallow, SendsShallow};
ghost use Rattle.arz_flow.specs.Cases.{spot as spot_of, outputs_at_end};
ghost use Rattle.arz_flow.specs.Valid.{IsValid};
ghost use Rattle.arz_flow.specs.Verdicts.{asks_patterns};
ghost use Rattle.arz_cond.specs.Holding.{Answers};
ghost use Rattle.arz_path.specs.Results.{Asked};
ghost use Rattle.arz_machine.specs.Plain.{is_plain};
ghost use Rattle.arz_machine.specs.Resting.{rest_of};
ghost use Rattle.arz_machine.specs.Spoken.{spoken};
ghost use Rattle.arz_machine.specs.States.{has_step, run_of, is_spent, request_in, entered, closed, goes_to, next_fact, verdict_in, widened};

use crate::endpoints::endpoints;
use crate::given::given;
use crate::run::Run;
use crate::state::{Ready, State};
use crate::tests::tests;
use crate::verdicts::succeeds;
use crate::workflow::{steps, workflow};
use arz_components::Components;
use arz_cond::CondFault;
use arz_description::read_body;
use arz_flow::{Bundle, Cause, End, Fact, Spot, text_at};
use arz_json::{Json, Many, Members, Text};
use arz_request::{BuildFault, build};
use arz_rx::Patterns;
use arz_scope::{Exchange, Remembered, RunScope, Tried, any_opaque, outputs};
use arz_world::{Reply, Request};
use std::alloc::{AllocError, Global};

impl<'a> Run<'a> {
    /// A run before its first step.
    pub fn begin(alloc: Global, bundle: &'a Bundle) -> Result<Run<'a>, AllocError>
        requires { IsValid bundle.now }
        ensures bundle { IfOk result (λ run. run.bundle.now ≡ bundle.now) }
        ensures facts { IfOk result (λ run. run.facts ≡ []) }
    {
        let components = Components::of(alloc, &bundle.arazzo)?;
        let steps = steps(bundle);
        let endpoints = endpoints(alloc, bundle, steps)?;
        let tests = tests(alloc, steps)?;
        Ok(Run {
            alloc,
            bundle,
            components,
            workflow: workflow(bundle),
            steps,
            endpoints,
            tests,
            facts: Many::new(alloc),
        })
    }

    /// Enters the step at this index, and gives where the execution rests then.
    pub fn enter(&self, index: usize) -> Result<State, AllocError>
        requires { index < length self.now.steps.now }
        ensures entered { IfOk result (λ state. (step : Json) → slice_get self.now.steps.now index ≡ Some step
            → rest_of state ≡ entered self.now.bundle.now self.now.facts step) }
        ensures inside { IfOk result (λ state. has_step (rest_of state) index (length self.now.steps.now) ≡ true) }
        ensures plain { IfOk result (λ state. is_plain (rest_of state) ≡ true) }
    {
        let step = &self.steps[index];
        match self.request(index) {
            Ok(_) if self.is_spent() => Ok(State::Ended(End::Budget(self.bundle.max_attempts))),
            Ok(request) => Ok(State::Sends(Ready { request })),
            Err(BuildFault::Stuck(cause)) => Ok(State::Ended(End::Stuck(cause, self.spot(step)?))),
            Err(BuildFault::Memory) => Err(AllocError),
        }
    }

    // The request of the step at this index.
    fn request(&self, index: usize) -> Result<Request, BuildFault>
        requires { index < length self.now.steps.now }
        ensures builds { (step : Json) → slice_get self.now.steps.now index ≡ Some step
            → Gives (λ q. q) told result (request_in self.now.bundle.now self.now.facts step) }
        ensures shallow { IfOk result SendsShallow }
    {
        let alloc = self.alloc;
        let step = &self.steps[index];
        let endpoint = &self.endpoints.as_slice()[index];
        let given = given(alloc, &self.components, self.workflow, step)?;
        let body = read_body(alloc, step)?;
        let scope = self.scope(None)?;
        build(
            alloc,
            &endpoint.operation,
            &endpoint.server,
            &given,
            body.as_ref(),
            &scope,
        )
    }

    /// Whether the attempt of the step at this index succeeded.
    pub fn verdict<P: Patterns>(
        &self,
        index: usize,
        ready: &Ready,
        reply: &Reply,
        rx: &mut P,
    ) -> Result<bool, CondFault>
        requires { index < length self.now.steps.now }
        ensures says { (step : Json) → slice_get self.now.steps.now index ≡ Some step
            → Answers result (verdict_in (P.patterns rx.old).told self.now.bundle.now self.now.facts step ready.now.request reply.now) (P.patterns rx.old) (P.patterns rx.new) }
        ensures asked { Asked (P.patterns rx.old) (P.patterns rx.new) }
        ensures pattern { IsErrOf result CondFault.Pattern → asks_patterns self.now.bundle.now ≡ true }
    {
        let tests = self.tests.as_slice()[index].as_slice();
        let exchange = Exchange::new(self.alloc, &ready.request, reply)?;
        let scope = self.scope(Some(&exchange))?;
        succeeds(self.alloc, tests, reply, &scope, rx)
    }

    /// Where the execution rests where a selection of a criterion of the step at this index is too wide.
    pub fn too_wide(&self, index: usize) -> Result<State, AllocError>
        requires { index < length self.now.steps.now }
        ensures state { IfOk result (λ state. (step : Json) → slice_get self.now.steps.now index ≡ Some step
            → rest_of state ≡ widened self.now.bundle.now self.now.facts step) }
        ensures inside { IfOk result (λ state. (step count : ℕ) → has_step (rest_of state) step count ≡ true) }
        ensures plain { IfOk result (λ state. is_plain (rest_of state) ≡ true) }
    {
        let spot = self.spot(&self.steps[index])?;
        Ok(State::Ended(End::Stuck(Cause::TooWide, spot)))
    }

    /// The fact of an attempt of the step at this index.
    pub fn fact(&self, index: usize, ready: &Ready, reply: &Reply) -> Result<Fact, AllocError>
        requires { index < length self.now.steps.now }
        ensures fact { IfOk result (λ fact. (step : Json) → slice_get self.now.steps.now index ≡ Some step
            → fact ≡ next_fact self.now.bundle.now self.now.facts step ready.now.request reply.now) }
        ensures shallow { IfOk result (λ fact. AreShallow fact.outputs) }
    {
        let step = &self.steps[index];
        let exchange = Exchange::new(self.alloc, &ready.request, reply)?;
        let scope = self.scope(Some(&exchange))?;
        let outputs = outputs(self.alloc, step, &scope)?;
        Ok(Fact {
            step: Text::from_str(self.alloc, text_at(step, "stepId"))?,
            outputs,
        })
    }

    /// Adds the fact of an attempt of the step at this index, and gives where the execution rests then.
    /// Where memory runs out the run is as before.
    pub fn go_on(&mut self, fact: Fact, index: usize, succeeded: bool) -> Result<State, AllocError>
        requires index { index < length self.old.steps.now }
        requires fact { AreShallow fact.outputs }
        ensures bundle { self.new.bundle ≡ self.old.bundle }
        ensures steps { self.new.steps ≡ self.old.steps }
        ensures facts { OnOk result (self.new.facts ≡ self.old.facts ++ fact ∷ []) }
        ensures refused { OnErr result (self.new.facts ≡ self.old.facts) }
        ensures state { IfOk result (λ state. rest_of state ≡ goes_to self.old.bundle.now (self.old.facts ++ fact ∷ []) succeeded
            (slice_get self.old.steps.now (index + 1))) }
        ensures inside { IfOk result (λ state. has_step (rest_of state) (index + 1) (length self.old.steps.now) ≡ true) }
        ensures plain { IfOk result (λ state. is_plain (rest_of state) ≡ true) }
    {
        self.facts.push(fact)?;
        let next = self.after(index, succeeded);
        if next.is_err() {
            self.facts.pop();
        }
        next
    }

    // Where the execution rests after the attempt of the step at this index.
    fn after(&self, index: usize, succeeded: bool) -> Result<State, AllocError>
        requires { index < length self.now.steps.now }
        ensures state { IfOk result (λ state. rest_of state ≡ goes_to self.now.bundle.now self.now.facts succeeded (slice_get self.now.steps.now (index + 1))) }
        ensures inside { IfOk result (λ state. has_step (rest_of state) (index + 1) (length self.now.steps.now) ≡ true) }
        ensures plain { IfOk result (λ state. is_plain (rest_of state) ≡ true) }
    {
        if succeeded && index + 1 < self.steps.len() {
            return self.enter(index + 1);
        }
        self.close(succeeded)
    }

    // Closes the run: its end, with the outputs of the workflow.
    fn close(&self, succeeded: bool) -> Result<State, AllocError>
        ensures state { IfOk result (λ state. rest_of state ≡ closed self.now.bundle.now self.now.facts succeeded) }
        ensures inside { IfOk result (λ state. (step count : ℕ) → has_step (rest_of state) step count ≡ true) }
        ensures plain { IfOk result (λ state. is_plain (rest_of state) ≡ true) }
    {
        let outputs = self.outputs()?;
        if any_opaque(outputs.as_slice()) {
            let workflow = Text::from_str(self.alloc, self.bundle.workflow.as_str())?;
            let spot = Spot {
                workflow,
                step: None,
            };
            return Ok(State::Ended(End::Stuck(Cause::FractionUsed, spot)));
        }
        Ok(State::Ended(if succeeded {
            End::Completed(outputs)
        } else {
            End::Broke(outputs)
        }))
    }

    // The outputs of the workflow.
    fn outputs(&self) -> Result<Members, AllocError>
        ensures value { IfOk result (λ given. given ≡ outputs_at_end self.now.bundle.now (run_of self.now.bundle.now self.now.facts) []) }
        ensures well_formed { IfOk result (λ given. IsWellFormed (Json.Object given)) }
    {
        let Some(workflow) = self.workflow else {
            return Ok(Many::new(self.alloc));
        };
        let scope = self.scope(None)?;
        outputs(self.alloc, workflow, &scope)
    }

    // Whether as many requests were sent as may be. Each attempt sent one and left its fact.
    fn is_spent(&self) -> bool
        ensures { result ≡ is_spent self.now.bundle.now self.now.facts }
    {
        self.facts.len() == self.bundle.max_attempts as usize
    }

    // What the run's expressions speak of.
    fn scope<'s>(&'s self, exchange: Option<&'s Exchange<'s>>) -> Result<RunScope<'s>, AllocError>
        ensures { IfOk result (λ s. s ≡ spoken self.now.bundle.now self.now.facts (option_copied exchange.entry)) }
    {
        let bundle = self.bundle;
        let inputs = bundle.inputs.as_slice();
        let remembered = Remembered {
            facts: self.facts.as_slice(),
            fact: None,
            done: &[],
            newly: &[],
        };
        RunScope::new(
            self.alloc,
            &bundle.arazzo,
            inputs,
            remembered,
            tried(exchange),
        )
    }

    // The place of a step.
    fn spot(&self, step: &Json) -> Result<Spot, AllocError>
        ensures { IfOk result (λ spot. spot ≡ spot_of (run_of self.now.bundle.now self.now.facts) step.now) }
    {
        Ok(Spot {
            workflow: Text::from_str(self.alloc, self.bundle.workflow.as_str())?,
            step: Some(Text::from_str(self.alloc, text_at(step, "stepId"))?),
        })
    }
}

// What an attempt with this exchange has of its own.
fn tried<'s>(exchange: Option<&'s Exchange<'s>>) -> Tried<'s>
    ensures exchange { exchange_in result ≡ option_copied exchange.entry }
    ensures inner { inner_in result ≡ None }
{
    match exchange {
        Some(exchange) => Tried::Exchange(exchange),
        None => Tried::Nothing,
    }
}
