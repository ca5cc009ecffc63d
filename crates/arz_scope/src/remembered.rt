// What a run looks back at.
ghost use Rattle.std.specs.Prelude.{◌≡◌, IfSome, option_and_then, reverse};
ghost use Rattle.std.specs.Option.{option_copied, ForSome};
ghost use Rattle.arz_json.specs.Pointer.{member_named};
ghost use Rattle.arz_scope.specs.Remembering.{facts_in, done_in, exchange_in, inner_in, IsShallowMemory};
ghost use Rattle.arz_scope.specs.Scopes.{attempted, completion_of, fact_of, with_fact, ran as ran_with};
ghost use Rattle.arz_scope.specs.Shallow.{IsShallow, AreShallow, HaveShallow, IsShallowCompletion};
ghost use Rattle.arz_scope.specs.Speaking.{attempt_of};

use crate::exchange::Exchange;
use crate::facts::{Completion, Fact};
use crate::lookups::member_value;
use arz_expr::Base;
use arz_json::{Json, Member};

/// What is remembered where a run stands (Arazzo 1.0.1, 4.7): the last fact of each of its steps, and the last
/// completion of each workflow.
#[derive(Clone, Copy, Debug)]
pub struct Remembered<'a> {
    /// The facts, each of another step.
    pub facts: &'a [Fact],
    /// A fact that comes after them, and takes the place of the one that its step had.
    pub fact: Option<&'a Fact>,
    /// The completions, each of another workflow.
    pub done: &'a [Completion],
    /// Completions that come after them, in order.
    pub newly: &'a [Completion],
}

impl<'a> Remembered<'a> {
    /// An output of the last fact of a step (`$steps.<step>.outputs.<name>`).
    pub fn step_output(&self, step: &str, name: &str) -> Option<&'a Json>
        ensures value { option_copied result ≡ option_and_then (λ f. member_named f.outputs name.now) (fact_of step.now (facts_in self.now)) }
        ensures shallow { IsShallowMemory self.now → IfSome result (λ value. IsShallow value.now) }
    {
        let fact = self.last_fact(step)?;
        member_value(fact.outputs.as_slice(), name)
    }

    /// An input of the last completion of a workflow (`$workflows.<workflow>.inputs.<name>`).
    pub fn workflow_input(&self, workflow: &str, name: &str) -> Option<&'a Json>
        ensures value { option_copied result ≡ option_and_then (λ c. member_named c.inputs name.now) (completion_of workflow.now (done_in self.now)) }
        ensures shallow { IsShallowMemory self.now → IfSome result (λ value. IsShallow value.now) }
    {
        let completion = self.last_completion(workflow)?;
        member_value(completion.inputs.as_slice(), name)
    }

    /// An output of the last completion of a workflow (`$workflows.<workflow>.outputs.<name>`).
    pub fn workflow_output(&self, workflow: &str, name: &str) -> Option<&'a Json>
        ensures value { option_copied result ≡ option_and_then (λ c. member_named c.outputs name.now) (completion_of workflow.now (done_in self.now)) }
        ensures shallow { IsShallowMemory self.now → IfSome result (λ value. IsShallow value.now) }
    {
        let completion = self.last_completion(workflow)?;
        member_value(completion.outputs.as_slice(), name)
    }

    fn last_fact(&self, step: &str) -> Option<&'a Fact>
        ensures value { option_copied result ≡ fact_of step.now (facts_in self.now) }
        ensures shallow { IsShallowMemory self.now → IfSome result (λ fact. AreShallow fact.now.outputs) }
    {
        match self.fact {
            Some(later) => fact_after(self.facts, later, step),
            None => fact_among(self.facts, step),
        }
    }

    fn last_completion(&self, workflow: &str) -> Option<&'a Completion>
        ensures value { option_copied result ≡ completion_of workflow.now (done_in self.now) }
        ensures shallow { IsShallowMemory self.now → IfSome result (λ completion. IsShallowCompletion completion.now) }
    {
        match newest_among(self.newly, workflow) {
            Some(completion) => Some(completion),
            None => completion_among(self.done, workflow),
        }
    }
}

// The fact of a step among these, and one that comes after them.
fn fact_after<'a>(facts: &'a [Fact], fact: &'a Fact, step: &str) -> Option<&'a Fact>
    ensures value { option_copied result ≡ fact_of step.now (with_fact fact.now facts.now) }
    ensures shallow { HaveShallow facts.now → AreShallow fact.now.outputs → IfSome result (λ found. AreShallow found.now.outputs) }
{
    if fact.step.as_str() == step {
        Some(fact)
    } else {
        fact_among(facts, step)
    }
}

fn fact_among<'a>(facts: &'a [Fact], step: &str) -> Option<&'a Fact>
    ensures value { option_copied result ≡ fact_of step.now facts.now }
    ensures shallow { HaveShallow facts.now → IfSome result (λ fact. AreShallow fact.now.outputs) }
{
    facts.iter().find(|fact| fact.step.as_str() == step)
}

fn completion_among<'a>(done: &'a [Completion], workflow: &str) -> Option<&'a Completion>
    ensures { option_copied result ≡ completion_of workflow.now done.now }
{
    done.iter()
        .find(|completion| completion.workflow.as_str() == workflow)
}

// The last of those of a workflow.
fn newest_among<'a>(newly: &'a [Completion], workflow: &str) -> Option<&'a Completion>
    ensures { option_copied result ≡ completion_of workflow.now (reverse newly.now) }
{
    newly
        .iter()
        .rev()
        .find(|completion| completion.workflow.as_str() == workflow)
}

/// What an attempt has of its own for its criteria, outputs and actions to speak of.
#[derive(Clone, Copy, Debug)]
pub enum Tried<'a> {
    /// Nothing: before an attempt, and outside of one.
    Nothing,
    /// The request that was sent, and its reply.
    Exchange(&'a Exchange<'a>),
    /// The outputs of the run that it made.
    Inner(&'a [Member]),
}

impl<'a> Tried<'a> {
    /// The value of a base that speaks of the attempt. It takes no memory.
    pub fn find(&self, base: &Base) -> Option<&'a Json>
        ensures value { option_copied result ≡ attempted (attempt_of (exchange_in self.now) (inner_in self.now)) base.now }
        ensures shallow { ForSome (inner_in self.now) AreShallow → IfSome result (λ value. IsShallow value.now) }
    {
        match *self {
            Tried::Nothing => None,
            Tried::Exchange(exchange) => exchange.find(base),
            Tried::Inner(outputs) => ran(outputs, base),
        }
    }
}

// An output of an inner run.
fn ran<'a>(outputs: &'a [Member], base: &Base) -> Option<&'a Json>
    ensures value { option_copied result ≡ ran_with outputs.now base.now }
    ensures shallow { AreShallow outputs.now → IfSome result (λ value. IsShallow value.now) }
{
    match base {
        Base::Output(name) => member_value(outputs, name.as_str()),
        _ => None,
    }
}
