// What the expressions of a run speak of.
ghost use Rattle.std.specs.Prelude.{◌≡◌, IfOk};
ghost use Rattle.std.specs.Option.{ForSome};
ghost use Rattle.arz_scope.specs.Remembering.{spoken, IsShallowMemory, inner_in};
ghost use Rattle.arz_scope.specs.Shallow.{IsShallow, AreShallow};

use crate::lookups::{member_value, source_kind, source_member};
use crate::remembered::{Remembered, Tried};
use arz_expr::{Base, Scope};
use arz_json::{Json, Member, Text};
use std::alloc::{AllocError, Global};
use std::marker::Model;

/// What the expressions of a run speak of (Arazzo 1.0.1, 4.7): the description, the run's inputs, what is
/// remembered of steps and workflows, and what an attempt has of its own. Contracts see what a run has, and the
/// attempt.
#[derive(Debug, Drop)]
pub struct RunScope<'a> {
    description: &'a Json,
    inputs: &'a [Member],
    remembered: Remembered<'a>,
    tried: Tried<'a>,
    openapi: Json,
}

impl<'a> Model for RunScope<'a> {
    ghost use Rattle.std.specs.Prelude.{◌≡◌};
    ghost use Rattle.std.specs.Option.{ForSome};
    ghost use Rattle.arz_scope.specs.Remembering.{spoken, IsShallowMemory, inner_in};
    ghost use Rattle.arz_scope.specs.Shallow.{IsShallow, AreShallow};
    ghost use Rattle.arz_scope.specs.Sources.{openapi as openapi_type};
    ghost use Rattle.arz_scope.specs.Speaking.{Speaking, speaking_code};

    ghost Value = { Speaking };

    ghost coded = { speaking_code };

    ghost view = { λ s. spoken s.description.now s.inputs.now s.remembered s.tried };

    ghost invariant = { λ s. IsShallow s.description.now × AreShallow s.inputs.now × IsShallowMemory s.remembered × ForSome (inner_in s.tried) AreShallow × (s.openapi ≡ openapi_type) };
}

impl<'a> RunScope<'a> {
    /// The scope of expressions in a run with these inputs, where this is remembered; in the criteria and outputs
    /// of an attempt, and in the criteria of its actions, with what it has of its own.
    pub fn new(
        alloc: Global,
        description: &'a Json,
        inputs: &'a [Member],
        remembered: Remembered<'a>,
        tried: Tried<'a>,
    ) -> Result<RunScope<'a>, AllocError>
        requires description { IsShallow description.now }
        requires inputs { AreShallow inputs.now }
        requires remembered { IsShallowMemory remembered }
        requires inner { ForSome (inner_in tried) AreShallow }
        ensures { IfOk result (λ s. s ≡ spoken description.now inputs.now remembered.entry tried.entry) }
    {
        let openapi = Json::Text(Text::from_str(alloc, "openapi")?);
        Ok(RunScope {
            description,
            inputs,
            remembered,
            tried,
            openapi,
        })
    }
}

impl<'a> Scope for RunScope<'a> {
    ghost use Rattle.arz_scope.specs.Scopes.{found};
    ghost use Rattle.arz_scope.specs.Speaking.{run_of, attempt_of};

    ghost found = { λ s b. found (run_of s) (attempt_of s.exchange s.inner) b };

    #[tactic(auto, unfolding(crate::specs::Scopes::found))]
    fn find(&self, base: &Base) -> Option<&Json> {
        match base {
            Base::Input(name) => member_value(self.inputs, name.as_str()),
            Base::StepOutput(step, name) => self
                .remembered
                .step_output(step.as_str(), name.as_str()),
            Base::WorkflowInput(workflow, name) => self
                .remembered
                .workflow_input(workflow.as_str(), name.as_str()),
            Base::WorkflowOutput(workflow, name) => self
                .remembered
                .workflow_output(workflow.as_str(), name.as_str()),
            Base::SourceUrl(name) => source_member(self.description, name.as_str(), "url"),
            Base::SourceName(name) => source_member(self.description, name.as_str(), "name"),
            Base::SourceKind(name) => source_kind(self.description, name.as_str(), &self.openapi),
            _ => self.tried.find(base),
        }
    }
}
