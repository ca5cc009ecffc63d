// A run of the starting workflow.
ghost use Rattle.std.specs.Prelude.{◌≡◌, ℕ, List, map};
ghost use Rattle.std.specs.Option.{option_copied};
ghost use Rattle.arz_components.specs.Described.{component};
ghost use Rattle.arz_components.specs.Indexes.{finds};
ghost use Rattle.arz_components.specs.declared.components.Part.{Part};
ghost use Rattle.arz_flow.specs.Documents.{workflow_named, steps_of};
ghost use Rattle.arz_flow.specs.Requests.{endpoint_of};
ghost use Rattle.arz_machine.specs.Tests.{tests_of, IsSound};
ghost use Rattle.arz_scope.specs.Shallow.{HaveShallow};

use arz_components::Components;
use arz_cond::Test;
use arz_flow::{Bundle, Endpoint, Fact};
use arz_json::{Json, Many};
use std::alloc::Global;

/// A run of a bundle's starting workflow, with the facts of its attempts so far.
#[derive(Drop)]
pub(crate) struct Run<'a> {
    pub alloc: Global,
    /// What is executed.
    pub bundle: &'a Bundle,
    /// The components of the description.
    pub components: Components<'a>,
    /// The workflow, where the description has it.
    pub workflow: Option<&'a Json>,
    /// The steps of the workflow.
    pub steps: &'a [Json],
    /// What each of the steps calls.
    pub endpoints: Many<Endpoint>,
    /// The success criteria of each of the steps.
    pub tests: Many<Many<Test>>,
    /// What each attempt left, in order.
    pub facts: Many<Fact>,
    ghost sound: { IsSound bundle.now },
    ghost found: { (part : Part) (q : List ℕ) → finds components part q ≡ component bundle.now.arazzo part q },
    ghost named: { option_copied workflow ≡ workflow_named bundle.now.workflow bundle.now.arazzo },
    ghost listed: { steps.now ≡ steps_of bundle.now bundle.now.workflow },
    ghost called: { endpoints ≡ map (endpoint_of bundle.now) steps.now },
    ghost read: { tests ≡ map tests_of steps.now },
    ghost shallow: { HaveShallow facts },
}
