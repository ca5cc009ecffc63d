// The workflow that is run.
ghost use Rattle.std.specs.Prelude.{◌≡◌};
ghost use Rattle.std.specs.Option.{option_copied};
ghost use Rattle.arz_flow.specs.Documents.{workflow_named as workflow_with, steps_of};

use arz_flow::{Bundle, items_at, text_at};
use arz_json::Json;

/// The workflow that is run, where the description has it (Arazzo 1.0.1, 4.6.4).
pub(crate) fn workflow(bundle: &Bundle) -> Option<&Json>
    ensures { option_copied result ≡ workflow_with bundle.now.workflow bundle.now.arazzo }
{
    workflow_named(&bundle.arazzo, bundle.workflow.as_str())
}

/// The steps of the workflow that is run, in order; none where the description lacks it.
pub(crate) fn steps(bundle: &Bundle) -> &[Json]
    ensures { result.now ≡ steps_of bundle.now bundle.now.workflow }
{
    match workflow(bundle) {
        Some(workflow) => items_at(workflow, "steps"),
        None => &[],
    }
}

// The first workflow with this workflowId.
fn workflow_named<'a>(description: &'a Json, id: &str) -> Option<&'a Json>
    ensures { option_copied result ≡ workflow_with id.now description.now }
{
    let workflows = items_at(description, "workflows");
    workflows.iter().find(|w| text_at(w, "workflowId") == id)
}
