// What an execution stands on, which never changes.
ghost use Rattle.std.specs.Coded.{codes};
ghost use Rattle.arz_json.specs.contracts.tree.Json as json;
ghost use Rattle.std.specs.Prelude.{◌≡◌, ℕ, List, IfOk};
ghost use Rattle.arz_components.specs.Described.{component};
ghost use Rattle.arz_components.specs.Indexes.{finds};
ghost use Rattle.arz_components.specs.declared.components.Part.{Part};
ghost use Rattle.arz_openapi.specs.Targets.{targets};
ghost use Rattle.arz_sources.specs.Served.{found_in};
ghost use Rattle.arz_relation.specs.Valid.{IsValid};
ghost use Rattle.arz_runs.specs.Readable.{IsSound};
ghost use Rattle.arz_runs.specs.Grounds.{IsPlannedAs, IsFoundAs};

use crate::plans::{Plan, Reader, read_plans};
use arz_actions::Actions;
use arz_components::Components;
use arz_flow::Bundle;
use arz_json::items_at;
use arz_sources::{Sources, read_sources};
use std::alloc::{AllocError, Global};
use std::collections::BTreeMap;

/// What an execution stands on: its bundle, and what is read once of each workflow.
#[derive(Drop)]
pub(crate) struct Ground<'a> {
    pub alloc: Global,
    pub bundle: &'a Bundle,
    pub plans: BTreeMap<&'a str, Plan<'a>>,
    ghost sound: { IsSound bundle.now },
    ghost planned: { IsPlannedAs bundle.now plans } by { Prim.hlevel (codes, json.the_row.coded) },
}

impl<'a> Ground<'a> {
    /// Reads the workflows of a bundle.
    pub fn of(alloc: Global, bundle: &'a Bundle) -> Result<Ground<'a>, AllocError>
        requires { IsValid bundle.now }
        ensures { IfOk result (λ g. g.bundle.now ≡ bundle.now) }
    {
        let components = Components::of(alloc, &bundle.arazzo)?;
        let list = read_sources(alloc, bundle.sources.as_slice(), bundle.servers.as_slice())?;
        let sources = Sources::of(alloc, list.as_slice())?;
        let plans = plans_of(alloc, bundle, &components, &sources)?;
        Ok(Ground {
            alloc,
            bundle,
            plans,
        })
    }

    /// The plan of the workflow with this workflowId.
    pub fn plan(&self, workflow: &str) -> Option<&Plan<'a>>
        ensures { IsFoundAs self.now.bundle.now workflow.now result }
    {
        self.plans.get(workflow)
    }
}

// The plans of the workflows of a bundle, by its components and its sources.
fn plans_of<'a>(
    alloc: Global,
    bundle: &'a Bundle,
    components: &Components<'a>,
    sources: &Sources<'_, 'a>,
) -> Result<BTreeMap<&'a str, Plan<'a>>, AllocError>
    requires valid { IsValid bundle.now }
    requires components { (part : Part) (q : List ℕ) → finds components.now part q ≡ component bundle.now.arazzo part q }
    requires sources { found_in sources.now ≡ targets bundle.now.sources bundle.now.servers }
    ensures { IfOk result (IsPlannedAs bundle.now) }
{
    let reader = Reader {
        alloc,
        components,
        sources,
    };
    let mut actions = Actions::new(alloc, components);
    read_plans(&reader, &mut actions, items_at(&bundle.arazzo, "workflows"))
}
