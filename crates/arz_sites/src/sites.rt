// Where the parts of a description stand (Arazzo 1.0.1, section 4.6).
ghost use Rattle.std.specs.Prelude.{◌≡◌, ◌∷◌, ◌++◌, [], map};
ghost use Rattle.arz_rules.specs.Sites.{seen_site, before};
ghost use Rattle.arz_sites.specs.Sites.{workflows, success_lists as lists_of_success, failure_lists as lists_of_failure, success_items as items_of_success, failure_items as items_of_failure, listed_actions as actions_in_lists, shared_actions as actions_shared, values as values_given, parameters_of, steps};
ghost use Rattle.arz_sites.specs.Wants.{names as names_given, named as objects_named, outputs as outputs_given};

use arz_rules::Way;
use arz_rules::Way::{EachItem, EachMember, Member};

/// The names of sources, workflows and steps.
pub fn names() -> &'static [&'static [Way<'static>]]
    ensures { map seen_site result.now ≡ names_given }
{
    &[
        &[Member("sourceDescriptions"), EachItem, Member("name")],
        &[Member("workflows"), EachItem, Member("workflowId")],
        &[
            Member("workflows"),
            EachItem,
            Member("steps"),
            EachItem,
            Member("stepId"),
        ],
    ]
}

/// The objects whose members are called by names.
pub fn named() -> &'static [&'static [Way<'static>]]
    ensures { map seen_site result.now ≡ objects_named }
{
    &[
        &[Member("workflows"), EachItem, Member("outputs")],
        &[
            Member("workflows"),
            EachItem,
            Member("steps"),
            EachItem,
            Member("outputs"),
        ],
        &[Member("components"), Member("inputs")],
        &[Member("components"), Member("parameters")],
        &[Member("components"), Member("successActions")],
        &[Member("components"), Member("failureActions")],
    ]
}

/// The lists of success actions.
pub fn success_lists() -> &'static [&'static [Way<'static>]]
    ensures { map seen_site result.now ≡ before workflows lists_of_success }
{
    &[
        &[Member("workflows"), EachItem, Member("successActions")],
        &[
            Member("workflows"),
            EachItem,
            Member("steps"),
            EachItem,
            Member("onSuccess"),
        ],
    ]
}

/// The lists of failure actions.
pub fn failure_lists() -> &'static [&'static [Way<'static>]]
    ensures { map seen_site result.now ≡ before workflows lists_of_failure }
{
    &[
        &[Member("workflows"), EachItem, Member("failureActions")],
        &[
            Member("workflows"),
            EachItem,
            Member("steps"),
            EachItem,
            Member("onFailure"),
        ],
    ]
}

/// The items of the lists of success actions.
pub fn success_items() -> &'static [&'static [Way<'static>]]
    ensures { map seen_site result.now ≡ before workflows items_of_success }
{
    &[
        &[
            Member("workflows"),
            EachItem,
            Member("successActions"),
            EachItem,
        ],
        &[
            Member("workflows"),
            EachItem,
            Member("steps"),
            EachItem,
            Member("onSuccess"),
            EachItem,
        ],
    ]
}

/// The items of the lists of failure actions.
pub fn failure_items() -> &'static [&'static [Way<'static>]]
    ensures { map seen_site result.now ≡ before workflows items_of_failure }
{
    &[
        &[
            Member("workflows"),
            EachItem,
            Member("failureActions"),
            EachItem,
        ],
        &[
            Member("workflows"),
            EachItem,
            Member("steps"),
            EachItem,
            Member("onFailure"),
            EachItem,
        ],
    ]
}

/// The items of the lists of success actions of a workflow.
pub fn own_success_items() -> &'static [&'static [Way<'static>]]
    ensures { map seen_site result.now ≡ items_of_success }
{
    &[
        &[Member("successActions"), EachItem],
        &[Member("steps"), EachItem, Member("onSuccess"), EachItem],
    ]
}

/// The items of the lists of failure actions of a workflow.
pub fn own_failure_items() -> &'static [&'static [Way<'static>]]
    ensures { map seen_site result.now ≡ items_of_failure }
{
    &[
        &[Member("failureActions"), EachItem],
        &[Member("steps"), EachItem, Member("onFailure"), EachItem],
    ]
}

/// The items of all lists of actions of a workflow.
pub fn own_items() -> &'static [&'static [Way<'static>]]
    ensures { map seen_site result.now ≡ items_of_success ++ items_of_failure }
{
    &[
        &[Member("successActions"), EachItem],
        &[Member("steps"), EachItem, Member("onSuccess"), EachItem],
        &[Member("failureActions"), EachItem],
        &[Member("steps"), EachItem, Member("onFailure"), EachItem],
    ]
}

/// The items of all lists of actions.
pub fn listed_actions() -> &'static [&'static [Way<'static>]]
    ensures { map seen_site result.now ≡ actions_in_lists }
{
    &[
        &[
            Member("workflows"),
            EachItem,
            Member("successActions"),
            EachItem,
        ],
        &[
            Member("workflows"),
            EachItem,
            Member("steps"),
            EachItem,
            Member("onSuccess"),
            EachItem,
        ],
        &[
            Member("workflows"),
            EachItem,
            Member("failureActions"),
            EachItem,
        ],
        &[
            Member("workflows"),
            EachItem,
            Member("steps"),
            EachItem,
            Member("onFailure"),
            EachItem,
        ],
    ]
}

/// The actions among the components.
pub fn shared_actions() -> &'static [&'static [Way<'static>]]
    ensures { map seen_site result.now ≡ actions_shared }
{
    &[
        &[Member("components"), Member("successActions"), EachMember],
        &[Member("components"), Member("failureActions"), EachMember],
    ]
}

/// The items of the lists of parameters of workflows and of steps.
pub fn parameters() -> &'static [&'static [Way<'static>]]
    ensures { map seen_site result.now ≡ (workflows ++ parameters_of) ∷ (steps ++ parameters_of) ∷ [] }
{
    &[
        &[
            Member("workflows"),
            EachItem,
            Member("parameters"),
            EachItem,
        ],
        &[
            Member("workflows"),
            EachItem,
            Member("steps"),
            EachItem,
            Member("parameters"),
            EachItem,
        ],
    ]
}

/// The values of parameters, payloads, and what replaces parts of payloads.
pub fn values() -> &'static [&'static [Way<'static>]]
    ensures { map seen_site result.now ≡ values_given }
{
    &[
        &[
            Member("workflows"),
            EachItem,
            Member("parameters"),
            EachItem,
            Member("value"),
        ],
        &[
            Member("workflows"),
            EachItem,
            Member("steps"),
            EachItem,
            Member("parameters"),
            EachItem,
            Member("value"),
        ],
        &[
            Member("components"),
            Member("parameters"),
            EachMember,
            Member("value"),
        ],
        &[
            Member("workflows"),
            EachItem,
            Member("steps"),
            EachItem,
            Member("requestBody"),
            Member("replacements"),
            EachItem,
            Member("value"),
        ],
        &[
            Member("workflows"),
            EachItem,
            Member("steps"),
            EachItem,
            Member("requestBody"),
            Member("payload"),
        ],
    ]
}

/// The outputs of workflows and of steps.
pub fn outputs() -> &'static [&'static [Way<'static>]]
    ensures { map seen_site result.now ≡ outputs_given }
{
    &[
        &[Member("workflows"), EachItem, Member("outputs"), EachMember],
        &[
            Member("workflows"),
            EachItem,
            Member("steps"),
            EachItem,
            Member("outputs"),
            EachMember,
        ],
    ]
}
