// Components by their names.
ghost use Rattle.std.specs.Prelude.{◌≡◌, IfOk, ℕ, List, option_map};
ghost use Rattle.arz_json.specs.Pointer.{member_named};
ghost use Rattle.arz_components.specs.Described.{part_name, component};
ghost use Rattle.arz_components.specs.Indexes.{found_in, finds};

use arz_json::{Json, Member, members_at};
use std::alloc::{AllocError, Global};
use std::collections::BTreeMap;

/// A part of the components (Arazzo 1.0.1, section 4.6.9).
#[derive(Clone, Copy, Debug, PartialEq, Eq)]
pub enum Part {
    Inputs,
    Parameters,
    SuccessActions,
    FailureActions,
}

impl Part {
    /// The name of the member that holds the part.
    pub fn name(self) -> &'static str
        ensures { result.now ≡ part_name self }
    {
        match self {
            Part::Inputs => "inputs",
            Part::Parameters => "parameters",
            Part::SuccessActions => "successActions",
            Part::FailureActions => "failureActions",
        }
    }
}

/// The components of a description by their names.
#[derive(Drop)]
pub struct Components<'a> {
    inputs: BTreeMap<&'a str, &'a Json>,
    parameters: BTreeMap<&'a str, &'a Json>,
    success_actions: BTreeMap<&'a str, &'a Json>,
    failure_actions: BTreeMap<&'a str, &'a Json>,
}

/// The members by their names.
fn index<'a>(
    alloc: Global,
    members: &'a [Member],
) -> Result<BTreeMap<&'a str, &'a Json>, AllocError>
    ensures { IfOk result (λ m. (q : List ℕ) → found_in m q ≡ member_named members.now q) }
{
    let mut map = BTreeMap::new(alloc);
    for k in (0..members.len()).rev() {
        let member = &members[k];
        map.insert(member.name.as_str(), &member.value)?;
    }
    Ok(map)
}

fn index_part<'a>(
    alloc: Global,
    root: &'a Json,
    part: Part,
) -> Result<BTreeMap<&'a str, &'a Json>, AllocError>
    ensures { IfOk result (λ m. (q : List ℕ) → found_in m q ≡ component root.now part q) }
{
    match root.get("components") {
        Some(components) => index(alloc, members_at(components, part.name())),
        None => Ok(BTreeMap::new(alloc)),
    }
}

impl<'a> Components<'a> {
    /// The components of a description, found by name in logarithmic time.
    pub fn of(alloc: Global, root: &'a Json) -> Result<Components<'a>, AllocError>
        ensures { IfOk result (λ c. (part : Part) (q : List ℕ) → finds c part q ≡ component root.now part q) }
    {
        let inputs = index_part(alloc, root, Part::Inputs)?;
        let parameters = index_part(alloc, root, Part::Parameters)?;
        let success_actions = index_part(alloc, root, Part::SuccessActions)?;
        let failure_actions = index_part(alloc, root, Part::FailureActions)?;
        Ok(Components {
            inputs,
            parameters,
            success_actions,
            failure_actions,
        })
    }

    /// The component of a part with this name.
    pub fn find(&self, part: Part, name: &str) -> Option<&'a Json>
        ensures { option_map (λ j. j.now) result ≡ finds self.now part name.now }
    {
        let map = match part {
            Part::Inputs => &self.inputs,
            Part::Parameters => &self.parameters,
            Part::SuccessActions => &self.success_actions,
            Part::FailureActions => &self.failure_actions,
        };
        map.get(name).copied()
    }
}
