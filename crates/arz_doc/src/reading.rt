// Reading a description.
ghost use Rattle.std.specs.Prelude.{◌≡◌, ℕ, Bool, codes, Result, Ok};
ghost use Rattle.arz_json.specs.Answer.{Gives};
ghost use Rattle.arz_json.specs.Tree.{IsWellFormed};
ghost use Rattle.arz_json.specs.declared.tree.Refusal.{Refusal};
ghost use Rattle.arz_rules.specs.Phases.{cause, phase};
ghost use Rattle.arz_description.specs.Described.{description_of};
ghost use Rattle.arz_description.specs.declared.parts.Description.{Description as Parts};
ghost use Rattle.arz_doc.specs.Cycles.{TellsCycles};
ghost use Rattle.arz_doc.specs.Order.{rules as rules_of};

use crate::order::check;
use arz_description::{Description, described};
use arz_json::Json;
use arz_rules::RuleFault;
use std::alloc::Global;

/// The description that a tree is (Arazzo 1.0.1, section 4.6.1), with components in the place of the reusable objects
/// that refer to them.
///
/// `Refused` comes exactly where a rule fails that a description keeps by itself: it tells the least rule, at its least
/// place, under the label `arazzo`.
pub fn read(alloc: Global, root: &Json) -> Result<Description, RuleFault>
    requires { IsWellFormed root.now }
    ensures { (is_cyclic : ℕ → Bool) × TellsCycles root.now is_cyclic × (let meant : Result Parts Refusal = phase (codes "arazzo") (rules_of is_cyclic root.now) (Ok (description_of root.now)) in Gives (λ d. d) cause result meant) }
{
    check(alloc, root)?;
    let description = described(alloc, root)?;
    Ok(description)
}
