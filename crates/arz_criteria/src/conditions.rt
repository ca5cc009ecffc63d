// Conditions that can't be read.
ghost use Rattle.std.specs.Prelude.{◌≡◌, true, IfOk};
ghost use Rattle.arz_json.specs.Tree.{has_form};
ghost use Rattle.arz_rules.specs.Place.{least, tokens_in};
ghost use Rattle.arz_criteria.specs.Rules.{condition_if as condition_where, fraction_conditions, bad_conditions, bad_paths};
ghost use Rattle.arz_criteria.specs.Taken.{takes};

use arz_cond::{TestFault, fault_of};
use arz_json::{Json, Place};
use arz_query::PathFault;
use arz_rules::{Check, below_name, root_place};
use arz_sites::first_in_criteria;
use std::alloc::{AllocError, Global};

/// Which faults of a criterion are looked for.
#[derive(Clone, Copy, Debug, PartialEq, Eq)]
pub(crate) enum Fault {
    /// A number with a fraction or an exponent, in a condition or in a query.
    Fraction,
    /// No condition.
    Condition,
    /// No query, for another reason than a fraction.
    Path,
}

impl Fault {
    fn takes(self, fault: TestFault) -> bool
        ensures { result ≡ takes self fault }
    {
        match fault {
            TestFault::Fraction | TestFault::BadPath(PathFault::Fraction(_)) => {
                self == Fault::Fraction
            }
            TestFault::BadCondition => self == Fault::Condition,
            TestFault::BadPath(_) => self == Fault::Path,
            TestFault::BadExpression | TestFault::Memory => false,
        }
    }
}

/// The condition of a criterion, where it is to be told.
pub(crate) fn condition_if(alloc: Global, fails: bool) -> Result<Option<Place>, AllocError>
    ensures { IfOk result (λ p. tokens_in p ≡ least (condition_where fails)) }
{
    if !fails {
        return Ok(None);
    }
    below_name(alloc, "condition", Some(root_place(alloc)))
}

/// The check that a criterion hasn't such a fault.
#[derive(Clone, Copy, Debug)]
struct Faultless {
    fault: Fault,
}

impl Check for Faultless {
    ghost use Rattle.arz_criteria.specs.Rules.{faulty};
    ghost use Rattle.arz_criteria.specs.Taken.{takes};

    ghost places = { λ c. faulty (takes c.fault) };

    fn first(&self, alloc: Global, tree: &Json) -> Result<Option<Place>, AllocError> {
        let fails = match fault_of(alloc, tree)? {
            Some(fault) => self.fault.takes(fault),
            None => false,
        };
        condition_if(alloc, fails)
    }
}

/// The least place of a condition or query with a number that has a fraction or an exponent.
pub fn first_fraction_condition(alloc: Global, root: &Json) -> Result<Option<Place>, AllocError>
    requires { has_form root.now ≡ true }
    ensures { IfOk result (λ p. tokens_in p ≡ least (fraction_conditions root.now)) }
{
    first_in_criteria(
        alloc,
        &Faultless {
            fault: Fault::Fraction,
        },
        root,
    )
}

/// The least place of a simple condition that can't be read (section 4.6.11.1).
pub fn first_bad_condition(alloc: Global, root: &Json) -> Result<Option<Place>, AllocError>
    requires { has_form root.now ≡ true }
    ensures { IfOk result (λ p. tokens_in p ≡ least (bad_conditions root.now)) }
{
    first_in_criteria(
        alloc,
        &Faultless {
            fault: Fault::Condition,
        },
        root,
    )
}

/// The least place of the condition of a jsonpath criterion that is no query (RFC 9535).
pub fn first_bad_path(alloc: Global, root: &Json) -> Result<Option<Place>, AllocError>
    requires { has_form root.now ≡ true }
    ensures { IfOk result (λ p. tokens_in p ≡ least (bad_paths root.now)) }
{
    first_in_criteria(alloc, &Faultless { fault: Fault::Path }, root)
}
