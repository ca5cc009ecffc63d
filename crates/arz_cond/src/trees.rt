// Criteria as a description writes them (Arazzo 1.0.1, section 4.6.11).
ghost use Rattle.std.specs.Prelude.{◌≡◌, ◌≢◌, None, Some, IfOk, IfErr, IsSome, codes};
ghost use Rattle.std.specs.Option.{option_copied};
ghost use Rattle.arz_cond.specs.Criteria.{IsKind, IsRead, Refuses, criterion_at, text_named as text_with};
ghost use Rattle.arz_cond.specs.Outcomes.{can_be_read as can_be_read_as, tree_fault};
ghost use Rattle.arz_cond.specs.Parsing.{ToldAs};
ghost use Rattle.arz_cond.specs.declared.fault.TestFault.TheVariants as TestFault;

use crate::fault::TestFault;
use crate::test::Test;
use arz_json::{Json, text_at};
use std::alloc::{AllocError, Global};

fn text_named<'a>(tree: &'a Json, name: &str) -> Option<&'a str>
    ensures { option_copied result ≡ text_with name.now tree.now }
{
    tree.get(name)?.as_text()
}

// The type of a criterion, `simple` where none is written.
fn kind_of(tree: &Json) -> &str
    ensures { result.now ≡ (criterion_at tree.now).kind }
{
    text_named(tree, "type").unwrap_or("simple")
}

impl Test {
    /// The criterion that a tree is (Arazzo 1.0.1, section 4.6.11), of type `simple` where none is written. It is
    /// read as [`Test::read`] reads its texts.
    pub fn of(alloc: Global, tree: &Json) -> Result<Test, TestFault>
        requires kind { IsKind (criterion_at tree.now).kind }
        requires context { (criterion_at tree.now).kind ≢ codes "simple" → IsSome (criterion_at tree.now).context }
        ensures text { IfOk result (λ t. t ≡ criterion_at tree.now) }
        ensures reading { IfOk result IsRead }
        ensures fault { IfErr result (Refuses (criterion_at tree.now)) }
    {
        Test::read(
            alloc,
            kind_of(tree),
            text_at(tree, "condition"),
            text_named(tree, "context"),
        )
    }
}

/// Why a tree gives no criterion (Arazzo 1.0.1, section 4.6.11), or `None` where it gives one. Of another type than
/// `simple`, `regex` and `jsonpath`, and where a context is wanted that isn't there, nothing is said.
#[tactic(auto, using(crate::proofs::Functions::readable_kind, crate::proofs::Functions::readable_context, crate::proofs::Functions::unreadable_tree))]
pub fn fault_of(alloc: Global, tree: &Json) -> Result<Option<TestFault>, AllocError>
    ensures { IfOk result (λ fault. fault ≡ tree_fault tree.now) }
{
    if !can_be_read(tree) {
        return Ok(None);
    }
    if_fault(Test::of(alloc, tree))
}

// The fault of what was read, or none where it was.
fn if_fault(read: Result<Test, TestFault>) -> Result<Option<TestFault>, AllocError>
    ensures { IfOk result (ToldAs read) }
{
    match read {
        Ok(test) => Ok(none_of(test)),
        Err(fault) => unless_memory(fault),
    }
}

fn none_of(_test: Test) -> Option<TestFault>
    ensures { result ≡ None }
{
    None
}

fn unless_memory(fault: TestFault) -> Result<Option<TestFault>, AllocError>
    ensures { IfOk result (λ o. (o ≡ Some fault) × (fault ≢ TestFault.Memory)) }
{
    match fault {
        TestFault::Fraction => Ok(Some(TestFault::Fraction)),
        TestFault::BadExpression => Ok(Some(TestFault::BadExpression)),
        TestFault::BadCondition => Ok(Some(TestFault::BadCondition)),
        TestFault::BadPath(path) => Ok(Some(TestFault::BadPath(path))),
        TestFault::Memory => Err(AllocError),
    }
}

// Whether it is of a type that is read, with a context where one is wanted.
fn can_be_read(tree: &Json) -> bool
    ensures { result ≡ can_be_read_as (criterion_at tree.now) }
{
    let kind = kind_of(tree);
    kind == "simple"
        || ((kind == "regex" || kind == "jsonpath") && text_named(tree, "context").is_some())
}
