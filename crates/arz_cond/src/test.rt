// A criterion, which contracts see as its texts.
ghost use Rattle.std.specs.Prelude.{◌≡◌, ◌≢◌, IfOk, IfErr, IsSome, codes};
ghost use Rattle.std.specs.Option.{option_copied};
ghost use Rattle.arz_cond.specs.Criteria.{IsKind, IsRead, Refuses, Spells, kind_of};

use crate::fault::TestFault;
use crate::parsing::parse;
use crate::term::Term;
use arz_expr::Expr;
use arz_json::Text;
use arz_query::Query;
use std::alloc::{AllocError, Global};
use std::marker::Model;

/// What the texts of a criterion spell (Arazzo 1.0.1, section 4.6.11).
#[derive(Debug, Drop)]
pub(crate) enum Parsed {
    /// A simple condition.
    Simple(Term),
    /// The context in whose value the condition, a pattern, is searched for.
    Regex(Expr),
    /// The query that is to select a place, and the context in whose value it does.
    Path(Query, Expr),
}

/// A criterion (Arazzo 1.0.1, section 4.6.11), which contracts see as the texts that were read: its type, its
/// condition and its context. What they spell is kept.
#[derive(Debug, Drop)]
pub struct Test {
    condition: Text,
    context: Option<Text>,
    parsed: Parsed,
}

impl Model for Test {
    ghost use Rattle.arz_cond.specs.Criteria.{Criterion, kind_of, Spells};

    ghost Value = { Criterion };

    ghost view = { λ t. record { kind = kind_of t.parsed; condition = t.condition; context = t.context } };

    ghost invariant = { λ t. Spells (record { kind = kind_of t.parsed; condition = t.condition; context = t.context }) t.parsed };
}

fn copied(alloc: Global, text: Option<&str>) -> Result<Option<Text>, AllocError>
    ensures { IfOk result (λ t. t ≡ option_copied text.entry) }
{
    match text {
        Some(text) => Ok(Some(Text::from_str(alloc, text)?)),
        None => Ok(None),
    }
}

// The criterion of texts that spell that.
fn made(condition: Text, context: Option<Text>, parsed: Parsed) -> Test
    requires { Spells (record { kind = kind_of parsed; condition = condition; context = context }) parsed }
    ensures { result ≡ record { kind = kind_of parsed; condition = condition; context = context } }
{
    Test {
        condition,
        context,
        parsed,
    }
}

impl Test {
    /// The criterion that texts are (Arazzo 1.0.1, section 4.6.11): `kind` is its type, `simple`, `regex` or
    /// `jsonpath`. The context of a simple criterion is kept and passed over. The pattern of a regex criterion
    /// isn't looked into.
    ///
    /// `Fraction` comes exactly where a simple condition has no reading, and has one where a literal may also
    /// be a number of RFC 8259 with a fraction or an exponent; `BadCondition` where it has none either way.
    /// `BadExpression` comes exactly where the context of another criterion is no expression (4.7), and
    /// `BadPath` exactly where it is one, and the condition of a jsonpath criterion is no query (RFC 9535).
    pub fn read(
        alloc: Global,
        kind: &str,
        condition: &str,
        context: Option<&str>,
    ) -> Result<Test, TestFault>
        requires kind { IsKind kind.now }
        requires context { kind.now ≢ codes "simple" → IsSome context }
        ensures text { IfOk result (λ t. t ≡ record { kind = kind.now; condition = condition.now; context = option_copied context.entry }) }
        ensures reading { IfOk result IsRead }
        ensures fault { IfErr result (Refuses (record { kind = kind.now; condition = condition.now; context = option_copied context.entry })) }
    {
        let text = Text::from_str(alloc, condition)?;
        let told = copied(alloc, context)?;
        let parsed = parse(alloc, kind, condition, context)?;
        Ok(made(text, told, parsed))
    }

    /// What the texts spell.
    pub(crate) fn parsed(&self) -> &Parsed
        ensures kind { self.now.kind ≡ kind_of result.now }
        ensures spells { Spells self.now result.now }
    {
        &self.parsed
    }

    /// The condition's text.
    pub(crate) fn condition(&self) -> &str
        ensures { result.now ≡ self.now.condition }
    {
        self.condition.as_str()
    }
}
