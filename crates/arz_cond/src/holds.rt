// Whether a criterion holds.
ghost use Rattle.std.specs.Prelude.{◌≡◌, ◌≢◌, List, IfOk, IsErrOf, codes, string_bytes};
ghost use Rattle.std.specs.Option.{option_copied};
ghost use Rattle.std.specs.Fmt.{signed_decimal};
ghost use Rattle.arz_query.specs.Answers.{Spells};
ghost use Rattle.arz_query.specs.declared.query.Segment.{Segment};
ghost use Rattle.arz_path.specs.Selected.{answered};
ghost use Rattle.arz_path.specs.Results.{Asked};
ghost use Rattle.arz_expr.specs.Filling.{flag_text};
ghost use Rattle.arz_cond.specs.Holding.{Answers, SaysOf, is_found as is_found_in, is_selected};
ghost use Rattle.arz_cond.specs.Seen.{worth_seen, IsPlain};
ghost use Rattle.arz_cond.specs.Criteria.{kind_of};
ghost use Rattle.arz_cond.specs.declared.cause.CondFault.TheVariants as CondFault;

use crate::cause::CondFault;
use crate::evaluate::value_of;
use crate::test::{Parsed, Test};
use crate::values::{Worth, is_true, worth_of};
use arz_expr::{Scope, value};
use arz_json::Json;
use arz_path::any;
use arz_query::Query;
use arz_rx::Patterns;
use std::alloc::{AllocError, Global};

fn ask<P: Patterns>(pattern: &str, text: &str, rx: &mut P) -> Result<bool, CondFault>
    ensures gives { Answers result (answered ((P.patterns rx.old).told pattern.now text.now)) (P.patterns rx.old) (P.patterns rx.new) }
    ensures asked { Asked (P.patterns rx.old) (P.patterns rx.new) }
{
    match rx.search(pattern, text)? {
        Some(found) => Ok(found),
        None => Ok(false),
    }
}

fn decimal(alloc: Global, n: i128) -> Result<String, AllocError>
    ensures { IfOk result (λ t. string_bytes t ≡ signed_decimal n) }
{
    format!(in alloc; "{n}")
}

fn word_of(flag: bool) -> &'static str
    ensures { result.now ≡ flag_text flag }
{
    if flag { "true" } else { "false" }
}

/// Whether a pattern is found in a value.
fn is_found<P: Patterns>(
    alloc: Global,
    pattern: &str,
    worth: Worth,
    rx: &mut P,
) -> Result<bool, CondFault>
    requires { IsPlain worth }
    ensures gives { Answers result (is_found_in (P.patterns rx.old).told pattern.now (worth_seen worth.entry)) (P.patterns rx.old) (P.patterns rx.new) }
    ensures asked { Asked (P.patterns rx.old) (P.patterns rx.new) }
{
    match worth {
        Worth::Null => ask(pattern, "null", rx),
        Worth::Flag(b) => ask(pattern, word_of(b), rx),
        Worth::Int(n) => ask(pattern, decimal(alloc, n)?.as_str(), rx),
        Worth::Text(text) => ask(pattern, text, rx),
        Worth::Tree(_) => Ok(false),
        Worth::Absent => Ok(false),
        Worth::Opaque => Ok(false),
    }
}

/// Whether a query selects a place in a value, where there is one.
fn selects<P: Patterns>(
    alloc: Global,
    query: &Query,
    value: Option<&Json>,
    rx: &mut P,
) -> Result<bool, CondFault>
    ensures gives { (vs : List Segment) → Spells query.now vs
        → Answers result (is_selected vs (P.patterns rx.old) (option_copied value.entry)) (P.patterns rx.old) (P.patterns rx.new) }
    ensures asked { Asked (P.patterns rx.old) (P.patterns rx.new) }
{
    match value {
        Some(root) => Ok(any(alloc, query, root, rx)?),
        None => Ok(false),
    }
}

fn parsed_holds<S: Scope, P: Patterns>(
    alloc: Global,
    parsed: &Parsed,
    condition: &str,
    scope: &S,
    rx: &mut P,
) -> Result<bool, CondFault>
    ensures says { SaysOf parsed.now condition.now (S.found scope.now) result (P.patterns rx.old) (P.patterns rx.new) }
    ensures simple { IsErrOf result CondFault.Pattern → kind_of parsed.now ≢ codes "simple" }
    ensures asked { Asked (P.patterns rx.old) (P.patterns rx.new) }
{
    match parsed {
        Parsed::Simple(term) => {
            let worth = value_of(term, alloc, scope)?;
            Ok(is_true(worth))
        }
        Parsed::Regex(context) => {
            let worth = worth_of(value(context, scope));
            is_found(alloc, condition, worth, rx)
        }
        Parsed::Path(query, context) => selects(alloc, query, value(context, scope), rx),
    }
}

impl Test {
    ghost use Rattle.arz_cond.specs.Holding.{Says};

    /// Whether the criterion holds (Arazzo 1.0.1, section 4.6.11), where `scope` gives the values of expressions
    /// and `rx` searches for patterns; nothing is said where a pattern is needed of which nothing is told.
    ///
    /// A simple criterion holds where its value is `true`, a regex criterion where its condition is found in the
    /// context's value, and a jsonpath criterion where it selects at least one place in that value.
    ///
    /// `TooWide` comes where a list of places of a jsonpath criterion has over 1,000,000, as `arz_path::any` has it;
    /// `Pattern` only where the count of patterns too big has risen, and never of a simple criterion.
    pub fn holds<S: Scope, P: Patterns>(
        &self,
        alloc: Global,
        scope: &S,
        rx: &mut P,
    ) -> Result<bool, CondFault>
        ensures says { Says self.now (S.found scope.now) result (P.patterns rx.old) (P.patterns rx.new) }
        ensures simple { IsErrOf result CondFault.Pattern → self.now.kind ≢ codes "simple" }
        ensures asked { Asked (P.patterns rx.old) (P.patterns rx.new) }
    {
        parsed_holds(alloc, self.parsed(), self.condition(), scope, rx)
    }
}
