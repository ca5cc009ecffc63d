// Reading expressions from the left.
ghost use Rattle.std.specs.Prelude.{◌≡◌, IfOk, IfSome, Some, option_map};
ghost use Rattle.arz_expr.specs.Grammar.{Reads, takes_tail as has_tail};
ghost use Rattle.arz_expr.specs.Reading.{reading, base_at, request_at, response_at, step_at, workflow_at, source_at, word_at, name_at, tail_at, index_part_at, end_at, ending_at, alone_of};

use crate::names::{after, index, is_pointer, name};
use crate::syntax::{Base, Expr, Tail};
use arz_json::{Many, Text};
use std::alloc::{AllocError, Global};

impl Expr {
    /// The expression that a text is, by the grammar of runtime expressions (Arazzo 1.0.1, section 4.7),
    /// and `None` exactly where it is none. A text is at most one expression.
    pub fn read(alloc: Global, text: &str) -> Result<Option<Expr>, AllocError>
        ensures reads { IfOk result (λ r. IfSome r (λ e. Reads text.now e)) }
        ensures complete { (e : Expr) → Reads text.now e → IfOk result (λ r. r ≡ Some e) }
    {
        read_whole(alloc, text)
    }
}

#[tactic(auto, unfolding(crate::specs::Reading::reading))]
pub(crate) fn read_whole(alloc: Global, text: &str) -> Result<Option<Expr>, AllocError>
    ensures { IfOk result (λ r. r ≡ reading text.now) }
{
    let Some((base, rest)) = read_base(alloc, text)? else {
        return Ok(None);
    };
    if !takes_tail(&base) {
        return Ok(alone(alloc, base, rest));
    }
    let Some((tail, pointer)) = read_ending(alloc, rest)? else {
        return Ok(None);
    };
    Ok(Some(Expr {
        base,
        tail,
        pointer,
    }))
}

fn alone(alloc: Global, base: Base, rest: &str) -> Option<Expr>
    ensures { result ≡ alone_of base rest.now }
{
    if !rest.is_empty() {
        return None;
    }
    Some(Expr {
        base,
        tail: Many::new(alloc),
        pointer: None,
    })
}

fn takes_tail(base: &Base) -> bool
    ensures { result ≡ has_tail base.now }
{
    match base {
        Base::RequestBody
        | Base::ResponseBody
        | Base::Input(_)
        | Base::Output(_)
        | Base::StepOutput(_, _)
        | Base::WorkflowInput(_, _)
        | Base::WorkflowOutput(_, _) => true,
        Base::Url
        | Base::Method
        | Base::StatusCode
        | Base::RequestHeader(_)
        | Base::RequestQuery(_)
        | Base::RequestPath(_)
        | Base::ResponseHeader(_)
        | Base::SourceUrl(_)
        | Base::SourceName(_)
        | Base::SourceKind(_) => false,
    }
}

#[tactic(auto, unfolding(crate::specs::Reading::base_at))]
fn read_base(alloc: Global, text: &str) -> Result<Option<(Base, &str)>, AllocError>
    ensures { IfOk result (λ r. option_map (λ b. (b.0, b.1.now)) r ≡ base_at text.now) }
{
    if let Some(rest) = after(text, "$request.") {
        return read_request(alloc, rest);
    }
    if let Some(rest) = after(text, "$response.") {
        return read_response(alloc, rest);
    }
    if let Some(rest) = after(text, "$inputs.") {
        return Ok(read_name(alloc, rest)?.map(|(name, rest)| (Base::Input(name), rest)));
    }
    if let Some(rest) = after(text, "$outputs.") {
        return Ok(read_name(alloc, rest)?.map(|(name, rest)| (Base::Output(name), rest)));
    }
    if let Some(rest) = after(text, "$steps.") {
        return read_step_output(alloc, rest);
    }
    if let Some(rest) = after(text, "$workflows.") {
        return read_workflow(alloc, rest);
    }
    if let Some(rest) = after(text, "$sourceDescriptions.") {
        return read_source(alloc, rest);
    }
    Ok(read_word(text))
}

// A base without a name that stands for a part of the request or of the response.
#[tactic(auto, unfolding(crate::specs::Reading::word_at))]
fn read_word(text: &str) -> Option<(Base, &str)>
    ensures { option_map (λ b. (b.0, b.1.now)) result ≡ word_at text.now }
{
    if let Some(rest) = after(text, "$url") {
        return Some((Base::Url, rest));
    }
    if let Some(rest) = after(text, "$method") {
        return Some((Base::Method, rest));
    }
    let rest = after(text, "$statusCode")?;
    Some((Base::StatusCode, rest))
}

#[tactic(auto, unfolding(crate::specs::Reading::request_at))]
fn read_request(alloc: Global, text: &str) -> Result<Option<(Base, &str)>, AllocError>
    ensures { IfOk result (λ r. option_map (λ b. (b.0, b.1.now)) r ≡ request_at text.now) }
{
    if let Some(rest) = after(text, "header.") {
        return Ok(read_name(alloc, rest)?.map(|(name, rest)| (Base::RequestHeader(name), rest)));
    }
    if let Some(rest) = after(text, "query.") {
        return Ok(read_name(alloc, rest)?.map(|(name, rest)| (Base::RequestQuery(name), rest)));
    }
    if let Some(rest) = after(text, "path.") {
        return Ok(read_name(alloc, rest)?.map(|(name, rest)| (Base::RequestPath(name), rest)));
    }
    Ok(after(text, "body").map(|rest| (Base::RequestBody, rest)))
}

#[tactic(auto, unfolding(crate::specs::Reading::response_at))]
fn read_response(alloc: Global, text: &str) -> Result<Option<(Base, &str)>, AllocError>
    ensures { IfOk result (λ r. option_map (λ b. (b.0, b.1.now)) r ≡ response_at text.now) }
{
    if let Some(rest) = after(text, "header.") {
        return Ok(read_name(alloc, rest)?.map(|(name, rest)| (Base::ResponseHeader(name), rest)));
    }
    Ok(after(text, "body").map(|rest| (Base::ResponseBody, rest)))
}

#[tactic(auto, unfolding(crate::specs::Reading::step_at))]
fn read_step_output(alloc: Global, text: &str) -> Result<Option<(Base, &str)>, AllocError>
    ensures { IfOk result (λ r. option_map (λ b. (b.0, b.1.now)) r ≡ step_at text.now) }
{
    let Some((step, rest)) = read_name(alloc, text)? else {
        return Ok(None);
    };
    let Some(rest) = after(rest, ".outputs.") else {
        return Ok(None);
    };
    Ok(read_name(alloc, rest)?.map(|(name, rest)| (Base::StepOutput(step, name), rest)))
}

#[tactic(auto, unfolding(crate::specs::Reading::workflow_at))]
fn read_workflow(alloc: Global, text: &str) -> Result<Option<(Base, &str)>, AllocError>
    ensures { IfOk result (λ r. option_map (λ b. (b.0, b.1.now)) r ≡ workflow_at text.now) }
{
    let Some((workflow, rest)) = read_name(alloc, text)? else {
        return Ok(None);
    };
    if let Some(rest) = after(rest, ".inputs.") {
        return Ok(read_name(alloc, rest)?.map(|(name, rest)| (
            Base::WorkflowInput(workflow, name),
            rest,
        )));
    }
    let Some(rest) = after(rest, ".outputs.") else {
        return Ok(None);
    };
    Ok(read_name(alloc, rest)?.map(|(name, rest)| (Base::WorkflowOutput(workflow, name), rest)))
}

#[tactic(auto, unfolding(crate::specs::Reading::source_at))]
fn read_source(alloc: Global, text: &str) -> Result<Option<(Base, &str)>, AllocError>
    ensures { IfOk result (λ r. option_map (λ b. (b.0, b.1.now)) r ≡ source_at text.now) }
{
    let Some((name, rest)) = read_name(alloc, text)? else {
        return Ok(None);
    };
    if let Some(rest) = after(rest, ".url") {
        return Ok(Some((Base::SourceUrl(name), rest)));
    }
    if let Some(rest) = after(rest, ".name") {
        return Ok(Some((Base::SourceName(name), rest)));
    }
    Ok(after(rest, ".type").map(|rest| (Base::SourceKind(name), rest)))
}

// A name of its own, and what follows it.
fn read_name(alloc: Global, text: &str) -> Result<Option<(Text, &str)>, AllocError>
    ensures { IfOk result (λ r. option_map (λ n. (n.0, n.1.now)) r ≡ name_at text.now) }
{
    let Some((front, rest)) = name(text) else {
        return Ok(None);
    };
    Ok(Some((Text::from_str(alloc, front)?, rest)))
}

// The steps of a tail, and the pointer after them.
fn read_ending(alloc: Global, text: &str) -> Result<Option<(Many<Tail>, Option<Text>)>, AllocError>
    ensures { IfOk result (λ r. r ≡ ending_at text.now) }
{
    let mut tail = Many::new(alloc);
    let mut rest = text;
    'steps: while let Some((step, more)) = read_step(alloc, rest)? {
        tail.push(step)?;
        rest = more;
    }
    let Some(pointer) = read_end(alloc, rest)? else {
        return Ok(None);
    };
    Ok(Some((tail, pointer)))
}

#[tactic(auto, unfolding(crate::specs::Reading::tail_at))]
fn read_step(alloc: Global, text: &str) -> Result<Option<(Tail, &str)>, AllocError>
    ensures { IfOk result (λ r. option_map (λ t. (t.0, t.1.now)) r ≡ tail_at text.now) }
{
    if let Some(rest) = after(text, ".") {
        return Ok(read_name(alloc, rest)?.map(|(name, rest)| (Tail::Member(name), rest)));
    }
    let Some(rest) = after(text, "[") else {
        return Ok(None);
    };
    Ok(read_index(rest))
}

// An index, and what follows the bracket after it.
#[tactic(auto, unfolding(crate::specs::Reading::index_part_at))]
fn read_index(text: &str) -> Option<(Tail, &str)>
    ensures { option_map (λ t. (t.0, t.1.now)) result ≡ index_part_at text.now }
{
    let (digits, rest) = name(text)?;
    let rest = after(rest, "]")?;
    let at = index(digits)?;
    Some((Tail::Index(at), rest))
}

fn read_end(alloc: Global, text: &str) -> Result<Option<Option<Text>>, AllocError>
    ensures { IfOk result (λ r. r ≡ end_at text.now) }
{
    if text.is_empty() {
        return Ok(Some(None));
    }
    let Some(pointer) = after(text, "#") else {
        return Ok(None);
    };
    if !is_pointer(pointer) {
        return Ok(None);
    }
    Ok(Some(Some(Text::from_str(alloc, pointer)?)))
}
