// What the expressions of a run speak of, and the outputs that they give.
ghost use Rattle.std.specs.Prelude.{IfOk, All};
ghost use Rattle.std.specs.Option.{ForSome, option_copied};
ghost use Rattle.arz_scope.specs.Remembering.{IsShallowMemory, inner_in};
ghost use Rattle.arz_scope.specs.Shallow.{AreShallow, HaveShallow, IsShallow, SendsShallow};

use arz_cases::{Case, CaseFault, Outcome, brief, flag_word, text_of};
use arz_expr::{Expr, value};
use arz_flow::{Ask, End, Fact, ask_text, end_line};
use arz_json::{Bytes, Json, Location, Many, Members, Text};
use arz_scope::{Exchange, Remembered, RunScope, Tried, any_opaque, outputs as outputs_of};
use arz_world::{Header, Reply, Request, Sent, Server};
use std::alloc::{AllocError, Global};

/// What the expression `text` stands for in a run with a `description`, with `inputs`, after `facts`,
/// and with an exchange where there is a `request`.
pub fn scope(alloc: Global, case: &Case<'_>) -> Result<Outcome, CaseFault> {
    match case.member("request") {
        None => seen(alloc, case, Tried::Nothing),
        Some(sent) => after_exchange(alloc, case, &case.inner(sent)),
    }
}

fn after_exchange(alloc: Global, case: &Case<'_>, sent: &Case<'_>) -> Result<Outcome, CaseFault> {
    let request = request(alloc, sent)?;
    let reply = reply(alloc, case)?;
    seen_after(alloc, case, &request, &reply)
}

fn seen_after(
    alloc: Global,
    case: &Case<'_>,
    request: &Request,
    reply: &Reply,
) -> Result<Outcome, CaseFault>
    requires { SendsShallow request.now }
{
    let exchange = Exchange::new(alloc, request, reply)?;
    seen(alloc, case, Tried::Exchange(&exchange))
}

fn seen(alloc: Global, case: &Case<'_>, tried: Tried<'_>) -> Result<Outcome, CaseFault>
    requires { ForSome (inner_in tried) AreShallow }
{
    let description = case.json(alloc, "description")?;
    let inputs = members(alloc, case, "inputs")?;
    let facts = facts(alloc, case)?;
    let inputs = inputs.as_slice();
    let remembered = remembered(facts.as_slice());
    let scope = RunScope::new(alloc, &description, inputs, remembered, tried)?;
    found(alloc, case, &scope)
}

// The last fact comes after the others.
fn remembered(facts: &[Fact]) -> Remembered<'_>
    requires { HaveShallow facts.now }
    ensures { IsShallowMemory result }
{
    match facts {
        [] => after(facts, None),
        [earlier @ .., last] => after(earlier, Some(last)),
    }
}

fn after<'a>(facts: &'a [Fact], fact: Option<&'a Fact>) -> Remembered<'a>
    requires facts { HaveShallow facts.now }
    requires fact { ForSome (option_copied fact) (λ f. AreShallow f.outputs) }
    ensures { IsShallowMemory result }
{
    Remembered {
        facts,
        fact,
        done: &[],
        newly: &[],
    }
}

fn found(alloc: Global, case: &Case<'_>, scope: &RunScope<'_>) -> Result<Outcome, CaseFault> {
    let text = case.text(alloc, "text")?;
    let Some(expression) = Expr::read(alloc, text.as_str())? else {
        return Err(CaseFault::Malformed("an expression"));
    };
    match value(&expression, scope) {
        Some(found) => Ok(Outcome::text(text_of(alloc, found)?)),
        None => Ok(Outcome::words(alloc, "none")?),
    }
}

/// The outputs that the step or workflow `listed` gives in a run with `inputs`, a line each, and
/// whether any of them holds an Opaque.
pub fn outputs(alloc: Global, case: &Case<'_>) -> Result<Outcome, CaseFault> {
    let listed = case.json(alloc, "listed")?;
    let inputs = members(alloc, case, "inputs")?;
    let nothing = after(&[], None);
    let scope = RunScope::new(
        alloc,
        &Json::Null,
        inputs.as_slice(),
        nothing,
        Tried::Nothing,
    )?;
    let given = outputs_of(alloc, &listed, &scope)?;
    let mut lines = String::new(alloc);
    for output in given.as_slice() {
        let value = brief(alloc, &output.value)?;
        let line = format!(in alloc; "{} {value}\n", output.name.as_str())?;
        lines.push_str(line.as_str())?;
    }
    lines.push_str(flag_word(any_opaque(given.as_slice())))?;
    Ok(Outcome::text(lines))
}

/// The line of an ask to wait `seconds`, and that of an execution which ends at it as its ask `number`.
pub fn wait(alloc: Global, case: &Case<'_>) -> Result<Outcome, CaseFault> {
    let seconds = case.count("seconds")?;
    let number = case.count("number")?;
    let mut text = ask_line(alloc, seconds)?;
    text.push(b'\n')?;
    text.extend_from_slice(out_line(alloc, seconds, number)?.as_slice())?;
    Ok(Outcome { text, status: None })
}

fn ask_line(alloc: Global, seconds: u32) -> Result<Vec<u8>, AllocError> {
    let ask = ask_text(alloc, &Ask::Wait(seconds))?;
    Ok(ask.into_std().into_bytes())
}

fn out_line(alloc: Global, seconds: u32, number: u32) -> Result<Bytes, AllocError> {
    end_line(alloc, &End::Out(Ask::Wait(seconds)), number)
}

pub(crate) fn text(alloc: Global, text: &str) -> Result<Text, AllocError> {
    Ok(Text::from_std(String::from_str(alloc, text)?))
}

fn members(alloc: Global, case: &Case<'_>, name: &'static str) -> Result<Members, CaseFault>
    ensures { IfOk result AreShallow }
{
    match case.json(alloc, name)? {
        Json::Object(members) => Ok(members),
        _ => Err(CaseFault::Malformed(name)),
    }
}

fn facts(alloc: Global, case: &Case<'_>) -> Result<Vec<Fact>, CaseFault>
    ensures { IfOk result (λ facts. HaveShallow facts.items) }
{
    let mut facts = Vec::new(alloc);
    for item in case.items("facts") {
        let fact = fact(alloc, &case.inner(item))?;
        facts.push(fact)?;
    }
    Ok(facts)
}

fn fact(alloc: Global, item: &Case<'_>) -> Result<Fact, CaseFault>
    ensures { IfOk result (λ f. AreShallow f.outputs) }
{
    let step = text(alloc, item.word("step"))?;
    let outputs = members(alloc, item, "outputs")?;
    Ok(Fact { step, outputs })
}

fn request(alloc: Global, item: &Case<'_>) -> Result<Request, CaseFault>
    ensures { IfOk result SendsShallow }
{
    let method = text(alloc, "GET")?;
    let host = text(alloc, item.word("host"))?;
    let base = text(alloc, "")?;
    let port = u16::try_from(item.count("port")?).map_err(|_| CaseFault::Malformed("port"))?;
    let server = Server { host, port, base };
    let target = text(alloc, item.word("target"))?;
    let values = sent_values(alloc, item)?;
    let payload = item.json(alloc, "payload")?;
    Ok(Request {
        method,
        server,
        target,
        headers: Many::new(alloc),
        body: None,
        values: Many::from_std(values),
        payload: Some(payload),
    })
}

fn sent_values(alloc: Global, item: &Case<'_>) -> Result<Vec<Sent>, CaseFault>
    ensures { IfOk result (λ values. All (λ s. IsShallow s.value) values.items) }
{
    let mut values = Vec::new(alloc);
    for value in item.items("values") {
        let sent = sent(alloc, &item.inner(value))?;
        values.push(sent)?;
    }
    Ok(values)
}

fn sent(alloc: Global, item: &Case<'_>) -> Result<Sent, CaseFault>
    ensures { IfOk result (λ s. IsShallow s.value) }
{
    let place = match item.word("in") {
        "path" => Location::Path,
        "query" => Location::Query,
        "header" => Location::Header,
        _ => return Err(CaseFault::Malformed("in")),
    };
    let name = text(alloc, item.word("name"))?;
    let value = item.json(alloc, "value")?;
    Ok(Sent { place, name, value })
}

/// The reply that a case describes by its `code`, `headers` and `body`.
pub(crate) fn reply(alloc: Global, case: &Case<'_>) -> Result<Reply, CaseFault> {
    let status = u16::try_from(case.count("code")?).map_err(|_| CaseFault::Malformed("code"))?;
    let mut headers = Vec::new(alloc);
    for item in case.items("headers") {
        let line = case.inner(item);
        let name = text(alloc, line.word("name"))?;
        let value = Bytes::from_std(line.bytes(alloc, "value")?);
        headers.push(Header { name, value })?;
    }
    Ok(Reply {
        status,
        headers: Many::from_std(headers),
        body: Bytes::from_std(case.bytes(alloc, "body")?),
    })
}
