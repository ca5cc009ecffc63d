// The tree of a bundle.
ghost use Rattle.std.specs.Prelude.{◌≡◌, ◌++◌, ◌∷◌, [], map, pos, IfOk, OnOk};
ghost use Rattle.arz_json.specs.declared.Json.TheVariants.{Int, Text as Words, Object as Pairs};
ghost use Rattle.arz_start.specs.StartTree.{named, delay_word as word_of_delay, server_of, description_first, limits_next, servers_next, sources_last, start_tree};

use crate::documents::documents;
use arz_flow::Bundle;
use arz_json::{Json, Many, Member, Members, NamedText, Text, copy};
use std::alloc::{AllocError, Global};

/// The tree of a bundle: an object of its documents, and of what its setup says of the run. It copies the documents.
pub fn to_tree(alloc: Global, bundle: &Bundle) -> Result<Json, AllocError>
    ensures { IfOk result (λ tree. tree ≡ start_tree bundle.now) }
{
    let mut members = Vec::with_capacity(alloc, 8)?;
    add_first(alloc, bundle, &mut members)?;
    add_limits(alloc, bundle, &mut members)?;
    add_servers(alloc, bundle, &mut members)?;
    add_last(alloc, bundle, &mut members)?;
    Ok(Json::Object(Many::from_std(members)))
}

fn add_first(alloc: Global, bundle: &Bundle, members: &mut Vec<Member>) -> Result<(), AllocError>
    ensures { OnOk result (members.new.items ≡ members.old.items ++ description_first bundle.now) }
{
    let delay = text_tree(alloc, delay_word(bundle.skip_delay))?;
    add(alloc, "arazzo", copy(alloc, &bundle.arazzo)?, members)?;
    add(alloc, "delay", delay, members)?;
    add(alloc, "inputs", inputs(alloc, &bundle.inputs)?, members)
}

fn add_limits(alloc: Global, bundle: &Bundle, members: &mut Vec<Member>) -> Result<(), AllocError>
    ensures { OnOk result (members.new.items ≡ members.old.items ++ limits_next bundle.now) }
{
    add(alloc, "journalLimit", number(bundle.journal_limit), members)?;
    add(
        alloc,
        "maxAttempts",
        number(u64::from(bundle.max_attempts)),
        members,
    )?;
    Ok(())
}

fn add_servers(alloc: Global, bundle: &Bundle, members: &mut Vec<Member>) -> Result<(), AllocError>
    ensures { OnOk result (members.new.items ≡ members.old.items ++ servers_next bundle.now) }
{
    let servers = servers(alloc, bundle.servers.as_slice())?;
    add(alloc, "servers", Json::Object(servers), members)
}

fn add_last(alloc: Global, bundle: &Bundle, members: &mut Vec<Member>) -> Result<(), AllocError>
    ensures { OnOk result (members.new.items ≡ members.old.items ++ sources_last bundle.now) }
{
    let documents = documents(alloc, bundle.sources.as_slice())?;
    let workflow = text_tree(alloc, bundle.workflow.as_str())?;
    add(alloc, "sources", Json::Object(documents), members)?;
    add(alloc, "workflow", workflow, members)
}

fn add(alloc: Global, name: &str, value: Json, members: &mut Vec<Member>) -> Result<(), AllocError>
    ensures { OnOk result (members.new.items ≡ members.old.items ++ named name.now value ∷ []) }
{
    let name = Text::from_str(alloc, name)?;
    members.push(Member { name, value })?;
    Ok(())
}

fn number(number: u64) -> Json
    ensures { result ≡ Int (pos number) }
{
    Json::Int(i128::from(number))
}

fn text_tree(alloc: Global, text: &str) -> Result<Json, AllocError>
    ensures { IfOk result (λ j. j ≡ Words text.now) }
{
    Ok(Json::Text(Text::from_str(alloc, text)?))
}

/// The word of a setup that says whether waits are skipped.
pub(crate) fn delay_word(skips: bool) -> &'static str
    ensures { result.now ≡ word_of_delay skips }
{
    if skips { "skip" } else { "stop" }
}

fn inputs(alloc: Global, members: &Members) -> Result<Json, AllocError>
    ensures { IfOk result (λ j. j ≡ Pairs members.now) }
{
    let mut copies = Vec::with_capacity(alloc, members.len())?;
    for member in members.as_slice() {
        let name = member.name.copy(alloc)?;
        let value = copy(alloc, &member.value)?;
        copies.push(Member { name, value })?;
    }
    Ok(Json::Object(Many::from_std(copies)))
}

fn servers(alloc: Global, servers: &[NamedText]) -> Result<Members, AllocError>
    ensures { IfOk result (λ ms. ms ≡ map server_of servers.now) }
{
    let mut members = Vec::with_capacity(alloc, servers.len())?;
    for server in servers {
        members.push(Member {
            name: server.name.copy(alloc)?,
            value: text_tree(alloc, server.text.as_str())?,
        })?;
    }
    Ok(Many::from_std(members))
}
