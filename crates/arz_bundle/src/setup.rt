// What a setup says of a run.
ghost use Rattle.std.specs.Prelude.{◌≡◌, codes, option_and_then, IfOk};
ghost use Rattle.arz_json.specs.Look.{text_in, int_in, member_in};
ghost use Rattle.arz_bundle.specs.Setup.{path_given as given_path, path_of_source, first_text as text_in_first, workflow_run as run_workflow, number_to as to_limit, number_at as number_under, max_attempts as most_attempts, journal_limit as limit_of_journal, skips_delay as skips, server_of, servers_of};
ghost use Rattle.std.specs.Option.{option_copied};

use arz_json::{Json, Many, Member, NamedText, Text, items_at, members_at, text_at};
use std::alloc::{AllocError, Global};

/// The path at which a source is read: the one that the setup gives, or else the source's own `url`.
pub(crate) fn source_path<'a>(setup: &'a Json, source: &'a Json) -> &'a str
    ensures { result.now ≡ path_of_source setup.now source.now }
{
    match path_given(setup, text_at(source, "name")) {
        Some(path) => path,
        None => text_at(source, "url"),
    }
}

fn path_given<'a>(setup: &'a Json, name: &str) -> Option<&'a str>
    ensures { option_copied result ≡ given_path setup.now name.now }
{
    setup.get("sources")?.get(name)?.as_text()
}

/// The workflowId of the workflow that is run: the one that the setup names, or else the description's
/// first.
pub(crate) fn workflow_run<'a>(setup: &'a Json, description: &'a Json) -> &'a str
    ensures { result.now ≡ run_workflow setup.now description.now }
{
    match named_workflow(setup) {
        Some(workflow) => workflow,
        None => first_text(items_at(description, "workflows"), "workflowId"),
    }
}

fn named_workflow(setup: &Json) -> Option<&str>
    ensures { option_copied result ≡ option_and_then text_in (member_in (codes "workflow") setup.now) }
{
    setup.get("workflow")?.as_text()
}

// The text under a name in the first of these, or the empty text.
fn first_text<'a>(items: &'a [Json], name: &str) -> &'a str
    ensures { result.now ≡ text_in_first name.now items.now }
{
    match items {
        [] => "",
        [first, ..] => text_at(first, name),
    }
}

/// How many requests may be sent: `maxAttempts`, or 1,000.
pub(crate) fn max_attempts(setup: &Json) -> u32
    ensures { result ≡ most_attempts setup.now }
{
    number_at(setup, "maxAttempts", 10_000, 1_000)
}

/// How many bytes the journal may have: `journalLimit`, or 1,073,741,824.
pub(crate) fn journal_limit(setup: &Json) -> u64
    ensures { result ≡ limit_of_journal setup.now }
{
    u64::from(number_at(setup, "journalLimit", 1_073_741_824, 1_073_741_824))
}

/// Whether waits are skipped.
pub(crate) fn skips_delay(setup: &Json) -> bool
    ensures { result ≡ skips setup.now }
{
    text_at(setup, "delay") == "skip"
}

// A number of the setup that doesn't pass its limit, or what counts without it.
fn number_at(setup: &Json, name: &str, limit: u32, without: u32) -> u32
    ensures { result ≡ number_under name.now limit without setup.now }
{
    match int_at(setup, name) {
        Some(n) => number_to(limit, n).unwrap_or(without),
        None => without,
    }
}

fn int_at(setup: &Json, name: &str) -> Option<i128>
    ensures { result ≡ option_and_then int_in (member_in name.now setup.now) }
{
    setup.get(name)?.as_int()
}

fn number_to(limit: u32, n: i128) -> Option<u32>
    ensures { result ≡ to_limit limit n }
{
    if 0 <= n && n <= i128::from(limit) {
        Some(n as u32)
    } else {
        None
    }
}

/// The URLs of servers that the setup gives, each under the name of its source.
pub(crate) fn read_servers(alloc: Global, setup: &Json) -> Result<Many<NamedText>, AllocError>
    ensures { IfOk result (λ servers. servers ≡ servers_of setup.now) }
{
    let members = members_at(setup, "servers");
    let mut servers = Vec::with_capacity(alloc, members.len())?;
    for member in members {
        servers.push(read_server(alloc, member)?)?;
    }
    Ok(Many::from_std(servers))
}

fn read_server(alloc: Global, member: &Member) -> Result<NamedText, AllocError>
    ensures { IfOk result (λ server. server ≡ server_of member.now) }
{
    let name = member.name.copy(alloc)?;
    let text = Text::from_str(alloc, member.value.as_text().unwrap_or(""))?;
    Ok(NamedText { name, text })
}
