// How long a bundle's tree is in its wire form.
ghost use Rattle.std.specs.Prelude.{◌≡◌, ◌+◌, ℕ, pos, length, map, IfOk};
ghost use Rattle.arz_json.specs.declared.Json.TheVariants.{Int, Text as Words, Object as Pairs};
ghost use Rattle.arz_wire.specs.Spelling.{spelling, counted, member_spellings};
ghost use Rattle.arz_start.specs.Lengths.{Measures};
ghost use Rattle.arz_start.specs.StartTree.{server_of, seen_entry, seen_member, documents as documents_of, description_first, limits_next, servers_next, sources_last, start_tree};

use crate::documents::{ByName, by_name};
use crate::start_tree::delay_word;
use arz_flow::Bundle;
use arz_json::{Members, Named, NamedText};
use arz_wire::{number_length, tree_length};
use std::alloc::{AllocError, Global};

/// How many bytes the wire form of a bundle's tree has, or None where they are 2^64 or more. It copies no document; it
/// takes memory for the names of the source documents.
pub fn start_length(alloc: Global, bundle: &Bundle) -> Result<Option<u64>, AllocError>
    ensures { IfOk result (λ n. Measures n (length (spelling (start_tree bundle.now)))) }
{
    let documents = documents_length(alloc, bundle.sources.as_slice())?;
    Ok(length_with(bundle, documents))
}

fn length_with(bundle: &Bundle, documents: Option<u64>) -> Option<u64>
    ensures { Measures documents (length (spelling (Pairs (documents_of bundle.now.sources)))) → Measures result (length (spelling (start_tree bundle.now))) }
{
    let begun = Some(1 + number_length(8));
    let first = sum(begun, first_length(bundle));
    let limits = sum(first, limits_length(bundle));
    let servers = sum(limits, servers_member(bundle));
    sum(servers, last_length(bundle, documents))
}

fn first_length(bundle: &Bundle) -> Option<u64>
    ensures { Measures result (length (member_spellings (description_first bundle.now))) }
{
    let description = member_length("arazzo", tree_length(&bundle.arazzo));
    let delay = member_length("delay", text_length(delay_word(bundle.skip_delay)));
    let inputs = member_length("inputs", members_length(&bundle.inputs));
    sum(sum(description, delay), inputs)
}

fn limits_length(bundle: &Bundle) -> Option<u64>
    ensures { Measures result (length (member_spellings (limits_next bundle.now))) }
{
    let journal = member_length("journalLimit", Some(integer_length(bundle.journal_limit)));
    let attempts = integer_length(u64::from(bundle.max_attempts));
    sum(journal, member_length("maxAttempts", Some(attempts)))
}

fn servers_member(bundle: &Bundle) -> Option<u64>
    ensures { Measures result (length (member_spellings (servers_next bundle.now))) }
{
    member_length("servers", servers_length(bundle.servers.as_slice()))
}

fn last_length(bundle: &Bundle, documents: Option<u64>) -> Option<u64>
    ensures { Measures documents (length (spelling (Pairs (documents_of bundle.now.sources)))) → Measures result (length (member_spellings (sources_last bundle.now))) }
{
    let sources = member_length("sources", documents);
    let workflow = member_length("workflow", text_length(bundle.workflow.as_str()));
    sum(sources, workflow)
}

// ---- sums

fn sum(left: Option<u64>, right: Option<u64>) -> Option<u64>
    ensures { (a b : ℕ) → Measures left a → Measures right b → Measures result (a + b) }
{
    left?.checked_add(right?)
}

// A member, by the length of its value.
fn member_length(name: &str, value: Option<u64>) -> Option<u64>
    ensures { (n : ℕ) → Measures value n → Measures result (length (counted name.now) + n) }
{
    counted_length(name)?.checked_add(value?)
}

// ---- values

fn counted_length(text: &str) -> Option<u64>
    ensures { Measures result (length (counted text.now)) }
{
    let len = text.len() as u64;
    number_length(len).checked_add(len)
}

fn text_length(text: &str) -> Option<u64>
    ensures { Measures result (length (spelling (Words text.now))) }
{
    sum(counted_length(text), Some(1))
}

fn integer_length(number: u64) -> u64
    ensures { result ≡ length (spelling (Int (pos number))) }
{
    1 + number_length(number)
}

fn members_length(members: &Members) -> Option<u64>
    ensures { Measures result (length (spelling (Pairs members.now))) }
{
    let mut total = Some(1 + number_length(members.len() as u64));
    for member in members.as_slice() {
        let value = tree_length(&member.value);
        total = sum(total, member_length(member.name.as_str(), value));
    }
    total
}

fn servers_length(servers: &[NamedText]) -> Option<u64>
    ensures { Measures result (length (spelling (Pairs (map server_of servers.now)))) }
{
    let mut total = Some(1 + number_length(servers.len() as u64));
    for server in servers {
        let value = text_length(server.text.as_str());
        total = sum(total, member_length(server.name.as_str(), value));
    }
    total
}

fn documents_length(alloc: Global, sources: &[Named]) -> Result<Option<u64>, AllocError>
    ensures { IfOk result (λ n. Measures n (length (spelling (Pairs (documents_of sources.now))))) }
{
    let found = by_name(alloc, sources)?;
    Ok(entries_length(found))
}

fn entries_length(found: ByName<'_>) -> Option<u64>
    ensures { Measures result (length (spelling (Pairs (map seen_member (map seen_entry found.entry.entries))))) }
{
    let mut total = Some(1 + number_length(found.len() as u64));
    for (name, root) in found {
        total = sum(total, member_length(name, tree_length(root)));
    }
    total
}
