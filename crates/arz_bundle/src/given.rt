// The given replies.
ghost use Rattle.std.specs.Prelude.{◌≡◌, ◌≤◌, ℕ, List, All, IfOk, map, unwrap_or, []};
ghost use Rattle.std.specs.Option.{option_copied, ForSome};
ghost use Rattle.std.specs.List.{list_any};
ghost use Rattle.serde_json.specs.Written.{compact_text};
ghost use Rattle.arz_json.specs.Look.{list_in};
ghost use Rattle.arz_json.specs.Writing.{data_of};
ghost use Rattle.arz_bundle.specs.Loading.{Gives_replies};
ghost use Rattle.arz_bundle.specs.Printable.{IsItem, IsPrintable};
ghost use Rattle.arz_bundle.specs.Replies.{status_of, header_of, is_content_type as tells_type, headers_for, body_for, reply_of, HasStatus};

use crate::fault::LoadFault;
use crate::files::read_tree;
use crate::rules::check_replies;
use arz_json::{Bytes, CompactFault, Json, Many, Member, Text, compact, members_at, text_at};
use arz_world::{Files, Header, Reply};
use std::alloc::{AllocError, Global};

/// Reads the replies of the file at a path, which is judged by its rules and refused with the label
/// `replies`. Each has a status of 200 to 599, and header names in ASCII lower case.
pub fn replies<F: Files>(alloc: Global, path: &str, files: &mut F) -> Result<Many<Reply>, LoadFault>
    ensures gives { Gives_replies (F.files files.old) (F.files files.new) path.now result }
    ensures statuses { IfOk result (All HasStatus) }
    ensures told { (F.files files.new).told ≡ (F.files files.old).told }
    ensures counts { (p : List ℕ) → (F.files files.old).faults p ≤ (F.files files.new).faults p }
{
    let tree = read_tree(alloc, path, "replies", files)?;
    check_replies(alloc, &tree)?;
    Ok(read_replies(alloc, items_of(&tree))?)
}

fn items_of(tree: &Json) -> &[Json]
    ensures { result.now ≡ unwrap_or (list_in tree.now) [] }
{
    tree.as_list().unwrap_or(&[])
}

fn read_replies(alloc: Global, items: &[Json]) -> Result<Many<Reply>, AllocError>
    requires { All IsItem items.now }
    ensures { IfOk result (λ replies. replies ≡ map reply_of items.now) }
{
    let mut replies = Vec::with_capacity(alloc, items.len())?;
    for item in items {
        replies.push(read_reply(alloc, item)?)?;
    }
    Ok(Many::from_std(replies))
}

fn read_reply(alloc: Global, item: &Json) -> Result<Reply, AllocError>
    requires { IsItem item.now }
    ensures { IfOk result (λ reply. reply ≡ reply_of item.now) }
{
    let status = match item.get("status") {
        Some(value) => value.as_int(),
        None => None,
    };
    let body = item.get("body");
    let headers = read_headers(alloc, members_at(item, "headers"))?;
    Ok(Reply {
        status: status_within(status),
        headers: add_type(alloc, body, headers)?,
        body: body_bytes(alloc, body, text_at(item, "text"))?,
    })
}

fn status_within(status: Option<i128>) -> u16
    ensures { result ≡ status_of status }
{
    match status {
        Some(n) => if 0 <= n && n < 65536 { n as u16 } else { 0 },
        None => 0,
    }
}

fn read_headers(alloc: Global, members: &[Member]) -> Result<Many<Header>, AllocError>
    ensures { IfOk result (λ headers. headers ≡ map header_of members.now) }
{
    let mut headers = Vec::with_capacity(alloc, members.len())?;
    for member in members {
        headers.push(read_header(alloc, member)?)?;
    }
    Ok(Many::from_std(headers))
}

fn read_header(alloc: Global, member: &Member) -> Result<Header, AllocError>
    ensures { IfOk result (λ header. header ≡ header_of member.now) }
{
    let name = member.name.as_str().to_ascii_lowercase(alloc)?;
    let value = member.value.as_text().unwrap_or("");
    Ok(Header {
        name: Text::from_std(name),
        value: Bytes::from_std(value.as_bytes().to_vec(alloc)?),
    })
}

// The fields of a reply with such a `body`, or with none.
fn add_type(
    alloc: Global,
    body: Option<&Json>,
    mut headers: Many<Header>,
) -> Result<Many<Header>, AllocError>
    ensures { IfOk result (λ told. told ≡ headers_for (option_copied body.entry) headers) }
{
    if body.is_some() && !tell_type(headers.as_slice()) {
        headers.push(Header {
            name: Text::from_str(alloc, "content-type")?,
            value: Bytes::from_std(b"application/json".to_vec(alloc)?),
        })?;
    }
    Ok(headers)
}

fn tell_type(headers: &[Header]) -> bool
    ensures { result ≡ list_any tells_type headers.now }
{
    headers
        .iter()
        .any(|header| header.name.as_str() == "content-type")
}

fn body_bytes(alloc: Global, body: Option<&Json>, text: &str) -> Result<Bytes, AllocError>
    requires { ForSome (option_copied body) IsPrintable }
    ensures { IfOk result (λ bytes. bytes ≡ body_for (option_copied body.entry) text.now) }
{
    match body {
        Some(body) => printed(alloc, body),
        None => Ok(Bytes::from_std(text.as_bytes().to_vec(alloc)?)),
    }
}

// The compact text of a value that has one.
fn printed(alloc: Global, body: &Json) -> Result<Bytes, AllocError>
    requires { IsPrintable body.now }
    ensures { IfOk result (λ bytes. bytes ≡ compact_text (data_of body.now)) }
{
    match compact(alloc, body) {
        Ok(bytes) => Ok(bytes),
        Err(CompactFault::FractionUsed) => unreachable!(),
        Err(CompactFault::Memory) => Err(AllocError),
    }
}
