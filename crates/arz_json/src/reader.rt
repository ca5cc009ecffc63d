ghost use Rattle.std.specs.Prelude.{◌≡◌, ◌≢◌, ◌↔◌, ◌<◌, ◌≤◌, length, None, IfOk, OnOk, IsUtf8};
ghost use Rattle.json.specs.Json.{value, items, members};
ghost use Rattle.serde_json.specs.Data.{no_members};
ghost use Rattle.serde_json.specs.Read.{of_json, of_items, of_members, converted, read as serde_reading};
ghost use Rattle.arz_json.specs.Reading.{tree_of, trees_of, members_of, entries_tree, Takes, Reads};
ghost use Rattle.arz_json.specs.Tree.{IsWithin, IsWellFormed};

use crate::many::Many;
use crate::number::number;
use crate::text::Text;
use crate::tree::{Json, Member, Members};
use json::{Invalid, Reader, Scratch, Token};
use std::alloc::{AllocError, AllocFailed, Global};
use std::collections::BTreeMap;
use thiserror::Error;

/// How deep arrays and objects may nest.
const MAX_DEPTH: usize = 127;

/// Why bytes were not read.
#[derive(Clone, Copy, Debug, PartialEq, Eq, Error)]
pub enum JsonFault {
    /// There are more bytes than the limit.
    #[error("too large")]
    TooLarge,
    /// The bytes are no JSON text that `serde_json` reads (RFC 8259, section 2).
    #[error("not JSON")]
    NotJson,
    /// Memory ran out.
    #[error("out of memory")]
    Memory,
}

impl From<AllocError> for JsonFault {
    ghost use Rattle.std.specs.Prelude.{◌≡◌};
    ghost use Rattle.arz_json.specs.declared.reader.JsonFault.TheVariants.{Memory};

    ghost from_gives = { λ _ e. e ≡ Memory };

    fn from(_: AllocError) -> JsonFault {
        JsonFault::Memory
    }
}

impl<T: Drop> From<AllocFailed<T>> for JsonFault {
    ghost use Rattle.std.specs.Prelude.{◌≡◌};
    ghost use Rattle.arz_json.specs.declared.reader.JsonFault.TheVariants.{Memory};

    ghost from_gives = { λ _ e. e ≡ Memory };

    fn from(_: AllocFailed<T>) -> JsonFault {
        JsonFault::Memory
    }
}

impl From<Invalid> for JsonFault {
    ghost use Rattle.std.specs.Prelude.{◌≡◌};
    ghost use Rattle.arz_json.specs.declared.reader.JsonFault.TheVariants.{NotJson};

    ghost from_gives = { λ _ e. e ≡ NotJson };

    fn from(_: Invalid) -> JsonFault {
        JsonFault::NotJson
    }
}

/// Reads a JSON text (RFC 8259) of at most `limit` bytes, as `serde_json` does: nested at most 127
/// deep, and of members with one name the last stays. The tree that is given is well-formed.
pub fn read(alloc: Global, bytes: &[u8], limit: u64) -> Result<Json, JsonFault>
    ensures ok { IfOk result (λ j. (length bytes.now ≤ limit) × Reads bytes.now j) }
    ensures well_formed { IfOk result IsWellFormed }
    ensures nests { IfOk result (IsWithin 127) }
    ensures too_large { (result ≡ Err JsonFault.TooLarge) ↔ (limit < length bytes.now) }
    ensures not_json { result ≡ Err JsonFault.NotJson
        → (length bytes.now ≤ limit) × (IsUtf8 bytes.now → serde_reading bytes.now ≡ None) }
{
    if bytes.len() as u64 > limit {
        return Err(JsonFault::TooLarge);
    }
    match str::from_utf8(bytes) {
        Ok(text) => read_text(alloc, text),
        Err(_) => Err(JsonFault::NotJson),
    }
}

fn read_text(alloc: Global, text: &str) -> Result<Json, JsonFault>
    ensures ok { IfOk result (λ j. Reads text.now j) }
    ensures not_json { result ≡ Err JsonFault.NotJson → serde_reading text.now ≡ None }
    ensures not_too_large { result ≢ Err JsonFault.TooLarge }
{
    let mut scratch = Scratch::new(alloc);
    let mut reader = Reader::new(text, &mut scratch)?;
    let tree = read_tree(alloc, &mut reader, MAX_DEPTH)?;
    match reader.next() {
        Some(_) => Err(JsonFault::NotJson),
        None => Ok(tree),
    }
}

#[cycle(read)]
fn read_tree(alloc: Global, reader: &mut Reader<'_>, depth: usize) -> Result<Json, JsonFault>
    ensures ok { IfOk result (λ j. Takes tree_of (converted of_json (value depth reader.old)) j reader.new) }
    ensures shorter { OnOk result (length reader.new < length reader.old) }
    ensures not_json { result ≡ Err JsonFault.NotJson → converted of_json (value depth reader.old) ≡ None }
    ensures not_too_large { result ≢ Err JsonFault.TooLarge }
{
    let token = reader.next().ok_or(JsonFault::NotJson)?;
    match token {
        Token::String(text) => Ok(Json::Text(Text::from_std(String::from_str(alloc, text)?))),
        Token::Number(text) => match number(text) {
            Some(tree) => Ok(tree),
            None => Err(JsonFault::NotJson),
        },
        Token::Bool(b) => Ok(Json::Flag(b)),
        Token::Null => Ok(Json::Null),
        Token::EndObject | Token::EndArray | Token::Key(_) | Token::Bad => Err(JsonFault::NotJson),
        Token::BeginArray => {
            if depth == 0 {
                return Err(JsonFault::NotJson);
            }
            Ok(Json::List(read_items(alloc, reader, depth - 1)?))
        }
        Token::BeginObject => {
            if depth == 0 {
                return Err(JsonFault::NotJson);
            }
            Ok(Json::Object(read_members(alloc, reader, depth - 1)?))
        }
    }
}

#[cycle(read)]
fn read_items(alloc: Global, reader: &mut Reader<'_>, depth: usize) -> Result<Many<Json>, JsonFault>
    ensures ok { IfOk result (λ js. Takes trees_of (converted of_items (items (value depth) (length reader.old) reader.old)) js reader.new) }
    ensures shorter { OnOk result (length reader.new < length reader.old) }
    ensures not_json { result ≡ Err JsonFault.NotJson
        → converted of_items (items (value depth) (length reader.old) reader.old) ≡ None }
    ensures not_too_large { result ≢ Err JsonFault.TooLarge }
{
    let mut found = Vec::new(alloc);
    'items: while !reader.take_end_array() {
        let item = read_tree(alloc, reader, depth)?;
        found.push(item)?;
    }
    Ok(Many::from_std(found))
}

#[cycle(read)]
fn read_members(alloc: Global, reader: &mut Reader<'_>, depth: usize) -> Result<Members, JsonFault>
    ensures ok { IfOk result (λ ms. Takes members_of (converted (λ ms. of_members ms no_members) (members (value depth) (length reader.old) reader.old)) ms reader.new) }
    ensures shorter { OnOk result (length reader.new < length reader.old) }
    ensures not_json { result ≡ Err JsonFault.NotJson
        → converted (λ ms. of_members ms no_members) (members (value depth) (length reader.old) reader.old) ≡ None }
    ensures not_too_large { result ≢ Err JsonFault.TooLarge }
{
    let mut found = BTreeMap::new(alloc);
    'members: while let Some(name) = reader.next_key()? {
        let key = String::from_str(alloc, name)?;
        let member = read_tree(alloc, reader, depth)?;
        drop(found.insert(key, member)?);
    }
    Ok(in_order(alloc, found)?)
}

fn in_order(alloc: Global, found: BTreeMap<String, Json>) -> Result<Members, AllocError>
    ensures { IfOk result (λ ms. ms ≡ entries_tree found.entries) }
{
    let mut members = Vec::with_capacity(alloc, found.len())?;
    for (name, value) in found {
        let name = Text::from_std(name);
        members.push(Member { name, value })?;
    }
    Ok(Many::from_std(members))
}
