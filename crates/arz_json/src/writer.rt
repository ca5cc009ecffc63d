ghost use Rattle.std.specs.Prelude.{◌≡◌, ◌↔◌, map, true, IfOk, OnOk, string_bytes};
ghost use Rattle.serde.specs.Event.{Logs};
ghost use Rattle.serde_json.specs.Data.{array, object};
ghost use Rattle.serde_json.specs.Events.{number_event, SendsValue};
ghost use Rattle.serde_json.specs.Find.{of_integer};
ghost use Rattle.serde_json.specs.View.{items_of};
ghost use Rattle.serde_json.specs.Written.{compact_text};
ghost use Rattle.arz_json.specs.Tree.{IsWellFormed, has_form, has_opaque, is_in_range, all_true};
ghost use Rattle.arz_json.specs.Writing.{data_of, named_values};

use crate::copies::holds_opaque;
use crate::many::Many;
use crate::text::Bytes;
use crate::tree::{Json, Members};
use serde::{Described, Serialize, Serializer};
use std::alloc::Global;
use thiserror::Error;

/// Why a tree has no text.
#[derive(Clone, Copy, Debug, PartialEq, Eq, Error)]
pub enum CompactFault {
    /// An `Opaque` is inside, whose spelling is not known.
    #[error("a number with a fraction or exponent has no text")]
    FractionUsed,
    /// Memory ran out.
    #[error("out of memory")]
    Memory,
}

/// The text of a tree with no space (RFC 8259), as `serde_json` prints it. It is printed from the tree
/// itself, so what it takes beside the tree is the text.
pub fn compact(alloc: Global, value: &Json) -> Result<Bytes, CompactFault>
    requires { IsWellFormed value.now }
    ensures text { IfOk result (λ b. b ≡ compact_text (data_of value.now)) }
    ensures fraction_used { (result ≡ Err CompactFault.FractionUsed)
        ↔ (has_opaque value.now ≡ true) }
{
    if holds_opaque(value) {
        return Err(CompactFault::FractionUsed);
    }
    match serde_json::to_vec(alloc, &Printed { value }) {
        Ok(bytes) => Ok(Bytes::from_std(bytes)),
        Err(_) => Err(CompactFault::Memory),
    }
}

/// The same text as a `String`.
pub fn compact_string(alloc: Global, value: &Json) -> Result<String, CompactFault>
    requires { IsWellFormed value.now }
    ensures text { IfOk result (λ s. string_bytes s ≡ compact_text (data_of value.now)) }
    ensures fraction_used { (result ≡ Err CompactFault.FractionUsed)
        ↔ (has_opaque value.now ≡ true) }
{
    if holds_opaque(value) {
        return Err(CompactFault::FractionUsed);
    }
    match serde_json::to_string(alloc, &Printed { value }) {
        Ok(text) => Ok(text),
        Err(_) => Err(CompactFault::Memory),
    }
}

// A tree that `serde_json` prints from where it stands.
#[derive(Drop)]
struct Printed<'a> {
    value: &'a Json,
    ghost form: { has_form value.now ≡ true },
}

impl Described for Printed<'_> {
    ghost writes = { λ p. SendsValue (data_of p.value.now) };
}

impl Serialize for Printed<'_> {
    fn serialize<S: Serializer>(&self, out: &mut S) -> Result<(), S::Error> {
        send(self.value, out)
    }
}

// An `Opaque`, which is never printed, stands as null.
#[cycle(send)]
fn send<S: Serializer>(value: &Json, out: &mut S) -> Result<(), S::Error>
    requires { has_form value.now ≡ true }
    ensures { OnOk result (SendsValue (data_of value.now) (S.written out.old) (S.written out.new)) }
{
    match value {
        Json::Null | Json::Opaque => out.unit(),
        Json::Flag(b) => out.bool(*b),
        Json::Int(n) => send_integer(*n, out),
        Json::Text(text) => out.str(text.as_str()),
        Json::List(items) => send_items(items, out),
        Json::Object(members) => send_members(members, out),
    }
}

fn send_integer<S: Serializer>(n: i128, out: &mut S) -> Result<(), S::Error>
    requires { is_in_range n ≡ true }
    ensures { OnOk result (Logs (S.written out.old) (S.written out.new)
        (number_event (of_integer n))) }
{
    if n < 0 {
        out.i64(n as i64)
    } else {
        out.u64(n as u64)
    }
}

#[cycle(send)]
fn send_items<S: Serializer>(items: &Many<Json>, out: &mut S) -> Result<(), S::Error>
    requires { all_true (map has_form items.now) ≡ true }
    ensures { OnOk result (SendsValue (array (items_of (map data_of items.now)))
        (S.written out.old) (S.written out.new)) }
{
    out.begin_seq(Some(items.len()))?;
    for item in items.as_slice() {
        send(item, out)?;
    }
    out.end_seq()
}

#[cycle(send)]
fn send_members<S: Serializer>(members: &Members, out: &mut S) -> Result<(), S::Error>
    requires { all_true (map (λ m. has_form m.value) members.now) ≡ true }
    ensures { OnOk result (SendsValue
        (object (named_values (map (λ m. (m.name, data_of m.value)) members.now)))
        (S.written out.old) (S.written out.new)) }
{
    out.begin_map(Some(members.len()))?;
    for member in members.as_slice() {
        out.key(member.name.as_str())?;
        send(&member.value, out)?;
    }
    out.end_map()
}
