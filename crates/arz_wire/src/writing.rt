ghost use Rattle.std.specs.Prelude.{◌≡◌, ◌∷◌, ◌++◌, length, map, true, OnOk, IfOk};
ghost use Rattle.arz_json.specs.Tree.{IsWellFormed, has_form, is_in_range, all_true};
ghost use Rattle.std.specs.Str.{is_utf8};
ghost use Rattle.arz_wire.specs.Spelling.{spelling, number, integer, counted, spellings, member_spellings};
ghost use Rattle.arz_wire.specs.Texts.{has_texts, has_text};

use crate::number::put_number;
use arz_json::{Bytes, Json, Many, Members};
use std::alloc::{AllocError, Global};

/// The one spelling of a tree.
pub fn write(alloc: Global, value: &Json) -> Result<Bytes, AllocError>
    requires { IsWellFormed value.now }
    ensures spelt { IfOk result (λ b. b ≡ spelling value.now) }
    // The tree is one of texts, so that it is read again, and an entry can hold it.
    ensures texts { OnOk result (has_texts value.now ≡ true) }
{
    let mut out = Vec::new(alloc);
    put_tree(&mut out, value)?;
    Ok(Bytes::from_std(out))
}

fn put_integer(out: &mut Vec<u8>, n: i128) -> Result<(), AllocError>
    requires { is_in_range n ≡ true }
    ensures { OnOk result (out.new.items ≡ out.old.items ++ integer n) }
{
    if n < 0 {
        out.push(4)?;
        put_number(out, (-1 - n) as u64)
    } else {
        out.push(3)?;
        put_number(out, n as u64)
    }
}

fn put_text(out: &mut Vec<u8>, text: &str) -> Result<(), AllocError>
    ensures spelt { OnOk result (out.new.items ≡ out.old.items ++ counted text.now) }
    ensures text { is_utf8 text.now ≡ true }
{
    let bytes = text.as_bytes();
    put_number(out, bytes.len() as u64)?;
    out.extend_from_slice(bytes)
}

#[cycle(tree)]
fn put_tree(out: &mut Vec<u8>, value: &Json) -> Result<(), AllocError>
    requires { has_form value.now ≡ true }
    ensures spelt { OnOk result (out.new.items ≡ out.old.items ++ spelling value.now) }
    ensures texts { OnOk result (has_texts value.now ≡ true) }
{
    match value {
        Json::Null => out.push(0)?,
        Json::Flag(b) => out.push(if *b { 2 } else { 1 })?,
        Json::Int(n) => put_integer(out, *n)?,
        Json::Text(text) => {
            out.push(5)?;
            put_text(out, text.as_str())?;
        }
        Json::List(items) => {
            out.push(6)?;
            put_items(out, items)?;
        }
        Json::Object(members) => {
            out.push(7)?;
            put_members(out, members)?;
        }
        Json::Opaque => out.push(8)?,
    }
    Ok(())
}

#[cycle(tree)]
fn put_items(out: &mut Vec<u8>, items: &Many<Json>) -> Result<(), AllocError>
    requires { all_true (map has_form items.now) ≡ true }
    ensures spelt { OnOk result (out.new.items
        ≡ out.old.items ++ number (length items.now) ++ spellings items.now) }
    ensures texts { OnOk result (all_true (map has_texts items.now) ≡ true) }
{
    put_number(out, items.len() as u64)?;
    for item in items.as_slice() {
        put_tree(out, item)?;
    }
    Ok(())
}

#[cycle(tree)]
fn put_members(out: &mut Vec<u8>, members: &Members) -> Result<(), AllocError>
    requires { all_true (map (λ m. has_form m.value) members.now) ≡ true }
    ensures spelt { OnOk result (out.new.items
        ≡ out.old.items ++ number (length members.now) ++ member_spellings members.now) }
    ensures texts { OnOk result (all_true (map has_text members.now) ≡ true) }
{
    put_number(out, members.len() as u64)?;
    for member in members.as_slice() {
        put_text(out, member.name.as_str())?;
        put_tree(out, &member.value)?;
    }
    Ok(())
}
