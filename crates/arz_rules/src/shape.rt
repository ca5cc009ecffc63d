// The places at which trees miss kinds.
ghost use Rattle.std.specs.Prelude.{◌≡◌, IfOk, map};
ghost use Rattle.arz_rules.specs.Place.{least, tokens_in, here_unless};
ghost use Rattle.arz_rules.specs.Shapes.{seen_field, seen_choice, seen_form, seen_words};
ghost use Rattle.arz_rules.specs.declared.forms.Others.TheVariants.{Are, Paths};
ghost use Rattle.arz_rules.specs.declared.kinds.Kind.TheVariants.{Solid};
ghost use Rattle.arz_rules.specs.Texts.{is_prefixed as a_prefixed, is_pointer as a_pointer, is_field_value as a_field_value};
ghost use Rattle.arz_rules.specs.Misses.{misses, level_of, named_misses, chosen, first_met as first_case, has_kind as one_there, is_complete as complete, has_name as name_there, kind_named, other_kind as kind_of_others, is_text as text_level, is_flag as flag_level, is_count as count_level, is_any_count as any_count_level, is_between as between_level, is_text_that, is_object as object_level, is_word as word_among, shape_misses, list_misses, object_misses, member_misses, item_misses, solid_misses, has_size as size_fits};

use crate::forms::{Choice, Field, Form, Need, Others, Size};
use crate::kinds::{Kind, form_at};
use crate::place::{below_index, below_name, lesser, root_place, root_unless};
use crate::texts::{is_field_value, is_pointer, is_prefixed, is_token};
use arz_json::{Json, Many, Members, Place};
use std::alloc::{AllocError, Global};

/// The least place at which the tree misses the kind.
#[cycle(shape)]
pub fn first_miss(alloc: Global, tree: &Json, kind: Kind) -> Result<Option<Place>, AllocError>
    ensures { IfOk result (λ p. tokens_in p ≡ least (misses tree.now kind)) }
{
    let kind = choose(alloc, tree, kind)?;
    first_miss_of(alloc, tree, form_at(kind))
}

#[cycle(shape)]
fn first_miss_of(alloc: Global, tree: &Json, form: Form) -> Result<Option<Place>, AllocError>
    ensures { IfOk result (λ p. tokens_in p ≡ least (shape_misses (seen_form form) (level_of tree.now))) }
{
    match form {
        Form::Anything | Form::Chosen(_, _) => Ok(None),
        Form::Nothing => Ok(Some(root_place(alloc))),
        Form::Text => Ok(root_unless(alloc, is_text(tree))),
        Form::Flag => Ok(root_unless(alloc, is_flag(tree))),
        Form::Count => Ok(root_unless(alloc, is_count(tree))),
        Form::AnyCount => Ok(root_unless(alloc, is_any_count(tree))),
        Form::Between(low, high) => Ok(root_unless(alloc, is_between(low, high, tree))),
        Form::Words(words) => Ok(root_unless(alloc, is_one_of(words, tree))),
        Form::WordsOrObject(words) => Ok(root_unless(
            alloc,
            is_one_of(words, tree) || is_object(tree),
        )),
        Form::Prefixed(prefix) => Ok(root_unless(alloc, is_prefixed_text(prefix, tree))),
        Form::Pointer => Ok(root_unless(alloc, is_pointer_text(tree))),
        Form::FieldValue => Ok(root_unless(alloc, is_field_value_text(tree))),
        Form::Solid => first_opaque(alloc, tree),
        Form::List(size, kind) => first_miss_in_list(alloc, size, kind, tree),
        Form::Object(fields, others) => first_miss_in_object(alloc, fields, others, tree),
    }
}

// The kind that a choice stands for.
#[cycle(shape)]
fn choose(alloc: Global, tree: &Json, kind: Kind) -> Result<Kind, AllocError>
    ensures { IfOk result (λ k. k ≡ chosen kind (level_of tree.now)) }
{
    let Form::Chosen(choices, other) = form_at(kind) else {
        return Ok(kind);
    };
    let Json::Object(members) = tree else {
        return Ok(other);
    };
    first_met(alloc, choices, other, members)
}

#[cycle(shape)]
fn first_met(
    alloc: Global,
    choices: &[Choice],
    other: Kind,
    members: &Members,
) -> Result<Kind, AllocError>
    ensures { IfOk result (λ k. k ≡ first_case (map seen_choice choices.now) other (named_misses members.now)) }
{
    for choice in choices {
        if has_kind(alloc, choice.0, choice.1, members)? {
            return Ok(choice.2);
        }
    }
    Ok(other)
}

#[cycle(shape)]
fn has_kind(alloc: Global, name: &str, kind: Kind, members: &Members) -> Result<bool, AllocError>
    ensures { IfOk result (λ b. b ≡ one_there (named_misses members.now) name.now kind) }
{
    for member in members.as_slice() {
        if member.name.as_str() == name {
            let found = first_miss(alloc, &member.value, kind)?;
            return Ok(found.is_none());
        }
    }
    Ok(false)
}

#[cycle(shape)]
fn first_miss_in_object(
    alloc: Global,
    fields: &[Field],
    others: Others,
    tree: &Json,
) -> Result<Option<Place>, AllocError>
    ensures { IfOk result (λ p. tokens_in p ≡ least (object_misses (map seen_field fields.now) others (level_of tree.now))) }
{
    let Json::Object(members) = tree else {
        return Ok(Some(root_place(alloc)));
    };
    if !is_complete(fields, members) {
        return Ok(Some(root_place(alloc)));
    }
    first_miss_in_members(alloc, fields, others, members)
}

#[cycle(shape)]
fn first_miss_in_members(
    alloc: Global,
    fields: &[Field],
    others: Others,
    members: &Members,
) -> Result<Option<Place>, AllocError>
    ensures { IfOk result (λ p. tokens_in p ≡ least (member_misses (map seen_field fields.now) others (named_misses members.now))) }
{
    let mut best = None;
    for member in members.as_slice() {
        let kind = kind_of_member(fields, others, member.name.as_str());
        let found = first_miss(alloc, &member.value, kind)?;
        best = lesser(best, below_name(alloc, member.name.as_str(), found)?);
    }
    Ok(best)
}

#[cycle(shape)]
fn first_miss_in_list(
    alloc: Global,
    size: Size,
    kind: Kind,
    tree: &Json,
) -> Result<Option<Place>, AllocError>
    ensures { IfOk result (λ p. tokens_in p ≡ least (list_misses size kind (level_of tree.now))) }
{
    let Json::List(items) = tree else {
        return Ok(Some(root_place(alloc)));
    };
    if !has_size(size, items) {
        return Ok(Some(root_place(alloc)));
    }
    first_miss_in_items(alloc, kind, items)
}

#[cycle(shape)]
fn first_miss_in_items(
    alloc: Global,
    kind: Kind,
    items: &Many<Json>,
) -> Result<Option<Place>, AllocError>
    ensures { IfOk result (λ p. tokens_in p ≡ least (item_misses kind 0 (map misses items.now))) }
{
    let mut best = None;
    for (i, item) in items.as_slice().iter().enumerate() {
        let found = first_miss(alloc, item, kind)?;
        best = lesser(best, below_index(i, found)?);
    }
    Ok(best)
}

#[cycle(shape)]
fn first_opaque(alloc: Global, tree: &Json) -> Result<Option<Place>, AllocError>
    ensures { IfOk result (λ p. tokens_in p ≡ least (solid_misses (level_of tree.now))) }
{
    match tree {
        Json::List(items) => first_miss_in_items(alloc, Kind::Solid, items),
        Json::Object(members) => first_miss_in_members(
            alloc,
            &[],
            Others::Are(Kind::Solid),
            members,
        ),
        Json::Opaque => Ok(Some(root_place(alloc))),
        _ => Ok(None),
    }
}

fn is_text(tree: &Json) -> bool
    ensures { result ≡ text_level (level_of tree.now) }
{
    matches!(tree, Json::Text(_))
}

fn is_flag(tree: &Json) -> bool
    ensures { result ≡ flag_level (level_of tree.now) }
{
    matches!(tree, Json::Flag(_))
}

fn is_object(tree: &Json) -> bool
    ensures { result ≡ object_level (level_of tree.now) }
{
    matches!(tree, Json::Object(_))
}

fn is_count(tree: &Json) -> bool
    ensures { result ≡ count_level (level_of tree.now) }
{
    match tree {
        Json::Int(n) => *n >= 0,
        _ => false,
    }
}

fn is_any_count(tree: &Json) -> bool
    ensures { result ≡ any_count_level (level_of tree.now) }
{
    match tree {
        Json::Int(n) => *n >= 0,
        Json::Opaque => true,
        _ => false,
    }
}

fn is_between(low: u64, high: u64, tree: &Json) -> bool
    ensures { result ≡ between_level low high (level_of tree.now) }
{
    match tree {
        Json::Int(n) => *n >= low as i128 && *n <= high as i128,
        _ => false,
    }
}

fn is_one_of(words: &[&str], tree: &Json) -> bool
    ensures { result ≡ is_text_that (word_among (seen_words words.now)) (level_of tree.now) }
{
    match tree {
        Json::Text(text) => is_word(words, text.as_str()),
        _ => false,
    }
}

fn is_word(words: &[&str], text: &str) -> bool
    ensures { result ≡ word_among (seen_words words.now) text.now }
{
    for word in words {
        if *word == text {
            return true;
        }
    }
    false
}

fn is_prefixed_text(prefix: &str, tree: &Json) -> bool
    ensures { result ≡ is_text_that (a_prefixed prefix.now) (level_of tree.now) }
{
    match tree {
        Json::Text(text) => is_prefixed(prefix, text.as_str()),
        _ => false,
    }
}

fn is_pointer_text(tree: &Json) -> bool
    ensures { result ≡ is_text_that a_pointer (level_of tree.now) }
{
    match tree {
        Json::Text(text) => is_pointer(text.as_str()),
        _ => false,
    }
}

fn is_field_value_text(tree: &Json) -> bool
    ensures { result ≡ is_text_that a_field_value (level_of tree.now) }
{
    match tree {
        Json::Text(text) => is_field_value(text.as_str()),
        _ => false,
    }
}

fn has_size(size: Size, items: &Many<Json>) -> bool
    ensures { result ≡ size_fits size (map misses items.now) }
{
    match size {
        Size::Any => true,
        Size::NotEmpty => items.len() != 0,
    }
}

fn is_complete(fields: &[Field], members: &Members) -> bool
    ensures { result ≡ complete (map seen_field fields.now) (named_misses members.now) }
{
    for field in fields {
        if matches!(field.1, Need::Must) && !has_name(field.0, members) {
            return false;
        }
    }
    true
}

fn has_name(name: &str, members: &Members) -> bool
    ensures { result ≡ name_there (named_misses members.now) name.now }
{
    for member in members.as_slice() {
        if member.name.as_str() == name {
            return true;
        }
    }
    false
}

fn kind_of_member(fields: &[Field], others: Others, name: &str) -> Kind
    ensures { result ≡ kind_named (map seen_field fields.now) others name.now }
{
    for field in fields {
        if field.0 == name {
            return field.2;
        }
    }
    other_kind(others, name)
}

fn other_kind(others: Others, name: &str) -> Kind
    ensures { result ≡ kind_of_others others name.now }
{
    match others {
        Others::Are(kind) => kind,
        Others::Tokens(kind) => { if is_token(name) { kind } else { Kind::Nothing } }
        Others::Paths(kind) => path_kind(kind, name),
    }
}

fn path_kind(kind: Kind, name: &str) -> Kind
    ensures { result ≡ kind_of_others (Paths kind) name.now }
{
    if name.starts_with("x-") {
        Kind::Anything
    } else if name.starts_with("/") {
        kind
    } else {
        Kind::Nothing
    }
}
