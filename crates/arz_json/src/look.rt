// What a tree is, and what stands in it by name.
ghost use Rattle.std.specs.Prelude.{◌≡◌};
ghost use Rattle.std.specs.Option.{option_copied};
ghost use Rattle.arz_json.specs.Pointer.{member_named};
ghost use Rattle.arz_json.specs.Look.{text_at as text_under, items_at as items_under, members_at as members_under};

use crate::tree::{Json, Member, Members};

impl Json {
    ghost use Rattle.arz_json.specs.Look.{text_in, int_in, list_in, object_in, member_in};

    /// The text, where the tree is one.
    pub fn as_text(&self) -> Option<&str>
        ensures { option_copied result ≡ text_in self.now }
    {
        match self {
            Json::Text(text) => Some(text.as_str()),
            _ => None,
        }
    }

    /// The integer, where the tree is one.
    pub fn as_int(&self) -> Option<i128>
        ensures { result ≡ int_in self.now }
    {
        match self {
            Json::Int(n) => Some(*n),
            _ => None,
        }
    }

    /// The items, where the tree is a list.
    pub fn as_list(&self) -> Option<&[Json]>
        ensures { option_copied result ≡ list_in self.now }
    {
        match self {
            Json::List(items) => Some(items.as_slice()),
            _ => None,
        }
    }

    /// The members, where the tree is an object.
    pub fn as_object(&self) -> Option<&[Member]>
        ensures { option_copied result ≡ object_in self.now }
    {
        match self {
            Json::Object(members) => Some(members.as_slice()),
            _ => None,
        }
    }

    /// The value of the member with this name, where the tree is an object that has it.
    pub fn get(&self, name: &str) -> Option<&Json>
        ensures { option_copied result ≡ member_in name.now self.now }
    {
        match self {
            Json::Object(members) => value_named(members.as_slice(), name),
            _ => None,
        }
    }

    /// The same by value.
    pub fn into_member(self, name: &str) -> Option<Json>
        ensures { result ≡ member_in name.now self }
    {
        match self {
            Json::Object(members) => into_value_named(members, name),
            _ => None,
        }
    }
}

/// The value of the first member with this name.
pub fn value_named<'a>(members: &'a [Member], name: &str) -> Option<&'a Json>
    ensures { option_copied result ≡ member_named members.now name.now }
{
    for member in members {
        if member.name.as_str() == name {
            return Some(&member.value);
        }
    }
    None
}

/// The same by value.
pub fn into_value_named(members: Members, name: &str) -> Option<Json>
    ensures { result ≡ member_named members name.now }
{
    for member in members.into_std() {
        if member.name.as_str() == name {
            return Some(member.value);
        }
    }
    None
}

/// The text of the member with this name, or the empty text.
pub fn text_at<'a>(tree: &'a Json, name: &str) -> &'a str
    ensures { result.now ≡ text_under name.now tree.now }
{
    match tree.get(name) {
        Some(value) => value.as_text().unwrap_or(""),
        None => "",
    }
}

/// The items of the member with this name, or none.
pub fn items_at<'a>(tree: &'a Json, name: &str) -> &'a [Json]
    ensures { result.now ≡ items_under name.now tree.now }
{
    match tree.get(name) {
        Some(value) => value.as_list().unwrap_or(&[]),
        None => &[],
    }
}

/// The members of the member with this name, or none.
pub fn members_at<'a>(tree: &'a Json, name: &str) -> &'a [Member]
    ensures { result.now ≡ members_under name.now tree.now }
{
    match tree.get(name) {
        Some(value) => value.as_object().unwrap_or(&[]),
        None => &[],
    }
}
