// What stands a second time in a list.
ghost use Rattle.std.specs.Prelude.{◌≡◌, [], ◌∷◌, IfOk, option_map, if◌then◌else◌, Some, None};
ghost use Rattle.arz_json.specs.declared.place.Token.TheVariants.{Name};
ghost use Rattle.arz_rules.specs.Place.{tokens_in};
ghost use Rattle.arz_components.specs.Indexes.{finds};
ghost use Rattle.arz_names.specs.Names.{place_word as word_of_place, key_of, told_member as member_told, used_name as name_used, name_if_in as name_in_place};
ghost use Rattle.arz_rules.specs.Sets.{is_text};

use arz_components::{Components, Part, actual, is_reuse, text_of};
use arz_json::{Json, Location, Place};
use arz_rules::{Keyed, below_name, root_unless};
use std::alloc::{AllocError, Global};

/// By what the items of a list are told apart.
#[derive(Clone, Copy, Debug)]
pub enum Key {
    /// The text of their member `name`.
    Name,
    /// The text of their member `workflowId`.
    WorkflowId,
    /// The text of their member `stepId`.
    StepId,
    /// The name of what the item is, or of the component of this part to which it refers.
    Named(Part),
    /// The name of the parameter that the item is or refers to, among those of this place.
    NamedIn(Location),
}

fn place_word(place: Location) -> &'static str
    ensures { result.now ≡ word_of_place place }
{
    match place {
        Location::Path => "path",
        Location::Query => "query",
        Location::Header => "header",
        Location::Cookie => "cookie",
    }
}

fn is_word(text: Option<&str>, word: &str) -> bool
    ensures { result ≡ is_text (option_map (λ t. t.now) text.entry) word.now }
{
    match text {
        Some(text) => text == word,
        None => false,
    }
}

fn name_if_in<'a>(place: Location, parameter: &'a Json) -> Option<&'a str>
    ensures { option_map (λ t. t.now) result ≡ name_in_place (word_of_place place) parameter.now }
{
    if !is_word(text_of(parameter, "in"), place_word(place)) {
        return None;
    }
    text_of(parameter, "name")
}

fn key_in<'a: 'i, 'i>(components: &Components<'a>, key: Key, item: &'i Json) -> Option<&'i str>
    ensures { option_map (λ t. t.now) result ≡ key_of (finds components.now) key item.now }
{
    match key {
        Key::Name => text_of(item, "name"),
        Key::WorkflowId => text_of(item, "workflowId"),
        Key::StepId => text_of(item, "stepId"),
        Key::Named(part) => text_of(actual(components, part, item)?, "name"),
        Key::NamedIn(place) => name_if_in(place, actual(components, Part::Parameters, item)?),
    }
}

fn used_name(item: &Json) -> &'static str
    ensures { result.now ≡ name_used item.now }
{
    if is_reuse(item) { "reference" } else { "name" }
}

fn told_member(key: Key, item: &Json) -> &'static str
    ensures { result.now ≡ member_told key item.now }
{
    match key {
        Key::Name => "name",
        Key::WorkflowId => "workflowId",
        Key::StepId => "stepId",
        Key::Named(_) | Key::NamedIn(_) => used_name(item),
    }
}

/// By what the items of a list of a description are told apart, which has these components.
#[derive(Drop)]
pub struct Listed<'s, 'a> {
    pub components: &'s Components<'a>,
    pub key: Key,
}

impl<'s, 'a> Keyed for Listed<'s, 'a> {
    ghost use Rattle.arz_components.specs.Indexes.{finds};
    ghost use Rattle.arz_names.specs.Names.{key_of as key_text, told_member};

    ghost key_of = { λ c. key_text (finds c.components.now) c.key };

    ghost told_at = { λ c. told_member c.key };

    fn key<'k>(&'k self, item: &'k Json) -> Option<&'k str> {
        key_in(self.components, self.key, item)
    }

    fn told(&self, item: &Json) -> &'static str {
        told_member(self.key, item)
    }
}

/// The place of a member, where it is told.
pub fn member_if(alloc: Global, is_told: bool, name: &str) -> Result<Option<Place>, AllocError>
    ensures { IfOk result (λ p. tokens_in p ≡ (if is_told then Some (Name name.now ∷ []) else None)) }
{
    below_name(alloc, name, root_unless(alloc, !is_told))
}
