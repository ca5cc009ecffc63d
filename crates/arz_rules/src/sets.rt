// Sets of texts, what stands in a list a second time, and references to what is there.
ghost use Rattle.std.specs.Prelude.{◌≡◌, ◌∷◌, [], ◌||◌, true, false, IfOk, OnOk, ℕ, List, map, option_map, Some, None, if◌then◌else◌};
ghost use Rattle.std.specs.Str.{bytes_eq};
ghost use Rattle.std.specs.Option.{option_copied};
ghost use Rattle.arz_json.specs.Tree.{has_form, all_true};
ghost use Rattle.arz_json.specs.Look.{text_in};
ghost use Rattle.arz_json.specs.declared.place.Token.TheVariants.{Name};
ghost use Rattle.arz_rules.specs.Place.{least, tokens_in};
ghost use Rattle.arz_rules.specs.Sites.{seen_way, found, all_items, all_members};
ghost use Rattle.arz_rules.specs.Sets.{has, has_text, is_text, is_among, texts_at as texts_under, repeats_after};

use crate::look::{child, text_named};
use crate::place::{below_index, below_name, lesser, root_place, root_unless};
use crate::sites::{Check, Way};
use arz_json::{Json, Member, Place};
use std::alloc::{AllocError, Global};
use std::collections::BTreeMap;

/// A set of texts.
#[derive(Drop)]
pub struct TextSet<'a> {
    there: BTreeMap<&'a str, ()>,
}

impl<'a> TextSet<'a> {
    /// No text. It takes no memory.
    pub fn new(alloc: Global) -> TextSet<'a>
        ensures { (q : List ℕ) → has result q ≡ false }
    {
        TextSet {
            there: BTreeMap::new(alloc),
        }
    }

    /// Puts a text into the set, and says whether it was there. Where memory runs out, it may be there
    /// or not.
    pub fn put(&mut self, text: &'a str) -> Result<bool, AllocError>
        ensures was { IfOk result (λ was. was ≡ has self.old text.now) }
        ensures now { OnOk result ((q : List ℕ) → has self.new q ≡ bytes_eq text.now q || has self.old q) }
    {
        let old = self.there.insert(text, ())?;
        Ok(old.is_some())
    }

    /// Whether the text is there.
    pub fn has(&self, text: &str) -> bool
        ensures { result ≡ has self.now text.now }
    {
        self.there.contains_key(text)
    }
}

/// The texts to which the steps lead.
pub fn texts_at<'a>(alloc: Global, ways: &[Way], tree: &'a Json) -> Result<TextSet<'a>, AllocError>
    requires { has_form tree.now ≡ true }
    ensures { IfOk result (λ set. (q : List ℕ) → has set q ≡ is_among (texts_under (map seen_way ways.now) tree.now) q) }
{
    let mut set = TextSet::new(alloc);
    put_texts(&mut set, ways, tree)?;
    Ok(set)
}

#[cycle(texts)]
fn put_texts<'a>(set: &mut TextSet<'a>, ways: &[Way], tree: &'a Json) -> Result<(), AllocError>
    requires { has_form tree.now ≡ true }
    ensures { OnOk result ((q : List ℕ) → has set.new q ≡ is_among (map text_in (found (map seen_way ways.now) tree.now)) q || has set.old q) }
{
    let Some((way, rest)) = ways.split_first() else {
        return put_text(set, tree.as_text());
    };
    match way {
        Way::Member(name) => match child(tree, name) {
            Some(value) => put_texts(set, rest, value),
            None => Ok(()),
        },
        Way::EachItem => match tree.as_list() {
            Some(items) => put_from_items(set, rest, items),
            None => Ok(()),
        },
        Way::EachMember => match tree.as_object() {
            Some(members) => put_from_members(set, rest, members),
            None => Ok(()),
        },
    }
}

fn put_text<'a>(set: &mut TextSet<'a>, text: Option<&'a str>) -> Result<(), AllocError>
    ensures { OnOk result ((q : List ℕ) → has set.new q ≡ is_among (option_copied text.entry ∷ []) q || has set.old q) }
{
    if let Some(text) = text {
        let _was = set.put(text)?;
    }
    Ok(())
}

#[cycle(texts)]
fn put_from_items<'a>(
    set: &mut TextSet<'a>,
    rest: &[Way],
    items: &'a [Json],
) -> Result<(), AllocError>
    requires { all_true (map has_form items.now) ≡ true }
    ensures { OnOk result ((q : List ℕ) → has set.new q ≡ is_among (map text_in (all_items (found (map seen_way rest.now)) items.now)) q || has set.old q) }
{
    for item in items {
        put_texts(set, rest, item)?;
    }
    Ok(())
}

#[cycle(texts)]
fn put_from_members<'a>(
    set: &mut TextSet<'a>,
    rest: &[Way],
    members: &'a [Member],
) -> Result<(), AllocError>
    requires { all_true (map (λ m. has_form m.value) members.now) ≡ true }
    ensures { OnOk result ((q : List ℕ) → has set.new q ≡ is_among (map text_in (all_members (found (map seen_way rest.now)) members.now)) q || has set.old q) }
{
    for member in members {
        put_texts(set, rest, &member.value)?;
    }
    Ok(())
}

/// The check that a text is one of a set.
#[derive(Drop)]
pub struct Among<'s, 'a> {
    /// The set.
    pub set: &'s TextSet<'a>,
}

impl<'s, 'a> Check for Among<'s, 'a> {
    ghost use Rattle.arz_rules.specs.Sets.{has, bad_text};

    ghost places = { λ c. bad_text (has c.set.now) };

    fn first(&self, alloc: Global, tree: &Json) -> Result<Option<Place>, AllocError> {
        Ok(match tree.as_text() {
            Some(text) => root_unless(alloc, self.set.has(text)),
            None => None,
        })
    }
}

/// What tells the items of a list apart.
pub trait Keyed {
    ghost use Rattle.std.specs.Prelude.{List, ℕ, Option};
    ghost use Rattle.arz_json.specs.declared.tree.Json.{Json};

    /// The text that no two items have, where an item has one.
    ghost key_of: { Self → Json → Option (List ℕ) };

    /// The name of the member of an item at which it is told.
    ghost told_at: { Self → Json → List ℕ };

    /// The item's text, where it has one.
    fn key<'k>(&'k self, item: &'k Json) -> Option<&'k str>
        requires { has_form item.now ≡ true }
        ensures { option_map (λ t. t.now) result ≡ key_of self.now item.now };

    /// The name of the member at which the item is told.
    fn told(&self, item: &Json) -> &'static str
        requires { has_form item.now ≡ true }
        ensures { result.now ≡ told_at self.now item.now };
}

/// Items are told apart by the text of the member with this name.
#[derive(Clone, Copy, Debug)]
pub struct TextUnder {
    /// The name.
    pub name: &'static str,
}

impl Keyed for TextUnder {
    ghost use Rattle.arz_rules.specs.Sites.{text_named};

    ghost key_of = { λ c. text_named c.name.now };

    ghost told_at = { λ c _. c.name.now };

    fn key<'k>(&'k self, item: &'k Json) -> Option<&'k str> {
        text_named(item, self.name)
    }

    fn told(&self, _: &Json) -> &'static str {
        self.name
    }
}

/// The check that the items of a list are told apart. The place of an item that has the text of an
/// earlier one is that of the member at which it is told.
#[derive(Drop)]
pub struct Distinct<'k, K> {
    /// By what they are told apart.
    pub keyed: &'k K,
}

impl<'k, K: Keyed> Check for Distinct<'k, K> {
    ghost use Rattle.arz_rules.specs.Sets.{repeats};

    ghost places = { λ c. repeats (K.key_of c.keyed.now) (K.told_at c.keyed.now) };

    fn first(&self, alloc: Global, tree: &Json) -> Result<Option<Place>, AllocError> {
        match tree.as_list() {
            Some(items) => first_repeat(alloc, self.keyed, items),
            None => Ok(None),
        }
    }
}

fn first_repeat<'k, K: Keyed>(
    alloc: Global,
    keyed: &'k K,
    items: &'k [Json],
) -> Result<Option<Place>, AllocError>
    requires { all_true (map has_form items.now) ≡ true }
    ensures { IfOk result (λ p. tokens_in p ≡ least (repeats_after (K.key_of keyed.now) (K.told_at keyed.now) [] 0 items.now)) }
{
    let mut seen = TextSet::new(alloc);
    let mut best = None;
    for (i, item) in items.iter().enumerate() {
        let is_repeat = put_key(&mut seen, keyed.key(item))?;
        let found = place_if(alloc, is_repeat, keyed.told(item))?;
        best = lesser(best, below_index(i, found)?);
    }
    Ok(best)
}

// Whether the text was there.
fn put_key<'a>(set: &mut TextSet<'a>, key: Option<&'a str>) -> Result<bool, AllocError>
    ensures was { IfOk result (λ was. was ≡ has_text set.old (option_map (λ t. t.now) key.entry)) }
    ensures now { OnOk result ((q : List ℕ) → has set.new q ≡ is_text (option_map (λ t. t.now) key.entry) q || has set.old q) }
{
    match key {
        Some(text) => set.put(text),
        None => Ok(false),
    }
}

fn place_if(alloc: Global, is_repeat: bool, name: &str) -> Result<Option<Place>, AllocError>
    ensures { IfOk result (λ p. tokens_in p ≡ (if is_repeat then Some (Name name.now ∷ []) else None)) }
{
    if !is_repeat {
        return Ok(None);
    }
    below_name(alloc, name, Some(root_place(alloc)))
}
