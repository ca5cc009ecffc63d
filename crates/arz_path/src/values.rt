// Values in filters.
ghost use Rattle.std.specs.Prelude.{◌≡◌, Some, pos, option_and_then};
ghost use Rattle.std.specs.Option.{option_copied};
ghost use Rattle.arz_json.specs.declared.tree.Json.TheVariants.{Int};
ghost use Rattle.arz_json.specs.Look.{int_in, text_in};
ghost use Rattle.arz_path.specs.Values.{is_same, equals, less, compared, length_of as length_in_filter, length_value, count_characters, int_less, text_less};
ghost use Rattle.arz_path.specs.Seen.{worth_seen};

use arz_json::{Json, same};
use arz_query::Comparison;

/// A value of a filter, or nothing.
#[derive(Clone, Copy)]
pub enum Worth<'a> {
    Nothing,
    Null,
    Flag(bool),
    Int(i128),
    Text(&'a str),
    Tree(&'a Json),
}

/// The value of a node that may be there.
pub fn worth_of<'a>(found: Option<&'a Json>) -> Worth<'a>
    ensures { worth_seen result ≡ option_copied found.entry }
{
    match found {
        Some(tree) => Worth::Tree(tree),
        None => Worth::Nothing,
    }
}

/// How many there are, as a value.
pub fn worth_of_count<'a>(count: usize) -> Worth<'a>
    ensures { worth_seen result ≡ Some (Int (pos count)) }
{
    Worth::Int(count as i128)
}

#[tactic(auto, using(crate::proofs::Equality::is_same_if, crate::proofs::Equality::only_if_same))]
fn is_same_tree(left: &Json, right: &Json) -> bool
    ensures { result ≡ is_same left.now right.now }
{
    same(left, right)
}

/// Whether a tree and a value are the same.
fn is_worth(tree: &Json, worth: Worth) -> bool
    ensures { result ≡ equals (Some tree.now) (worth_seen worth.entry) }
{
    match (tree, worth) {
        (_, Worth::Tree(other)) => is_same_tree(tree, other),
        (Json::Null, Worth::Null) => true,
        (Json::Flag(a), Worth::Flag(b)) => *a == b,
        (Json::Int(a), Worth::Int(b)) => *a == b,
        (Json::Text(a), Worth::Text(b)) => a.as_str() == b,
        _ => false,
    }
}

/// Whether a value and a tree are the same.
fn is_tree(worth: Worth, tree: &Json) -> bool
    ensures { result ≡ equals (worth_seen worth.entry) (Some tree.now) }
{
    match (worth, tree) {
        (Worth::Tree(other), _) => is_same_tree(other, tree),
        (Worth::Null, Json::Null) => true,
        (Worth::Flag(a), Json::Flag(b)) => a == *b,
        (Worth::Int(a), Json::Int(b)) => a == *b,
        (Worth::Text(a), Json::Text(b)) => a == b.as_str(),
        _ => false,
    }
}

/// Whether both are the same value, or both nothing (RFC 9535, section 2.3.5.2.2).
fn is_equal(left: Worth, right: Worth) -> bool
    ensures { result ≡ equals (worth_seen left.entry) (worth_seen right.entry) }
{
    match (left, right) {
        (Worth::Tree(tree), _) => is_worth(tree, right),
        (_, Worth::Tree(tree)) => is_tree(left, tree),
        (Worth::Nothing, Worth::Nothing) | (Worth::Null, Worth::Null) => true,
        (Worth::Flag(a), Worth::Flag(b)) => a == b,
        (Worth::Int(a), Worth::Int(b)) => a == b,
        (Worth::Text(a), Worth::Text(b)) => a == b,
        _ => false,
    }
}

fn int_of(worth: Worth) -> Option<i128>
    ensures { result ≡ option_and_then int_in (worth_seen worth.entry) }
{
    match worth {
        Worth::Int(n) => Some(n),
        Worth::Tree(tree) => tree.as_int(),
        _ => None,
    }
}

fn tree_text(tree: &Json) -> Option<&str>
    ensures { option_copied result ≡ text_in tree.now }
{
    match tree {
        Json::Text(text) => Some(text.as_str()),
        _ => None,
    }
}

/// The text, where the value is one.
pub fn text_of<'a>(worth: Worth<'a>) -> Option<&'a str>
    ensures { option_copied result ≡ option_and_then text_in (worth_seen worth.entry) }
{
    match worth {
        Worth::Text(text) => Some(text),
        Worth::Tree(tree) => tree_text(tree),
        _ => None,
    }
}

fn is_less_int(left: Option<i128>, right: Option<i128>) -> bool
    ensures { result ≡ int_less left right }
{
    match (left, right) {
        (Some(a), Some(b)) => a < b,
        _ => false,
    }
}

fn is_less_text(left: Option<&str>, right: Option<&str>) -> bool
    ensures { result ≡ text_less (option_copied left.entry) (option_copied right.entry) }
{
    match (left, right) {
        (Some(a), Some(b)) => a < b,
        _ => false,
    }
}

/// Whether one value is before another (RFC 9535, section 2.3.5.2.2).
fn is_less(left: Worth, right: Worth) -> bool
    ensures { result ≡ less (worth_seen left.entry) (worth_seen right.entry) }
{
    is_less_int(int_of(left), int_of(right)) || is_less_text(text_of(left), text_of(right))
}

/// What a comparison says of two values.
pub fn compare(left: Worth, comparison: Comparison, right: Worth) -> bool
    ensures { result ≡ compared comparison (worth_seen left.entry) (worth_seen right.entry) }
{
    match comparison {
        Comparison::Equal => is_equal(left, right),
        Comparison::Unequal => !is_equal(left, right),
        Comparison::Less => is_less(left, right),
        Comparison::LessOrEqual => is_less(left, right) || is_equal(left, right),
        Comparison::Greater => is_less(right, left),
        Comparison::GreaterOrEqual => is_less(right, left) || is_equal(left, right),
    }
}

fn characters_in(text: &str) -> usize
    ensures { result ≡ count_characters text.now }
{
    text.chars().count()
}

fn tree_length(tree: &Json) -> Worth<'_>
    ensures { worth_seen result ≡ length_value tree.now }
{
    match tree {
        Json::Text(text) => Worth::Int(characters_in(text.as_str()) as i128),
        Json::List(items) => Worth::Int(items.len() as i128),
        Json::Object(members) => Worth::Int(members.len() as i128),
        _ => Worth::Nothing,
    }
}

/// The length of a value (RFC 9535, section 2.4.4).
pub fn length_of<'a>(worth: Worth<'a>) -> Worth<'a>
    ensures { worth_seen result ≡ length_in_filter (worth_seen worth.entry) }
{
    match worth {
        Worth::Text(text) => Worth::Int(characters_in(text) as i128),
        Worth::Tree(tree) => tree_length(tree),
        _ => Worth::Nothing,
    }
}
