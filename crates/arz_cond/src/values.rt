// Values in conditions.
ghost use Rattle.std.specs.Prelude.{◌≡◌, Some};
ghost use Rattle.std.specs.Option.{option_copied};
ghost use Rattle.arz_cond.specs.Meaning.{is_true as is_true_value, literal_value};
ghost use Rattle.arz_cond.specs.Seen.{worth_seen, IsPlain};

use crate::term::Literal;
use arz_json::Json;

/// A value in a condition. A `Tree` is a list or an object.
#[derive(Clone, Copy)]
pub enum Worth<'a> {
    Absent,
    Null,
    Flag(bool),
    Int(i128),
    Text(&'a str),
    Tree(&'a Json),
    Opaque,
}

fn worth_of_tree<'a>(tree: &'a Json) -> Worth<'a>
    ensures seen { worth_seen result ≡ Some tree.now }
    ensures plain { IsPlain result }
{
    match tree {
        Json::Null => Worth::Null,
        Json::Flag(b) => Worth::Flag(*b),
        Json::Int(n) => Worth::Int(*n),
        Json::Text(text) => Worth::Text(text.as_str()),
        Json::List(_) | Json::Object(_) => Worth::Tree(tree),
        Json::Opaque => Worth::Opaque,
    }
}

/// The value that an expression stands for, or that there is none.
pub fn worth_of<'a>(found: Option<&'a Json>) -> Worth<'a>
    ensures seen { worth_seen result ≡ option_copied found.entry }
    ensures plain { IsPlain result }
{
    match found {
        Some(tree) => worth_of_tree(tree),
        None => Worth::Absent,
    }
}

/// The value of a literal.
pub fn worth_of_literal<'a>(literal: &'a Literal) -> Worth<'a>
    ensures seen { worth_seen result ≡ Some (literal_value literal.now) }
    ensures plain { IsPlain result }
{
    match literal {
        Literal::Null => Worth::Null,
        Literal::Flag(b) => Worth::Flag(*b),
        Literal::Int(n) => Worth::Int(*n),
        Literal::Text(text) => Worth::Text(text.as_str()),
    }
}

/// Whether a value is the flag `true`.
pub fn is_true(worth: Worth) -> bool
    requires { IsPlain worth }
    ensures { result ≡ is_true_value (worth_seen worth.entry) }
{
    match worth {
        Worth::Flag(b) => b,
        _ => false,
    }
}
