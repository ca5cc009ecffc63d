// Comparing values.
ghost use Rattle.std.specs.Prelude.{◌≡◌, ◌||◌, true, Some, IfOk, codes};
ghost use Rattle.std.specs.List.{list_all};
ghost use Rattle.std.specs.Char.{is_ascii_digit};
ghost use Rattle.std.specs.Option.{option_copied};
ghost use Rattle.arz_expr.specs.Reading.{after};
ghost use Rattle.arz_path.specs.Values.{is_same};
ghost use Rattle.arz_cond.specs.Comparing.{same_text, less_text, is_numeral as is_numeral_text, numeral_in, negated as negated_in, integer_in, ints as ints_row, row, equals, has_order as has_order_in, less, greater, ties, compared};
ghost use Rattle.arz_cond.specs.Seen.{worth_seen, is_branch, IsPlain, pair_seen};

use crate::term::Comparison;
use crate::values::Worth;
use arz_json::{Json, same};
use caseless::{default_case_fold_str, default_caseless_match_str};
use std::alloc::{AllocError, Global};

/// Two values that compare, by their kinds.
#[derive(Clone, Copy)]
pub enum Pair<'a> {
    Nulls,
    Flags(bool, bool),
    Ints(i128, i128),
    Texts(&'a str, &'a str),
    /// Two lists, or two objects.
    Trees(&'a Json, &'a Json),
    Unlike,
}

fn is_numeral(digits: &str) -> bool
    ensures { result ≡ is_numeral_text digits.now }
{
    let bytes = digits.as_bytes();
    !bytes.is_empty() && all_digits(bytes) && (bytes.len() == 1 || bytes[0] != b'0')
}

fn all_digits(bytes: &[u8]) -> bool
    ensures { result ≡ list_all is_ascii_digit bytes.now }
{
    bytes.iter().all(|b| b.is_ascii_digit())
}

#[tactic(auto, unfolding(crate::specs::Comparing::numeral_in))]
fn numeral(digits: &str) -> Option<u64>
    ensures { result ≡ numeral_in digits.now }
{
    if !is_numeral(digits) {
        return None;
    }
    digits.parse().ok()
}

fn negated(n: u64) -> Option<i128>
    ensures { result ≡ negated_in n }
{
    if n <= 1 << 63 {
        Some(-i128::from(n))
    } else {
        None
    }
}

fn after_minus(text: &str) -> Option<&str>
    ensures { option_copied result ≡ after (codes "-") text.now }
{
    text.strip_prefix("-")
}

/// The integer in 64 bits that a text is.
#[tactic(auto, unfolding(crate::specs::Comparing::integer_in))]
fn integer(text: &str) -> Option<i128>
    ensures { result ≡ integer_in text.now }
{
    match after_minus(text) {
        Some(digits) => negated(numeral(digits)?),
        None => Some(i128::from(numeral(text)?)),
    }
}

fn ints<'a>(left: Option<i128>, right: Option<i128>) -> Pair<'a>
    ensures { pair_seen result ≡ ints_row left right }
{
    match (left, right) {
        (Some(y), Some(z)) => Pair::Ints(y, z),
        _ => Pair::Unlike,
    }
}

fn trees<'a>(left: &'a Json, right: &'a Json) -> Pair<'a>
    requires left { is_branch left.now ≡ true }
    requires right { is_branch right.now ≡ true }
    ensures { pair_seen result ≡ row (Some left.now) (Some right.now) }
{
    match (left, right) {
        (Json::List(_), Json::List(_)) => Pair::Trees(left, right),
        (Json::Object(_), Json::Object(_)) => Pair::Trees(left, right),
        _ => Pair::Unlike,
    }
}

fn pair_of<'a>(left: Worth<'a>, right: Worth<'a>) -> Pair<'a>
    requires left { IsPlain left }
    requires right { IsPlain right }
    ensures { pair_seen result ≡ row (worth_seen left.entry) (worth_seen right.entry) }
{
    match (left, right) {
        (Worth::Null, Worth::Null) => Pair::Nulls,
        (Worth::Flag(b), Worth::Flag(c)) => Pair::Flags(b, c),
        (Worth::Int(y), Worth::Int(z)) => Pair::Ints(y, z),
        (Worth::Text(s), Worth::Text(t)) => Pair::Texts(s, t),
        (Worth::Int(y), Worth::Text(t)) => ints(Some(y), integer(t)),
        (Worth::Text(s), Worth::Int(z)) => ints(integer(s), Some(z)),
        (Worth::Tree(j), Worth::Tree(k)) => trees(j, k),
        _ => Pair::Unlike,
    }
}

#[tactic(auto, using(arz_path::proofs::Equality::is_same_if, arz_path::proofs::Equality::only_if_same))]
fn is_same_tree(left: &Json, right: &Json) -> bool
    ensures { result ≡ is_same left.now right.now }
{
    same(left, right)
}

#[tactic(auto, using(crate::proofs::Texts::same_text_if, crate::proofs::Texts::only_if_same_text))]
fn is_same_text(left: &str, right: &str) -> bool
    ensures { result ≡ same_text left.now right.now }
{
    default_caseless_match_str(left, right)
}

#[tactic(auto, unfolding(crate::specs::Comparing::less_text))]
fn is_less_text(alloc: Global, left: &str, right: &str) -> Result<bool, AllocError>
    ensures { IfOk result (λ b. b ≡ less_text left.now right.now) }
{
    let left = default_case_fold_str(alloc, left)?;
    let right = default_case_fold_str(alloc, right)?;
    Ok(left.as_str() < right.as_str())
}

fn is_equal(pair: Pair) -> bool
    ensures { result ≡ equals (pair_seen pair.entry) }
{
    match pair {
        Pair::Nulls => true,
        Pair::Flags(b, c) => b == c,
        Pair::Ints(y, z) => y == z,
        Pair::Texts(s, t) => is_same_text(s, t),
        Pair::Trees(j, k) => is_same_tree(j, k),
        Pair::Unlike => false,
    }
}

fn has_order(pair: Pair) -> bool
    ensures { result ≡ has_order_in (pair_seen pair.entry) }
{
    matches!(pair, Pair::Ints(_, _) | Pair::Texts(_, _))
}

fn is_tie(pair: Pair) -> bool
    ensures { result ≡ ties (pair_seen pair.entry) }
{
    has_order(pair) && is_equal(pair)
}

fn is_less(alloc: Global, pair: Pair) -> Result<bool, AllocError>
    ensures { IfOk result (λ b. b ≡ less (pair_seen pair.entry)) }
{
    match pair {
        Pair::Ints(y, z) => Ok(y < z),
        Pair::Texts(s, t) => is_less_text(alloc, s, t),
        _ => Ok(false),
    }
}

fn is_greater(alloc: Global, pair: Pair) -> Result<bool, AllocError>
    ensures { IfOk result (λ b. b ≡ greater (pair_seen pair.entry)) }
{
    match pair {
        Pair::Ints(y, z) => Ok(z < y),
        Pair::Texts(s, t) => is_less_text(alloc, t, s),
        _ => Ok(false),
    }
}

fn is_at_most(alloc: Global, pair: Pair) -> Result<bool, AllocError>
    ensures { IfOk result (λ b. b ≡ (ties (pair_seen pair.entry) || less (pair_seen pair.entry))) }
{
    if is_tie(pair) {
        return Ok(true);
    }
    is_less(alloc, pair)
}

fn is_at_least(alloc: Global, pair: Pair) -> Result<bool, AllocError>
    ensures { IfOk result (λ b. b ≡ (ties (pair_seen pair.entry) || greater (pair_seen pair.entry))) }
{
    if is_tie(pair) {
        return Ok(true);
    }
    is_greater(alloc, pair)
}

/// What a comparison says of two values.
pub fn compare(
    alloc: Global,
    left: Worth,
    comparison: Comparison,
    right: Worth,
) -> Result<bool, AllocError>
    requires left { IsPlain left }
    requires right { IsPlain right }
    ensures { IfOk result (λ b. b ≡ compared comparison (row (worth_seen left.entry) (worth_seen right.entry))) }
{
    let pair = pair_of(left, right);
    match comparison {
        Comparison::Equal => Ok(is_equal(pair)),
        Comparison::Unequal => Ok(!is_equal(pair)),
        Comparison::Less => is_less(alloc, pair),
        Comparison::LessOrEqual => is_at_most(alloc, pair),
        Comparison::Greater => is_greater(alloc, pair),
        Comparison::GreaterOrEqual => is_at_least(alloc, pair),
    }
}
