// How long spellings are.
ghost use Rattle.std.specs.Prelude.{◌≡◌, ◌≤◌, ◌^◌, ◌+◌, ℕ, pos, ◌≤ℤ◌, length, IfSome, IfNone};
ghost use Rattle.arz_wire.specs.Spelling.{spelling, number, integer, counted, spellings, member_spellings};

use arz_json::{Json, Many, Members};

/// How many bytes a number takes.
pub fn number_length(n: u64) -> u64
    ensures exact { result ≡ length (number n) }
    ensures short { result ≤ 10 }
{
    let mut rest = n;
    let mut bytes = 1;
    while rest >= 128 {
        rest /= 128;
        bytes += 1;
    }
    bytes
}

// Past 64 bits a number takes ten bytes.
fn magnitude_length(n: i128) -> u64
    requires { pos 0 ≤ℤ n }
    ensures exact { (m : ℕ) → n ≡ pos m → result ≡ length (number m) }
    ensures short { result ≤ 10 }
{
    if n >= 18_446_744_073_709_551_616 {
        return 10;
    }
    number_length(n as u64)
}

fn integer_length(n: i128) -> u64
    ensures { result ≡ length (integer n) }
{
    let size = if n < 0 { -1 - n } else { n };
    1 + magnitude_length(size)
}

fn counted_length(bytes: &str) -> Option<u64>
    ensures some { IfSome result (λ n. n ≡ length (counted bytes.now)) }
    ensures none { IfNone result (2 ^ 64 ≤ length (counted bytes.now)) }
{
    let len = bytes.len() as u64;
    number_length(len).checked_add(len)
}

/// How many bytes the spelling of a tree has, or None where they are 2^64 or more. It takes no memory.
#[cycle(measure)]
pub fn tree_length(value: &Json) -> Option<u64>
    ensures some { IfSome result (λ n. n ≡ length (spelling value.now)) }
    ensures none { IfNone result (2 ^ 64 ≤ length (spelling value.now)) }
{
    match value {
        Json::Null | Json::Flag(_) | Json::Opaque => Some(1),
        Json::Int(n) => Some(integer_length(*n)),
        Json::Text(text) => counted_length(text.as_str())?.checked_add(1),
        Json::List(items) => items_length(items),
        Json::Object(members) => members_length(members),
    }
}

#[cycle(measure)]
fn items_length(items: &Many<Json>) -> Option<u64>
    ensures some { IfSome result (λ n. n ≡ 1 + length (number (length items.now)) + length (spellings items.now)) }
    ensures none { IfNone result (2 ^ 64 ≤ 1 + length (number (length items.now)) + length (spellings items.now)) }
{
    let mut total = 1 + number_length(items.len() as u64);
    for item in items.as_slice() {
        total = total.checked_add(tree_length(item)?)?;
    }
    Some(total)
}

#[cycle(measure)]
fn members_length(members: &Members) -> Option<u64>
    ensures some { IfSome result (λ n. n ≡ 1 + length (number (length members.now)) + length (member_spellings members.now)) }
    ensures none { IfNone result (2 ^ 64 ≤ 1 + length (number (length members.now)) + length (member_spellings members.now)) }
{
    let mut total = 1 + number_length(members.len() as u64);
    for member in members.as_slice() {
        total = total.checked_add(counted_length(member.name.as_str())?)?;
        total = total.checked_add(tree_length(&member.value)?)?;
    }
    Some(total)
}
