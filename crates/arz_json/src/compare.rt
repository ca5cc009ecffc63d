ghost use Rattle.std.specs.Prelude.{◌↔◌, IsTrue};
ghost use Rattle.arz_json.specs.Tree.{IsSame, AreSame, HaveSame};

use crate::many::Many;
use crate::tree::{Json, Members};

/// Whether both are one tree, by kind and content. An `Opaque` equals nothing, not even an `Opaque`. It
/// takes no memory.
#[cycle(same)]
pub fn same(left: &Json, right: &Json) -> bool
    ensures { IsTrue result ↔ IsSame left.now right.now }
{
    match (left, right) {
        (Json::Null, Json::Null) => true,
        (Json::Flag(a), Json::Flag(b)) => *a == *b,
        (Json::Int(a), Json::Int(b)) => *a == *b,
        (Json::Text(a), Json::Text(b)) => a.as_str() == b.as_str(),
        (Json::List(a), Json::List(b)) => same_items(a, b),
        (Json::Object(a), Json::Object(b)) => same_members(a, b),
        _ => false,
    }
}

#[cycle(same)]
fn same_items(left: &Many<Json>, right: &Many<Json>) -> bool
    ensures { IsTrue result ↔ AreSame left.now right.now }
{
    if left.len() != right.len() {
        return false;
    }
    let others = right.as_slice();
    for (i, a) in left.as_slice().iter().enumerate() {
        if !same(a, &others[i]) {
            return false;
        }
    }
    true
}

#[cycle(same)]
fn same_members(left: &Members, right: &Members) -> bool
    ensures { IsTrue result ↔ HaveSame left.now right.now }
{
    if left.len() != right.len() {
        return false;
    }
    let others = right.as_slice();
    for (i, a) in left.as_slice().iter().enumerate() {
        let b = &others[i];
        if a.name.as_str() != b.name.as_str() || !same(&a.value, &b.value) {
            return false;
        }
    }
    true
}
