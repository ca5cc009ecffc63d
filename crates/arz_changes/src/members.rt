// Members in the order of their names, from the front.
ghost use Rattle.std.specs.Prelude.{◌≡◌, ◌++◌, OnOk};
ghost use Rattle.arz_changes.specs.Members.{before, from, value_in_front, behind_front, PopsBefore};

use arz_json::{Json, Member};
use std::alloc::AllocError;
use std::cmp::Ordering;
use std::collections::VecDeque;

/// Moves the members whose names come before a name to the end of others.
pub fn move_before(
    name: &str,
    members: &mut VecDeque<Member>,
    moved: &mut Vec<Member>,
) -> Result<(), AllocError>
    ensures moved { OnOk result (moved.new.items ≡ moved.old.items ++ before name.now members.old.items) }
    ensures rest { OnOk result (members.new.items ≡ from name.now members.old.items) }
{
    while let Some(member) = pop_before(name, members) {
        moved.push(member)?;
    }
    Ok(())
}

// The first member, where its name comes before a name.
fn pop_before(name: &str, members: &mut VecDeque<Member>) -> Option<Member>
    ensures { PopsBefore name.now members.old.items result members.new.items }
{
    let first = members.front()?;
    if name.cmp(&first.name.as_str()) == Ordering::Greater {
        return members.pop_front();
    }
    None
}

/// Takes the first member away, where it has the name, and gives its value.
pub fn take_named(name: &str, members: &mut VecDeque<Member>) -> Option<Json>
    ensures value { result ≡ value_in_front name.now members.old.items }
    ensures rest { members.new.items ≡ behind_front name.now members.old.items }
{
    let first = members.front()?;
    if first.name.as_str() != name {
        return None;
    }
    let member = members.pop_front()?;
    Some(member.value)
}
