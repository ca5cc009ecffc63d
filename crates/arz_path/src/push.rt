// Putting the children that a selector without a test selects at the end of a list of nodes.
ghost use Rattle.std.specs.Prelude.{◌≡◌, ◌≤◌, [], ◌∷◌, ◌++◌, length, map, filter, OnOk};
ghost use Rattle.arz_json.specs.Answer.{Gives};
ghost use Rattle.arz_path.specs.Tree.{children, items_of as items_in_tree, members_of as members_in_tree, member_child};
ghost use Rattle.arz_path.specs.Selected.{widest, is_name, indexed, sliced};
ghost use Rattle.arz_path.specs.Spots.{within, spots_below};
ghost use Rattle.arz_path.specs.Results.{cause};
ghost use Rattle.arz_path.specs.Seen.{seen, branch_of, way};

use crate::SelectFault;
use crate::children::Children;
use crate::nodes::{Branch, Held, Step, further, item_at, items_of, members_of};
use crate::pick::{index_of, slice_of};
use crate::walk::Walk;
use arz_query::Slice;
use bumpalo::Bump;
use std::alloc::Global;

/// The longest list of nodes.
const WIDEST: usize = 1_000_000;

/// One more node: a child of the node where a walk stands.
pub fn add_child<'t, 'a>(
    bump: &'t Bump,
    walk: &mut Walk<'t, 'a>,
    child: Branch<'a>,
    out: &mut Vec<Held<'t, 'a>>,
) -> Result<(), SelectFault>
    requires { length out.old.items ≤ widest }
    ensures gives { Gives (λ _. map seen out.new.items) cause result
        (within (map seen out.old.items ++ spots_below (way walk.old).0 (branch_of child.entry ∷ []))) }
    ensures same { OnOk result (way walk.new ≡ way walk.old) }
    ensures room { length out.new.items ≤ widest }
{
    if out.len() >= WIDEST {
        return Err(SelectFault::TooWide);
    }
    let above = walk.trail(bump)?;
    let trail = further(bump, above, child.step)?;
    let value = child.value;
    out.push(Held { trail, value })?;
    Ok(())
}

/// Children of the node where a walk stands, in order. It stops where the list would be too long.
#[tactic(auto, using(crate::proofs::Growth::within_step, crate::proofs::Growth::within_stop, crate::proofs::Growth::within_none))]
fn add_all<'t, 'a>(
    bump: &'t Bump,
    walk: &mut Walk<'t, 'a>,
    children: &[Branch<'a>],
    out: &mut Vec<Held<'t, 'a>>,
) -> Result<(), SelectFault>
    requires { length out.old.items ≤ widest }
    ensures gives { Gives (λ _. map seen out.new.items) cause result
        (within (map seen out.old.items ++ spots_below (way walk.old).0 (map branch_of children.now))) }
    ensures same { OnOk result (way walk.new ≡ way walk.old) }
    ensures room { length out.new.items ≤ widest }
{
    for child in children {
        add_child(bump, walk, *child, out)?;
    }
    Ok(())
}

/// All children of the node where a walk stands (RFC 9535, section 2.3.2).
#[tactic(auto, using(crate::proofs::Growth::within_step, crate::proofs::Growth::within_stop, crate::proofs::Growth::within_none))]
pub fn add_children<'t, 'a>(
    bump: &'t Bump,
    walk: &mut Walk<'t, 'a>,
    out: &mut Vec<Held<'t, 'a>>,
) -> Result<(), SelectFault>
    requires { length out.old.items ≤ widest }
    ensures gives { Gives (λ _. map seen out.new.items) cause result
        (within (map seen out.old.items ++ spots_below (way walk.old).0 (children (way walk.old).0.1))) }
    ensures same { OnOk result (way walk.new ≡ way walk.old) }
    ensures room { length out.new.items ≤ widest }
{
    let mut children = Children::of(walk.value());
    'children: while let Some(child) = children.next() {
        add_child(bump, walk, child, out)?;
    }
    Ok(())
}

/// The members of the node where a walk stands that have a name (2.3.1).
#[tactic(auto, using(crate::proofs::Growth::within_step, crate::proofs::Growth::within_stop, crate::proofs::Growth::within_none))]
pub fn add_named<'t, 'a>(
    name: &str,
    bump: &'t Bump,
    walk: &mut Walk<'t, 'a>,
    out: &mut Vec<Held<'t, 'a>>,
) -> Result<(), SelectFault>
    requires { length out.old.items ≤ widest }
    ensures gives { Gives (λ _. map seen out.new.items) cause result
        (within (map seen out.old.items ++ spots_below (way walk.old).0 (filter (λ c. is_name name.now c.0) (map member_child (members_in_tree (way walk.old).0.1))))) }
    ensures same { OnOk result (way walk.new ≡ way walk.old) }
    ensures room { length out.new.items ≤ widest }
{
    for member in members_of(walk.value()) {
        if member.name.as_str() != name {
            continue;
        }
        let step = Step::Name(&member.name);
        let value = &member.value;
        add_child(bump, walk, Branch { step, value }, out)?;
    }
    Ok(())
}

/// The item at an index of the node where a walk stands (2.3.3).
#[tactic(auto, using(crate::proofs::Growth::within_none))]
pub fn add_item<'t, 'a>(
    i: i64,
    bump: &'t Bump,
    walk: &mut Walk<'t, 'a>,
    out: &mut Vec<Held<'t, 'a>>,
) -> Result<(), SelectFault>
    requires { length out.old.items ≤ widest }
    ensures gives { Gives (λ _. map seen out.new.items) cause result
        (within (map seen out.old.items ++ spots_below (way walk.old).0 (indexed i (items_in_tree (way walk.old).0.1)))) }
    ensures same { OnOk result (way walk.new ≡ way walk.old) }
    ensures room { length out.new.items ≤ widest }
{
    let items = items_of(walk.value());
    let at = index_of(items.len(), i);
    let Some(value) = item_at(items, at) else {
        return Ok(());
    };
    let step = Step::Index(at as u64);
    add_child(bump, walk, Branch { step, value }, out)
}

/// The items that a slice takes of the node where a walk stands (2.3.4).
pub fn add_slice<'t, 'a>(
    slice: &Slice,
    alloc: Global,
    bump: &'t Bump,
    walk: &mut Walk<'t, 'a>,
    out: &mut Vec<Held<'t, 'a>>,
) -> Result<(), SelectFault>
    requires { length out.old.items ≤ widest }
    ensures gives { Gives (λ _. map seen out.new.items) cause result
        (within (map seen out.old.items ++ spots_below (way walk.old).0 (sliced slice.now (items_in_tree (way walk.old).0.1)))) }
    ensures same { OnOk result (way walk.new ≡ way walk.old) }
    ensures room { length out.new.items ≤ widest }
{
    let children = slice_of(alloc, slice, items_of(walk.value()))?;
    add_all(bump, walk, children.as_slice(), out)
}
