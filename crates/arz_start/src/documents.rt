// Source documents by their names.
ghost use Rattle.std.specs.Prelude.{◌≡◌, [], map, IfOk};
ghost use Rattle.arz_start.specs.StartTree.{documents as documents_of, entered, seen_entry, seen_member};

use arz_json::{Json, Many, Member, Members, Named, Text, copy};
use std::alloc::{AllocError, Global};
use std::collections::BTreeMap;

/// The documents of these sources, as an object's members: in the byte order of their names.
pub(crate) fn documents(alloc: Global, sources: &[Named]) -> Result<Members, AllocError>
    ensures { IfOk result (λ ms. ms ≡ documents_of sources.now) }
{
    let found = by_name(alloc, sources)?;
    copied(alloc, found)
}

/// Documents by their names, in byte order.
pub(crate) type ByName<'a> = BTreeMap<&'a str, &'a Json>;

/// The documents of these sources by their names; of two with one name the last.
pub(crate) fn by_name<'a>(alloc: Global, sources: &'a [Named]) -> Result<ByName<'a>, AllocError>
    ensures { IfOk result (λ found. map seen_entry found.entries ≡ entered [] sources.now) }
{
    let mut found = BTreeMap::new(alloc);
    for source in sources {
        found.insert(source.name.as_str(), &source.root)?;
    }
    Ok(found)
}

fn copied(alloc: Global, found: ByName<'_>) -> Result<Members, AllocError>
    ensures { IfOk result (λ ms. ms ≡ map seen_member (map seen_entry found.entry.entries)) }
{
    let mut members = Vec::with_capacity(alloc, found.len())?;
    for (name, root) in found {
        members.push(Member {
            name: Text::from_str(alloc, name)?,
            value: copy(alloc, root)?,
        })?;
    }
    Ok(Many::from_std(members))
}
